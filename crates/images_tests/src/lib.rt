// Images byte by byte: what versions are saved as and loaded from, and what each cut or changed image is refused with.
#![tactic(auto)]

#[cfg(test)]
mod asserting;
#[cfg(test)]
mod changed;
#[cfg(test)]
mod compared;
#[cfg(test)]
mod cut;
#[cfg(test)]
mod examples;
#[cfg(test)]
mod loaded;
#[cfg(test)]
mod round_trips;
