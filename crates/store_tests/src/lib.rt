// The store's calls, made on worked examples.
#![tactic(auto)]

#[cfg(test)]
mod asserting;
#[cfg(test)]
mod edited;
#[cfg(test)]
mod merged;
#[cfg(test)]
mod runs;
#[cfg(test)]
mod united;
