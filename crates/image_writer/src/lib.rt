// The image of a version, written into a lent buffer.
#![tactic(auto)]

mod lengths;
mod nodes;
mod putting;
mod saving;

pub use saving::save;
