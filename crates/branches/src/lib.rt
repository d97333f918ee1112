// Branches: parts of maps in the two tables, read digit by digit and built anew.
#![tactic(auto)]

mod asking;
mod assembling;
mod branch;
mod comparing;
mod keeping;
mod reading;

pub use asking::{count, look_up};
pub use assembling::{assemble, empty_handed, take_next, take_up};
pub use branch::Branch;
pub use comparing::same_part;
pub use keeping::keep;
pub use reading::{at_digit, digit_of, setting_of};
