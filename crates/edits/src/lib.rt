// Edits of a version: what an edit would take, and the edit itself.
#![tactic(auto)]

mod estimate;
mod estimating;
mod rows;
mod setting;

pub use estimate::Estimate;
pub use estimating::estimate_set;
pub use rows::{as_node, split_row};
pub use setting::set;
