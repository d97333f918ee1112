// Merging three branches into one: what it would take, and the merge itself. A union is a merge over nothing.
#![tactic(auto)]

mod choices;
mod chosen;
mod estimating;
mod merging;
mod rows;

pub use estimating::estimate_merge;
pub use merging::merge;
