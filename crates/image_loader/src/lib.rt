// An image that was judged, as a version in new cells: how many it takes, and building it.
#![tactic(auto)]

mod counting;
mod heads;
mod loading;

pub use counting::count_cells;
pub use loading::load;
