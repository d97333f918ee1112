// The settings store: versions of maps at 64 places, over two lent tables.
#![tactic(auto)]

mod asking;
mod calls;
mod draft;
mod editing;
mod ending;
mod loading;
mod merging;
mod opening;
mod roots;
mod running;
mod setting;
mod spot;
mod starting;
mod stepping;
mod store;

pub use calls::{Answer, Call};
pub use draft::Draft;
pub use running::{Finished, run};
pub use spot::Spot;
pub use starting::{NotStarted, start};
pub use store::Store;
