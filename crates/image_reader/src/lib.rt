// The reader of images: a whole image is judged, and refused at its first faulty command; one that
// was judged is read command by command.
#![tactic(auto)]

mod due;
mod entries;
mod judging;
mod nodes;
mod operands;
mod prefix;
mod reader;

pub use judging::judge;
pub use operands::{read_maps, read_setting};
pub use reader::Reader;
