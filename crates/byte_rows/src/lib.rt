// Rows of bytes: compared, written into a lent row, read as numbers; printable texts, their filling and their hash.
#![tactic(auto)]

mod reads;
mod rows;
mod texts;

pub use reads::{read_stamped, read_u32};
pub use rows::{compare_rows, same_rows, write_row};
pub use texts::{fill_row, fnv1a, is_text, is_text_row, text};
