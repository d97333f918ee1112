// The two tables of a store over lent slices: cells taken, held and given back.
#![tactic(auto)]

mod both;
mod bridges;
mod cells;
mod entries;
mod freeing;
mod nodes;
mod slots;
mod starting;
mod table;

pub use both::Tables;
pub use bridges::tables_stand;
pub use cells::{EntryCell, EntryId, NodeCell, NodeId};
pub use entries::{EntryTable, entry_cell_at, hold_entry, make_entry, release_entry};
pub use freeing::release;
pub use nodes::{NodeTable, hold_node, make_node};
pub use slots::{Digit, child_at, child_by_rank, entry_at, entry_by_rank, has_digit};
pub use starting::start;
