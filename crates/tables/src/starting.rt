// Starting the two tables over lent slices.
ghost use Rattle.tables.specs.Starts.{Started};

use super::cells::{EntryCell, NodeCell};
use super::entries::format_entries;
use super::nodes::format_nodes;
use kinds::Refusal;
use model::MOST_CELLS;

// Makes every cell of both tables free: a `NodeTable` and an `EntryTable` over them begin with the first cell free, and as many spare as there are. A table of more than 65,535 cells is refused with 2, and both stay as they were.
pub fn start<K: Copy, V: Copy>(
    nodes: &mut [NodeCell],
    entries: &mut [EntryCell<K, V>],
) -> Result<(), Refusal>
    ensures { Started nodes.old nodes.new entries.old entries.new result }
{
    if nodes.len() > MOST_CELLS || entries.len() > MOST_CELLS {
        return Err(Refusal::TableTooLong);
    }
    format_nodes(nodes);
    format_entries(entries);
    Ok(())
}
