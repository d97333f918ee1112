// A new store.
ghost use Rattle.std.specs.Prelude.{◌≡◌, List, IfErr};
ghost use Rattle.tables.specs.declared.cells.NodeCell.{NodeCell};
ghost use Rattle.tables.specs.declared.cells.EntryCell.{EntryCell};
ghost use Rattle.tables.specs.Starts.{Formatted};
ghost use Rattle.store.specs.Fresh.{new_state};
ghost use Rattle.store.specs.Starts.{New, SameSlices};

use super::spot::Spot;
use super::store::Store;
use kinds::{Key, Refusal, Value};
use model::PLACES;
use tables::{EntryCell, EntryTable, NodeCell, NodeTable, Tables};

// What a start that is refused gives back: the two tables as they were, and why.
#[derive(Drop)]
pub struct NotStarted<'a, K, V> {
    pub nodes: &'a mut [NodeCell],
    pub entries: &'a mut [EntryCell<K, V>],
    pub refusal: Refusal,
}

impl<'a, K: Key, V: Value> Store<'a, K, V> {
    // A store over two tables whose cells were just made free.
    pub(crate) fn over(
        nodes: &'a mut [NodeCell],
        entries: &'a mut [EntryCell<K, V>],
    ) -> Store<'a, K, V>
        requires { (cs : List NodeCell) × ((es : List (EntryCell K V)) × Formatted cs nodes.old es entries.old) }
        ensures { result ≡ new_state nodes.old entries.old }
    {
        let spare = nodes.len();
        let entry_spare = entries.len();
        Store {
            tables: Tables {
                nodes: NodeTable {
                    cells: nodes,
                    free: 0,
                    spare,
                },
                entries: EntryTable {
                    cells: entries,
                    free: 0,
                    spare: entry_spare,
                },
            },
            places: [Spot::Empty; PLACES],
        }
    }
}

impl<'a, K: Key, V: Value> Store<'a, K, V> {
    // The cells of its two tables, as its calls left them.
    pub(crate) fn into_cells(self) -> (&'a mut [NodeCell], &'a mut [EntryCell<K, V>])
        ensures nodes { result.0.now ≡ self.entry.tables.nodes }
        ensures entries { result.1.now ≡ self.entry.tables.entries }
    {
        let Store { tables, places: _ } = self;
        let Tables { nodes, entries } = tables;
        let (node_cells, entry_cells) = (nodes.cells, entries.cells);
        (node_cells, entry_cells)
    }
}

// Starts a store over two lent tables: every place is empty, every cell free. A table of more than 65,535 cells is refused with 2, and the tables come back as they were.
pub fn start<'a, K: Key, V: Value>(
    nodes: &'a mut [NodeCell],
    entries: &'a mut [EntryCell<K, V>],
) -> Result<Store<'a, K, V>, NotStarted<'a, K, V>>
    ensures store { New K.kind V.kind K.bytes V.bytes nodes.old entries.old result }
    ensures same_slices { IfErr result (SameSlices nodes.entry entries.entry) }
{
    match tables::start(nodes, entries) {
        Ok(()) => Ok(Store::over(nodes, entries)),
        Err(refusal) => Err(NotStarted {
            nodes,
            entries,
            refusal,
        }),
    }
}
