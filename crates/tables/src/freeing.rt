// Giving up a version: its nodes, then the entries of the nodes that nobody holds any more.
ghost use Rattle.std.specs.Prelude.{◌≡◌, ℕ, ◌<◌, ◌≤◌, List, [], ◌∷◌, ◌++◌, length, count_ones};
ghost use Rattle.tables.specs.Seen.{NodesOf, EntriesOf, EntriesAreReleased, AreCleared, AreReleased, IsReleased};
ghost use Rattle.tables.specs.Cells.{cell, singles};
ghost use Rattle.tables.specs.Heaps.{Entryless};
ghost use Rattle.tables.specs.Walks.{walk};
ghost use Rattle.tables.specs.declared.cells.NodeCell.{NodeCell};

use super::both::Tables;
use super::cells::{EntryId, NodeCell, NodeId};
use super::entries::{EntryTable, release_entry};
use super::nodes::{NodeTable, release_nodes};

// Gives up one holder of each entry of a node.
fn release_entries_of<K: Copy, V: Copy>(entries: &mut EntryTable<K, V>, node: &NodeCell)
    requires { (cs : List NodeCell) × ((E : List ℕ) × EntriesOf cs entries.old (singles node.now ++ E)) }
    ensures { EntriesAreReleased (singles node.now) entries.old entries.new }
{
    for entry in node.singles() {
        release_entry(entries, EntryId(*entry));
    }
}

// Gives up the entries of the node in a cell, and tells the next cell of the chain.
fn clear_cell<K: Copy, V: Copy>(
    nodes: &mut NodeTable,
    entries: &mut EntryTable<K, V>,
    at: usize,
) -> u16
    requires inside { at < length nodes.old.cells.now }
    requires heap { (E : List ℕ) × EntriesOf nodes.old.cells.now entries.old E }
    ensures next { result ≡ (cell nodes.old.cells.now at).next }
    ensures chain { (nodes.new.free ≡ nodes.old.free) × (nodes.new.spare ≡ nodes.old.spare) }
    ensures cleared { AreCleared (at ∷ []) nodes.old entries.old nodes.new entries.new }
{
    let old = nodes.cells[at];
    nodes.cells[at] = NodeCell { datamap: 0, ..old };
    release_entries_of(entries, &old);
    old.next
}

// Gives up the entries of the first so many free cells.
fn clear_freed<K: Copy, V: Copy>(
    nodes: &mut NodeTable,
    entries: &mut EntryTable<K, V>,
    freed: usize,
)
    requires heap { (R : List ℕ) × (NodesOf nodes.old R × (freed ≤ nodes.old.spare)) }
    requires entries { (E : List ℕ) × EntriesOf nodes.old.cells.now entries.old E }
    ensures chain { (nodes.new.free ≡ nodes.old.free) × (nodes.new.spare ≡ nodes.old.spare) }
    ensures cleared { AreCleared (walk (λ i. (cell nodes.old.cells.now i).next) nodes.old.free freed) nodes.old entries.old nodes.new entries.new }
{
    let mut at = nodes.free;
    for _ in 0..freed {
        at = clear_cell(nodes, entries, at as usize);
    }
}

// Gives up one holder of a node. Every node and every entry that nobody holds any more goes to the free cells, down to the deepest level; whatever is still held stays as it was.
pub fn release<K: Copy, V: Copy>(nodes: &mut NodeTable, entries: &mut EntryTable<K, V>, id: NodeId)
    requires nodes { (R : List ℕ) × NodesOf nodes.old (id.0 ∷ R) }
    requires entries { (E : List ℕ) × EntriesOf nodes.old.cells.now entries.old E }
    requires entryless { Entryless nodes.old.cells.now }
    ensures { AreReleased id.0 nodes.old entries.old nodes.new entries.new }
{
    let before = nodes.spare;
    release_nodes(nodes, id);
    let freed = nodes.spare - before;
    clear_freed(nodes, entries, freed);
}

impl<'a, K: Copy, V: Copy> Tables<'a, K, V> {
    // The same of the two together.
    pub fn release(&mut self, id: NodeId)
        requires nodes { (R : List ℕ) × NodesOf self.old.nodes (id.0 ∷ R) }
        requires entries { (E : List ℕ) × EntriesOf self.old.nodes.cells.now self.old.entries E }
        requires entryless { Entryless self.old.nodes.cells.now }
        ensures { IsReleased id.0 self.old self.new }
    {
        release(&mut self.nodes, &mut self.entries, id);
    }
}
