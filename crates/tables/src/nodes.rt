// The node table.
ghost use Rattle.std.specs.Prelude.{◌≡◌, ℕ, ◌<◌, ◌≤◌, List, [], ◌∷◌, ◌++◌, length};
ghost use Rattle.tables.specs.Seen.{NodesOf, NodeIsHeld, NodeIsMade, NodesAreReleased};
ghost use Rattle.tables.specs.Chains.{occ};
ghost use Rattle.tables.specs.Cells.{cell, kids};
ghost use Rattle.tables.specs.Heaps.{Nodes, Entryless, inner_entries};

use super::cells::{Cell, NodeCell, NodeId};
use super::table::{Table, format};
use model::MOST_CELLS;

pub type NodeTable<'a> = Table<'a, NodeCell>;

// Makes every cell free, chained from the first to the last.
pub(crate) fn format_nodes(cells: &mut [NodeCell])
    requires { length cells.old ≤ MOST_CELLS }
    ensures long { length cells.new ≡ length cells.old }
    ensures nodes { Nodes cells.new 0 (length cells.new) [] }
    ensures entryless { Entryless cells.new }
    ensures unreferred { (e : ℕ) → inner_entries e cells.new ≡ 0 }
{
    format(cells, NodeCell::empty());
}

// One more holder of a node. Its count cannot overflow: it is at most the references from outside and 16 for each cell.
pub fn hold_node(nodes: &mut NodeTable, id: NodeId)
    requires held { 0 < (cell nodes.old.cells.now id.0).holders }
    requires heap { (R : List ℕ) × (NodesOf nodes.old R × (length R ≤ MOST_CELLS)) }
    ensures { NodeIsHeld id.0 nodes.old nodes.new }
{
    nodes.hold(id.0 as usize);
}

// A new node in a free cell, with one holder, whatever holders and next cell `new` names; it takes over one holder of each of its children and entries.
pub fn make_node(nodes: &mut NodeTable, new: NodeCell) -> NodeId
    requires some { 0 < nodes.old.spare }
    requires heap { (R : List ℕ) × NodesOf nodes.old (kids new ++ R) }
    requires below { (k : ℕ) → 0 < occ k (kids new) → (cell nodes.old.cells.now k).level < new.level }
    ensures { NodeIsMade result.0 (record { datamap = new.datamap; nodemap = new.nodemap; entries = new.entries; children = new.children; holders = 1; next = 0; level = new.level }) nodes.old nodes.new }
{
    NodeId(nodes.take(new.with(1, 0)))
}

// Gives up one holder of a node: without any left, the cell goes to the chain and its children are released.
// A recursion over node numbers and holder counts, not generic; the level falls.
pub(crate) fn release_nodes(nodes: &mut NodeTable, id: NodeId)
    requires { (R : List ℕ) × NodesOf nodes.old (id.0 ∷ R) }
    ensures { NodesAreReleased (id.0 ∷ []) nodes.old nodes.new }
{
    let old = nodes.cells[id.0 as usize];
    if nodes.let_go(id.0) {
        for child in old.kids() {
            release_nodes(nodes, NodeId(*child));
        }
    }
}
