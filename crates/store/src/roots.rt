// The roots of versions: held, and given up.
ghost use Rattle.std.specs.Prelude.{ℕ, ◌≤◌, List, ◌++◌, length};
ghost use Rattle.tables.specs.Seen.{NodesOf, EntriesOf};
ghost use Rattle.tables.specs.Heaps.{Entryless};
ghost use Rattle.branches.specs.Branches.{node_of};
ghost use Rattle.store.specs.Spots.{RootIsHeld, HeldRoot, GivenUp};
ghost use Rattle.branches.specs.States.{tables_of};

use branches::Branch;
use tables::{NodeTable, Tables, hold_node};

// One more holder of a root.
pub(crate) fn hold_root(nodes: &mut NodeTable, root: Branch)
    requires held { HeldRoot nodes.old.cells.now root }
    requires heap { (R : List ℕ) × (NodesOf nodes.old R × (length R ≤ 65535)) }
    ensures { RootIsHeld root nodes.old nodes.new }
{
    if let Branch::Child(id) = root {
        hold_node(nodes, id);
    }
}

// Gives up a root, with every node and entry that nobody holds any more.
pub(crate) fn give_up<K: Copy, V: Copy>(tables: &mut Tables<K, V>, root: Branch)
    requires nodes { (R : List ℕ) × NodesOf tables.old.nodes (node_of root ++ R) }
    requires entries { (E : List ℕ) × EntriesOf tables.old.nodes.cells.now tables.old.entries E }
    requires entryless { Entryless tables.old.nodes.cells.now }
    ensures { GivenUp (node_of root) (tables_of tables.old) (tables_of tables.new) }
{
    if let Branch::Child(id) = root {
        tables.release(id);
    }
}
