// Holding once more what a branch refers to.
ghost use Rattle.branches.specs.Branches.{Stays, Kept};
ghost use Rattle.branches.specs.States.{tables_of};

use super::branch::Branch;
use kinds::{Key, Value};
use tables::{Tables, hold_entry, hold_node};

// One more holder of the node or the entry that a branch refers to.
pub fn keep<K: Key, V: Value>(tables: &mut Tables<K, V>, branch: Branch)
    requires { Stays K.kind K.bytes V.bytes (tables_of tables.old) branch }
    ensures { Kept K.kind K.bytes V.bytes (tables_of tables.old) branch (tables_of tables.new) }
{
    match branch {
        Branch::Nothing => {}
        Branch::Entry(id) => hold_entry(&mut tables.entries, id),
        Branch::Child(id) => hold_node(&mut tables.nodes, id),
    }
}
