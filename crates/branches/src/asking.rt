// Asking a branch: the value of a key, and how many settings there are.
ghost use Rattle.branches.specs.Asked.{LookedUp, FewPart, Counted};
ghost use Rattle.branches.specs.Branches.{SomePart};
ghost use Rattle.branches.specs.States.{tables_of};
ghost use Rattle.branches.specs.declared.branch.Branch.TheVariants.{Child};

use super::branch::Branch;
use super::reading::{at_digit, digit_of, setting_of};
use kinds::{Key, Value};
use tables::{EntryId, NodeId, Tables};

// The value of a key in a collision node.
fn find_in_node<K: Key, V: Value>(tables: &Tables<K, V>, id: NodeId, key: &K) -> Option<V>
    requires { SomePart K.kind K.bytes V.bytes (tables_of tables.now) (Child id) 0 }
    ensures { LookedUp K.kind K.bytes V.bytes (tables_of tables.now) (Child id) 0 (K.bytes key.now) result }
{
    let node = tables.nodes.cells[id.0 as usize];
    for entry in node.singles() {
        let (other, value) = setting_of(&tables.entries, EntryId(*entry));
        if other.same(key) {
            return Some(value);
        }
    }
    None
}

// The value of a key in a branch. Each step down reads one node.
pub fn look_up<K: Key, V: Value>(
    tables: &Tables<K, V>,
    branch: Branch,
    level: u8,
    key: &K,
) -> Option<V>
    requires { SomePart K.kind K.bytes V.bytes (tables_of tables.now) branch level }
    ensures { LookedUp K.kind K.bytes V.bytes (tables_of tables.now) branch level (K.bytes key.now) result }
{
    match branch {
        Branch::Nothing => None,
        Branch::Entry(id) => {
            let (other, value) = setting_of(&tables.entries, id);
            if other.same(key) { Some(value) } else { None }
        }
        Branch::Child(id) => {
            if level == 0 {
                return find_in_node(tables, id, key);
            }
            let digit = digit_of(key.hash(), level);
            let next = at_digit(tables, branch, level, digit);
            look_up(tables, next, level - 1, key)
        }
    }
}

// How many settings a branch has. It reads each node of the part once.
pub fn count<K: Key, V: Value>(tables: &Tables<K, V>, branch: Branch, level: u8) -> usize
    requires { FewPart K.kind K.bytes V.bytes (tables_of tables.now) branch level }
    ensures { Counted K.kind K.bytes V.bytes (tables_of tables.now) branch level result }
{
    match branch {
        Branch::Nothing => 0,
        Branch::Entry(_) => 1,
        Branch::Child(id) => {
            let node = tables.nodes.cells[id.0 as usize];
            let mut total = node.singles().len();
            for child in node.kids() {
                total += count(tables, Branch::Child(NodeId(*child)), level - 1);
            }
            total
        }
    }
}
