// Comparing two branches: whether they are the same part.
ghost use Rattle.std.specs.Prelude.{All};
ghost use Rattle.branches.specs.Branches.{SomeEntry};
ghost use Rattle.branches.specs.Compared.{TwoParts, Compared, EntriesCompared, RowsCompared};
ghost use Rattle.branches.specs.States.{tables_of};

use super::branch::Branch;
use super::reading::{at_digit, setting_of};
use kinds::{Key, Value};
use tables::{Digit, EntryId, EntryTable, Tables};

// Whether two entries have the same setting. It ends at once where they are one cell.
fn same_entry<K: Key, V: Value>(entries: &EntryTable<K, V>, one: EntryId, other: EntryId) -> bool
    requires one { SomeEntry K.kind K.bytes V.bytes entries.now.cells.now one.0 }
    requires other { SomeEntry K.kind K.bytes V.bytes entries.now.cells.now other.0 }
    ensures { EntriesCompared K.kind K.bytes V.bytes entries.now.cells.now one.0 other.0 result }
{
    if one.0 == other.0 {
        return true;
    }
    let (key, value) = setting_of(entries, one);
    let (other_key, other_value) = setting_of(entries, other);
    key.same(&other_key) && value.same(&other_value)
}

// Whether two rows of entries have the same settings in the same order.
fn same_row<K: Key, V: Value>(entries: &EntryTable<K, V>, one: &[u16], other: &[u16]) -> bool
    requires one { All (SomeEntry K.kind K.bytes V.bytes entries.now.cells.now) one.now }
    requires other { All (SomeEntry K.kind K.bytes V.bytes entries.now.cells.now) other.now }
    ensures { RowsCompared K.kind K.bytes V.bytes entries.now.cells.now one.now other.now result }
{
    if one.len() != other.len() {
        return false;
    }
    for (mine, theirs) in one.iter().zip(other) {
        if !same_entry(entries, EntryId(*mine), EntryId(*theirs)) {
            return false;
        }
    }
    true
}

// Whether two branches are the same part. It ends at once where both refer to one cell, and at the first difference.
#[tactic(auto, using(crate::proofs::Alike::node_no_part, crate::proofs::Alike::node_no_entry))]
pub fn same_part<K: Key, V: Value>(
    tables: &Tables<K, V>,
    one: Branch,
    other: Branch,
    level: u8,
) -> bool
    requires { TwoParts K.kind K.bytes V.bytes (tables_of tables.now) one other level }
    ensures { Compared K.kind K.bytes V.bytes (tables_of tables.now) one other level result }
{
    match (one, other) {
        (Branch::Nothing, Branch::Nothing) => true,
        (Branch::Entry(mine), Branch::Entry(theirs)) => same_entry(&tables.entries, mine, theirs),
        (Branch::Child(mine), Branch::Child(theirs)) => {
            if mine.0 == theirs.0 {
                return true;
            }
            if level == 0 {
                let node = tables.nodes.cells[mine.0 as usize];
                let other_node = tables.nodes.cells[theirs.0 as usize];
                return same_row(&tables.entries, node.singles(), other_node.singles());
            }
            for number in 0u8..16 {
                let digit = Digit { number };
                let next = at_digit(tables, one, level, digit);
                let other_next = at_digit(tables, other, level, digit);
                if !same_part(tables, next, other_next, level - 1) {
                    return false;
                }
            }
            true
        }
        _ => false,
    }
}
