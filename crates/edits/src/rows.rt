// A part at the deepest level, one key of it set: a row of at most sixteen entries by rising key.
ghost use Rattle.std.specs.Prelude.{◌≡◌, ◌<◌, count_ones, [], ◌∷◌, ◌++◌, length, All, IfSome};
ghost use Rattle.std.specs.List.Sorted.{IsSearchInRange};
ghost use Rattle.model.specs.Maps.{same_found};
ghost use Rattle.tables.specs.Cells.{singles};
ghost use Rattle.branches.specs.Branches.{SomeEntry};
ghost use Rattle.branches.specs.States.{tables_of};
ghost use Rattle.edits.specs.Sets.{value_bytes, Seen, Estimated, Ready, Done};
ghost use Rattle.branches.specs.Handfuls.{Rowful, entries_in};
ghost use Rattle.edits.specs.Rowing.{NodeIn, entries_of, Found, Split, MayKeep, AreKept, MayAdd, IsAdded, value_held};

use super::estimate::Estimate;
use branches::{Branch, assemble, empty_handed, setting_of, take_next};
use kinds::{Key, Value};
use std::cmp::Ordering;
use tables::{EntryId, EntryTable, NodeCell, NodeTable, Tables, hold_entry, make_entry};

// A branch at the deepest level as a node with the same entries.
pub fn as_node(nodes: &NodeTable, branch: Branch) -> NodeCell
    requires { NodeIn nodes.now.cells.now branch }
    ensures { singles result ≡ entries_of nodes.now.cells.now branch }
{
    match branch {
        Branch::Nothing => NodeCell::empty(),
        Branch::Entry(id) => NodeCell {
            datamap: 1,
            entries: [id.0; 16],
            ..NodeCell::empty()
        },
        Branch::Child(id) => nodes.cells[id.0 as usize],
    }
}

// Where a key is in a row, or how many of its entries come before the key.
fn find_in<K: Key, V: Value>(
    entries: &EntryTable<K, V>,
    row: &[u16],
    key: &K,
) -> Result<usize, usize>
    requires { All (SomeEntry K.kind K.bytes V.bytes entries.now.cells.now) row.now }
    ensures inside { IsSearchInRange result (length row.now) }
    ensures place { Found K.kind K.bytes V.bytes entries.now.cells.now row.now (K.bytes key.now) result }
{
    for (j, entry) in row.iter().enumerate() {
        let (other, _) = setting_of(entries, EntryId(*entry));
        match other.order(key) {
            Ordering::Less => {}
            Ordering::Equal => return Ok(j),
            Ordering::Greater => return Err(j),
        }
    }
    Err(row.len())
}

// The entries of a row before a key, the one that has it, and those after it.
pub fn split_row<'a, K: Key, V: Value>(
    entries: &EntryTable<K, V>,
    row: &'a [u16],
    key: &K,
) -> (&'a [u16], Option<EntryId>, &'a [u16])
    requires { All (SomeEntry K.kind K.bytes V.bytes entries.now.cells.now) row.now }
    ensures { Split K.kind K.bytes V.bytes entries.now.cells.now row.now (K.bytes key.now) result.0.now result.1 result.2.now }
{
    match find_in(entries, row, key) {
        Ok(at) => (&row[..at], Some(EntryId(row[at])), &row[at + 1..]),
        Err(at) => (&row[..at], None, &row[at..]),
    }
}

// Holds the entries of a row once more each, and takes them up.
fn keep_row<K: Key, V: Value>(
    entries: &mut EntryTable<K, V>,
    row: &[u16],
    hand: NodeCell,
) -> NodeCell
    requires { MayKeep K.kind K.bytes V.bytes entries.old row.now hand }
    ensures kept { AreKept K.kind K.bytes V.bytes row.now entries.old entries.new }
    ensures hand { Rowful result (entries_in hand ++ row.now) }
{
    let mut all = hand;
    for entry in row {
        let id = EntryId(*entry);
        hold_entry(entries, id);
        all = take_next(all, id);
    }
    all
}

// Where there is a value, makes an entry of it, and takes it up.
fn take_new<K: Key, V: Value>(
    entries: &mut EntryTable<K, V>,
    key: &K,
    value: Option<V>,
    hand: NodeCell,
) -> NodeCell
    requires { MayAdd entries.old value hand }
    ensures { IsAdded key.now value hand result entries.old entries.new }
{
    match value {
        Some(new) => take_next(hand, make_entry(entries, *key, new)),
        None => hand,
    }
}

// Sets one key of a branch at the deepest level to a value, or clears it: the branch of the result.
pub fn set_row<K: Key, V: Value>(
    tables: &mut Tables<K, V>,
    at: Branch,
    key: &K,
    value: Option<V>,
) -> Branch
    requires { Ready K.kind V.kind K.bytes V.bytes (tables_of tables.old) at (K.bytes key.now) (value_bytes V.bytes value) 0 }
    ensures { Done K.kind V.kind K.bytes V.bytes (tables_of tables.old) at (K.bytes key.now) (value_bytes V.bytes value) 0 result (tables_of tables.new) }
{
    let node = as_node(&tables.nodes, at);
    let (before, _, after) = split_row(&tables.entries, node.singles(), key);
    let kept = keep_row(&mut tables.entries, before, empty_handed());
    let put = take_new(&mut tables.entries, key, value, kept);
    let all = keep_row(&mut tables.entries, after, put);
    assemble(&mut tables.nodes, all, 0)
}

// Whether a value is that of an entry, or there is none in either.
pub(crate) fn same_value<K: Key, V: Value>(
    entries: &EntryTable<K, V>,
    found: Option<EntryId>,
    value: Option<V>,
) -> bool
    requires { IfSome found (λ id. SomeEntry K.kind K.bytes V.bytes entries.now.cells.now id.0) }
    ensures { result ≡ same_found (value_held K.bytes V.bytes entries.now.cells.now found) (value_bytes V.bytes value) }
{
    match (found, value) {
        (Some(id), Some(new)) => {
            let (_, old) = setting_of(entries, id);
            old.same(&new)
        }
        (None, None) => true,
        _ => false,
    }
}

// What setting one key of a branch at the deepest level would make of it.
pub fn estimate_row<K: Key, V: Value>(
    tables: &Tables<K, V>,
    at: Branch,
    key: &K,
    value: Option<V>,
) -> Estimate
    requires { Seen K.kind V.kind K.bytes V.bytes (tables_of tables.now) at (K.bytes key.now) (value_bytes V.bytes value) 0 }
    ensures { Estimated K.kind V.kind K.bytes V.bytes (tables_of tables.now) at (K.bytes key.now) (value_bytes V.bytes value) 0 result }
{
    let node = as_node(&tables.nodes, at);
    let (before, found, after) = split_row(&tables.entries, node.singles(), key);
    let same = same_value(&tables.entries, found, value);
    let some = value.is_some();
    let count = before.len() + usize::from(some) + after.len();
    Estimate::of_row(count, some, same)
}
