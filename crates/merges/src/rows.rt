// Merging three branches at the deepest level: rows of at most sixteen entries by rising key.
ghost use Rattle.branches.specs.States.{tables_of};
ghost use Rattle.edits.specs.Rowing.{entries_of};
ghost use Rattle.merges.specs.Building.{MayTake, IsTaken};
ghost use Rattle.merges.specs.Merges.{Met, MergeEstimated, MayMerge, MergeDone};
ghost use Rattle.merges.specs.Rowing.{Chose};

use super::choices::Choice;
use super::chosen::{Chosen, choose};
use branches::{Branch, assemble, empty_handed, keep, setting_of, take_next};
use edits::{Estimate, as_node};
use kinds::{Key, Value};
use tables::{EntryId, EntryTable, Tables, hold_entry, make_entry};

// What becomes of the keys of three branches.
fn choose_rows<K: Key, V: Value>(
    tables: &Tables<K, V>,
    ours: Branch,
    base: Branch,
    theirs: Branch,
) -> Chosen
    requires { Met K.kind V.kind K.bytes V.bytes (tables_of tables.now) ours base theirs 0 }
    ensures { Chose K.kind K.bytes V.bytes tables.now.entries.cells.now V.kind (entries_of tables.now.nodes.cells.now ours) (entries_of tables.now.nodes.cells.now base) (entries_of tables.now.nodes.cells.now theirs) result }
{
    let mine = as_node(&tables.nodes, ours);
    let common = as_node(&tables.nodes, base);
    let other = as_node(&tables.nodes, theirs);
    choose(
        &tables.entries,
        mine.singles(),
        common.singles(),
        other.singles(),
    )
}

// What merging three branches at the deepest level would make of them.
pub fn estimate_rows<K: Key, V: Value>(
    tables: &Tables<K, V>,
    ours: Branch,
    base: Branch,
    theirs: Branch,
) -> Estimate
    requires { Met K.kind V.kind K.bytes V.bytes (tables_of tables.now) ours base theirs 0 }
    ensures { MergeEstimated K.kind V.kind K.bytes V.bytes (tables_of tables.now) ours base theirs 0 result }
{
    choose_rows(tables, ours, base, theirs).estimate()
}

// The entry of a choice, with one holder more.
fn take_entry<K: Key, V: Value>(entries: &mut EntryTable<K, V>, choice: Choice) -> EntryId
    requires { MayTake K.kind V.kind K.bytes V.bytes entries.old choice }
    ensures { IsTaken K.kind V.kind K.bytes V.bytes choice result.0 entries.old entries.new }
{
    match choice {
        Choice::Ours(id) | Choice::Theirs(id) => {
            hold_entry(entries, id);
            id
        }
        Choice::Joined(ours, theirs) => {
            let (key, mine) = setting_of(entries, ours);
            let (_, other) = setting_of(entries, theirs);
            make_entry(entries, key, mine.join(&other))
        }
    }
}

// Merges three branches at the deepest level: the branch of the result, kept where it is ours' or theirs'. Otherwise an entry is ours' where ours has the key with the value, else theirs', else new.
pub fn merge_rows<K: Key, V: Value>(
    tables: &mut Tables<K, V>,
    ours: Branch,
    base: Branch,
    theirs: Branch,
) -> Branch
    requires { MayMerge K.kind V.kind K.bytes V.bytes (tables_of tables.old) ours base theirs 0 }
    ensures { MergeDone K.kind V.kind K.bytes V.bytes (tables_of tables.old) ours base theirs 0 result (tables_of tables.new) }
{
    let chosen = choose_rows(tables, ours, base, theirs);
    if chosen.ours {
        keep(tables, ours);
        return ours;
    }
    let choices = chosen.choices();
    if chosen.theirs && choices.len() > 1 {
        keep(tables, theirs);
        return theirs;
    }
    let mut hand = empty_handed();
    for choice in choices {
        let id = take_entry(&mut tables.entries, *choice);
        hand = take_next(hand, id);
    }
    assemble(&mut tables.nodes, hand, 0)
}
