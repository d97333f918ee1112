// Reading the tables: the setting of an entry, and what a branch has at a digit.
ghost use Rattle.std.specs.Prelude.{◌≡◌, ◌-◌, ◌<◌, ◌≤◌};
ghost use Rattle.model.specs.Tries.{digit as hash_digit};
ghost use Rattle.branches.specs.Branches.{SomePart, SomeEntry, SettingRead, GoesOn};
ghost use Rattle.branches.specs.States.{tables_of};

use super::branch::Branch;
use kinds::{Key, Value};
use tables::{Digit, EntryId, EntryTable, Tables, child_at, entry_at, entry_cell_at};

// The digit of a hash with so many levels from there on: four bits, the lowest at level 8.
pub fn digit_of(hash: u32, level: u8) -> Digit
    requires { (1 ≤ level) × (level ≤ 8) }
    ensures { result.number ≡ hash_digit hash (8 - level) }
{
    let shift = 4 * (8 - level);
    Digit {
        number: ((hash >> shift) & 15) as u8,
    }
}

// The key and the value of an entry that is held.
pub fn setting_of<K: Key, V: Value>(entries: &EntryTable<K, V>, id: EntryId) -> (K, V)
    requires { SomeEntry K.kind K.bytes V.bytes entries.now.cells.now id.0 }
    ensures { SettingRead K.kind K.bytes V.bytes entries.now.cells.now id.0 result.0 result.1 }
{
    entry_cell_at(entries, id.0 as usize).held.unwrap()
}

// What a branch has at a digit, as a branch of one level less.
pub fn at_digit<K: Key, V: Value>(
    tables: &Tables<K, V>,
    branch: Branch,
    level: u8,
    digit: Digit,
) -> Branch
    requires level { (1 ≤ level) × (level ≤ 8) }
    requires part { SomePart K.kind K.bytes V.bytes (tables_of tables.now) branch level }
    ensures { GoesOn K.kind K.bytes V.bytes (tables_of tables.now) branch level digit.number result }
{
    match branch {
        Branch::Nothing => Branch::Nothing,
        Branch::Entry(id) => {
            let (key, _) = setting_of(&tables.entries, id);
            if digit_of(key.hash(), level) == digit {
                Branch::Entry(id)
            } else {
                Branch::Nothing
            }
        }
        Branch::Child(id) => {
            let node = tables.nodes.cells[id.0 as usize];
            match child_at(&node, digit) {
                Some(child) => Branch::Child(child),
                None => entry_at(&node, digit).map_or(Branch::Nothing, Branch::Entry),
            }
        }
    }
}
