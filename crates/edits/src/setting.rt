// Setting one key of a branch: a value put there, or taken away.
ghost use Rattle.std.specs.Prelude.{ℕ};
ghost use Rattle.branches.specs.States.{tables_of};
ghost use Rattle.branches.specs.Branches.{SomePart};
ghost use Rattle.edits.specs.Sets.{Ready, Done, FoundAlone, value_bytes};

use super::rows::set_row;
use branches::{Branch, assemble, at_digit, digit_of, empty_handed, keep, setting_of, take_up};
use kinds::{Key, Value};
use tables::{Digit, Tables, make_entry};

// Whether a branch has no setting of another key, as an entry.
pub(crate) fn is_alone<K: Key, V: Value>(tables: &Tables<K, V>, at: Branch, key: &K) -> bool
    requires { (level : ℕ) × SomePart K.kind K.bytes V.bytes (tables_of tables.now) at level }
    ensures { FoundAlone K.kind K.bytes V.bytes (tables_of tables.now) at (K.bytes key.now) result }
{
    match at {
        Branch::Nothing => true,
        Branch::Entry(id) => {
            let (mine, _) = setting_of(&tables.entries, id);
            mine.same(key)
        }
        Branch::Child(_) => false,
    }
}

// The branch with the value at the key, or with nothing there: the path to the key is new, all else is kept.
pub fn set<K: Key, V: Value>(
    tables: &mut Tables<K, V>,
    at: Branch,
    key: &K,
    value: Option<V>,
    level: u8,
) -> Branch
    requires { Ready K.kind V.kind K.bytes V.bytes (tables_of tables.old) at (K.bytes key.now) (value_bytes V.bytes value) level }
    ensures { Done K.kind V.kind K.bytes V.bytes (tables_of tables.old) at (K.bytes key.now) (value_bytes V.bytes value) level result (tables_of tables.new) }
{
    if level < 8 && is_alone(tables, at, key) {
        return match value {
            Some(value) => Branch::Entry(make_entry(&mut tables.entries, *key, value)),
            None => Branch::Nothing,
        };
    }
    if level == 0 {
        return set_row(tables, at, key, value);
    }
    let digit = digit_of(key.hash(), level);
    let mut hand = empty_handed();
    for number in 0u8..16 {
        let g = Digit { number };
        let old = at_digit(tables, at, level, g);
        let new = if g == digit {
            set(tables, old, key, value, level - 1)
        } else {
            keep(tables, old);
            old
        };
        hand = take_up(hand, g, new);
    }
    assemble(&mut tables.nodes, hand, level)
}
