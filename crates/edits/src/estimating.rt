// What setting one key of a branch would make of it: a pass that reads, and changes nothing.
ghost use Rattle.std.specs.Prelude.{ℕ};
ghost use Rattle.branches.specs.States.{tables_of};
ghost use Rattle.branches.specs.Branches.{SomePart};
ghost use Rattle.edits.specs.Sets.{Seen, Estimated, value_bytes};
ghost use Rattle.edits.specs.Estimates.{SameAlone, EstimatedAlone};

use super::estimate::Estimate;
use super::rows::{estimate_row, same_value};
use super::setting::is_alone;
use branches::{Branch, at_digit, digit_of};
use kinds::{Key, Value};
use tables::{Digit, Tables};

// Whether a branch with no setting of another key has the value, or nothing, already.
fn has_already<K: Key, V: Value>(tables: &Tables<K, V>, at: Branch, value: Option<V>) -> bool
    requires { (level : ℕ) × SomePart K.kind K.bytes V.bytes (tables_of tables.now) at level }
    ensures { SameAlone K.kind K.bytes V.bytes (tables_of tables.now) at (value_bytes V.bytes value) result }
{
    match at {
        Branch::Nothing => same_value(&tables.entries, None, value),
        Branch::Entry(id) => same_value(&tables.entries, Some(id), value),
        Branch::Child(_) => false,
    }
}

// Where a branch has no setting of another key: what is set is all that is left.
fn estimate_alone<K: Key, V: Value>(tables: &Tables<K, V>, at: Branch, value: Option<V>) -> Estimate
    requires { (level : ℕ) × SomePart K.kind K.bytes V.bytes (tables_of tables.now) at level }
    ensures { EstimatedAlone K.kind K.bytes V.bytes (tables_of tables.now) at (value_bytes V.bytes value) result }
{
    let same = has_already(tables, at, value);
    let some = value.is_some();
    Estimate::of_row(usize::from(some), some, same)
}

// What `set` would make of a branch: the path to the key is new, all else is kept.
pub fn estimate_set<K: Key, V: Value>(
    tables: &Tables<K, V>,
    at: Branch,
    key: &K,
    value: Option<V>,
    level: u8,
) -> Estimate
    requires { Seen K.kind V.kind K.bytes V.bytes (tables_of tables.now) at (K.bytes key.now) (value_bytes V.bytes value) level }
    ensures { Estimated K.kind V.kind K.bytes V.bytes (tables_of tables.now) at (K.bytes key.now) (value_bytes V.bytes value) level result }
{
    if level < 8 && is_alone(tables, at, key) {
        return estimate_alone(tables, at, value);
    }
    if level == 0 {
        return estimate_row(tables, at, key, value);
    }
    let digit = digit_of(key.hash(), level);
    let mut sum = Estimate::of_nothing();
    for number in 0u8..16 {
        let g = Digit { number };
        let old = at_digit(tables, at, level, g);
        let new = if g == digit {
            estimate_set(tables, old, key, value, level - 1)
        } else {
            Estimate::of_kept(old)
        };
        sum = sum.and(new);
    }
    sum.close(level)
}
