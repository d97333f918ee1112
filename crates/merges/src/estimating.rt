// What merging three branches would make of them: a pass that reads, and changes nothing.
ghost use Rattle.std.specs.Prelude.{◌≡◌, ◌<◌, Decides, MatchOption};
ghost use Rattle.branches.specs.States.{tables_of};
ghost use Rattle.merges.specs.Merges.{Met, MergeEstimated};
ghost use Rattle.merges.specs.Cells.{Apart};

use super::rows::estimate_rows;
use branches::{Branch, at_digit, same_part};
use edits::Estimate;
use kinds::{Key, Value};
use tables::{Digit, Tables};

// Whether two branches are one cell, or both nothing.
fn same_cell(one: Branch, other: Branch) -> bool
    ensures { Decides result (one ≡ other) }
{
    match (one, other) {
        (Branch::Nothing, Branch::Nothing) => true,
        (Branch::Entry(mine), Branch::Entry(theirs)) => mine.0 == theirs.0,
        (Branch::Child(mine), Branch::Child(theirs)) => mine.0 == theirs.0,
        _ => false,
    }
}

// Where two of three branches below the root are one cell, the result is ours or theirs.
fn estimate_shared<K: Key, V: Value>(
    tables: &Tables<K, V>,
    ours: Branch,
    base: Branch,
    theirs: Branch,
    level: u8,
) -> Option<Estimate>
    requires low { level < 8 }
    requires met { Met K.kind V.kind K.bytes V.bytes (tables_of tables.now) ours base theirs level }
    ensures { MatchOption result (Apart ours base theirs) (MergeEstimated K.kind V.kind K.bytes V.bytes (tables_of tables.now) ours base theirs level) }
{
    if same_cell(ours, theirs) {
        return Some(Estimate::of_kept(ours));
    }
    if same_cell(ours, base) {
        return Some(Estimate {
            ours: same_part(tables, ours, theirs, level),
            ..Estimate::of_kept(theirs)
        });
    }
    if same_cell(theirs, base) {
        return Some(Estimate {
            theirs: same_part(tables, theirs, ours, level),
            ..Estimate::of_kept(ours)
        });
    }
    None
}

// What `merge` would make of three branches at one prefix. Cells that two of them share end it at once, so that it reads what differs.
pub fn estimate_merge<K: Key, V: Value>(
    tables: &Tables<K, V>,
    ours: Branch,
    base: Branch,
    theirs: Branch,
    level: u8,
) -> Estimate
    requires { Met K.kind V.kind K.bytes V.bytes (tables_of tables.now) ours base theirs level }
    ensures { MergeEstimated K.kind V.kind K.bytes V.bytes (tables_of tables.now) ours base theirs level result }
{
    if level < 8
        && let Some(known) = estimate_shared(tables, ours, base, theirs, level)
    {
        return known;
    }
    if level == 0 {
        return estimate_rows(tables, ours, base, theirs);
    }
    let mut sum = Estimate::of_nothing();
    for number in 0u8..16 {
        let digit = Digit { number };
        let mine = at_digit(tables, ours, level, digit);
        let common = at_digit(tables, base, level, digit);
        let other = at_digit(tables, theirs, level, digit);
        sum = sum.and(estimate_merge(tables, mine, common, other, level - 1));
    }
    sum.close(level)
}
