// Merging three branches: the branch of the result.
ghost use Rattle.branches.specs.States.{tables_of};
ghost use Rattle.merges.specs.Merges.{MayMerge, MergeDone};

use super::estimating::estimate_merge;
use super::rows::merge_rows;
use branches::{Branch, assemble, at_digit, empty_handed, keep, take_up};
use kinds::{Key, Value};
use tables::{Digit, Tables};

// Merges three branches at one prefix. A part that ours or theirs has is kept whole, ours first; all else is built from its sixteen digits.
pub fn merge<K: Key, V: Value>(
    tables: &mut Tables<K, V>,
    ours: Branch,
    base: Branch,
    theirs: Branch,
    level: u8,
) -> Branch
    requires { MayMerge K.kind V.kind K.bytes V.bytes (tables_of tables.old) ours base theirs level }
    ensures { MergeDone K.kind V.kind K.bytes V.bytes (tables_of tables.old) ours base theirs level result (tables_of tables.new) }
{
    let plan = estimate_merge(tables, ours, base, theirs, level);
    if plan.ours {
        keep(tables, ours);
        return ours;
    }
    // a single setting may be ours' entry, though theirs has the part
    if plan.theirs && plan.size > usize::from(level < 8) {
        keep(tables, theirs);
        return theirs;
    }
    if level == 0 {
        return merge_rows(tables, ours, base, theirs);
    }
    let mut hand = empty_handed();
    for number in 0u8..16 {
        let digit = Digit { number };
        let mine = at_digit(tables, ours, level, digit);
        let common = at_digit(tables, base, level, digit);
        let other = at_digit(tables, theirs, level, digit);
        let new = merge(tables, mine, common, other, level - 1);
        hand = take_up(hand, digit, new);
    }
    assemble(&mut tables.nodes, hand, level)
}
