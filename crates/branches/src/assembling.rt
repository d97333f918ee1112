// Taking up the branches of a node digit by digit.
ghost use Rattle.std.specs.Prelude.{◌≡◌, ◌^◌, ◌<◌, [], ◌∷◌, ◌++◌, count_ones};
ghost use Rattle.branches.specs.Handfuls.{nothing_in_hand, with_branch, Rowful, entries_in, MayAssemble, IsAssembled};

use super::branch::Branch;
use tables::{Digit, EntryId, NodeCell, NodeTable, make_node};

// Nothing in hand: what is taken up for a node is kept as the node's cell, without its level.
pub fn empty_handed() -> NodeCell
    ensures { result ≡ nothing_in_hand }
{
    NodeCell::empty()
}

// The branch of a digit, in hand after those of the lower digits.
pub fn take_up(hand: NodeCell, digit: Digit, branch: Branch) -> NodeCell
    requires data_fits { hand.datamap < 2 ^ digit.number }
    requires node_fits { hand.nodemap < 2 ^ digit.number }
    ensures { result ≡ with_branch hand digit.number branch }
{
    let mut next = hand;
    match branch {
        Branch::Nothing => {}
        Branch::Entry(e) => {
            next.datamap += 1 << digit.number;
            next.entries[hand.datamap.count_ones() as usize] = e.0;
        }
        Branch::Child(i) => {
            next.nodemap += 1 << digit.number;
            next.children[hand.nodemap.count_ones() as usize] = i.0;
        }
    }
    next
}

// Takes an entry up, after those that are in hand.
pub fn take_next(hand: NodeCell, id: EntryId) -> NodeCell
    requires row { Rowful hand (entries_in hand) }
    requires room { count_ones hand.datamap < 16 }
    ensures { Rowful result (entries_in hand ++ (id.0 ∷ [])) }
{
    let next = Digit {
        number: hand.datamap.count_ones() as u8,
    };
    take_up(hand, next, Branch::Entry(id))
}

// What is in hand as a branch: nothing, an entry alone, or a new node over it.
pub fn assemble(nodes: &mut NodeTable, hand: NodeCell, level: u8) -> Branch
    requires { MayAssemble hand level nodes.old }
    ensures { IsAssembled hand level result nodes.old nodes.new }
{
    if hand.nodemap.count_ones() == 0 {
        let singles = hand.datamap.count_ones();
        if singles == 0 {
            return Branch::Nothing;
        }
        if singles == 1 && level < 8 {
            return Branch::Entry(EntryId(hand.entries[0]));
        }
    }
    Branch::Child(make_node(nodes, NodeCell { level, ..hand }))
}
