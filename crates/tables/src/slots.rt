// The slots of a node, by digit and by rank.
ghost use Rattle.std.specs.Prelude.{◌≡◌, ◌<◌, ◌≤◌};
ghost use Rattle.tables.specs.Slots.{bit, rank_of, AtDigit, AtRank};

use super::cells::{EntryId, NodeCell, NodeId};

// A digit of a hash: four bits.
#[derive(Clone, Copy, PartialEq, Eq)]
pub struct Digit {
    pub number: u8,
    ghost small: { number < 16 },
}

// Whether the bit of a digit is set.
pub fn has_digit(map: u16, digit: Digit) -> bool
    ensures { result ≡ bit map digit.number }
{
    (map >> digit.number) & 1 == 1
}

// How many lower bits are set.
fn rank(map: u16, digit: Digit) -> usize
    ensures value { result ≡ rank_of map digit.number }
    ensures small { result < 16 }
{
    (u32::from(map) & ((1 << digit.number) - 1)).count_ones() as usize
}

// What stands at a digit: in the slot of its rank, where its bit is set.
fn slot_at(map: u16, slots: &[u16; 16], digit: Digit) -> Option<u16>
    ensures { AtDigit (λ n. n) map slots.now digit.number result }
{
    has_digit(map, digit).then(|| slots[rank(map, digit)])
}

// The entry of a node at a digit.
pub fn entry_at(node: &NodeCell, digit: Digit) -> Option<EntryId>
    ensures { AtDigit (λ e. e.0) node.now.datamap node.now.entries digit.number result }
{
    slot_at(node.datamap, &node.entries, digit).map(EntryId)
}

// The child of a node at a digit.
pub fn child_at(node: &NodeCell, digit: Digit) -> Option<NodeId>
    ensures { AtDigit (λ i. i.0) node.now.nodemap node.now.children digit.number result }
{
    slot_at(node.nodemap, &node.children, digit).map(NodeId)
}

// What stands at a rank, where there are more bits.
fn slot_by_rank(map: u16, slots: &[u16; 16], rank: usize) -> Option<u16>
    ensures { AtRank (λ n. n) map slots.now rank result }
{
    let count = map.count_ones() as usize;
    slots[..count].get(rank).copied()
}

// The entry of a node at a rank: by rising digit, or by rising key at the deepest level.
pub fn entry_by_rank(node: &NodeCell, rank: usize) -> Option<EntryId>
    ensures { AtRank (λ e. e.0) node.now.datamap node.now.entries rank result }
{
    slot_by_rank(node.datamap, &node.entries, rank).map(EntryId)
}

// The child of a node at a rank, by rising digit.
pub fn child_by_rank(node: &NodeCell, rank: usize) -> Option<NodeId>
    ensures { AtRank (λ i. i.0) node.now.nodemap node.now.children rank result }
{
    slot_by_rank(node.nodemap, &node.children, rank).map(NodeId)
}
