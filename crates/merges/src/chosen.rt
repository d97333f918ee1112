// The row of a merge at the deepest level, chosen key by key.
ghost use Rattle.std.specs.Prelude.{◌≡◌, ℕ, ◌+◌, ◌<◌, ◌≤◌, [], length, drop, cond, is_some, take, All, MatchOption};
ghost use Rattle.branches.specs.Branches.{SomeEntry};
ghost use Rattle.merges.specs.Rowing.{And, nothing_chosen, FirstIs, HeadIs, Ordered, Chose, Tallied};

use super::choices::{Choice, Decision, decide};
use branches::setting_of;
use edits::{Estimate, split_row};
use kinds::{Key, Value};
use model::MOST_OF_A_HASH;
use std::cmp::Ordering;
use tables::{EntryId, EntryTable};

// The entries of a result so far, of at most sixteen of ours and sixteen of theirs; whether they are what ours has, and what theirs has; how many of them are new.
#[derive(Clone, Copy)]
pub(crate) struct Chosen {
    row: [Choice; 32],
    count: usize,
    pub ours: bool,
    pub theirs: bool,
    pub new: usize,
}

impl Chosen {
    // Of no key yet.
    fn of_nothing() -> Chosen
        ensures { result ≡ nothing_chosen }
    {
        Chosen {
            row: [Choice::Ours(EntryId(0)); 32],
            count: 0,
            ours: true,
            theirs: true,
            new: 0,
        }
    }

    // With what becomes of one key more.
    fn and(self, key: Decision) -> Chosen
        requires room { self.count < length self.row }
        requires few { self.new ≤ self.count }
        ensures { And self key result }
    {
        let mut next = self;
        next.ours &= key.ours;
        next.theirs &= key.theirs;
        if let Some(choice) = key.choice {
            next.row[self.count] = choice;
            next.count += 1;
            next.new += usize::from(choice.is_new());
        }
        next
    }

    // The entries, by rising key.
    pub fn choices(&self) -> &[Choice]
        requires { self.now.count ≤ length self.now.row }
        ensures { result.now ≡ take self.now.count self.now.row }
    {
        &self.row[..self.count]
    }

    // What they would make of a branch.
    pub fn estimate(&self) -> Estimate
        requires { self.now.count ≤ length self.now.row }
        ensures { Tallied self.now result }
    {
        let count = self.choices().len();
        Estimate {
            size: count.min(2),
            ours: self.ours,
            theirs: self.theirs,
            crowded: count > MOST_OF_A_HASH,
            nodes: usize::from(count > 1 && !self.ours && !self.theirs),
            entries: self.new,
        }
    }
}

// The first key of a row, with its entry.
fn first_of<K: Key, V: Value>(entries: &EntryTable<K, V>, row: &[u16]) -> Option<(K, EntryId)>
    requires { All (SomeEntry K.kind K.bytes V.bytes entries.now.cells.now) row.now }
    ensures { MatchOption result (row.now ≡ []) (λ first. FirstIs K.kind K.bytes V.bytes entries.now.cells.now row.now first.0 first.1) }
{
    let id = EntryId(*row.first()?);
    let (key, _) = setting_of(entries, id);
    Some((key, id))
}

// The first key of two rows, and its entry in either.
#[derive(Clone, Copy)]
struct Head<K> {
    key: K,
    ours: Option<EntryId>,
    theirs: Option<EntryId>,
}

// The first key of two rows that rise; nothing where both are empty.
fn first_key<K: Key, V: Value>(
    entries: &EntryTable<K, V>,
    ours: &[u16],
    theirs: &[u16],
) -> Option<Head<K>>
    requires ours { All (SomeEntry K.kind K.bytes V.bytes entries.now.cells.now) ours.now }
    requires theirs { All (SomeEntry K.kind K.bytes V.bytes entries.now.cells.now) theirs.now }
    ensures { MatchOption result ((ours.now ≡ []) × (theirs.now ≡ [])) (λ head. HeadIs K.kind K.bytes V.bytes entries.now.cells.now ours.now theirs.now head.key head.ours head.theirs) }
{
    match (first_of(entries, ours), first_of(entries, theirs)) {
        (None, None) => None,
        (Some((key, id)), None) => Some(Head {
            key,
            ours: Some(id),
            theirs: None,
        }),
        (None, Some((key, id))) => Some(Head {
            key,
            ours: None,
            theirs: Some(id),
        }),
        (Some((key, id)), Some((other, other_id))) => Some(match key.order(&other) {
            Ordering::Less => Head {
                key,
                ours: Some(id),
                theirs: None,
            },
            Ordering::Equal => Head {
                key,
                ours: Some(id),
                theirs: Some(other_id),
            },
            Ordering::Greater => Head {
                key: other,
                ours: None,
                theirs: Some(other_id),
            },
        }),
    }
}

// What is left of a row past its first entry, if that was taken.
fn past(row: &[u16], taken: Option<EntryId>) -> &[u16]
    requires { cond (is_some taken) 1 0 ≤ length row.now }
    ensures { result.now ≡ drop (cond (is_some taken) 1 0) row.now }
{
    &row[usize::from(taken.is_some())..]
}

// What becomes of each key of two rows over a third, by rising key.
pub(crate) fn choose<K: Key, V: Value>(
    entries: &EntryTable<K, V>,
    ours: &[u16],
    base: &[u16],
    theirs: &[u16],
) -> Chosen
    requires ours { All (SomeEntry K.kind K.bytes V.bytes entries.now.cells.now) ours.now }
    requires base { All (SomeEntry K.kind K.bytes V.bytes entries.now.cells.now) base.now }
    requires theirs { All (SomeEntry K.kind K.bytes V.bytes entries.now.cells.now) theirs.now }
    requires order { Ordered K.kind K.bytes V.bytes entries.now.cells.now V.kind ours.now base.now theirs.now }
    requires few { length ours.now + length theirs.now ≤ 32 }
    ensures { Chose K.kind K.bytes V.bytes entries.now.cells.now V.kind ours.now base.now theirs.now result }
{
    let mut chosen = Chosen::of_nothing();
    let mut mine = ours;
    let mut other = theirs;
    while let Some(head) = first_key(entries, mine, other) {
        let (_, common, _) = split_row(entries, base, &head.key);
        chosen = chosen.and(decide(entries, head.ours, common, head.theirs));
        mine = past(mine, head.ours);
        other = past(other, head.theirs);
    }
    chosen
}
