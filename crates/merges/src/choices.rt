// What becomes of one key in a merge.
ghost use Rattle.std.specs.Prelude.{◌≡◌, false, true, IfSome};
ghost use Rattle.model.specs.Maps.{same_found};
ghost use Rattle.branches.specs.Branches.{SomeEntry};
ghost use Rattle.edits.specs.Rowing.{value_held};
ghost use Rattle.merges.specs.Choices.{is_new as tells_new, of_ours, of_theirs, Decided, DecidedByJoin};

use branches::setting_of;
use kinds::{Key, Value};
use tables::{EntryId, EntryTable};

// The entry of a key of the result: ours', theirs', or a new one with the join of the values of both.
#[derive(Clone, Copy)]
pub(crate) enum Choice {
    Ours(EntryId),
    Theirs(EntryId),
    Joined(EntryId, EntryId),
}

impl Choice {
    // Whether the entry is a new one.
    pub fn is_new(self) -> bool
        ensures { result ≡ tells_new self }
    {
        matches!(self, Choice::Joined(..))
    }
}

// What becomes of a key, and whether that is what ours has, and what theirs has.
#[derive(Clone, Copy)]
pub(crate) struct Decision {
    pub choice: Option<Choice>,
    pub ours: bool,
    pub theirs: bool,
}

// Whether two entries have one value, or there is neither.
fn same_held<K: Key, V: Value>(
    entries: &EntryTable<K, V>,
    one: Option<EntryId>,
    other: Option<EntryId>,
) -> bool
    requires one { IfSome one (λ id. SomeEntry K.kind K.bytes V.bytes entries.now.cells.now id.0) }
    requires other { IfSome other (λ id. SomeEntry K.kind K.bytes V.bytes entries.now.cells.now id.0) }
    ensures { result ≡ same_found (value_held K.bytes V.bytes entries.now.cells.now one) (value_held K.bytes V.bytes entries.now.cells.now other) }
{
    match (one, other) {
        (Some(one), Some(other)) => {
            let (_, mine) = setting_of(entries, one);
            let (_, theirs) = setting_of(entries, other);
            mine.same(&theirs)
        }
        (None, None) => true,
        _ => false,
    }
}

impl Decision {
    // What ours has, and maybe theirs too.
    fn as_ours(ours: Option<EntryId>, both: bool) -> Decision
        ensures { result ≡ record { choice = of_ours ours; ours = true; theirs = both } }
    {
        Decision {
            choice: ours.map(Choice::Ours),
            ours: true,
            theirs: both,
        }
    }

    // What theirs has, and ours has not.
    fn as_theirs(theirs: Option<EntryId>) -> Decision
        ensures { result ≡ record { choice = of_theirs theirs; ours = false; theirs = true } }
    {
        Decision {
            choice: theirs.map(Choice::Theirs),
            ours: false,
            theirs: true,
        }
    }
}

// What becomes of a key with two values: their join, which may be either.
fn join_held<K: Key, V: Value>(
    entries: &EntryTable<K, V>,
    ours: EntryId,
    theirs: EntryId,
) -> Decision
    requires ours { SomeEntry K.kind K.bytes V.bytes entries.now.cells.now ours.0 }
    requires theirs { SomeEntry K.kind K.bytes V.bytes entries.now.cells.now theirs.0 }
    requires apart { same_found (value_held K.bytes V.bytes entries.now.cells.now (Some ours)) (value_held K.bytes V.bytes entries.now.cells.now (Some theirs)) ≡ false }
    ensures { DecidedByJoin V.kind K.bytes V.bytes entries.now.cells.now ours theirs result }
{
    let (_, mine) = setting_of(entries, ours);
    let (_, other) = setting_of(entries, theirs);
    let joined = mine.join(&other);
    if joined.same(&mine) {
        Decision::as_ours(Some(ours), false)
    } else if joined.same(&other) {
        Decision::as_theirs(Some(theirs))
    } else {
        Decision {
            choice: Some(Choice::Joined(ours, theirs)),
            ours: false,
            theirs: false,
        }
    }
}

// What becomes of a key, by its entries in ours, in the base and in theirs.
pub(crate) fn decide<K: Key, V: Value>(
    entries: &EntryTable<K, V>,
    ours: Option<EntryId>,
    base: Option<EntryId>,
    theirs: Option<EntryId>,
) -> Decision
    requires ours { IfSome ours (λ id. SomeEntry K.kind K.bytes V.bytes entries.now.cells.now id.0) }
    requires base { IfSome base (λ id. SomeEntry K.kind K.bytes V.bytes entries.now.cells.now id.0) }
    requires theirs { IfSome theirs (λ id. SomeEntry K.kind K.bytes V.bytes entries.now.cells.now id.0) }
    ensures { Decided V.kind K.bytes V.bytes entries.now.cells.now ours base theirs result }
{
    if same_held(entries, ours, theirs) {
        return Decision::as_ours(ours, true);
    }
    if same_held(entries, ours, base) {
        return Decision::as_theirs(theirs);
    }
    if same_held(entries, theirs, base) {
        return Decision::as_ours(ours, false);
    }
    match (ours, theirs) {
        (Some(one), Some(other)) => join_held(entries, one, other),
        (None, _) => Decision::as_theirs(theirs),
        (_, None) => Decision::as_ours(ours, false),
    }
}
