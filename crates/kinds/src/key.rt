// What every kind of key answers besides, by its bytes alone.
ghost use Rattle.std.specs.Prelude.{◌≡◌, true, Decides};
ghost use Rattle.std.specs.Ordering.{MatchOrdering};
ghost use Rattle.kinds.specs.Kinds.{KeyKind};

use super::coded::Coded;
use std::cmp::Ordering;

pub trait Key: Coded {
    ghost kind: { KeyKind };

    fn hash(&self) -> u32
        ensures { result ≡ kind.hash (Self.bytes self.now) };

    // `Less` where this key comes before the other, `Equal` where they are the same, `Greater` where it comes after.
    fn order(&self, other: &Self) -> Ordering
        ensures { MatchOrdering result (kind.before (Self.bytes self.now) (Self.bytes other.now) ≡ true) (Self.bytes self.now ≡ Self.bytes other.now) (kind.before (Self.bytes other.now) (Self.bytes self.now) ≡ true) };

    fn same(&self, other: &Self) -> bool
        ensures { Decides result (Self.bytes self.now ≡ Self.bytes other.now) }
    {
        self.order(other).is_eq()
    }

    // The byte, the width and the rows are the kind's.
    ghost coded: { (Self.CODE ≡ kind.code) × (Self.WIDTH ≡ kind.width) × (Self.rows ≡ kind.readable) };

    ghost readable: { (k : Self) → kind.readable (Self.bytes k) ≡ true };
}
