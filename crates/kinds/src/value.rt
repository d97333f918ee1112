// What every kind of value answers besides, by its bytes alone.
ghost use Rattle.std.specs.Prelude.{◌≡◌, true, Decides};
ghost use Rattle.kinds.specs.Kinds.{ValueKind};

use super::coded::Coded;

pub trait Value: Coded {
    ghost kind: { ValueKind };

    fn same(&self, other: &Self) -> bool
        ensures { Decides result (Self.bytes self.now ≡ Self.bytes other.now) };

    // What two values of one key become.
    fn join(&self, other: &Self) -> Self
        ensures { Self.bytes result ≡ kind.join (Self.bytes self.now) (Self.bytes other.now) };

    // The byte, the width and the rows are the kind's.
    ghost coded: { (Self.CODE ≡ kind.code) × (Self.WIDTH ≡ kind.width) × (Self.rows ≡ kind.readable) };

    ghost readable: { (v : Self) → kind.readable (Self.bytes v) ≡ true };
}
