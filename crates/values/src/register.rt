// Registers: a stamp and a bar offset, of two the one with the larger stamp, at equal stamps the larger offset.
ghost use Rattle.std.specs.Prelude.{◌≡◌, refl, ℕ, ◌<◌, ◌^◌, Some, ◌++◌, ◌∷◌};
ghost use Rattle.std.specs.Fmt.{decimal, signed_decimal};
ghost use Rattle.std.specs.Int.Signed.{mag};
ghost use Rattle.byte_rows.specs.Joins.{stamped};
ghost use Rattle.values.specs.Values.{register_kind};
ghost use Rattle.byte_rows.proofs.Stamps.{stamped_made};
ghost use Rattle.std.proofs.Common.{rules};

use kinds::{Coded, Value};
use std::fmt;

#[derive(Clone, Copy, Debug, PartialEq, Eq, PartialOrd, Ord)]
pub struct Register {
    pub stamp: u32,
    pub offset: i16,
    ghost stamp_fits: { stamp < 2 ^ 32 },
    ghost offset_fits: { mag offset < 2 ^ 15 },
}

impl fmt::Display for Register {
    ghost output = { λ v. Some (decimal v.stamp ++ 44 ∷ signed_decimal v.offset) };

    fn fmt<W: fmt::Write>(&self, f: &mut fmt::Formatter<W>) -> fmt::Result {
        write!(f, "{},{}", self.stamp, self.offset)
    }
}

impl Coded for Register {
    const CODE: u8 = 3;

    const WIDTH: usize = 6;

    ghost CODE = { register_kind.code };

    ghost WIDTH = { register_kind.width };

    ghost rows = { register_kind.readable };

    ghost bytes = { λ v. stamped v.stamp v.offset };

    ghost one = { λ a b. stamped_made (λ s o p q. record { stamp = s; offset = o; stamp_fits = p; offset_fits = q }) a.stamp b.stamp a.offset b.offset a.stamp_fits b.stamp_fits a.offset_fits b.offset_fits };

    fn write(&self, out: &mut [u8]) {
        let [a, b, c, d] = self.stamp.to_be_bytes();
        let [e, f] = self.offset.to_be_bytes();
        byte_rows::write_row(&[a, b, c, d, e, f], out);
    }

    fn read(from: &[u8]) -> Option<Self> {
        byte_rows::read_stamped(from).map(|(stamp, offset)| Register { stamp, offset })
    }
}

impl Value for Register {
    ghost kind = { register_kind };

    ghost coded = { (refl, refl, refl) };

    ghost readable = { Prim.search rules };

    fn same(&self, other: &Self) -> bool {
        self == other
    }

    fn join(&self, other: &Self) -> Self {
        (*self).max(*other)
    }
}
