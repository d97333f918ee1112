// Ids: any number of 32 bits.
ghost use Rattle.std.specs.Prelude.{◌≡◌, refl, ℕ, ◌^◌, ◌<◌, Some};
ghost use Rattle.std.specs.Fmt.{decimal};
ghost use Rattle.byte_rows.specs.Rows.{in_bytes};
ghost use Rattle.keys.specs.Keys.{id_kind};
ghost use Rattle.byte_rows.proofs.Ones.{number_made};
ghost use Rattle.std.proofs.Common.{rules};

use kinds::{Coded, Key};
use std::cmp::Ordering;
use std::fmt;

#[derive(Clone, Copy, Debug, PartialEq, Eq, PartialOrd, Ord)]
pub struct Id {
    pub number: u32,
    ghost fits: { number < 2 ^ 32 },
}

impl fmt::Display for Id {
    ghost output = { λ k. Some (decimal k.number) };

    fn fmt<W: fmt::Write>(&self, f: &mut fmt::Formatter<W>) -> fmt::Result {
        write!(f, "{}", self.number)
    }
}

impl Coded for Id {
    const CODE: u8 = 2;

    const WIDTH: usize = 4;

    ghost CODE = { id_kind.code };

    ghost WIDTH = { id_kind.width };

    ghost rows = { id_kind.readable };

    ghost bytes = { λ k. in_bytes 4 k.number };

    ghost one = { λ a b. number_made 4 (λ n h. record { number = n; fits = h }) a.number b.number a.fits b.fits };

    fn write(&self, out: &mut [u8]) {
        byte_rows::write_row(&self.number.to_be_bytes(), out);
    }

    fn read(from: &[u8]) -> Option<Self> {
        byte_rows::read_u32(from).map(|number| Id { number })
    }
}

impl Key for Id {
    ghost kind = { id_kind };

    ghost coded = { (refl, refl, refl) };

    ghost readable = { Prim.search rules };

    fn hash(&self) -> u32 {
        self.number.wrapping_mul(0x9E37_79B9)
    }

    fn order(&self, other: &Self) -> Ordering {
        self.cmp(other)
    }
}
