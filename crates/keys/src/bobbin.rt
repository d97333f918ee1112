// Bobbins: a number from 0 to 255.
ghost use Rattle.std.specs.Prelude.{◌≡◌, refl, ℕ, ◌^◌, ◌<◌, Some};
ghost use Rattle.std.specs.Fmt.{decimal};
ghost use Rattle.byte_rows.specs.Rows.{in_bytes};
ghost use Rattle.keys.specs.Keys.{bobbin_kind};
ghost use Rattle.byte_rows.proofs.Ones.{number_made};
ghost use Rattle.std.proofs.Common.{rules};

use kinds::{Coded, Key};
use std::cmp::Ordering;
use std::fmt;

#[derive(Clone, Copy, Debug, PartialEq, Eq, PartialOrd, Ord)]
pub struct Bobbin {
    pub number: u8,
    ghost fits: { number < 2 ^ 8 },
}

impl fmt::Display for Bobbin {
    ghost output = { λ k. Some (decimal k.number) };

    fn fmt<W: fmt::Write>(&self, f: &mut fmt::Formatter<W>) -> fmt::Result {
        write!(f, "{}", self.number)
    }
}

impl Coded for Bobbin {
    const CODE: u8 = 3;

    const WIDTH: usize = 1;

    ghost CODE = { bobbin_kind.code };

    ghost WIDTH = { bobbin_kind.width };

    ghost rows = { bobbin_kind.readable };

    ghost bytes = { λ k. in_bytes 1 k.number };

    ghost one = { λ a b. number_made 1 (λ n h. record { number = n; fits = h }) a.number b.number a.fits b.fits };

    fn write(&self, out: &mut [u8]) {
        byte_rows::write_row(&[self.number], out);
    }

    fn read(from: &[u8]) -> Option<Self> {
        match from {
            [number] => Some(Bobbin { number: *number }),
            _ => None,
        }
    }
}

impl Key for Bobbin {
    ghost kind = { bobbin_kind };

    ghost coded = { (refl, refl, refl) };

    ghost readable = { Prim.search rules };

    fn hash(&self) -> u32 {
        u32::from(self.number % 4)
    }

    fn order(&self, other: &Self) -> Ordering {
        self.cmp(other)
    }
}
