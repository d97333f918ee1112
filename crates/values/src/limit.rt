// Limits: a number of 32 bits, of two the larger.
ghost use Rattle.std.specs.Prelude.{◌≡◌, refl, ℕ, ◌<◌, ◌^◌, Some};
ghost use Rattle.std.specs.Fmt.{decimal};
ghost use Rattle.byte_rows.specs.Rows.{in_bytes};
ghost use Rattle.values.specs.Values.{limit_kind};
ghost use Rattle.byte_rows.proofs.Ones.{number_made};
ghost use Rattle.std.proofs.Common.{rules};

use kinds::{Coded, Value};
use std::fmt;

#[derive(Clone, Copy, Debug, PartialEq, Eq, PartialOrd, Ord)]
pub struct Limit {
    pub number: u32,
    ghost fits: { number < 2 ^ 32 },
}

impl fmt::Display for Limit {
    ghost output = { λ v. Some (decimal v.number) };

    fn fmt<W: fmt::Write>(&self, f: &mut fmt::Formatter<W>) -> fmt::Result {
        write!(f, "{}", self.number)
    }
}

impl Coded for Limit {
    const CODE: u8 = 1;

    const WIDTH: usize = 4;

    ghost CODE = { limit_kind.code };

    ghost WIDTH = { limit_kind.width };

    ghost rows = { limit_kind.readable };

    ghost bytes = { λ v. in_bytes 4 v.number };

    ghost one = { λ a b. number_made 4 (λ n h. record { number = n; fits = h }) a.number b.number a.fits b.fits };

    fn write(&self, out: &mut [u8]) {
        byte_rows::write_row(&self.number.to_be_bytes(), out);
    }

    fn read(from: &[u8]) -> Option<Self> {
        byte_rows::read_u32(from).map(|number| Limit { number })
    }
}

impl Value for Limit {
    ghost kind = { limit_kind };

    ghost coded = { (refl, refl, refl) };

    ghost readable = { Prim.search rules };

    fn same(&self, other: &Self) -> bool {
        self == other
    }

    fn join(&self, other: &Self) -> Self {
        (*self).max(*other)
    }
}
