// Flag sets: 32 flags, of two every flag that either has.
ghost use Rattle.std.specs.Prelude.{◌≡◌, refl, ℕ, ◌<◌, ◌^◌, Some};
ghost use Rattle.byte_rows.specs.Rows.{in_bytes};
ghost use Rattle.values.specs.Shown.{hex_8};
ghost use Rattle.values.specs.Values.{flags_kind};
ghost use Rattle.byte_rows.proofs.Ones.{number_made};
ghost use Rattle.std.proofs.Common.{rules};

use kinds::{Coded, Value};
use std::fmt;

#[derive(Clone, Copy, Debug, PartialEq, Eq)]
pub struct Flags {
    pub set: u32,
    ghost fits: { «set» < 2 ^ 32 },
}

impl fmt::Display for Flags {
    ghost output = { λ v. Some (hex_8 v.«set») };

    fn fmt<W: fmt::Write>(&self, f: &mut fmt::Formatter<W>) -> fmt::Result {
        write!(f, "{:08X}", self.set)
    }
}

impl Coded for Flags {
    const CODE: u8 = 2;

    const WIDTH: usize = 4;

    ghost CODE = { flags_kind.code };

    ghost WIDTH = { flags_kind.width };

    ghost rows = { flags_kind.readable };

    ghost bytes = { λ v. in_bytes 4 v.«set» };

    ghost one = { λ a b. number_made 4 (λ n h. record { «set» = n; fits = h }) a.«set» b.«set» a.fits b.fits };

    fn write(&self, out: &mut [u8]) {
        byte_rows::write_row(&self.set.to_be_bytes(), out);
    }

    fn read(from: &[u8]) -> Option<Self> {
        byte_rows::read_u32(from).map(|set| Flags { set })
    }
}

impl Value for Flags {
    ghost kind = { flags_kind };

    ghost coded = { (refl, refl, refl) };

    ghost readable = { Prim.search rules };

    fn same(&self, other: &Self) -> bool {
        self == other
    }

    fn join(&self, other: &Self) -> Self {
        Flags {
            set: self.set | other.set,
        }
    }
}
