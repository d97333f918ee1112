// Paths: names of 1 to 24 printable bytes.
ghost use Rattle.std.specs.Prelude.{◌≡◌, refl, true, Some};
ghost use Rattle.byte_rows.specs.Texts.{text_row, unfilled};
ghost use Rattle.keys.specs.Keys.{path_kind};
ghost use Rattle.keys.specs.Making.{Makes};
ghost use Rattle.byte_rows.proofs.Ones.{row_made};
ghost use Rattle.std.proofs.Common.{rules};

use kinds::{Coded, Key, Refusal};
use std::cmp::Ordering;
use std::fmt;

// The text of the path, filled with 00.
#[derive(Clone, Copy, Debug, PartialEq, Eq, PartialOrd, Ord)]
pub struct Path {
    filled: [u8; 24],
    ghost text_and_filling: { text_row 24 filled ≡ true },
}

impl Path {
    // A path of 1 to 24 bytes, each from 21 to 7E, or refusal 1.
    pub fn new(text: &[u8]) -> Result<Path, Refusal>
        ensures { Makes (λ p. p.filled) text.now result }
    {
        if !byte_rows::is_text(text, Path::WIDTH) {
            return Err(Refusal::NotAPath);
        }
        let mut filled = [0; 24];
        byte_rows::fill_row(text, &mut filled);
        Ok(Path { filled })
    }

    // The bytes of the path without the filling.
    pub fn text(&self) -> &[u8]
        ensures { result.now ≡ unfilled self.now.filled }
    {
        byte_rows::text(&self.filled)
    }
}

impl fmt::Display for Path {
    ghost output = { λ k. Some (unfilled k.filled) };

    fn fmt<W: fmt::Write>(&self, f: &mut fmt::Formatter<W>) -> fmt::Result {
        f.write_str(str::from_utf8(self.text()).unwrap())
    }
}

impl Coded for Path {
    const CODE: u8 = 1;

    const WIDTH: usize = 24;

    ghost CODE = { path_kind.code };

    ghost WIDTH = { path_kind.width };

    ghost rows = { path_kind.readable };

    ghost bytes = { λ k. k.filled };

    ghost one = { λ a b. row_made (text_row 24) (λ row h. record { filled = row; text_and_filling = h }) a.filled b.filled a.text_and_filling b.text_and_filling };

    fn write(&self, out: &mut [u8]) {
        byte_rows::write_row(&self.filled, out);
    }

    fn read(from: &[u8]) -> Option<Self> {
        if !byte_rows::is_text_row(from, Self::WIDTH) {
            return None;
        }
        let mut filled = [0; 24];
        filled.copy_from_slice(from);
        Some(Path { filled })
    }
}

impl Key for Path {
    ghost kind = { path_kind };

    ghost coded = { (refl, refl, refl) };

    ghost readable = { Prim.search rules };

    fn hash(&self) -> u32 {
        byte_rows::fnv1a(self.text())
    }

    fn order(&self, other: &Self) -> Ordering {
        self.cmp(other)
    }
}
