// What every kind of key and every kind of value answers: its bytes.
ghost use Rattle.std.specs.Prelude.{◌≡◌, ℕ, Bool, List};
ghost use Rattle.byte_rows.specs.Rows.{Reads, written};

pub trait Coded: Copy {
    // The byte that names the kind in an image.
    const CODE: u8;

    // How many bytes a key or a value has.
    const WIDTH: usize;

    ghost CODE: { ℕ };

    ghost WIDTH: { ℕ };

    // Which rows are its bytes.
    ghost rows: { List ℕ → Bool };

    // Its meaning.
    ghost bytes: { Self → List ℕ };

    // Writes the bytes from the first place of `out` on; where they do not fit, nothing.
    fn write(&self, out: &mut [u8])
        ensures { out.new ≡ written (bytes self.now) out.old };

    fn read(from: &[u8]) -> Option<Self>
        ensures { Reads rows bytes from.now result };

    // What has the same bytes is the same.
    ghost one: { (a b : Self) → bytes a ≡ bytes b → a ≡ b };
}
