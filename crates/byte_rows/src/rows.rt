// Rows of bytes, compared and written.
ghost use Rattle.std.specs.Prelude.{◌≡◌, true, Decides};
ghost use Rattle.std.specs.Ordering.{MatchOrdering};
ghost use Rattle.byte_rows.specs.Rows.{earlier, written};

use std::cmp::Ordering;

// Whether two rows are the same.
pub fn same_rows(a: &[u8], b: &[u8]) -> bool
    ensures { Decides result (a.now ≡ b.now) }
{
    a == b
}

// The order of two rows by the first byte that differs; a row before every longer one that it begins.
pub fn compare_rows(a: &[u8], b: &[u8]) -> Ordering
    ensures { MatchOrdering result (earlier a.now b.now ≡ true) (a.now ≡ b.now) (earlier b.now a.now ≡ true) }
{
    a.cmp(b)
}

// Writes a row from the first place of `out` on; where it does not fit, nothing.
pub fn write_row(row: &[u8], out: &mut [u8])
    ensures { out.new ≡ written row.now out.old }
{
    let width = row.len();
    if width <= out.len() {
        out[0..width].copy_from_slice(row);
    }
}
