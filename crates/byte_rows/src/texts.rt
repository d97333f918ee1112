// Printable texts, their filling and their hash.
ghost use Rattle.std.specs.Prelude.{◌≡◌, ◌≤◌, ◌==◌, true, length, take, position, replicate, if◌then◌else◌, Decides, nat_le};
ghost use Rattle.std.specs.List.{list_all};
ghost use Rattle.std.specs.Char.{is_ascii_graphic};
ghost use Rattle.byte_rows.specs.Texts.{text_of, filled, unfilled, text_row, fnv};

use super::rows::write_row;

fn all_printable(text: &[u8]) -> bool
    ensures { result ≡ list_all is_ascii_graphic text.now }
{
    text.iter().all(|b| b.is_ascii_graphic())
}

// Whether this is a text of 1 to `width` bytes, each from 21 to 7E.
pub fn is_text(text: &[u8], width: usize) -> bool
    ensures { result ≡ text_of width text.now }
{
    1 <= text.len() && text.len() <= width && all_printable(text)
}

// Where the first 00 stands.
fn first_zero(row: &[u8]) -> Option<usize>
    ensures { result ≡ position (λ b. b == 0) row.now }
{
    row.iter().position(|b| *b == 0)
}

// How many bytes stand before the first 00.
fn text_length(row: &[u8]) -> usize
    ensures within { result ≤ length row.now }
    ensures text { take result row.now ≡ unfilled row.now }
{
    first_zero(row).unwrap_or(row.len())
}

// What stands before the first 00.
pub fn text(row: &[u8]) -> &[u8]
    ensures { result.now ≡ unfilled row.now }
{
    &row[..text_length(row)]
}

// Writes a text and fills the rest of `out` with 00; where it does not fit, nothing.
pub fn fill_row(text: &[u8], out: &mut [u8])
    ensures after { out.new ≡ (if nat_le (length text.now) (length out.old) then filled (length out.old) text.now else out.old) }
    ensures reads { text_of (length out.old) text.now ≡ true → text_row (length out.old) out.new ≡ true }
{
    if text.len() <= out.len() {
        out.fill(0);
        write_row(text, out);
    }
}

fn all_zero(row: &[u8]) -> bool
    ensures { Decides result (row.now ≡ replicate (length row.now) 0) }
{
    row.iter().all(|b| *b == 0)
}

// Whether this is a row of `width` bytes, a text and its filling.
pub fn is_text_row(row: &[u8], width: usize) -> bool
    ensures test { result ≡ text_row width row.now }
    ensures long { result ≡ true → length row.now ≡ width }
{
    let length = text_length(row);
    let text = is_text(&row[..length], width);
    let filling = all_zero(&row[length..]);
    text & (row.len() == width) & filling
}

// FNV-1a in 32 bits: each byte in turn is XORed in, and then all is multiplied, modulo 2^32.
pub fn fnv1a(bytes: &[u8]) -> u32
    ensures { result ≡ fnv bytes.now }
{
    let mut hash: u32 = 0x811C_9DC5;
    for byte in bytes {
        hash = (hash ^ u32::from(*byte)).wrapping_mul(0x0100_0193);
    }
    hash
}
