// Writing into the rest of a lent buffer, from an offset on. Each answers the offset after what it wrote.
ghost use Rattle.std.specs.Prelude.{◌≡◌, ◌+◌, ◌≤◌, ◌∷◌, [], length};
ghost use Rattle.byte_rows.specs.Rows.{in_bytes};
ghost use Rattle.model.specs.Images.{entry};
ghost use Rattle.image_writer.specs.Puts.{Puts};

use byte_rows::write_row;
use kinds::{Coded, Key, Value};
use model::ENTRY;

// A row of bytes.
pub(crate) fn put_row(out: &mut [u8], at: usize, row: &[u8]) -> usize
    requires { at + length row.now ≤ length out.old }
    ensures { Puts out.old out.new at row.now result }
{
    write_row(row, &mut out[at..]);
    at + row.len()
}

// One byte.
pub(crate) fn put_byte(out: &mut [u8], at: usize, byte: u8) -> usize
    requires { at + 1 ≤ length out.old }
    ensures { Puts out.old out.new at (byte ∷ []) result }
{
    put_row(out, at, &[byte])
}

// Two bytes, highest first.
pub(crate) fn put_u16(out: &mut [u8], at: usize, number: u16) -> usize
    requires { at + 2 ≤ length out.old }
    ensures { Puts out.old out.new at (in_bytes 2 number) result }
{
    put_row(out, at, &number.to_be_bytes())
}

// Four bytes, highest first.
pub(crate) fn put_u32(out: &mut [u8], at: usize, number: u32) -> usize
    requires { at + 4 ≤ length out.old }
    ensures { Puts out.old out.new at (in_bytes 4 number) result }
{
    put_row(out, at, &number.to_be_bytes())
}

// A key or a value.
fn put_coded<C: Coded>(out: &mut [u8], at: usize, coded: &C) -> usize
    requires wide { length (C.bytes coded.now) ≡ C.WIDTH }
    requires room { at + C.WIDTH ≤ length out.old }
    ensures { Puts out.old out.new at (C.bytes coded.now) result }
{
    coded.write(&mut out[at..]);
    at + C::WIDTH
}

// An entry, with its command.
pub(crate) fn put_setting<K: Key, V: Value>(out: &mut [u8], at: usize, key: &K, value: &V) -> usize
    requires { at + (1 + (K.kind.width + V.kind.width)) ≤ length out.old }
    ensures { Puts out.old out.new at (entry (record { key = K.bytes key.now; value = V.bytes value.now })) result }
{
    let key_at = put_byte(out, at, ENTRY);
    let value_at = put_coded(out, key_at, key);
    put_coded(out, value_at, value)
}
