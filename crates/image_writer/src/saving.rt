// Saving a version.
ghost use Rattle.branches.specs.Asked.{FewPart};
ghost use Rattle.branches.specs.States.{tables_of};
ghost use Rattle.image_writer.specs.Saved.{Saved};

use super::lengths::image_length;
use super::nodes::put_root;
use super::putting::{put_byte, put_row, put_u32};
use branches::{Branch, count};
use kinds::{Key, Refusal, Value};
use model::{EDITION, END, HEADER};
use tables::Tables;

// Writes the image of a version into the buffer from its first byte on, command after command, and answers its length; what lies past the image stays. A buffer that is shorter is refused with 12 and keeps every byte.
pub fn save<K: Key, V: Value>(
    tables: &Tables<K, V>,
    root: Branch,
    out: &mut [u8],
) -> Result<usize, Refusal>
    requires { FewPart K.kind K.bytes V.bytes (tables_of tables.now) root 8 }
    ensures { Saved K.kind V.kind K.bytes V.bytes (tables_of tables.now) root out.old out.new result }
{
    if out.len() < image_length(tables, root) {
        return Err(Refusal::BufferTooShort);
    }
    let header = [HEADER, EDITION, K::CODE, V::CODE];
    let root_at = put_row(out, 0, &header);
    let end_at = put_root(tables, root, out, root_at);
    let number_at = put_byte(out, end_at, END);
    let number = count(tables, root, 8) as u32;
    Ok(put_u32(out, number_at, number))
}
