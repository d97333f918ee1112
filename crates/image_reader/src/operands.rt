// What the operands of commands stand for: the maps of a node, the key and the value of an entry,
// the number of the end.
ghost use Rattle.std.specs.Prelude.{◌≡◌, ◌+◌, length, take, drop};
ghost use Rattle.byte_rows.specs.Rows.{number};
ghost use Rattle.image_reader.specs.Operands.{SettingIn};

use kinds::{Key, Value};

/// The data map and the node map of a node, in the four bytes of operands of its command.
pub fn read_maps(operands: &[u8]) -> (u16, u16)
    requires { length operands.now ≡ 4 }
    ensures data { result.0 ≡ number (take 2 operands.now) }
    ensures nodes { result.1 ≡ number (drop 2 operands.now) }
{
    let datamap = u16::from_be_bytes([operands[0], operands[1]]);
    let nodemap = u16::from_be_bytes([operands[2], operands[3]]);
    (datamap, nodemap)
}

/// The key and the value in the operands of an entry; `None` where they are not both readable.
pub fn read_setting<K: Key, V: Value>(operands: &[u8]) -> Option<(K, V)>
    requires { length operands.now ≡ K.kind.width + V.kind.width }
    ensures { SettingIn K.kind V.kind K.bytes V.bytes operands.now result }
{
    let (key, value) = operands.split_at(K::WIDTH);
    Some((K::read(key)?, V::read(value)?))
}

// The number of entries that the end has.
pub(crate) fn read_count(operands: &[u8]) -> u32
    requires { length operands.now ≡ 4 }
    ensures { result ≡ number operands.now }
{
    u32::from_be_bytes([operands[0], operands[1], operands[2], operands[3]])
}
