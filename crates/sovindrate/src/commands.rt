// The commands that an image has, as they stand there.
ghost use Rattle.std.specs.Prelude.{◌≡◌, ◌∷◌, ◌++◌, MatchOption, IfOk};
ghost use Rattle.sovindrate.specs.Commands.{command_bytes, BeginWithNone, Listed};

use image_reader::read_setting;
use kinds::{Key, Value};
use model::{COLLISION, END, ENTRY, HEADER, NODE};
use std::alloc::{AllocError, Global};

#[derive(Clone, Copy)]
pub enum Command<K, V> {
    Header {
        edition: u8,
        key_code: u8,
        value_code: u8,
    },
    Node {
        data_map: u16,
        node_map: u16,
    },
    Entry {
        key: K,
        value: V,
    },
    // a collision node with so many entries
    Crowd {
        entries: u8,
    },
    End {
        entries: u32,
    },
}

// A command and its offset.
#[derive(Clone, Copy)]
pub struct Placed<K, V> {
    pub at: usize,
    pub command: Command<K, V>,
}

// The entry whose operands bytes begin with, and what stands behind it.
fn split_entry<K: Key, V: Value>(bytes: &[u8]) -> Option<(Command<K, V>, &[u8])>
    ensures { MatchOption result (BeginWithNone K.bytes V.bytes (ENTRY ∷ bytes.now)) (λ split. ENTRY ∷ bytes.now ≡ command_bytes K.bytes V.bytes split.0 ++ split.1.now) }
{
    let (setting, rest) = bytes.split_at_checked(K::WIDTH + V::WIDTH)?;
    let (key, value) = read_setting::<K, V>(setting)?;
    Some((Command::Entry { key, value }, rest))
}

// The command that bytes begin with, and what stands behind it.
pub fn split_command<K: Key, V: Value>(bytes: &[u8]) -> Option<(Command<K, V>, &[u8])>
    ensures { MatchOption result (BeginWithNone K.bytes V.bytes bytes.now) (λ split. bytes.now ≡ command_bytes K.bytes V.bytes split.0 ++ split.1.now) }
{
    match bytes {
        [HEADER, edition, key_code, value_code, rest @ ..] => {
            let command = Command::Header {
                edition: *edition,
                key_code: *key_code,
                value_code: *value_code,
            };
            Some((command, rest))
        }
        [NODE, a, b, c, d, rest @ ..] => {
            let data_map = u16::from_be_bytes([*a, *b]);
            let node_map = u16::from_be_bytes([*c, *d]);
            Some((Command::Node { data_map, node_map }, rest))
        }
        [ENTRY, rest @ ..] => split_entry(rest),
        [COLLISION, entries, rest @ ..] => Some((Command::Crowd { entries: *entries }, rest)),
        [END, a, b, c, d, rest @ ..] => {
            let entries = u32::from_be_bytes([*a, *b, *c, *d]);
            Some((Command::End { entries }, rest))
        }
        _ => None,
    }
}

// The commands that stand one after another from where bytes begin, as far as there are any.
pub fn commands<K: Key, V: Value>(
    heap: Global,
    bytes: &[u8],
) -> Result<Vec<Placed<K, V>>, AllocError>
    ensures { IfOk result (λ all. Listed K.bytes V.bytes 0 bytes.now all.items) }
{
    let mut all = Vec::new(heap);
    let mut rest = bytes;
    while let Some((command, after)) = split_command::<K, V>(rest) {
        let at = bytes.len() - rest.len();
        all.push(Placed { at, command })?;
        rest = after;
    }
    Ok(all)
}
