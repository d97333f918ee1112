// Which command is due: that follows from the commands already read.
ghost use Rattle.std.specs.Prelude.{◌≡◌};
ghost use Rattle.image_reader.specs.Dues.{width_of};

use kinds::{Key, Value};
use model::{COLLISION, END, ENTRY, HEADER, NODE};

// What is still due, as the commands already read have it.
#[derive(Clone, Copy)]
pub(crate) enum Due {
    // the header
    Header,
    // the root, or the end
    RootOrEnd,
    // in a node of this height: so many entries, and after them so many children
    InNode {
        height: u8,
        entries: u32,
        children: u32,
    },
    // in a collision node: so many entries
    InCollision {
        entries: u8,
    },
    // the end
    End,
}

// How many bytes of operands a command has, if it is due.
pub(crate) fn due_width<K: Key, V: Value>(due: Due, byte: u8) -> Option<usize>
    ensures { result ≡ width_of K.kind V.kind due byte }
{
    match (due, byte) {
        (Due::Header, HEADER) => Some(3),
        (Due::RootOrEnd, NODE | END) => Some(4),
        (Due::InNode { entries: 1.., .. }, ENTRY) => Some(K::WIDTH + V::WIDTH),
        (
            Due::InNode {
                height: 1,
                entries: 0,
                children: 1..,
            },
            COLLISION,
        ) => Some(1),
        (
            Due::InNode {
                height: 2..,
                entries: 0,
                children: 1..,
            },
            NODE,
        ) => Some(4),
        (Due::InCollision { entries: 1.. }, ENTRY) => Some(K::WIDTH + V::WIDTH),
        (Due::End, END) => Some(4),
        _ => None,
    }
}
