// What an image and each node in it begin with.
ghost use Rattle.std.specs.Prelude.{◌≡◌, ◌+◌, ◌-◌, ◌^◌, ◌≤◌, length};
ghost use Rattle.image_loader.specs.Heads.{operands, head_width, FewIn, data_in, nodes_in};

use image_reader::{Reader, read_maps};

// How long a header is: its command and three operands.
const HEADER_LENGTH: usize = 4;

// How many bytes of operands a node has, and a collision node.
const MAPS_WIDTH: usize = 4;

const COUNT_WIDTH: usize = 1;

// A reader of an image that has passed the header.
pub(crate) fn past_header(image: &[u8]) -> Reader
    requires { HEADER_LENGTH ≤ length image.now }
    ensures at { result.at ≡ HEADER_LENGTH }
    ensures image { result.image ≡ image.now }
{
    let mut reader = Reader::new(image);
    reader.skip(HEADER_LENGTH);
    reader
}

// So many of the lowest bits.
fn low_bits(count: u8) -> u16
    requires { count ≤ 16 }
    ensures { result ≡ 2 ^ count - 1 }
{
    ((1u32 << count) - 1) as u16
}

// The data map and the node map of the node that comes next. A collision node has no maps in the
// image: a low bit for each entry stands for its data map, and it has no child.
pub(crate) fn read_head(reader: &mut Reader, height: u8) -> (u16, u16)
    requires inside { reader.old.at + (1 + head_width height) ≤ length reader.old.image }
    requires few { FewIn height (operands reader.old (head_width height)) }
    ensures entries { result.0 ≡ data_in height (operands reader.old (head_width height)) }
    ensures children { result.1 ≡ nodes_in height (operands reader.old (head_width height)) }
    ensures onward { reader.new.at ≡ reader.old.at + (1 + head_width height) }
    ensures image { reader.new.image ≡ reader.old.image }
{
    if height == 0 {
        let count = reader.take(COUNT_WIDTH)[0];
        return (low_bits(count), 0);
    }
    read_maps(reader.take(MAPS_WIDTH))
}
