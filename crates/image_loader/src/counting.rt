// How many nodes and entries an image takes: a pass that reads, and changes nothing.
ghost use Rattle.image_loader.specs.Ahead.{NodeAhead};
ghost use Rattle.image_loader.specs.Counts.{NodeCounted, IsImage, CellsCounted};

use super::heads::{past_header, read_head};
use image_reader::Reader;
use kinds::{Key, Value};
use model::END;

// So many cells of the two tables.
#[derive(Clone, Copy)]
pub(crate) struct Cells {
    nodes: usize,
    entries: usize,
}

// The cells of the node that comes next, with all below it. Its entries are passed over.
fn count_node<K: Key, V: Value>(reader: &mut Reader, height: u8) -> Cells
    requires { NodeAhead K.kind V.kind reader.old height }
    ensures { NodeCounted K.kind V.kind reader.old height reader.new result }
{
    let (datamap, nodemap) = read_head(reader, height);
    let entries = datamap.count_ones() as usize;
    reader.skip(entries * (1 + K::WIDTH + V::WIDTH));
    let mut cells = Cells { nodes: 1, entries };
    for _child in 0..nodemap.count_ones() {
        let below = count_node::<K, V>(reader, height - 1);
        cells.nodes += below.nodes;
        cells.entries += below.entries;
    }
    cells
}

/// The nodes and the entries that loading an image takes.
pub fn count_cells<K: Key, V: Value>(image: &[u8]) -> (usize, usize)
    requires { IsImage K.kind V.kind image.now }
    ensures { CellsCounted K.kind V.kind image.now result.0 result.1 }
{
    let mut reader = past_header(image);
    if reader.next_byte() == END {
        return (0, 0);
    }
    let root = count_node::<K, V>(&mut reader, 8);
    (root.nodes, root.entries)
}
