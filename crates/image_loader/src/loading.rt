// Building the version of an image: every node and every entry is new.
ghost use Rattle.branches.specs.States.{tables_of};
ghost use Rattle.image_loader.specs.Loads.{MayMake, EntryRead};
ghost use Rattle.image_loader.specs.Loads.{MayBuild, NodeBuilt, MayLoad, Loaded};

use super::heads::{past_header, read_head};
use branches::Branch;
use image_reader::{Reader, read_setting};
use kinds::{Key, Value};
use model::END;
use tables::{EntryId, EntryTable, NodeCell, NodeId, Tables, make_entry, make_node};

// A new entry with the key and the value of the entry that comes next.
fn build_entry<K: Key, V: Value>(entries: &mut EntryTable<K, V>, reader: &mut Reader) -> EntryId
    requires { MayMake K.kind V.kind reader.old entries.old }
    ensures { EntryRead K.kind V.kind K.bytes V.bytes reader.old entries.old
        result.0 reader.new entries.new }
{
    let operands = reader.take(K::WIDTH + V::WIDTH);
    let (key, value) = read_setting(operands).unwrap();
    make_entry(entries, key, value)
}

// The node that comes next, with all below it. Its entries and then its children are made in the
// order in which they stand in the image, which is that of their ranks.
fn build_node<K: Key, V: Value>(
    tables: &mut Tables<K, V>,
    reader: &mut Reader,
    height: u8,
) -> NodeId
    requires { MayBuild K.kind V.kind K.bytes V.bytes (tables_of tables.old) reader.old height }
    ensures { NodeBuilt K.kind V.kind K.bytes V.bytes (tables_of tables.old) reader.old height
        result reader.new (tables_of tables.new) }
{
    let (datamap, nodemap) = read_head(reader, height);
    let mut node = NodeCell {
        datamap,
        nodemap,
        level: height,
        ..NodeCell::empty()
    };
    for rank in 0..datamap.count_ones() as usize {
        node.entries[rank] = build_entry(&mut tables.entries, reader).0;
    }
    for rank in 0..nodemap.count_ones() as usize {
        node.children[rank] = build_node(tables, reader, height - 1).0;
    }
    make_node(&mut tables.nodes, node)
}

/// The version of an image: its root.
pub fn load<K: Key, V: Value>(tables: &mut Tables<K, V>, image: &[u8]) -> Branch
    requires { MayLoad K.kind V.kind K.bytes V.bytes (tables_of tables.old) image.now }
    ensures { Loaded K.kind V.kind K.bytes V.bytes (tables_of tables.old) image.now
        result (tables_of tables.new) }
{
    let mut reader = past_header(image);
    if reader.next_byte() == END {
        return Branch::Nothing;
    }
    Branch::Child(build_node(tables, &mut reader, 8))
}
