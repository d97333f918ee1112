// How long an image is.
ghost use Rattle.branches.specs.Asked.{FewPart};
ghost use Rattle.branches.specs.States.{tables_of};
ghost use Rattle.branches.specs.declared.branch.Branch.TheVariants.{Child};
ghost use Rattle.model.specs.Images.{node, image};
ghost use Rattle.image_writer.specs.Nodes.{Measured};

use branches::Branch;
use kinds::{Key, Value};
use tables::{NodeId, Tables};

// What an image takes beside its nodes, and a node before its entries.
const HEADER_AND_END: usize = 9;

const NODE_HEAD: usize = 5;

const COLLISION_HEAD: usize = 2;

// The length of a node, with all below it. It reads each node of the part once.
fn node_length<K: Key, V: Value>(tables: &Tables<K, V>, id: NodeId, level: u8) -> usize
    requires { FewPart K.kind K.bytes V.bytes (tables_of tables.now) (Child id) level }
    ensures { Measured K.kind K.bytes V.bytes (tables_of tables.now) (Child id) level (node K.kind level) result }
{
    let cell = tables.nodes.cells[id.0 as usize];
    let head = if level == 0 {
        COLLISION_HEAD
    } else {
        NODE_HEAD
    };
    let entry = 1 + K::WIDTH + V::WIDTH;
    let mut length = head + cell.singles().len() * entry;
    for child in cell.kids() {
        length += node_length(tables, NodeId(*child), level - 1);
    }
    length
}

// The length of the image of a version.
pub(crate) fn image_length<K: Key, V: Value>(tables: &Tables<K, V>, root: Branch) -> usize
    requires { FewPart K.kind K.bytes V.bytes (tables_of tables.now) root 8 }
    ensures { Measured K.kind K.bytes V.bytes (tables_of tables.now) root 8 (image K.kind V.kind) result }
{
    match root {
        Branch::Child(id) => HEADER_AND_END + node_length(tables, id, 8),
        _ => HEADER_AND_END,
    }
}
