// Writing the nodes of a version, from the root down.
ghost use Rattle.std.specs.Prelude.{◌≡◌, ◌+◌, ◌≤◌, length};
ghost use Rattle.branches.specs.States.{tables_of};
ghost use Rattle.branches.specs.declared.branch.Branch.TheVariants.{Child};
ghost use Rattle.model.specs.Images.{node, root as root_bytes};
ghost use Rattle.image_writer.specs.Puts.{Puts};
ghost use Rattle.image_writer.specs.Nodes.{head, EntriesHaveRoom, EntriesWritten, HasRoom, Written};

use super::putting::{put_byte, put_setting, put_u16};
use branches::{Branch, setting_of};
use kinds::{Key, Value};
use model::{COLLISION, NODE};
use tables::{EntryId, NodeCell, NodeId, Tables};

// What a node begins with: its two maps, or at the deepest level the number of its entries.
fn put_head(out: &mut [u8], at: usize, cell: &NodeCell, level: u8) -> usize
    requires { at + length (head level cell.now) ≤ length out.old }
    ensures { Puts out.old out.new at (head level cell.now) result }
{
    if level == 0 {
        let next = put_byte(out, at, COLLISION);
        return put_byte(out, next, cell.datamap.count_ones() as u8);
    }
    let data_at = put_byte(out, at, NODE);
    let nodes_at = put_u16(out, data_at, cell.datamap);
    put_u16(out, nodes_at, cell.nodemap)
}

// The entries of a row, by rank.
fn put_entries<K: Key, V: Value>(
    tables: &Tables<K, V>,
    row: &[u16],
    out: &mut [u8],
    at: usize,
) -> usize
    requires { EntriesHaveRoom K.kind V.kind K.bytes V.bytes (tables_of tables.now) row.now at (length out.old) }
    ensures { EntriesWritten K.kind K.bytes V.bytes (tables_of tables.now) row.now out.old at out.new result }
{
    let mut next = at;
    for entry in row {
        let (key, value) = setting_of(&tables.entries, EntryId(*entry));
        next = put_setting(out, next, &key, &value);
    }
    next
}

// A node with all below it: its head, its entries and then its children, by rank.
fn put_node<K: Key, V: Value>(
    tables: &Tables<K, V>,
    id: NodeId,
    level: u8,
    out: &mut [u8],
    at: usize,
) -> usize
    requires { HasRoom K.kind K.bytes V.bytes (tables_of tables.now) (Child id) level (node K.kind level) at (length out.old) }
    ensures { Written K.kind K.bytes V.bytes (tables_of tables.now) (Child id) level (node K.kind level) out.old at out.new result }
{
    let cell = tables.nodes.cells[id.0 as usize];
    let entries_at = put_head(out, at, &cell, level);
    let mut next = put_entries(tables, cell.singles(), out, entries_at);
    for child in cell.kids() {
        next = put_node(tables, NodeId(*child), level - 1, out, next);
    }
    next
}

// The nodes of a version: none, or the root with all below it.
pub(crate) fn put_root<K: Key, V: Value>(
    tables: &Tables<K, V>,
    root: Branch,
    out: &mut [u8],
    at: usize,
) -> usize
    requires { HasRoom K.kind K.bytes V.bytes (tables_of tables.now) root 8 (root_bytes K.kind) at (length out.old) }
    ensures { Written K.kind K.bytes V.bytes (tables_of tables.now) root 8 (root_bytes K.kind) out.old at out.new result }
{
    match root {
        Branch::Child(id) => put_node(tables, id, 8, out, at),
        _ => at,
    }
}
