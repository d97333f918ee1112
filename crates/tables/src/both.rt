// The two tables of a store, together.
use super::entries::EntryTable;
use super::nodes::NodeTable;

#[derive(Drop)]
pub struct Tables<'a, K, V> {
    pub nodes: NodeTable<'a>,
    pub entries: EntryTable<'a, K, V>,
}
