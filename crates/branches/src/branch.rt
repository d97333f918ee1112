// What stands at a digit of a node.
use tables::{EntryId, NodeId};

// A part of a map as it hangs below a node: no setting, one as an entry, or more as a child.
#[derive(Clone, Copy)]
pub enum Branch {
    Nothing,
    Entry(EntryId),
    Child(NodeId),
}
