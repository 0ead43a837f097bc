use tree::handle::{EntryHandle, NodeHandle};

// What leads on from a node: the node that holds it, the sibling after it, the first node of its block, and its first entry.
// Without a block `block` is None; an empty block is Some(None).
#[derive(Clone, Copy)]
pub struct NodeLink {
    pub parent: Option<NodeHandle>,
    pub next: Option<NodeHandle>,
    pub block: Option<Option<NodeHandle>>,
    pub entry: Option<EntryHandle>,
}

// What leads on from an entry: its node, and the entry after it in that node.
#[derive(Clone, Copy)]
pub struct EntryLink {
    pub node: NodeHandle,
    pub next: Option<EntryHandle>,
}
