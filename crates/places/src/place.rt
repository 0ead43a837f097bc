// What may be asked, by the handles of a tree.
use tree::handle::{EntryHandle, NodeHandle};

// A group goes by its first node; the rest of a node's arguments are those whose number the form does not ask for.
#[derive(Clone, Copy, PartialEq, Eq, Debug)]
pub enum Place {
    Omission,
    Document,
    Node(NodeHandle),
    Value(EntryHandle),
    NodeName(NodeHandle),
    NodeType(NodeHandle),
    EntryType(EntryHandle),
    Group(NodeHandle),
    Arguments(NodeHandle),
    Rest(NodeHandle, u32),
}
