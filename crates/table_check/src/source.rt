use layout::rows::{EntryRow, NodeRow};

// Tables as they are handed in: a text, node rows in document order, and entry rows. Any numbers may stand in them.
#[derive(Clone, Copy)]
pub struct Source<'a> {
    pub text: &'a [u8],
    pub nodes: &'a [NodeRow],
    pub entries: &'a [EntryRow],
}
