use records::cursor::Cursor;

// Of a node: where its entries may stand, and what follows the node.
#[derive(Clone, Copy)]
pub struct Fore<'a> {
    pub rest: Cursor<'a>,
    pub after: Cursor<'a>,
}
