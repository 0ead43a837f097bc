use tree::span::Span;
use tree::value::Integer;

// A part of the text: the bytes from `start` on, `length` of them.
#[derive(Clone, Copy)]
pub struct Part {
    pub start: u32,
    pub length: u32,
}

// A name or a type: the part of the text that spells it, and where it stood in the file.
#[derive(Clone, Copy)]
pub struct IdentRow {
    pub part: Part,
    pub span: Span,
}

// A node. Its entries are the rows of the entry table from `entries_start` on, `entries_count` of them;
// the nodes of its block, and those in their blocks, are the `below` node rows that follow it.
#[derive(Clone, Copy)]
pub struct NodeRow {
    pub name: IdentRow,
    pub ty: Option<IdentRow>,
    pub span: Span,
    pub entries_start: u32,
    pub entries_count: u32,
    pub block: bool,
    pub below: u32,
}

// What an entry row says of its value. `Unknown` is any kind that is none of the five; no sound table has one.
#[derive(Clone, Copy)]
pub enum ValueRow {
    Null,
    String(Part),
    Integer(Integer),
    Float(u64),
    Bool(bool),
    Unknown(u32),
}

// An argument, or, with a name, a property.
#[derive(Clone, Copy)]
pub struct EntryRow {
    pub name: Option<IdentRow>,
    pub ty: Option<IdentRow>,
    pub value: ValueRow,
    pub span: Span,
}
