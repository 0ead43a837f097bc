// An item of a map: a key, and the place of its value.
use super::place::Place;
use tree::handle::{EntryHandle, NodeHandle};

// The kinds of keys, in the order in which they come in a list.
#[derive(Clone, Copy, PartialEq, Eq, Debug)]
pub enum KeyKind {
    Name,
    Type,
    ArgumentType,
    Argument,
    Args,
    Rest,
    AtProperty,
    AtPropertyType,
    Property,
    Group,
    Omission,
}

// Where the name in a key comes from: a node's name, an entry's, or a position of a form.
#[derive(Clone, Copy, PartialEq, Eq, Debug)]
pub enum Part {
    Nothing,
    Node(NodeHandle),
    Entry(EntryHandle),
    Form(u32, u32),
}

// The number is an argument's, or an omission's position in the form.
#[derive(Clone, Copy, PartialEq, Eq, Debug)]
pub struct Key {
    pub kind: KeyKind,
    pub number: u32,
    pub part: Part,
}

#[derive(Clone, Copy, PartialEq, Eq, Debug)]
pub struct Item {
    pub key: Key,
    pub place: Place,
}
