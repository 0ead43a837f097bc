// How far the map of a node is handed out: plain numbers, that can be copied.
use places::item::Item;
use tree::handle::{EntryHandle, NodeHandle};

// The part of the list that comes next. An argument goes by its entry and its number.
#[derive(Clone, Copy)]
pub enum Stage {
    // "#name"
    Name,
    // "#type"
    Type,
    // the arguments from an entry on; first the next one's type
    ArgumentType(Option<EntryHandle>, u32),
    // this argument itself
    Argument(EntryHandle, u32),
    // "#args"
    Args,
    // "#rest"
    Rest,
    // the properties from an entry on; first the next one's value under "#@"
    AtProperty(Option<EntryHandle>),
    // the type of this property
    PropertyType(EntryHandle),
    // this property under its own name
    Property(EntryHandle),
    // the groups of the children from a node on
    Groups(Option<NodeHandle>),
    // the form's names from a position on
    Omissions(u32),
}

// A node as a map, or as a struct where there is a form.
#[derive(Clone, Copy)]
pub struct NodeMapAccess {
    pub node: NodeHandle,
    pub form: Option<u32>,
    pub stage: Stage,
}

// A document as a map: its groups from a node on.
#[derive(Clone, Copy)]
pub struct DocumentMapAccess {
    pub at: Option<NodeHandle>,
}

// One stage: an item and the stage behind it, or only that stage, or the end.
#[derive(Clone, Copy)]
pub enum Turn {
    End,
    Pass(Stage),
    Give(Item, Stage),
}
