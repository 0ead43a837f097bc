// How many nodes and entries a document has.
#[derive(Clone, Copy, PartialEq, Eq, Debug)]
pub struct Counts {
    pub nodes: u32,
    pub entries: u32,
}
