// Why a place cannot give what is asked: a node that is no flag, a document without exactly one node, a value that is no word, a property that has no
// such content.
#[derive(Clone, Copy, PartialEq, Eq, Debug)]
pub enum Cause {
    Flag,
    OneNode,
    Word,
    Property,
}
