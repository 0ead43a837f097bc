// What the variant of an enum is asked for.
#[derive(Clone, Copy, PartialEq, Eq, Debug)]
pub enum Content {
    Unit,
    Newtype,
    Tuple,
    Struct,
}
