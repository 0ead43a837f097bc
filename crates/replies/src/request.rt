// What a place is asked for. A struct goes by the number of its form; seq stands for tuple too.
#[derive(Clone, Copy, PartialEq, Eq, Debug)]
pub enum Request {
    Any,
    Bool,
    Option,
    Unit,
    Newtype,
    Seq,
    Map,
    Struct(u32),
    Enum,
}
