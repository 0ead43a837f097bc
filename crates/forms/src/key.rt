// A key that the names of a form are compared with: its kind, with an argument's number or the bytes of its part, a name of the tree; the bytes of
// the whole key are written nowhere.
#[derive(Clone, Copy, PartialEq, Eq, Debug)]
pub enum Spelled<'a> {
    Name,
    Type,
    ArgumentType(u32),
    Argument(u32),
    Args,
    Rest,
    // of a property's name
    AtProperty(&'a [u8]),
    AtPropertyType(&'a [u8]),
    // a name as it stands: a property's or a child's own
    Plain(&'a [u8]),
}
