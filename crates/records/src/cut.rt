// The head of a record, and what follows the head.
#[derive(Clone, Copy)]
pub struct Mark<'a> {
    pub size: u32,
    pub kind: u16,
    pub rest: &'a [u8],
}

// A record cut off the bytes of its holder: its kind, its body, and what follows it.
#[derive(Clone, Copy)]
pub struct Cut<'a> {
    pub kind: u16,
    pub body: &'a [u8],
    pub rest: &'a [u8],
}
