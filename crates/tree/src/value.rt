// An integer of up to 128 bits: high * 2^64 + low.
#[derive(Clone, Copy, PartialEq, Eq, Debug)]
pub struct Integer {
    pub high: i64,
    pub low: u64,
}

// What an entry holds. A string's bytes are lent by the tree; a float is its 64 bits.
#[derive(Clone, Copy)]
pub enum Value<'a> {
    Null,
    String(&'a [u8]),
    Integer(Integer),
    Float(u64),
    Bool(bool),
}
