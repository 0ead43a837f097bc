// Places in the bytes of a format of records.
ghost use Rattle.std.specs.Prelude.{◌+◌, ◌^◌, ◌<◌, length};

// Where reading stands: an offset, and the bytes from there to the end of the record that holds them. Offsets have 32 bits.
#[derive(Clone, Copy)]
pub struct Cursor<'a> {
    pub at: u32,
    pub bytes: &'a [u8],
    ghost fits: { at + length bytes.now < 2 ^ 32 },
}

// A record: its kind, its body, and what follows it in its holder.
#[derive(Clone, Copy)]
pub struct Record<'a> {
    pub kind: u16,
    pub body: Cursor<'a>,
    pub after: Cursor<'a>,
}
