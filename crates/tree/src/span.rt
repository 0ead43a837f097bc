// Where things stood in the file, and the names that the tree lends.
ghost use Rattle.std.specs.Prelude.{Some};
ghost use Rattle.tree.specs.Shown.{span_text};

use std::fmt;

// Where a thing stood in the file: the offset of its first byte, and how many bytes it has.
#[derive(Clone, Copy, PartialEq, Eq, Debug)]
pub struct Span {
    pub start: u32,
    pub length: u32,
}

impl fmt::Display for Span {
    ghost output = { λ s. Some (span_text s) };

    fn fmt<W: fmt::Write>(&self, f: &mut fmt::Formatter<W>) -> fmt::Result {
        write!(f, "{}+{}", self.start, self.length)
    }
}

// A name or a type: its bytes, lent by the tree, and where they stood in the file.
#[derive(Clone, Copy)]
pub struct Identifier<'a> {
    pub bytes: &'a [u8],
    pub span: Span,
}
