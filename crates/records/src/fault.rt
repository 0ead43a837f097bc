// Why bytes are refused.
ghost use Rattle.std.specs.Prelude.{◌≡◌, Some};
ghost use Rattle.records.specs.Causes.{cause_text, fault_text};

use std::error::Error;
use std::fmt;

// What is wrong with a record, in the order in which the causes are judged at one place.
#[derive(Clone, Copy, PartialEq, Eq, Debug)]
pub enum Cause {
    Size,
    Missing,
    Length,
    Kind,
    Nesting,
    Body,
    After,
}

impl Cause {
    pub fn text(self) -> &'static str
        ensures { result.now ≡ cause_text self }
    {
        match self {
            Cause::Size => "size",
            Cause::Missing => "missing",
            Cause::Length => "length",
            Cause::Kind => "kind",
            Cause::Nesting => "nesting",
            Cause::Body => "body",
            Cause::After => "after",
        }
    }
}

impl fmt::Display for Cause {
    ghost output = { λ c. Some (cause_text c) };

    fn fmt<W: fmt::Write>(&self, f: &mut fmt::Formatter<W>) -> fmt::Result {
        f.write_str(self.text())
    }
}

// Why bytes are unsound: the offset where a record was expected, and the cause.
#[derive(Clone, Copy, PartialEq, Eq, Debug)]
pub struct RecordFault {
    pub place: u32,
    pub cause: Cause,
}

impl RecordFault {
    // The number of the refusal.
    pub const NUMBER: u8 = 10;
}

impl fmt::Display for RecordFault {
    ghost output = { λ f. Some (fault_text f) };

    fn fmt<W: fmt::Write>(&self, f: &mut fmt::Formatter<W>) -> fmt::Result {
        write!(f, "place {}, cause {}", self.place, self.cause)
    }
}

impl Error for RecordFault {}
