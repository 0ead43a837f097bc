// The answers of checks as text.
ghost use Rattle.std.specs.Prelude.{Some};
ghost use Rattle.common.specs.Answers.{answer_shown};

use records::fault::RecordFault;
use std::fmt::Display;
use std::{fmt, io};

// The answer of a check: two counts, or a refusal.
#[derive(Clone, Copy)]
pub struct Answer {
    pub counts: Result<(u32, u32), RecordFault>,
}

impl Display for Answer {
    ghost output = { λ a. Some (answer_shown a.counts) };

    fn fmt<W: fmt::Write>(&self, f: &mut fmt::Formatter<W>) -> fmt::Result {
        match self.counts {
            Ok((many, inner)) => write!(f, "ok {many} {inner}"),
            Err(fault) => write!(f, "refused {} {}", fault.place, fault.cause),
        }
    }
}

// Prints why something is refused: the number of the refusal, and the fault.
pub fn print_refusal<F: Display + Drop>(
    rt: &HostRuntime,
    what: &str,
    number: u8,
    fault: F,
) -> io::Result<()> {
    println!(rt; "{what}: refused {number}, {fault}")
}
