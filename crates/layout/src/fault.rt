// Where tables are unsound, and why.
use std::error::Error;
use std::fmt;

// The tables in the order in which they are judged.
#[derive(Clone, Copy, PartialEq, Eq, Debug)]
pub enum Table {
    Nodes,
    Entries,
    Text,
}

// What is wrong with a row, in the order in which the causes are judged at one row.
#[derive(Clone, Copy, PartialEq, Eq, Debug)]
pub enum Cause {
    Limit,
    Name,
    Type,
    Value,
    Entries,
    Size,
    Nesting,
}

// Why tables are unsound: the first bad row of the first bad table.
#[derive(Clone, Copy, PartialEq, Eq, Debug)]
pub struct TableFault {
    pub table: Table,
    pub row: u32,
    pub cause: Cause,
}

impl fmt::Display for Table {
    ghost use Rattle.std.specs.Prelude.{Some};
    ghost use Rattle.layout.specs.Words.{table_text};

    ghost output = { λ t. Some (table_text t) };

    fn fmt<W: fmt::Write>(&self, f: &mut fmt::Formatter<W>) -> fmt::Result {
        f.write_str(match self {
            Table::Nodes => "nodes",
            Table::Entries => "entries",
            Table::Text => "text",
        })
    }
}

impl fmt::Display for Cause {
    ghost use Rattle.std.specs.Prelude.{Some};
    ghost use Rattle.layout.specs.Words.{cause_text};

    ghost output = { λ c. Some (cause_text c) };

    fn fmt<W: fmt::Write>(&self, f: &mut fmt::Formatter<W>) -> fmt::Result {
        f.write_str(match self {
            Cause::Limit => "limit",
            Cause::Name => "name",
            Cause::Type => "type",
            Cause::Value => "value",
            Cause::Entries => "entries",
            Cause::Size => "size",
            Cause::Nesting => "nesting",
        })
    }
}

impl TableFault {
    // The number of the refusal.
    pub const NUMBER: u8 = 9;
}

impl fmt::Display for TableFault {
    ghost use Rattle.std.specs.Prelude.{Some};
    ghost use Rattle.layout.specs.Words.{fault_text};

    ghost output = { λ f. Some (fault_text f) };

    fn fmt<W: fmt::Write>(&self, f: &mut fmt::Formatter<W>) -> fmt::Result {
        write!(
            f,
            "table {}, row {}, cause {}",
            self.table, self.row, self.cause
        )
    }
}

impl Error for TableFault {}
