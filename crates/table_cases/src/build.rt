// Rows and verdicts of cases.
use layout::fault::TableFault;
use layout::rows::{EntryRow, IdentRow, NodeRow, Part, ValueRow};
use std::alloc::{AllocError, Global};
use std::io;
use table_check::check::check;
use table_check::source::Source;
use tree::counts::Counts;
use tree::span::Span;

pub fn ident(start: u32, length: u32) -> IdentRow {
    IdentRow {
        part: Part { start, length },
        span: Span {
            start: 0,
            length: 0,
        },
    }
}

// A part that lies in no text of these cases.
pub fn outside() -> IdentRow {
    ident(u32::MAX, u32::MAX)
}

pub fn node(entries_start: u32, entries_count: u32, block: bool, below: u32) -> NodeRow {
    NodeRow {
        name: ident(0, 0),
        ty: None,
        span: Span {
            start: 0,
            length: 0,
        },
        entries_start,
        entries_count,
        block,
        below,
    }
}

pub fn entry(value: ValueRow) -> EntryRow {
    EntryRow {
        name: None,
        ty: None,
        value,
        span: Span {
            start: 0,
            length: 0,
        },
    }
}

// Nodes in one another, the last without a block.
pub fn chain(heap: Global, count: u32) -> Result<Vec<NodeRow>, AllocError> {
    (0..count)
        .rev()
        .map(|below| node(0, 0, below > 0, below))
        .collect(heap)
}

// Tables without a text.
pub fn rows<'a>(nodes: &'a [NodeRow], entries: &'a [EntryRow]) -> Source<'a> {
    Source {
        text: b"",
        nodes,
        entries,
    }
}

// Prints the verdict on tables.
pub fn run(rt: &HostRuntime, case: &str, source: Source<'_>) -> io::Result<()> {
    match check(source) {
        Ok(Counts { nodes, entries }) => {
            println!(rt; "{case}: {nodes} nodes, {entries} entries")
        }
        Err(TableFault { table, row, cause }) => {
            let number = TableFault::NUMBER;
            println!(rt; "{case}: refused {number}, {table} row {row}, {cause}")
        }
    }
}
