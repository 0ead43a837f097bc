// A locker bank, as tables over the text of its file.
use layout::rows::{EntryRow, IdentRow, NodeRow, Part, ValueRow};
use tree::span::Span;
use tree::value::Integer;

pub const TEXT: &[u8] =
    b"bank 17 street=\"Oak Lane\" street=\"Elm Street 5\" {\n    door 1 size=\"s\"\n    door 2 size=\"m\" note=#null\n    (north)door 3 size=\"l\" cool=#true\n    door 4 size=\"m\" rate=(eur)0.25 {}\n    lit\n}\n";

// A name or a type, which the text spells where it stood in the file.
fn ident(start: u32, length: u32) -> IdentRow {
    IdentRow {
        part: Part { start, length },
        span: Span { start, length },
    }
}

fn string(start: u32, length: u32) -> ValueRow {
    ValueRow::String(Part { start, length })
}

fn integer(low: u64) -> ValueRow {
    ValueRow::Integer(Integer { high: 0, low })
}

fn argument(start: u32, length: u32, value: ValueRow) -> EntryRow {
    EntryRow {
        name: None,
        ty: None,
        value,
        span: Span { start, length },
    }
}

// A property, which starts with its name.
fn property(name: IdentRow, length: u32, value: ValueRow) -> EntryRow {
    EntryRow {
        name: Some(name),
        ty: None,
        value,
        span: Span {
            start: name.span.start,
            length,
        },
    }
}

// A node without a block, which starts with its name.
fn leaf(name: IdentRow, length: u32, entries_start: u32, entries_count: u32) -> NodeRow {
    NodeRow {
        name,
        ty: None,
        span: Span {
            start: name.span.start,
            length,
        },
        entries_start,
        entries_count,
        block: false,
        below: 0,
    }
}

pub fn nodes() -> [NodeRow; 6] {
    [
        NodeRow {
            block: true,
            below: 5,
            ..leaf(ident(0, 4), 186, 0, 3)
        },
        leaf(ident(54, 4), 15, 3, 2),
        leaf(ident(74, 4), 26, 5, 3),
        NodeRow {
            ty: Some(ident(106, 5)),
            span: Span {
                start: 105,
                length: 33,
            },
            ..leaf(ident(112, 4), 33, 8, 3)
        },
        NodeRow {
            block: true,
            ..leaf(ident(143, 4), 33, 11, 3)
        },
        leaf(ident(181, 3), 3, 14, 0),
    ]
}

pub fn entries() -> [EntryRow; 14] {
    [
        argument(5, 2, integer(17)),
        property(ident(8, 6), 17, string(16, 8)),
        property(ident(26, 6), 21, string(34, 12)),
        argument(59, 1, integer(1)),
        property(ident(61, 4), 8, string(67, 1)),
        argument(79, 1, integer(2)),
        property(ident(81, 4), 8, string(87, 1)),
        property(ident(90, 4), 10, ValueRow::Null),
        argument(117, 1, integer(3)),
        property(ident(119, 4), 8, string(125, 1)),
        property(ident(128, 4), 10, ValueRow::Bool(true)),
        argument(148, 1, integer(4)),
        property(ident(150, 4), 8, string(156, 1)),
        EntryRow {
            ty: Some(ident(165, 3)),
            ..property(ident(159, 4), 14, ValueRow::Float(0x3fd0000000000000))
        },
    ]
}
