// Every cause with a smallest input, and the sound input beside it.
use crate::build::{entry, ident, node, outside, rows, run as case};
use layout::rows::{EntryRow, NodeRow, Part, ValueRow};
use std::io;
use table_check::source::Source;

fn parts(rt: &HostRuntime) -> io::Result<()> {
    let bare = node(0, 0, false, 0);
    let named = |name| NodeRow { name, ..bare };
    let typed = |ty| NodeRow {
        ty: Some(ty),
        ..bare
    };
    for (what, row) in [
        ("name at the end", named(ident(1, 0))),
        ("name of the whole text", named(ident(0, 1))),
        ("name past the end", named(ident(2, 0))),
        ("name too long", named(ident(1, 1))),
        ("name far outside", named(outside())),
        ("type of the whole text", typed(ident(0, 1))),
        ("type too long", typed(ident(0, 2))),
    ] {
        case(
            rt,
            what,
            Source {
                text: b"a",
                ..rows(&[row], &[])
            },
        )?;
    }
    Ok(())
}

fn lines(rt: &HostRuntime) -> io::Result<()> {
    let null = entry(ValueRow::Null);
    for (what, tables) in [
        (
            "entries in line",
            rows(&[node(0, 1, false, 0), node(1, 1, false, 0)], &[null, null]),
        ),
        (
            "entries not from the start",
            rows(&[node(1, 0, false, 0)], &[null]),
        ),
        ("entries past the end", rows(&[node(0, 1, false, 0)], &[])),
        (
            "entries twice",
            rows(&[node(0, 1, false, 0), node(0, 1, false, 0)], &[null]),
        ),
        (
            "entries passed over",
            rows(&[node(0, 1, false, 0), node(2, 0, false, 0)], &[null, null]),
        ),
        (
            "entries that no node has",
            rows(&[node(0, 1, false, 0)], &[null, null]),
        ),
        ("an entry without nodes", rows(&[], &[null])),
    ] {
        case(rt, what, tables)?;
    }
    Ok(())
}

fn sizes(rt: &HostRuntime) -> io::Result<()> {
    let last = node(0, 0, false, 0);
    let holder = node(0, 0, true, 1);
    for (what, nodes) in [
        ("an empty block", rows(&[node(0, 0, true, 0)], &[])),
        ("a block of one", rows(&[holder, last], &[])),
        ("rows below past the end", rows(&[holder], &[])),
        (
            "rows below without a block",
            rows(&[node(0, 0, false, 1), last], &[]),
        ),
        (
            "rows below past the holder",
            rows(&[holder, holder, last], &[]),
        ),
        (
            "rows below far past the end",
            rows(&[node(0, 0, true, u32::MAX)], &[]),
        ),
    ] {
        case(rt, what, nodes)?;
    }
    Ok(())
}

fn values(rt: &HostRuntime) -> io::Result<()> {
    let null = entry(ValueRow::Null);
    let string = |length| entry(ValueRow::String(Part { start: 0, length }));
    let named = |name| EntryRow {
        name: Some(name),
        ..null
    };
    let typed = |ty| EntryRow {
        ty: Some(ty),
        ..null
    };
    for (what, row) in [
        ("a string", string(1)),
        ("a string outside", string(2)),
        ("no such kind", entry(ValueRow::Unknown(0))),
        ("a property", named(ident(0, 1))),
        ("a property's name outside", named(ident(1, 1))),
        ("an entry's type", typed(ident(0, 1))),
        ("an entry's type outside", typed(ident(1, 1))),
    ] {
        case(
            rt,
            what,
            Source {
                text: b"a",
                ..rows(&[node(0, 1, false, 0)], &[row])
            },
        )?;
    }
    Ok(())
}

pub fn run(rt: &HostRuntime) -> io::Result<()> {
    parts(rt)?;
    lines(rt)?;
    sizes(rt)?;
    values(rt)
}
