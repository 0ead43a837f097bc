// Every pair of causes at one row whose rank matters: the upper is given.
use crate::build::{chain, entry, node, outside, rows, run as case};
use layout::rows::{EntryRow, NodeRow, ValueRow};
use std::io;

fn named(row: NodeRow) -> NodeRow {
    NodeRow {
        name: outside(),
        ..row
    }
}

fn typed(row: NodeRow) -> NodeRow {
    NodeRow {
        ty: Some(outside()),
        ..row
    }
}

fn entry_named(row: EntryRow) -> EntryRow {
    EntryRow {
        name: Some(outside()),
        ..row
    }
}

fn entry_typed(row: EntryRow) -> EntryRow {
    EntryRow {
        ty: Some(outside()),
        ..row
    }
}

fn at_nodes(rt: &HostRuntime) -> io::Result<()> {
    let bare = node(0, 0, false, 0);
    let over = vec![in rt.alloc(); named(bare); 65_536]?;
    case(rt, "limit and name", rows(&over, &[]))?;
    for (what, row) in [
        ("name and type", named(typed(bare))),
        ("name and entries", named(node(1, 0, false, 0))),
        ("name and size", named(node(0, 0, true, 1))),
        ("type and entries", typed(node(1, 0, false, 0))),
        ("type and size", typed(node(0, 0, true, 1))),
        ("entries and size", node(1, 0, true, 1)),
    ] {
        case(rt, what, rows(&[row], &[]))?;
    }
    Ok(())
}

// The row of nesting 33, with something else wrong in it.
fn at_nesting(rt: &HostRuntime) -> io::Result<()> {
    let bare = node(0, 0, false, 0);
    let mut deep = chain(rt.alloc(), 33)?;
    for (what, row) in [
        ("name and nesting", named(bare)),
        ("type and nesting", typed(bare)),
        ("entries and nesting", node(1, 0, false, 0)),
        ("size and nesting", node(0, 0, false, 1)),
    ] {
        if let Some(last) = deep.last_mut() {
            *last = row;
        }
        case(rt, what, rows(&deep, &[]))?;
    }
    Ok(())
}

fn at_entries(rt: &HostRuntime) -> io::Result<()> {
    let null = entry(ValueRow::Null);
    let odd = entry(ValueRow::Unknown(1));
    let more = vec![in rt.alloc(); odd; 65_536]?;
    case(
        rt,
        "limit and value",
        rows(&[node(0, 65_536, false, 0)], &more),
    )?;
    let one = [node(0, 1, false, 0)];
    let one = one.as_slice();
    for (what, nodes, row) in [
        ("entry's name and type", one, entry_named(entry_typed(odd))),
        ("entry's name and value", one, entry_named(odd)),
        ("entry's name and no node", &[], entry_named(null)),
        ("entry's type and value", one, entry_typed(odd)),
        ("entry's type and no node", &[], entry_typed(null)),
        ("entry's value and no node", &[], odd),
    ] {
        case(rt, what, rows(nodes, &[row]))?;
    }
    Ok(())
}

fn between(rt: &HostRuntime) -> io::Result<()> {
    case(
        rt,
        "node row 1 and entry row 0",
        rows(
            &[node(0, 1, false, 0), node(1, 0, true, 1)],
            &[entry(ValueRow::Unknown(1))],
        ),
    )?;
    case(
        rt,
        "node rows 1 and 2",
        rows(
            &[
                node(0, 1, true, 1),
                named(node(1, 0, false, 0)),
                node(5, 0, false, 0),
            ],
            &[entry(ValueRow::Null)],
        ),
    )
}

pub fn run(rt: &HostRuntime) -> io::Result<()> {
    at_nodes(rt)?;
    at_nesting(rt)?;
    at_entries(rt)?;
    between(rt)
}
