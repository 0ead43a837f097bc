// Both sides of every limit.
use crate::build::{chain, entry, node, rows, run as case};
use layout::rows::ValueRow;
use std::io;
use table_check::source::Source;

fn counts(rt: &HostRuntime) -> io::Result<()> {
    let heap = rt.alloc();
    let most = vec![in heap; node(0, 0, false, 0); 65_535]?;
    case(rt, "most nodes", rows(&most, &[]))?;
    let over = vec![in heap; node(0, 0, false, 0); 65_536]?;
    case(rt, "a node too many", rows(&over, &[]))?;
    let all = vec![in heap; entry(ValueRow::Null); 65_535]?;
    case(rt, "most entries", rows(&[node(0, 65_535, false, 0)], &all))?;
    let more = vec![in heap; entry(ValueRow::Null); 65_536]?;
    case(
        rt,
        "an entry too many",
        rows(&[node(0, 65_536, false, 0)], &more),
    )
}

fn texts(rt: &HostRuntime) -> io::Result<()> {
    let heap = rt.alloc();
    let bare = [node(0, 0, false, 0)];
    let most = vec![in heap; 0u8; 1_048_576]?;
    case(
        rt,
        "longest text",
        Source {
            text: &most,
            ..rows(&bare, &[])
        },
    )?;
    let over = vec![in heap; 0u8; 1_048_577]?;
    case(
        rt,
        "a byte too many",
        Source {
            text: &over,
            ..rows(&bare, &[])
        },
    )?;
    case(
        rt,
        "a byte too many and an unknown value",
        Source {
            text: &over,
            ..rows(&[node(0, 1, false, 0)], &[entry(ValueRow::Unknown(6))])
        },
    )
}

fn nesting(rt: &HostRuntime) -> io::Result<()> {
    let heap = rt.alloc();
    let deepest = chain(heap, 32)?;
    case(rt, "nesting 32", rows(&deepest, &[]))?;
    let mut empty = chain(heap, 32)?;
    if let Some(last) = empty.last_mut() {
        last.block = true;
    }
    case(rt, "nesting 32 with an empty block", rows(&empty, &[]))?;
    let over = chain(heap, 33)?;
    case(rt, "nesting 33", rows(&over, &[]))
}

pub fn run(rt: &HostRuntime) -> io::Result<()> {
    case(rt, "no rows", rows(&[], &[]))?;
    counts(rt)?;
    texts(rt)?;
    nesting(rt)
}
