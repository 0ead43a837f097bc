// The calls of a tree at numbers that are no handles, and of a tree made of unsound tables.
use crate::build::{entry, node, rows};
use layout::rows::ValueRow;
use std::io;
use table_check::source::Source;
use tables::held::make::make;
use tree::handle::{EntryHandle, NodeHandle};
use tree::interface::Tree;

// How many kinds of calls give an answer at a number.
fn answers_at<T: Tree>(tree: &T, number: u32) -> usize {
    let n = NodeHandle { number };
    let e = EntryHandle { number };
    let kinds = [
        tree.next_sibling(n).is_some()
            || tree.parent(n).is_some()
            || tree.block(n).is_some()
            || tree.first_entry(n).is_some(),
        tree.name(n).is_some() || tree.node_type(n).is_some() || tree.node_span(n).is_some(),
        tree.next_entry(e).is_some() || tree.node_of(e).is_some(),
        tree.entry_name(e).is_some()
            || tree.entry_type(e).is_some()
            || tree.entry_value(e).is_some()
            || tree.entry_span(e).is_some(),
    ];
    kinds.iter().filter(|answers| **answers).count()
}

fn show(rt: &HostRuntime, case: &str, source: Source<'_>) -> io::Result<()> {
    let tree = make(rt.alloc(), source)?;
    let first = tree.first_node().is_some();
    let zero = answers_at(&tree, 0);
    let past = answers_at(&tree, 1);
    let last = answers_at(&tree, u32::MAX);
    println!(rt;
        "{case}: a first node {first}, kinds of answers at 0, 1 and the last number {zero}, {past}, {last}"
    )
}

pub fn run(rt: &HostRuntime) -> io::Result<()> {
    let entries = [entry(ValueRow::Null)];
    show(
        rt,
        "one node with an entry and a block",
        rows(&[node(0, 1, true, 0)], &entries),
    )?;
    show(
        rt,
        "unsound tables",
        rows(&[node(0, 1, false, 1)], &entries),
    )
}
