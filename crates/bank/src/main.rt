// Opens a locker bank's tree and prints all that it did.
#![tactic(auto)]

mod opened;
mod sample;
mod show;

use common::answer::print_refusal;
use layout::fault::TableFault;
use layout::rows::NodeRow;
use opened::{open_damaged, open_image};
use show::show;
use std::{env, fs, io};
use table_check::check::check;
use table_check::source::Source;
use tables::held::make::make;
use tree::counts::Counts;

fn open(rt: &HostRuntime, what: &str, source: Source<'_>) -> io::Result<()> {
    match check(source) {
        Ok(Counts { nodes, entries }) => {
            println!(rt; "{what}: checked, {nodes} nodes and {entries} entries")?;
            let tree = make(rt.alloc(), source)?;
            show(rt, &tree, nodes, entries)
        }
        Err(fault) => print_refusal(rt, what, TableFault::NUMBER, fault),
    }
}

fn main(rt: HostRuntime) -> io::Result<()> {
    let nodes = sample::nodes();
    let entries = sample::entries();
    let bank = Source {
        text: sample::TEXT,
        nodes: &nodes,
        entries: &entries,
    };
    open(&rt, "the bank", bank)?;
    // the first node says that it has one entry less than it has
    let short = NodeRow {
        entries_count: 2,
        below: 1,
        ..nodes[0]
    };
    let nodes = [short, nodes[1]];
    open(
        &rt,
        "a bank with a lost entry",
        Source {
            nodes: &nodes,
            ..bank
        },
    )?;
    // the image files that are named
    let mut names = env::args(&rt)?;
    let _ = names.next();
    for name in names {
        let mut bytes = fs::read(&rt, name.as_str())?;
        open_image(&rt, "the image", &bytes)?;
        open_damaged(&rt, &mut bytes)?;
    }
    Ok(())
}
