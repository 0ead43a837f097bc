// The check of images of 1 MiB: prints its answers; with a count of rounds as argument, prints how long check and making take instead.
#![tactic(auto)]

mod large;
mod measure;

use common::answer::Answer;
use image_format::kind::Kind;
use image_read::check::check;
use large::{nested_heads, nodes_with_an_argument, smallest_nodes, zeros};
use measure::measure;
use std::{env, io};

fn answer(rt: &HostRuntime, what: &str, bytes: &[u8]) -> io::Result<()> {
    let length = bytes.len();
    let answer = Answer {
        counts: check(bytes).map(|c| (c.nodes, c.entries)),
    };
    println!(rt; "{what}, {length} bytes: {answer}")
}

fn main(rt: HostRuntime) -> io::Result<()> {
    let heap = rt.alloc();
    let mut smallest = smallest_nodes(heap)?;
    let mut nodes = nodes_with_an_argument(heap)?;
    let mut words = env::args(&rt)?;
    let _ = words.next();
    if let Some(word) = words.next() {
        let rounds = word.as_str().parse::<u32>().unwrap_or(1);
        measure(&rt, "smallest nodes", &smallest, rounds)?;
        return measure(&rt, "nodes with an argument", &nodes, rounds);
    }
    answer(&rt, "smallest nodes", &smallest)?;
    smallest.push(0)?;
    answer(&rt, "smallest nodes and a byte", &smallest)?;
    answer(&rt, "nodes with an argument", &nodes)?;
    nodes.push(0)?;
    answer(&rt, "nodes with an argument and a byte", &nodes)?;
    answer(&rt, "nested heads", &nested_heads(heap)?)?;
    answer(&rt, "length 0", &zeros(heap, 0, Kind::Document, 1_048_570)?)?;
    answer(
        &rt,
        "length 0 and a byte",
        &zeros(heap, 0, Kind::Document, 1_048_571)?,
    )?;
    answer(
        &rt,
        "a node",
        &zeros(heap, 1_048_576, Kind::Node, 1_048_570)?,
    )?;
    answer(
        &rt,
        "a node and a byte",
        &zeros(heap, 1_048_576, Kind::Node, 1_048_571)?,
    )
}
