// The check of images: reads an image in hexadecimal digits from each line, and prints the answer.
#![tactic(auto)]

use common::answer::Answer;
use common::hex::bytes_of;
use image_read::check::check;
use std::io;
use std::io::{BufRead, BufReader};

fn main(rt: HostRuntime) -> io::Result<()> {
    let heap = rt.alloc();
    for line in BufReader::new(heap, rt.stdin())?.split(heap, b'\n') {
        let line = line?;
        match bytes_of(heap, &line)? {
            None => println!(rt; "no image")?,
            Some(bytes) => rt.println(Answer {
                counts: check(&bytes).map(|c| (c.nodes, c.entries)),
            })?,
        }
    }
    Ok(())
}
