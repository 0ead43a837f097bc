// Runs the check of tables at the edges of every limit and at every cause, and the calls of a tree at numbers that are no handles.
#![tactic(auto)]

mod build;
mod handles;
mod limits;
mod ranks;
mod rows;

use std::io;

fn main(rt: HostRuntime) -> io::Result<()> {
    limits::run(&rt)?;
    rows::run(&rt)?;
    ranks::run(&rt)?;
    handles::run(&rt)
}
