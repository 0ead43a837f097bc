// Asks the tree of an image at every number from 0 to the end of the image, and at the highest, and prints all answers.
#![tactic(auto)]

mod shown;

use image_load::load::load;
use shown::{shown, shown_block, shown_ident, shown_value};
use std::{env, fs, io};
use tree::handle::{EntryHandle, NodeHandle};
use tree::interface::Tree;

// The answers of the calls that take a node.
fn ask_node<T: Tree>(rt: &HostRuntime, tree: &T, n: NodeHandle) -> io::Result<()> {
    let heap = rt.alloc();
    let next = shown(heap, tree.next_sibling(n))?;
    let parent = shown(heap, tree.parent(n))?;
    let block = shown_block(heap, tree.block(n))?;
    let entry = shown(heap, tree.first_entry(n))?;
    let name = shown_ident(heap, tree.name(n))?;
    let ty = shown_ident(heap, tree.node_type(n))?;
    let span = shown(heap, tree.node_span(n))?;
    println!(rt; "  node: {next} {parent} {block} {entry} {name} {ty} {span}")
}

// The answers of the calls that take an entry.
fn ask_entry<T: Tree>(rt: &HostRuntime, tree: &T, e: EntryHandle) -> io::Result<()> {
    let heap = rt.alloc();
    let next = shown(heap, tree.next_entry(e))?;
    let node = shown(heap, tree.node_of(e))?;
    let name = shown_ident(heap, tree.entry_name(e))?;
    let ty = shown_ident(heap, tree.entry_type(e))?;
    let value = shown_value(heap, tree.entry_value(e))?;
    let span = shown(heap, tree.entry_span(e))?;
    println!(rt; "  entry: {next} {node} {name} {ty} {value} {span}")
}

fn ask<T: Tree>(rt: &HostRuntime, tree: &T, number: u32) -> io::Result<()> {
    println!(rt; "{number}")?;
    ask_node(rt, tree, NodeHandle { number })?;
    ask_entry(rt, tree, EntryHandle { number })
}

fn ask_all<T: Tree>(rt: &HostRuntime, tree: &T, end: u32) -> io::Result<()> {
    let first = shown(rt.alloc(), tree.first_node())?;
    println!(rt; "first node: {first}")?;
    for number in (0..=end).chain([u32::MAX]) {
        ask(rt, tree, number)?;
    }
    Ok(())
}

fn main(rt: HostRuntime) -> io::Result<()> {
    let mut names = env::args(&rt)?;
    let _ = names.next();
    for name in names {
        let bytes = fs::read(&rt, name.as_str())?;
        match load(rt.alloc(), &bytes) {
            Ok(tree) => ask_all(&rt, &tree, bytes.len().min(1_048_576) as u32)?,
            Err(_) => println!(rt; "not loaded")?,
        }
    }
    Ok(())
}
