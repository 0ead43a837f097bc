// An image that is opened, and copies of it that are refused.
use super::show::show;
use common::answer::print_refusal;
use image_load::fault::LoadFault;
use image_load::load::load;
use image_read::check::check;
use records::fault::RecordFault;
use std::{io, mem};
use tree::counts::Counts;

// Prints the counts and the tree of an image, or its refusal.
pub fn open_image(rt: &HostRuntime, what: &str, bytes: &[u8]) -> io::Result<()> {
    match (check(bytes), load(rt.alloc(), bytes)) {
        (Ok(Counts { nodes, entries }), Ok(tree)) => {
            println!(rt; "{what}: checked, {nodes} nodes and {entries} entries")?;
            show(rt, &tree, nodes, entries)
        }
        (Err(fault), _) | (_, Err(LoadFault::Image(fault))) => {
            print_refusal(rt, what, RecordFault::NUMBER, fault)
        }
        (_, Err(LoadFault::Memory)) => println!(rt; "{what}: memory is wanting"),
    }
}

// Opens copies of an image: cut short, longer, and with one byte set.
pub fn open_damaged(rt: &HostRuntime, bytes: &mut Vec<u8>) -> io::Result<()> {
    open_image(rt, "no bytes", &[])?;
    if let [front @ .., _] = bytes.as_slice() {
        open_image(rt, "the image without its last byte", front)?;
    }
    bytes.push(0)?;
    open_image(rt, "the image with one byte more", bytes)?;
    let _ = bytes.pop();
    open_set(
        rt,
        "the image with another kind in its first node",
        bytes,
        10,
        3,
    )?;
    open_set(rt, "the image with a longer first node", bytes, 7, 255)
}

// Opens a copy of an image with the byte at `at` set.
fn open_set(
    rt: &HostRuntime,
    what: &str,
    bytes: &mut Vec<u8>,
    at: usize,
    byte: u8,
) -> io::Result<()> {
    if at < bytes.len() {
        let before = mem::replace(&mut bytes[at], byte);
        open_image(rt, what, bytes)?;
        bytes[at] = before;
    }
    Ok(())
}
