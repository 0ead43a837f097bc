// Sets of forms: the fixed one, one that is opened from bytes, and copies of it that are refused.
use common::answer::print_refusal;
use common::names::show_forms;
use form_read::check::check;
use forms::fixed::FixedForms;
use forms::interface::Forms;
use listed::held::make::make;
use records::fault::RecordFault;
use std::io;

pub fn show_fixed(rt: &HostRuntime) -> io::Result<()> {
    let count = FixedForms.count();
    println!(rt; "the fixed forms: {count} forms")?;
    show_forms(rt, &FixedForms)
}

// Prints the counts and the names of a listed set, or its refusal.
pub fn open_forms(rt: &HostRuntime, what: &str, bytes: &[u8]) -> io::Result<()> {
    match check(bytes) {
        Ok(counts) => {
            let forms = counts.forms;
            let names = counts.names;
            println!(rt; "{what}: checked, {forms} forms and {names} names")?;
            show_forms(rt, &make(rt.alloc(), bytes)?)
        }
        Err(fault) => print_refusal(rt, what, RecordFault::NUMBER, fault),
    }
}

// Opens copies of a listed set: cut short, and with one byte of the first name's head set.
pub fn open_damaged_forms(rt: &HostRuntime, bytes: &mut Vec<u8>) -> io::Result<()> {
    let last = bytes.len().saturating_sub(1);
    open_forms(rt, "the forms without their last byte", &bytes[0..last])?;
    if bytes.len() > 10 {
        let before = bytes[10];
        bytes[10] = 32;
        open_forms(rt, "the forms with another kind in their first name", bytes)?;
        bytes[10] = before;
        bytes[7] = 1;
        open_forms(rt, "the forms with a longer first name", bytes)?;
    }
    Ok(())
}
