// Keys compared with names: reads a listed set of forms in hexadecimal digits from each line, and prints for each key which forms have it, and where
// it stands in the fixed set.
#![tactic(auto)]

mod keys;

use common::hex::bytes_of;
use forms::fixed::FixedForms;
use forms::interface::Forms;
use forms::key::Spelled;
use forms::member::has_key;
use keys::KEYS;
use listed::held::make::make;
use std::io;
use std::io::{BufRead, BufReader};

// Prints the number of a form where it has the key.
fn show_member<F: Forms>(rt: &HostRuntime, forms: &F, form: u32, key: Spelled) -> io::Result<()> {
    if has_key(forms, form, key) {
        print!(rt; " {form}")?;
    }
    Ok(())
}

// Prints the numbers of the forms that have the key; the numbers past the end are asked too.
fn show_members<F: Forms>(rt: &HostRuntime, forms: &F, key: Spelled) -> io::Result<()> {
    for form in 0..=forms.count() {
        show_member(rt, forms, form, key)?;
    }
    show_member(rt, forms, u32::MAX, key)
}

// Prints the position of the key in a form of the fixed set.
fn show_position(rt: &HostRuntime, form: u32, key: Spelled) -> io::Result<()> {
    match FixedForms.position(form, key) {
        None => print!(rt; " -"),
        Some(position) => print!(rt; " {position}"),
    }
}

fn show_key<F: Forms>(rt: &HostRuntime, forms: &F, what: &str, key: Spelled) -> io::Result<()> {
    print!(rt; "{what}: in")?;
    show_members(rt, forms, key)?;
    print!(rt; "; fixed in")?;
    show_members(rt, &FixedForms, key)?;
    print!(rt; ", at")?;
    for form in [0, 1, 2, u32::MAX] {
        show_position(rt, form, key)?;
    }
    println!(rt; "")
}

fn show_keys<F: Forms>(rt: &HostRuntime, forms: &F, keys: &[(&str, Spelled)]) -> io::Result<()> {
    for (what, key) in keys {
        show_key(rt, forms, what, *key)?;
    }
    Ok(())
}

fn main(rt: HostRuntime) -> io::Result<()> {
    let heap = rt.alloc();
    for line in BufReader::new(heap, rt.stdin())?.split(heap, b'\n') {
        let line = line?;
        match bytes_of(heap, &line)? {
            None => println!(rt; "no set")?,
            Some(bytes) => {
                let set = make(heap, &bytes)?;
                show_keys(&rt, &set, &KEYS)?;
            }
        }
    }
    Ok(())
}
