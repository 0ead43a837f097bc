// Listed sets of forms: reads one in hexadecimal digits from each line, and prints the answer of the check and what the set answers that is made of
// it; then the same of sets of 1 MiB.
#![tactic(auto)]

mod large;

use common::answer::Answer;
use common::head::put_head;
use common::hex::bytes_of;
use common::names::show_forms;
use form_format::kind::FormKind;
use form_read::check::check;
use forms::interface::Forms;
use large::forms_of_16_kib;
use listed::held::make::make;
use std::io;
use std::io::{BufRead, BufReader};

// Prints the answer of the check.
fn answer(rt: &HostRuntime, bytes: &[u8]) -> io::Result<()> {
    rt.println(Answer {
        counts: check(bytes).map(|c| (c.forms, c.names)),
    })
}

fn show_count<F: Forms>(rt: &HostRuntime, forms: &F) -> io::Result<()> {
    let count = forms.count();
    println!(rt; "  count {count}")
}

// Prints how long the name at a position of a form is.
fn show_length<F: Forms>(rt: &HostRuntime, forms: &F, form: u32, position: u32) -> io::Result<()> {
    match forms.name(form, position) {
        None => println!(rt; "  form {form}, position {position}: -"),
        Some(name) => {
            let length = name.len();
            println!(rt; "  form {form}, position {position}: {length} bytes")
        }
    }
}

// Prints the answer of the check of a large set, and how long some of its names are.
fn answer_large(rt: &HostRuntime, what: &str, bytes: &[u8]) -> io::Result<()> {
    let length = bytes.len();
    print!(rt; "{what}, {length} bytes: ")?;
    answer(rt, bytes)?;
    let set = make(rt.alloc(), bytes)?;
    show_count(rt, &set)?;
    show_length(rt, &set, 0, 0)?;
    show_length(rt, &set, 63, 62)?;
    show_length(rt, &set, 63, 63)?;
    show_length(rt, &set, 63, u32::MAX)?;
    show_length(rt, &set, u32::MAX, 0)
}

// Prints the answers of sets of 1 MiB and of a byte more.
fn answer_largest(rt: &HostRuntime) -> io::Result<()> {
    let heap = rt.alloc();
    let mut forms = forms_of_16_kib(heap, 190)?;
    answer_large(rt, "64 forms", &forms)?;
    forms.push(0)?;
    answer_large(rt, "64 forms and a byte", &forms)?;
    let longer = forms_of_16_kib(heap, 191)?;
    answer_large(rt, "64 forms with a longer last name", &longer)?;
    let mut zeros = vec![in heap; 0u8; 1_048_576]?;
    answer_large(rt, "zeros", &zeros)?;
    zeros.push(0)?;
    answer_large(rt, "zeros and a byte", &zeros)?;
    let mut name = Vec::new(heap);
    put_head(&mut name, 1_048_576, FormKind::Name as u16)?;
    name.resize(1_048_576, 0)?;
    answer_large(rt, "a name outside of a form", &name)?;
    name.push(0)?;
    answer_large(rt, "a name outside of a form and a byte", &name)
}

fn main(rt: HostRuntime) -> io::Result<()> {
    let heap = rt.alloc();
    for line in BufReader::new(heap, rt.stdin())?.split(heap, b'\n') {
        let line = line?;
        match bytes_of(heap, &line)? {
            None => println!(rt; "no set")?,
            Some(bytes) => {
                answer(&rt, &bytes)?;
                let set = make(heap, &bytes)?;
                show_count(&rt, &set)?;
                show_forms(&rt, &set)?;
            }
        }
    }
    answer_largest(&rt)
}
