// Opens a locker bank's forms, and prints all that it did.
#![tactic(auto)]

mod opened_forms;

use opened_forms::{open_damaged_forms, open_forms, show_fixed};
use std::{env, fs, io};

fn main(rt: HostRuntime) -> io::Result<()> {
    show_fixed(&rt)?;
    // the listed sets that are named
    let mut names = env::args(&rt)?;
    let _ = names.next();
    for name in names {
        let mut bytes = fs::read(&rt, name.as_str())?;
        open_forms(&rt, "the listed forms", &bytes)?;
        open_damaged_forms(&rt, &mut bytes)?;
    }
    Ok(())
}
