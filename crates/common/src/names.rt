// The names of forms as text.
use super::quoted::quoted;
use forms::interface::Forms;
use std::alloc::{AllocError, Global};
use std::io;

// The names of a form, each behind its position, and `-` at the first position without a name. No form has more than 65,535.
fn shown_names<F: Forms>(heap: Global, forms: &F, form: u32) -> Result<String, AllocError> {
    let mut s = String::new(heap);
    for position in 0..65_536 {
        match forms.name(form, position) {
            None => {
                write!(s, "{position} -")?;
                break;
            }
            Some(name) => {
                let name = quoted(heap, name)?;
                write!(s, "{position} {name}, ")?;
            }
        }
    }
    Ok(s)
}

// Prints a line for each form, and one for the first number that no form has.
pub fn show_forms<F: Forms>(rt: &HostRuntime, forms: &F) -> io::Result<()> {
    for form in 0..=forms.count() {
        let names = shown_names(rt.alloc(), forms, form)?;
        println!(rt; "  form {form}: {names}")?;
    }
    Ok(())
}
