// The fixed set of forms.
ghost use Rattle.std.specs.Prelude.{◌≡◌, map};
ghost use Rattle.forms.specs.Forms.{form_of, position_of};
ghost use Rattle.forms.specs.Keys.{spelled};
ghost use Rattle.forms.specs.Lent.{key_of};
ghost use Rattle.forms.specs.Fixed.{fixed_forms, fixed_lawful};

use super::compare::spells;
use super::interface::Forms;
use super::key::Spelled;

const BANK: [&[u8]; 3] = [b"#name", b"#0", b"street"];

const DOOR: [&[u8]; 4] = [b"#name", b"#0", b"size", b"cool"];

// The names of a form; none where there is no such form.
fn names(form: u32) -> &'static [&'static [u8]]
    ensures { map (λ x. x.now) result.now ≡ form_of fixed_forms form }
{
    match form {
        0 => &BANK,
        1 => &DOOR,
        _ => &[],
    }
}

#[derive(Clone, Copy)]
pub struct FixedForms;

impl Forms for FixedForms {
    ghost meaning = { λ _. fixed_forms };

    ghost lawful = { λ _. fixed_lawful };

    fn count(&self) -> u32 {
        2
    }

    fn name(&self, form: u32, position: u32) -> Option<&[u8]> {
        names(form).get(position as usize).copied()
    }
}

impl FixedForms {
    // The first position of a form whose name is what the key spells.
    pub fn position(self, form: u32, key: Spelled) -> Option<u32>
        ensures { result ≡ position_of (form_of fixed_forms form) (spelled (key_of key.entry)) }
    {
        let names = names(form);
        for (i, name) in names.iter().enumerate() {
            if spells(key, name) {
                return Some(i as u32);
            }
        }
        None
    }
}
