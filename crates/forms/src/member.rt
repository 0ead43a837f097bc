// Whether a form of any set has what a key spells.
ghost use Rattle.std.specs.Prelude.{◌≡◌};
ghost use Rattle.forms.specs.Forms.{form_of, has};
ghost use Rattle.forms.specs.Keys.{spelled};
ghost use Rattle.forms.specs.Lent.{key_of};

use super::compare::spells;
use super::interface::Forms;
use super::key::Spelled;

// The key is compared with each name of the form, and written nowhere. A number that no form has is a form without names; no form has more than
// 65,535.
pub fn has_key<F: Forms>(forms: &F, form: u32, key: Spelled) -> bool
    ensures { result ≡ has (form_of (F.Forms.meaning forms.now) form) (spelled (key_of key.entry)) }
{
    for position in 0..65_535 {
        let Some(name) = forms.name(form, position) else {
            return false;
        };
        if spells(key, name) {
            return true;
        }
    }
    false
}
