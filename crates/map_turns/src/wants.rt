// Whether a form asks for a key.
ghost use Rattle.std.specs.Prelude.{◌≡◌};
ghost use Rattle.forms.specs.Forms.{has};
ghost use Rattle.forms.specs.Keys.{spelled};
ghost use Rattle.forms.specs.Lent.{key_of};
ghost use Rattle.map_stages.specs.Coming.{form_in};

use forms::interface::Forms;
use forms::key::Spelled;
use forms::member::has_key;

// Without a form nothing is asked for.
pub fn wants<F: Forms>(forms: &F, form: Option<u32>, key: Spelled) -> bool
    ensures { result ≡ has (form_in (F.Forms.meaning forms.now) form) (spelled (key_of key.entry)) }
{
    match form {
        None => false,
        Some(form) => has_key(forms, form, key),
    }
}
