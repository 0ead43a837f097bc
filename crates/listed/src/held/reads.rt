// What a set made of bytes answers.
ghost use Rattle.records.proofs.Numbers.{bytes_from_are};
ghost use Rattle.form_format.proofs.Whole.{lawful_set};
ghost use Rattle.listed.specs.Held.{meant};

use crate::held::ListedForms;
use forms::interface::Forms;

impl<'a> Forms for ListedForms<'a> {
    ghost meaning = { meant };

    ghost lawful = { λ s. lawful_set s.bytes.now (bytes_from_are s.bytes.now s.typed) };

    fn count(&self) -> u32 {
        self.forms.len() as u32
    }

    fn name(&self, form: u32, position: u32) -> Option<&[u8]> {
        let names = self.forms.get(form as usize)?;
        let at = position as usize;
        if at < names.len() {
            Some(names[at])
        } else {
            None
        }
    }
}
