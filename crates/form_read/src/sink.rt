// What is told of each name and form of a listed set.
ghost use Rattle.std.specs.Prelude.{◌≡◌, ◌+◌, min, List, [], ◌∷◌, ◌++◌, length, OnOk};
ghost use Rattle.forms.specs.Forms.{Form};
ghost use Rattle.form_format.specs.Law.{names_count};
ghost use Rattle.form_format.specs.Lent.{form_lent, forms_lent};

use form_format::counts::FormCounts;
use std::alloc::AllocError;
use std::convert::Infallible;
use std::mem;

pub trait FormSink<'a> {
    // Why it takes no more.
    type Error;

    // It was told of exactly these forms, and then of these names.
    ghost told: { Self → List Form → Form → Type 0 };

    fn name(&mut self, name: &'a [u8]) -> Result<(), Self::Error>
        ensures { (fs : List Form) (ms : Form) → told self.old fs ms → OnOk result (told self.new fs (ms ++ name.now ∷ [])) };

    // The names since the last form are one form.
    fn form(&mut self) -> Result<(), Self::Error>
        ensures { (fs : List Form) (ms : Form) → told self.old fs ms → OnOk result (told self.new (fs ++ ms ∷ []) []) };
}

// Counts what it is told.
impl<'a> FormSink<'a> for FormCounts {
    type Error = Infallible;

    ghost told = { λ c fs ms. (c.forms ≡ min (length fs) 4294967295) × (c.names ≡ min (names_count fs + length ms) 4294967295) };

    fn name(&mut self, _name: &'a [u8]) -> Result<(), Infallible> {
        self.names = self.names.saturating_add(1);
        Ok(())
    }

    fn form(&mut self) -> Result<(), Infallible> {
        self.forms = self.forms.saturating_add(1);
        Ok(())
    }
}

// Keeps what it is told: the forms, and the names since the last one.
#[derive(Drop)]
pub struct Keeper<'a> {
    pub forms: Vec<Vec<&'a [u8]>>,
    pub names: Vec<&'a [u8]>,
    // how many names the last form has
    pub last: usize,
}

impl<'a> FormSink<'a> for Keeper<'a> {
    type Error = AllocError;

    ghost told = { λ k fs ms. (forms_lent k.forms ≡ fs) × (form_lent k.names ≡ ms) };

    fn name(&mut self, name: &'a [u8]) -> Result<(), AllocError> {
        if self.names.is_empty() {
            // a form is taken to have as many names as the one before it, so that its list seldom grows
            self.names.reserve(self.last)?;
        }
        self.names.push(name)?;
        Ok(())
    }

    fn form(&mut self) -> Result<(), AllocError> {
        self.last = self.names.len();
        let empty = Vec::new(*self.names.allocator());
        self.forms.push(mem::replace(&mut self.names, empty))?;
        Ok(())
    }
}
