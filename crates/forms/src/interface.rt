// The interface of every set of forms.
ghost use Rattle.std.specs.Prelude.{◌≡◌, List, length};
ghost use Rattle.std.specs.Option.{option_map};
ghost use Rattle.forms.specs.Forms.{Form, name_at, Lawful};

// A set of forms means a list of forms within the limits. Each answer follows from that list alone, and no call alters anything.
pub trait Forms {
    ghost meaning: { Self → List Form };

    ghost lawful: { (s : Self) → Lawful (meaning s) };

    // How many forms there are.
    fn count(&self) -> u32
        ensures { result ≡ length (meaning self.now) };

    // The name at a position of a form, both counted from 0.
    fn name(&self, form: u32, position: u32) -> Option<&[u8]>
        ensures { option_map (λ x. x.now) result ≡ name_at (meaning self.now) form position };
}
