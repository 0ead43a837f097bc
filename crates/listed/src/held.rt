// The set of forms that bytes make.
ghost use Rattle.std.specs.Prelude.{◌≡◌, true};
ghost use Rattle.records.specs.Numbers.{are_bytes};
ghost use Rattle.form_format.specs.Reading.{forms_in};
ghost use Rattle.form_format.specs.Lent.{forms_lent};

pub mod make;
pub mod reads;

// Bytes with their forms, each a list of its names.
#[derive(Drop)]
pub struct ListedForms<'a> {
    bytes: &'a [u8],
    forms: Vec<Vec<&'a [u8]>>,
    ghost typed: { are_bytes bytes.now ≡ true },
    ghost kept: { ∥ forms_lent forms ≡ forms_in bytes.now ∥₁ },
}
