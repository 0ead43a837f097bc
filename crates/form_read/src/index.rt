// The forms of a listed set, kept name by name.
ghost use Rattle.std.specs.Prelude.{◌≡◌, true, IfOk};
ghost use Rattle.records.specs.Numbers.{are_bytes};
ghost use Rattle.form_format.specs.Reading.{forms_in};
ghost use Rattle.form_format.specs.Law.{Made};
ghost use Rattle.form_format.specs.Lent.{forms_lent};

use super::sink::Keeper;
use super::telling::tell_set;
use records::stop::Stop;
use std::alloc::{AllocError, Global};

// The forms that the bytes make, each a list of its names, and what is known of those forms. Only memory can be wanting.
pub fn index<'a>(heap: Global, bytes: &'a [u8]) -> Result<Vec<Vec<&'a [u8]>>, AllocError>
    ensures typed { are_bytes bytes.now ≡ true }
    ensures law { Made bytes.now (forms_in bytes.now) }
    ensures forms { IfOk result (λ x. forms_lent x ≡ forms_in bytes.now) }
{
    let mut keeper = Keeper {
        forms: Vec::new(heap),
        names: Vec::new(heap),
        last: 0,
    };
    match tell_set(bytes, &mut keeper) {
        Ok(()) => Ok(keeper.forms),
        Err(Stop::Fault(_)) => Ok(Vec::new(heap)),
        Err(Stop::Sink(error)) => Err(error),
    }
}
