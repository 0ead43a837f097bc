// The making of a set of forms from bytes.
ghost use Rattle.std.specs.Prelude.{IfOk};
ghost use Rattle.form_format.specs.Law.{Made};
ghost use Rattle.listed.specs.Held.{meant};

use crate::held::ListedForms;
use form_read::index::index;
use std::alloc::{AllocError, Global};

// The forms that the bytes are the writing of, or none where they are unsound. Only memory can be wanting.
pub fn make<'a>(heap: Global, bytes: &'a [u8]) -> Result<ListedForms<'a>, AllocError>
    ensures { IfOk result (λ t. Made bytes.now (meant t)) }
{
    let forms = index(heap, bytes)?;
    Ok(ListedForms { bytes, forms })
}
