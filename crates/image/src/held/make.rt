// The making of a tree from an image.
ghost use Rattle.std.specs.Prelude.{◌≡◌, IfOk};
ghost use Rattle.image_format.specs.Law.{Made};
ghost use Rattle.image.specs.Held.{meant};

use crate::held::{Bytes, Image};
use image_read::links::link;
use std::alloc::{AllocError, Global};

// The document that the bytes are the writing of, or the empty one where they are unsound. Only memory can be wanting.
pub fn make<'a>(heap: Global, bytes: &'a [u8]) -> Result<Image<'a>, AllocError>
    ensures { IfOk result (λ t. Made bytes.now (meant t)) }
{
    let links = link(heap, bytes)?;
    Ok(Image {
        parts: Bytes { bytes },
        links,
    })
}
