// Check and making of an image in one call.
ghost use Rattle.image_load.specs.Loaded.{Loaded};

use super::fault::LoadFault;
use image::held::Image;
use image::held::make::make;
use image_read::check::check;
use std::alloc::Global;

// The tree of the document that the bytes are the writing of, or why there is none.
pub fn load<'a>(heap: Global, bytes: &'a [u8]) -> Result<Image<'a>, LoadFault>
    ensures { Loaded bytes.now result }
{
    let _ = check(bytes)?;
    let tree = make(heap, bytes)?;
    Ok(tree)
}
