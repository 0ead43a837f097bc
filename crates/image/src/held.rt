// The tree that an image makes.
ghost use Rattle.std.specs.Prelude.{◌≡◌, true};
ghost use Rattle.records.specs.Numbers.{are_bytes};

pub mod make;
pub mod reads;

use linked::linked::Linked;

// An image as the parts of its document.
#[derive(Drop)]
pub struct Bytes<'a> {
    bytes: &'a [u8],
    ghost typed: { are_bytes bytes.now ≡ true },
}

// An image with the links of its document.
pub type Image<'a> = Linked<Bytes<'a>>;
