// Why an image is not loaded.
ghost use Rattle.std.specs.Prelude.{◌≡◌};
ghost use Rattle.image_load.specs.declared.fault.LoadFault.TheVariants.{Image, Memory};

use records::fault::RecordFault;
use std::alloc::AllocError;

// The image's fault goes in whole.
#[derive(Clone, Copy, PartialEq, Eq, Debug)]
pub enum LoadFault {
    Image(RecordFault),
    Memory,
}

impl From<RecordFault> for LoadFault {
    ghost from_gives = { λ e r. r ≡ Image e };

    fn from(e: RecordFault) -> LoadFault {
        LoadFault::Image(e)
    }
}

impl From<AllocError> for LoadFault {
    ghost from_gives = { λ _ r. r ≡ Memory };

    fn from(_e: AllocError) -> LoadFault {
        LoadFault::Memory
    }
}
