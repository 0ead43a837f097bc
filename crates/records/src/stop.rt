// Why bytes were not told to their end.
ghost use Rattle.std.specs.Prelude.{◌≡◌};
ghost use Rattle.records.specs.declared.stop.Stop.TheVariants.{Fault};

use super::fault::RecordFault;

// A fault in the bytes, or the error of what they were told to.
#[derive(Drop)]
pub enum Stop<E> {
    Fault(RecordFault),
    Sink(E),
}

impl<E> From<RecordFault> for Stop<E> {
    ghost from_gives = { λ e r. r ≡ Fault e };

    fn from(e: RecordFault) -> Stop<E> {
        Stop::Fault(e)
    }
}
