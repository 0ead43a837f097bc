// Whether bytes are an image.
ghost use Rattle.std.specs.Prelude.{◌≡◌};
ghost use Rattle.tree.specs.Counts.{counts_of};
ghost use Rattle.tree.specs.Outcome.{over};
ghost use Rattle.image_format.specs.Reading.{image};
ghost use Rattle.image_format.specs.Law.{Accepts, Unique};

use super::telling::tell_image;
use records::fault::RecordFault;
use records::stop::Stop;
use tree::counts::Counts;

// The counts of the document that the bytes are the writing of, or their first fault.
pub fn check(bytes: &[u8]) -> Result<Counts, RecordFault>
    ensures answer { result ≡ over counts_of (image bytes.now) }
    ensures exact { Accepts bytes.now result }
    ensures unique { Unique bytes.now }
{
    let mut counts = Counts {
        nodes: 0,
        entries: 0,
    };
    match tell_image(bytes, &mut counts) {
        Ok(()) => Ok(counts),
        Err(Stop::Fault(fault)) => Err(fault),
    }
}
