// Whether bytes are a listed set of forms.
ghost use Rattle.std.specs.Prelude.{◌≡◌};
ghost use Rattle.tree.specs.Outcome.{over};
ghost use Rattle.form_format.specs.Reading.{set_in};
ghost use Rattle.form_format.specs.Law.{counts_of, Accepts, Unique};

use super::telling::tell_set;
use form_format::counts::FormCounts;
use records::fault::RecordFault;
use records::stop::Stop;

// The counts of the forms that the bytes are the writing of, and of their names, or their first fault.
pub fn check(bytes: &[u8]) -> Result<FormCounts, RecordFault>
    ensures answer { result ≡ over counts_of (set_in bytes.now) }
    ensures exact { Accepts bytes.now result }
    ensures unique { Unique bytes.now }
{
    let mut counts = FormCounts { forms: 0, names: 0 };
    match tell_set(bytes, &mut counts) {
        Ok(()) => Ok(counts),
        Err(Stop::Fault(fault)) => Err(fault),
    }
}
