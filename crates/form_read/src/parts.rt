// The records of a listed set, one by one.
ghost use Rattle.std.specs.Prelude.{◌≡◌, ℕ, ◌+◌, ◌<◌, ◌≤◌, true, false, length, IfOk, MatchResult, ◌==◌};
ghost use Rattle.tree.specs.Outcome.{over};
ghost use Rattle.records.specs.Records.{mark};
ghost use Rattle.records.specs.declared.fault.Cause.TheVariants.{Size};
ghost use Rattle.records.specs.Read.{place_of, part_read, Inside};
ghost use Rattle.form_format.specs.Reading.{is_long, name_part, form_part};

use form_format::kind::FormKind;
use records::cursor::{Cursor, Record};
use records::fault::{Cause, RecordFault};
use records::take::head;

// Whether the bytes begin with the head of a name of more than 255 bytes.
fn is_too_long(bytes: &[u8]) -> bool
    ensures { result ≡ is_long (mark bytes.now) }
{
    head(bytes).is_some_and(|mark| mark.kind == FormKind::Name as u16 && mark.size > 261)
}

// The record of the name at `p`, before which fewer than 256 names of its form stand.
pub fn name_at(p: Cursor<'_>) -> Result<Record<'_>, RecordFault>
    ensures is { (n : ℕ) → n < 256 → over part_read result ≡ name_part n (place_of p.entry) }
    ensures sizes { IfOk result (Inside p.entry) }
{
    if is_too_long(p.bytes) {
        return Err(p.fault(Cause::Size));
    }
    p.record_of(FormKind::Name as u16)
}

// The record of the form at `p`, before which fewer than 64 forms stand.
pub fn form_at(p: Cursor<'_>) -> Result<Record<'_>, RecordFault>
    ensures is { (n : ℕ) → n < 64 → over part_read result ≡ form_part n (place_of p.entry) }
    ensures sizes { IfOk result (Inside p.entry) }
{
    p.record_of(FormKind::Form as u16)
}

// Nothing more may stand at `p`.
pub fn full_at(p: Cursor<'_>) -> Result<(), RecordFault>
    ensures { MatchResult result (λ _. true ≡ (length p.entry.bytes.now == 0)) (λ e. (e ≡ record { place = p.entry.at; cause = Size }) × (false ≡ (length p.entry.bytes.now == 0))) }
{
    if p.is_at_end() {
        Ok(())
    } else {
        Err(p.fault(Cause::Size))
    }
}
