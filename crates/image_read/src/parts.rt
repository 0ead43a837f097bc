// The records of an image, one by one.
ghost use Rattle.std.specs.Prelude.{◌≡◌, ℕ, ◌+◌, ◌<◌, ◌≤◌, length, IfOk, ◌==◌};
ghost use Rattle.tree.specs.Outcome.{over};
ghost use Rattle.records.specs.Read.{place_of, part_read, Inside};
ghost use Rattle.image_format.specs.Kinds.{code_of};
ghost use Rattle.image_format.specs.Reading.{next, part_of, spanned, ident, perhaps, ended, value, value_in, entry, is_entry, fore};
ghost use Rattle.image_format.proofs.Passing.{behind, wrong, aside};
ghost use Rattle.image_read.specs.Lent.{Within, Forward, aside_of};

use super::fore::Fore;
use image_format::kind::Kind;
use records::cursor::{Cursor, Record};
use records::fault::{Cause, RecordFault};

// The deepest nesting that a node may have.
const DEEPEST: u32 = 32;

// The record at `p`, which is to have this kind.
pub fn record_of(p: Cursor<'_>, kind: Kind) -> Result<Record<'_>, RecordFault>
    ensures is { over part_read result ≡ part_of (code_of kind) (place_of p.entry) }
    ensures sizes { IfOk result (Inside p.entry) }
{
    p.record_of(kind.into())
}

// What follows the span that begins the body of the record at `p`.
fn behind_span<'a>(p: Cursor<'_>, body: Cursor<'a>) -> Result<Cursor<'a>, RecordFault>
    ensures is { over place_of result ≡ over behind (spanned (place_of p.entry) (place_of body.entry)) }
    ensures later { IfOk result (Within body.entry) }
{
    if body.bytes.len() < 8 {
        return Err(p.fault(Cause::Body));
    }
    Ok(Cursor {
        at: body.at + 8,
        bytes: &body.bytes[8..],
    })
}

// Passes a name or a type.
fn pass_ident(p: Cursor<'_>, kind: Kind) -> Result<Cursor<'_>, RecordFault>
    ensures is { over place_of result ≡ over behind (ident (code_of kind) (place_of p.entry)) }
    ensures later { IfOk result (Within p.entry) }
{
    let record = record_of(p, kind)?;
    let _ = behind_span(p, record.body)?;
    Ok(record.after)
}

// Passes a name or a type that may be there.
fn pass_perhaps(p: Cursor<'_>, there: bool, kind: Kind) -> Result<Cursor<'_>, RecordFault>
    ensures is { over place_of result ≡ over behind (perhaps there (code_of kind) (place_of p.entry)) }
    ensures later { IfOk result (Within p.entry) }
{
    if there { pass_ident(p, kind) } else { Ok(p) }
}

// Passes a type, if one is there.
fn pass_type(p: Cursor<'_>) -> Result<Cursor<'_>, RecordFault>
    ensures is { over place_of result ≡ over behind (perhaps (next (place_of p.entry) == 4) 4 (place_of p.entry)) }
    ensures later { IfOk result (Within p.entry) }
{
    pass_perhaps(p, p.kind() == Kind::Type as u16, Kind::Type)
}

// No further part may stand at `p`.
pub fn end_at(p: Cursor<'_>) -> Result<(), RecordFault>
    ensures { result ≡ ended (place_of p.entry) }
{
    if p.is_at_end() {
        Ok(())
    } else {
        Err(p.fault(Cause::After))
    }
}

// What is wrong with a value of this kind and body.
fn value_fault(kind: u16, body: &[u8]) -> Option<Cause>
    ensures { result ≡ wrong (value_in kind body.now) }
{
    let sound = match Kind::try_from(kind) {
        Ok(Kind::String) => true,
        Ok(Kind::Integer) => body.len() == 16,
        Ok(Kind::Float) => body.len() == 8,
        Ok(Kind::Bool) => matches!(body, [0 | 1]),
        Ok(Kind::Null) => body.is_empty(),
        _ => return Some(Cause::Kind),
    };
    (!sound).then_some(Cause::Body)
}

fn pass_value(p: Cursor<'_>) -> Result<Cursor<'_>, RecordFault>
    ensures is { over place_of result ≡ over behind (value (place_of p.entry)) }
    ensures later { IfOk result (Within p.entry) }
{
    let record = p.record()?;
    match value_fault(record.kind, record.body.bytes) {
        Some(cause) => Err(p.fault(cause)),
        None => Ok(record.after),
    }
}

// Passes an argument or a property.
pub fn pass_entry(p: Cursor<'_>) -> Result<Cursor<'_>, RecordFault>
    ensures is { over place_of result ≡ over behind (entry (place_of p.entry)) }
    ensures shorter { IfOk result (λ q. length q.bytes.now + 6 ≤ length p.entry.bytes.now) }
{
    let record = p.record()?;
    let start = behind_span(p, record.body)?;
    let named = pass_perhaps(start, record.kind == Kind::Property as u16, Kind::Name)?;
    let typed = pass_type(named)?;
    let valued = pass_value(typed)?;
    end_at(valued)?;
    Ok(record.after)
}

// Whether an entry is to come.
pub fn has_entry(p: Cursor<'_>) -> bool
    ensures { result ≡ is_entry (next (place_of p.entry)) }
{
    matches!(
        Kind::try_from(p.kind()),
        Ok(Kind::Argument | Kind::Property)
    )
}

// The node of nesting `nesting` at `p`, up to its entries.
#[tactic(auto, using(crate::proofs::Found::too_deep))]
pub fn fore_at(p: Cursor<'_>, nesting: u32) -> Result<Fore<'_>, RecordFault>
    ensures is { over aside_of result ≡ over aside (fore nesting (place_of p.entry)) }
    ensures forward { IfOk result (λ x. Forward nesting p.entry x) }
{
    let record = record_of(p, Kind::Node)?;
    if nesting > DEEPEST {
        return Err(p.fault(Cause::Nesting));
    }
    let start = behind_span(p, record.body)?;
    let named = pass_ident(start, Kind::Name)?;
    let typed = pass_type(named)?;
    Ok(Fore {
        rest: typed,
        after: record.after,
    })
}
