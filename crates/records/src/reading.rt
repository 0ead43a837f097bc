// Records, read where a cursor stands.
ghost use Rattle.std.specs.Prelude.{◌≡◌, ◌+◌, ◌<◌, ◌≤◌, length, IfOk, MatchResult, ◌==◌};
ghost use Rattle.tree.specs.Outcome.{over};
ghost use Rattle.records.specs.Places.{next, part, part_of, start};
ghost use Rattle.records.specs.declared.fault.Cause.TheVariants.{Size};
ghost use Rattle.records.specs.Lent.{part_from};
ghost use Rattle.records.specs.Read.{place_of, part_read, Inside};

use super::cursor::{Cursor, Record};
use super::cut::Cut;
use super::fault::{Cause, RecordFault};
use super::take::{kind_of, record_of, take_record};

// The most bytes that an input may have.
const MOST_BYTES: usize = 1_048_576;

impl<'a> Cursor<'a> {
    // The whole input, from its first byte on.
    pub fn whole(bytes: &'a [u8]) -> Result<Cursor<'a>, RecordFault>
        ensures { MatchResult result (λ p. (length bytes.now ≤ 1048576) × (place_of p ≡ start bytes.now)) (λ e. (1048576 < length bytes.now) × (e ≡ record { place = 0; cause = Size })) }
    {
        if bytes.len() > MOST_BYTES {
            return Err(RecordFault {
                place: 0,
                cause: Cause::Size,
            });
        }
        Ok(Cursor { at: 0, bytes })
    }

    // The fault of this place.
    pub fn fault(self, cause: Cause) -> RecordFault
        ensures { result ≡ record { place = self.entry.at; cause = cause } }
    {
        RecordFault {
            place: self.at,
            cause,
        }
    }

    // Whether nothing stands here.
    pub fn is_at_end(self) -> bool
        ensures { result ≡ (length self.entry.bytes.now == 0) }
    {
        self.bytes.is_empty()
    }

    // The kind of the record that is to come, or 0 where there is no head.
    pub fn kind(self) -> u16
        ensures { result ≡ next (place_of self.entry) }
    {
        kind_of(self.bytes)
    }

    // What was cut off the bytes, with where it stands.
    fn placed(self, cut: Cut<'a>) -> Record<'a>
        requires { length cut.body.now + length cut.rest.now + 6 ≡ length self.bytes.now }
        ensures is { part_read result ≡ part_from self.entry.at self.entry.bytes.now cut.entry }
        ensures sizes { Inside self.entry result }
    {
        Record {
            kind: cut.kind,
            body: Cursor {
                at: self.at + 6,
                bytes: cut.body,
            },
            after: Cursor {
                at: self.at + 6 + cut.body.len() as u32,
                bytes: cut.rest,
            },
        }
    }

    // The record that stands here, whatever its kind.
    pub fn record(self) -> Result<Record<'a>, RecordFault>
        ensures is { over part_read result ≡ part (place_of self.entry) }
        ensures sizes { IfOk result (Inside self.entry) }
    {
        match take_record(self.bytes) {
            Ok(cut) => Ok(self.placed(cut)),
            Err(cause) => Err(self.fault(cause)),
        }
    }

    // The record that stands here, which is to have this kind.
    pub fn record_of(self, kind: u16) -> Result<Record<'a>, RecordFault>
        ensures is { over part_read result ≡ part_of kind (place_of self.entry) }
        ensures sizes { IfOk result (Inside self.entry) }
    {
        let cut = record_of(self.at, self.bytes, kind)?;
        Ok(self.placed(cut))
    }
}
