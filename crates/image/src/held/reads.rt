// What an image says of the nodes and entries of its document.
ghost use Rattle.std.specs.Prelude.{◌≡◌, Some, OnSome, IsSomeAnd};
ghost use Rattle.tree.specs.Going.{found, found_entry};
ghost use Rattle.records.proofs.Numbers.{bytes_from_are};
ghost use Rattle.image_format.proofs.Answering.{NodeTold, EntryTold, lawful_image};
ghost use Rattle.image_format.proofs.Payload.{node_types, entry_types};
ghost use Rattle.image.specs.Held.{document_of};

use crate::held::Bytes;
use image_format::kind::Kind;
use image_payload::payload::{behind_span, body, ident, past, perhaps, span, value};
use linked::parts::Parts;
use records::take::kind_of;
use tree::handle::{EntryHandle, NodeHandle};
use tree::span::{Identifier, Span};
use tree::value::Value;

impl Bytes<'_> {
    // The bytes from a node on.
    fn node(&self, n: NodeHandle) -> Option<&[u8]>
        ensures { let o = found (document_of self.now) n in OnSome o (IsSomeAnd result (λ xs. NodeTold o xs.now)) }
    {
        self.bytes.get(n.number as usize..)
    }

    // The bytes from an entry on.
    fn entry(&self, e: EntryHandle) -> Option<&[u8]>
        ensures { let o = found_entry (document_of self.now) e in OnSome o (IsSomeAnd result (λ xs. EntryTold o xs.now)) }
    {
        self.bytes.get(e.number as usize..)
    }
}

// What follows the name of a node.
fn behind_name(node: &[u8]) -> &[u8]
    ensures { result.now ≡ node_types node.now }
{
    past(true, behind_span(body(node)))
}

// What follows the name of an entry, if it has one.
fn behind_entry_name(entry: &[u8]) -> &[u8]
    ensures { result.now ≡ entry_types entry.now }
{
    past(
        kind_of(entry) == Kind::Property as u16,
        behind_span(body(entry)),
    )
}

impl Parts for Bytes<'_> {
    ghost document = { document_of };

    ghost lawful = { λ p. lawful_image p.bytes.now (bytes_from_are p.bytes.now p.typed) };

    fn name(&self, n: NodeHandle) -> Option<Identifier<'_>> {
        let node = self.node(n)?;
        Some(ident(behind_span(body(node))))
    }

    fn node_type(&self, n: NodeHandle) -> Option<Identifier<'_>> {
        let node = self.node(n)?;
        let rest = behind_name(node);
        perhaps(kind_of(rest) == Kind::Type as u16, rest)
    }

    fn node_span(&self, n: NodeHandle) -> Option<Span> {
        let node = self.node(n)?;
        Some(span(body(node)))
    }

    fn entry_name(&self, e: EntryHandle) -> Option<Identifier<'_>> {
        let entry = self.entry(e)?;
        let named = kind_of(entry) == Kind::Property as u16;
        perhaps(named, behind_span(body(entry)))
    }

    fn entry_type(&self, e: EntryHandle) -> Option<Identifier<'_>> {
        let entry = self.entry(e)?;
        let ty = behind_entry_name(entry);
        perhaps(kind_of(ty) == Kind::Type as u16, ty)
    }

    fn entry_value(&self, e: EntryHandle) -> Option<Value<'_>> {
        let entry = self.entry(e)?;
        let rest = behind_entry_name(entry);
        Some(value(past(kind_of(rest) == Kind::Type as u16, rest)))
    }

    fn entry_span(&self, e: EntryHandle) -> Option<Span> {
        let entry = self.entry(e)?;
        Some(span(body(entry)))
    }
}
