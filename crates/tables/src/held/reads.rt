// What tables say of the nodes and entries of their document.
ghost use Rattle.std.specs.Prelude.{◌≡◌, ℕ, ◌+◌, ◌≤◌, length, Some, OnSome, IsSomeAnd};
ghost use Rattle.std.specs.Bool.{OnTrue};
ghost use Rattle.std.specs.Option.{option_map};
ghost use Rattle.tree.specs.Going.{found, found_entry};
ghost use Rattle.tree.specs.Lent.{ident_of, value_of};
ghost use Rattle.layout.specs.Rows.{piece, in_text, ident, value, value_known};
ghost use Rattle.layout.proofs.Answering.{NodeTold, EntryTold};
ghost use Rattle.layout.proofs.Within.{lawful as lawful_tables};
ghost use Rattle.table_check.specs.Given.{given};
ghost use Rattle.tables.specs.Held.{document_of};

use crate::held::Rows;
use layout::rows::{EntryRow, IdentRow, NodeRow, Part, ValueRow};
use linked::parts::Parts;
use tree::handle::{EntryHandle, NodeHandle};
use tree::span::{Identifier, Span};
use tree::value::Value;

// The bytes that a part spells, where it lies in the text.
fn piece(text: &[u8], part: Part) -> Option<&[u8]>
    ensures { OnTrue (in_text text.now part) (IsSomeAnd result (λ bs. bs.now ≡ piece text.now part)) }
{
    let start = part.start as usize;
    text.get(start..start + part.length as usize)
}

fn ident(text: &[u8], row: IdentRow) -> Option<Identifier<'_>>
    ensures { OnTrue (in_text text.now row.part) (option_map ident_of result ≡ Some (ident text.now row)) }
{
    Some(Identifier {
        bytes: piece(text, row.part)?,
        span: row.span,
    })
}

fn value(text: &[u8], row: ValueRow) -> Option<Value<'_>>
    ensures { OnTrue (value_known text.now row) (option_map value_of result ≡ Some (value text.now row)) }
{
    match row {
        ValueRow::Null => Some(Value::Null),
        ValueRow::String(part) => Some(Value::String(piece(text, part)?)),
        ValueRow::Integer(n) => Some(Value::Integer(n)),
        ValueRow::Float(bits) => Some(Value::Float(bits)),
        ValueRow::Bool(b) => Some(Value::Bool(b)),
        ValueRow::Unknown(_) => None,
    }
}

impl Rows<'_> {
    // The row of a node.
    fn node(&self, n: NodeHandle) -> Option<NodeRow>
        ensures { let o = found (document_of self.now) n in OnSome o (IsSomeAnd result (NodeTold (given self.now.source) o)) }
    {
        self.source.nodes.get(n.number as usize).copied()
    }

    // The row of an entry.
    fn entry(&self, e: EntryHandle) -> Option<EntryRow>
        ensures { let o = found_entry (document_of self.now) e in OnSome o (IsSomeAnd result (EntryTold (given self.now.source) o e.number)) }
    {
        self.source.entries.get(e.number as usize).copied()
    }
}

impl Parts for Rows<'_> {
    ghost document = { document_of };

    ghost lawful = { λ p. lawful_tables (given p.source) p.typed };

    fn name(&self, n: NodeHandle) -> Option<Identifier<'_>> {
        ident(self.source.text, self.node(n)?.name)
    }

    fn node_type(&self, n: NodeHandle) -> Option<Identifier<'_>> {
        ident(self.source.text, self.node(n)?.ty?)
    }

    fn node_span(&self, n: NodeHandle) -> Option<Span> {
        Some(self.node(n)?.span)
    }

    fn entry_name(&self, e: EntryHandle) -> Option<Identifier<'_>> {
        ident(self.source.text, self.entry(e)?.name?)
    }

    fn entry_type(&self, e: EntryHandle) -> Option<Identifier<'_>> {
        ident(self.source.text, self.entry(e)?.ty?)
    }

    fn entry_value(&self, e: EntryHandle) -> Option<Value<'_>> {
        value(self.source.text, self.entry(e)?.value)
    }

    fn entry_span(&self, e: EntryHandle) -> Option<Span> {
        Some(self.entry(e)?.span)
    }
}
