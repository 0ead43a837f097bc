// What is read of a node or an entry at its handle.
ghost use Rattle.std.specs.Prelude.{◌≡◌, OnSome};
ghost use Rattle.std.specs.Option.{option_map};
ghost use Rattle.tree.specs.Document.{Nodes};
ghost use Rattle.tree.specs.Going.{found, found_entry, name, node_type, node_span, entry_name, entry_type, entry_value, entry_span};
ghost use Rattle.tree.specs.Limits.{Lawful};
ghost use Rattle.tree.specs.Lent.{ident_of, value_of};

use tree::handle::{EntryHandle, NodeHandle};
use tree::span::{Identifier, Span};
use tree::value::Value;

// The parts of a document within the limits. At the handle of a node or an entry each answer is the document's; at other numbers it may be any.
pub trait Parts: Drop {
    ghost document: { Self → Nodes };

    ghost lawful: { (p : Self) → Lawful (document p) };

    fn name(&self, n: NodeHandle) -> Option<Identifier<'_>>
        ensures { OnSome (found (document self.now) n) (option_map ident_of result ≡ name (document self.now) n) };

    fn node_type(&self, n: NodeHandle) -> Option<Identifier<'_>>
        ensures { OnSome (found (document self.now) n) (option_map ident_of result ≡ node_type (document self.now) n) };

    fn node_span(&self, n: NodeHandle) -> Option<Span>
        ensures { OnSome (found (document self.now) n) (result ≡ node_span (document self.now) n) };

    fn entry_name(&self, e: EntryHandle) -> Option<Identifier<'_>>
        ensures { OnSome (found_entry (document self.now) e) (option_map ident_of result ≡ entry_name (document self.now) e) };

    fn entry_type(&self, e: EntryHandle) -> Option<Identifier<'_>>
        ensures { OnSome (found_entry (document self.now) e) (option_map ident_of result ≡ entry_type (document self.now) e) };

    fn entry_value(&self, e: EntryHandle) -> Option<Value<'_>>
        ensures { OnSome (found_entry (document self.now) e) (option_map value_of result ≡ entry_value (document self.now) e) };

    fn entry_span(&self, e: EntryHandle) -> Option<Span>
        ensures { OnSome (found_entry (document self.now) e) (result ≡ entry_span (document self.now) e) };
}
