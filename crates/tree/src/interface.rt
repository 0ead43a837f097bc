// The interface of every tree.
ghost use Rattle.std.specs.Prelude.{◌≡◌};
ghost use Rattle.std.specs.Option.{option_map};
ghost use Rattle.tree.specs.Document.{Nodes};
ghost use Rattle.tree.specs.Going.{first_node, next_sibling, parent, block, first_entry, next_entry, node_of, name, node_type, node_span, entry_name, entry_type, entry_value, entry_span};
ghost use Rattle.tree.specs.Limits.{Lawful};
ghost use Rattle.tree.specs.Lent.{ident_of, value_of};

use super::handle::{EntryHandle, NodeHandle};
use super::span::{Identifier, Span};
use super::value::Value;

// A tree means a document within the limits. Each answer follows from that document alone, and no call alters anything.
pub trait Tree {
    ghost meaning: { Self → Nodes };

    ghost lawful: { (t : Self) → Lawful (meaning t) };

    fn first_node(&self) -> Option<NodeHandle>
        ensures { result ≡ first_node (meaning self.now) };

    fn next_sibling(&self, n: NodeHandle) -> Option<NodeHandle>
        ensures { result ≡ next_sibling (meaning self.now) n };

    fn parent(&self, n: NodeHandle) -> Option<NodeHandle>
        ensures { result ≡ parent (meaning self.now) n };

    // None without a block; Some(None) where the block is empty.
    fn block(&self, n: NodeHandle) -> Option<Option<NodeHandle>>
        ensures { result ≡ block (meaning self.now) n };

    fn first_entry(&self, n: NodeHandle) -> Option<EntryHandle>
        ensures { result ≡ first_entry (meaning self.now) n };

    fn next_entry(&self, e: EntryHandle) -> Option<EntryHandle>
        ensures { result ≡ next_entry (meaning self.now) e };

    // The node that an entry belongs to.
    fn node_of(&self, e: EntryHandle) -> Option<NodeHandle>
        ensures { result ≡ node_of (meaning self.now) e };

    fn name(&self, n: NodeHandle) -> Option<Identifier<'_>>
        ensures { option_map ident_of result ≡ name (meaning self.now) n };

    fn node_type(&self, n: NodeHandle) -> Option<Identifier<'_>>
        ensures { option_map ident_of result ≡ node_type (meaning self.now) n };

    fn node_span(&self, n: NodeHandle) -> Option<Span>
        ensures { result ≡ node_span (meaning self.now) n };

    // Absent for an argument: it has no name.
    fn entry_name(&self, e: EntryHandle) -> Option<Identifier<'_>>
        ensures { option_map ident_of result ≡ entry_name (meaning self.now) e };

    fn entry_type(&self, e: EntryHandle) -> Option<Identifier<'_>>
        ensures { option_map ident_of result ≡ entry_type (meaning self.now) e };

    fn entry_value(&self, e: EntryHandle) -> Option<Value<'_>>
        ensures { option_map value_of result ≡ entry_value (meaning self.now) e };

    fn entry_span(&self, e: EntryHandle) -> Option<Span>
        ensures { result ≡ entry_span (meaning self.now) e };
}
