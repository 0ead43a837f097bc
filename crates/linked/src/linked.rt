// The tree that is made of links and parts.
ghost use Rattle.std.specs.Prelude.{◌≡◌, vec_items};
ghost use Rattle.std.specs.Option.{option_map};
ghost use Rattle.tree.specs.Going.{first_node, found, found_entry};
ghost use Rattle.index.specs.Links.{links_of, entry_links_of, link as node_link, entry_link};

use super::parts::Parts;
use index::link::{EntryLink, NodeLink};
use index::links::Links;
use tree::handle::{EntryHandle, NodeHandle};
use tree::interface::Tree;
use tree::span::{Identifier, Span};
use tree::value::Value;

// The parts of a document, with the links of that document.
#[derive(Drop)]
pub struct Linked<P: Parts> {
    pub parts: P,
    pub links: Links,
    pub ghost linked: { ∥ vec_items links.nodes.items ≡ links_of (P.document parts) ∥₁ },
    pub ghost entries_linked: { ∥ vec_items links.entries.items ≡ entry_links_of (P.document parts) ∥₁ },
}

impl<P: Parts> Linked<P> {
    // What leads on from a node.
    fn link(&self, n: NodeHandle) -> Option<NodeLink>
        ensures { result ≡ option_map node_link (found (P.document self.now.parts) n) }
    {
        self.links.nodes.get(n.number)
    }

    // What leads on from an entry.
    fn entry_link(&self, e: EntryHandle) -> Option<EntryLink>
        ensures { result ≡ option_map entry_link (found_entry (P.document self.now.parts) e) }
    {
        self.links.entries.get(e.number)
    }
}

impl<P: Parts> Tree for Linked<P> {
    ghost meaning = { λ t. P.document t.parts };

    ghost lawful = { λ t. P.lawful t.parts };

    fn first_node(&self) -> Option<NodeHandle> {
        self.links.nodes.first().map(|number| NodeHandle { number })
    }

    fn next_sibling(&self, n: NodeHandle) -> Option<NodeHandle> {
        self.link(n)?.next
    }

    fn parent(&self, n: NodeHandle) -> Option<NodeHandle> {
        self.link(n)?.parent
    }

    fn block(&self, n: NodeHandle) -> Option<Option<NodeHandle>> {
        self.link(n)?.block
    }

    fn first_entry(&self, n: NodeHandle) -> Option<EntryHandle> {
        self.link(n)?.entry
    }

    fn next_entry(&self, e: EntryHandle) -> Option<EntryHandle> {
        self.entry_link(e)?.next
    }

    fn node_of(&self, e: EntryHandle) -> Option<NodeHandle> {
        Some(self.entry_link(e)?.node)
    }

    fn name(&self, n: NodeHandle) -> Option<Identifier<'_>> {
        self.link(n)?;
        self.parts.name(n)
    }

    fn node_type(&self, n: NodeHandle) -> Option<Identifier<'_>> {
        self.link(n)?;
        self.parts.node_type(n)
    }

    fn node_span(&self, n: NodeHandle) -> Option<Span> {
        self.link(n)?;
        self.parts.node_span(n)
    }

    fn entry_name(&self, e: EntryHandle) -> Option<Identifier<'_>> {
        self.entry_link(e)?;
        self.parts.entry_name(e)
    }

    fn entry_type(&self, e: EntryHandle) -> Option<Identifier<'_>> {
        self.entry_link(e)?;
        self.parts.entry_type(e)
    }

    fn entry_value(&self, e: EntryHandle) -> Option<Value<'_>> {
        self.entry_link(e)?;
        self.parts.entry_value(e)
    }

    fn entry_span(&self, e: EntryHandle) -> Option<Span> {
        self.entry_link(e)?;
        self.parts.entry_span(e)
    }
}
