// What leads on from every node and entry of a document.
ghost use Rattle.std.specs.Prelude.{◌≡◌, IfSome, IfNone};
ghost use Rattle.tree.specs.Numbers.{Rising};
ghost use Rattle.index.specs.Keys.{keys};

use super::keyed::Keyed;
use super::link::{EntryLink, NodeLink};
use super::sorted::Index;

#[derive(Drop)]
pub struct Links {
    pub nodes: Index<NodeLink>,
    pub entries: Index<EntryLink>,
}

impl Links {
    // The links, if the numbers of the nodes rise and those of the entries too.
    pub fn new(nodes: Vec<Keyed<NodeLink>>, entries: Vec<Keyed<EntryLink>>) -> Option<Links>
        ensures none { IfNone result (Rising (keys nodes.items) → Rising (keys entries.items) → ⊥) }
        ensures nodes { IfSome result (λ l. l.nodes.items.items ≡ nodes.items) }
        ensures entries { IfSome result (λ l. l.entries.items.items ≡ entries.items) }
    {
        let nodes = Index::new(nodes)?;
        let entries = Index::new(entries)?;
        Some(Links { nodes, entries })
    }
}
