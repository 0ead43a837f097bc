// What is told of each node and entry of an image.
ghost use Rattle.std.specs.Prelude.{◌≡◌, ℕ, min, List, [], ◌∷◌, ◌++◌, length, OnOk};
ghost use Rattle.index.specs.declared.keyed.Keyed.{Keyed as Under};
ghost use Rattle.index.specs.declared.link.NodeLink.{NodeLink as NodeLeads};
ghost use Rattle.index.specs.declared.link.EntryLink.{EntryLink as EntryLeads};

use index::keyed::Keyed;
use index::link::{EntryLink, NodeLink};
use std::alloc::AllocError;
use std::convert::Infallible;
use tree::counts::Counts;

pub trait Sink {
    // Why it takes no more.
    type Error;

    // It was told of exactly these.
    ghost told: { Self → List (Under NodeLeads) → List (Under EntryLeads) → Type 0 };

    fn node(&mut self, link: Keyed<NodeLink>) -> Result<(), Self::Error>
        ensures { (ns : List (Under NodeLeads)) (es : List (Under EntryLeads)) → told self.old ns es → OnOk result (told self.new (ns ++ link ∷ []) es) };

    fn entry(&mut self, link: Keyed<EntryLink>) -> Result<(), Self::Error>
        ensures { (ns : List (Under NodeLeads)) (es : List (Under EntryLeads)) → told self.old ns es → OnOk result (told self.new ns (es ++ link ∷ [])) };
}

// Counts what it is told.
impl Sink for Counts {
    type Error = Infallible;

    ghost told = { λ c ns es. (c.nodes ≡ min (length ns) 4294967295) × (c.entries ≡ min (length es) 4294967295) };

    fn node(&mut self, _link: Keyed<NodeLink>) -> Result<(), Infallible> {
        self.nodes = self.nodes.saturating_add(1);
        Ok(())
    }

    fn entry(&mut self, _link: Keyed<EntryLink>) -> Result<(), Infallible> {
        self.entries = self.entries.saturating_add(1);
        Ok(())
    }
}

// Keeps what it is told.
#[derive(Drop)]
pub struct Keeper {
    pub nodes: Vec<Keyed<NodeLink>>,
    pub entries: Vec<Keyed<EntryLink>>,
}

impl Sink for Keeper {
    type Error = AllocError;

    ghost told = { λ k ns es. (k.nodes.items ≡ ns) × (k.entries.items ≡ es) };

    fn node(&mut self, link: Keyed<NodeLink>) -> Result<(), AllocError> {
        self.nodes.push(link)?;
        Ok(())
    }

    fn entry(&mut self, link: Keyed<EntryLink>) -> Result<(), AllocError> {
        self.entries.push(link)?;
        Ok(())
    }
}
