// Nodes that stand one after another, and the entries of a node: a search by a name is the same in both.
ghost use Rattle.std.specs.Prelude.{◌≡◌, [], ◌∷◌, List, Option, None, Some as Given, find, refl};
ghost use Rattle.std.specs.Option.{option_map};
ghost use Rattle.std.specs.List.{list_any};
ghost use Rattle.std.specs.Iterator.{YieldsFirst, item_count};
ghost use Rattle.tree.specs.Document.{Ident, Nodes};
ghost use Rattle.tree.specs.Going.{name, entry_name, next_sibling, next_entry};
ghost use Rattle.tree.specs.Limits.{Lawful};
ghost use Rattle.tree.specs.Lent.{ident_of};
ghost use Rattle.searches.specs.Searches.{ident_is};
ghost use Rattle.searches.specs.Standing.{standing};
ghost use Rattle.spots.specs.Rows.{nodes_from, entries_from};
ghost use Rattle.spots.proofs.Onward.{nodes_onward, entries_onward};

use tree::handle::{EntryHandle, NodeHandle};
use tree::interface::Tree;
use tree::span::Identifier;

// A handle of nodes, or of entries: the name of what it stands for, and the handle of what stands next.
pub(crate) trait Handle: Copy {
    ghost name: { Nodes → Self → Option Ident };

    ghost next: { Nodes → Self → Option Self };

    // the handles from one on
    ghost handles: { Nodes → Option Self → List Self };

    fn name_in<T: Tree>(self, tree: &T) -> Option<Identifier<'_>>
        ensures { option_map ident_of result ≡ name (T.Tree.meaning tree.now) self };

    fn next_in<T: Tree>(self, tree: &T) -> Option<Self>
        ensures { result ≡ next (T.Tree.meaning tree.now) self };

    ghost ends: { (d : Nodes) → handles d None ≡ [] };

    ghost onward: { (d : Nodes) → Lawful d → (h : Self) → handles d (Given h) ≡ h ∷ handles d (next d h) };
}

impl Handle for NodeHandle {
    ghost name = { name };

    ghost next = { next_sibling };

    ghost handles = { nodes_from };

    ghost ends = { λ d. refl };

    ghost onward = { nodes_onward };

    fn name_in<T: Tree>(self, tree: &T) -> Option<Identifier<'_>> {
        tree.name(self)
    }

    fn next_in<T: Tree>(self, tree: &T) -> Option<NodeHandle> {
        tree.next_sibling(self)
    }
}

impl Handle for EntryHandle {
    ghost name = { entry_name };

    ghost next = { next_entry };

    ghost handles = { entries_from };

    ghost ends = { λ d. refl };

    ghost onward = { entries_onward };

    fn name_in<T: Tree>(self, tree: &T) -> Option<Identifier<'_>> {
        tree.entry_name(self)
    }

    fn next_in<T: Tree>(self, tree: &T) -> Option<EntryHandle> {
        tree.next_entry(self)
    }
}

// The handles from one on. Where `passed`, the one at `at` was given, and what stands behind it is not asked for yet.
#[derive(Drop)]
pub(crate) struct Onward<'a, T, H> {
    pub tree: &'a T,
    pub at: Option<H>,
    pub passed: bool,
}

impl<'a, T: Tree, H: Handle> Iterator for Onward<'a, T, H> {
    type Item = H;

    ghost next_gives = { YieldsFirst (λ s. H.handles (T.Tree.meaning s.tree.now) (standing (H.next (T.Tree.meaning s.tree.now)) s.at s.passed)) };

    ghost remaining = { item_count (λ s. H.handles (T.Tree.meaning s.tree.now) (standing (H.next (T.Tree.meaning s.tree.now)) s.at s.passed)) };

    fn next(&mut self) -> Option<H> {
        if self.passed {
            self.at = self.at?.next_in(self.tree);
        }
        self.passed = true;
        self.at
    }
}

// Whether what the handle stands for has the name.
pub(crate) fn has_name<T: Tree, H: Handle>(tree: &T, h: H, name: &[u8]) -> bool
    ensures { result ≡ ident_is (H.name (T.Tree.meaning tree.now) h) name.now }
{
    h.name_in(tree).is_some_and(|own| own.bytes == name)
}

// The first from `start` on that has the name.
pub(crate) fn find_named<T: Tree, H: Handle>(tree: &T, start: Option<H>, name: &[u8]) -> Option<H>
    ensures { result ≡ find (λ h. ident_is (H.name (T.Tree.meaning tree.now) h) name.now) (H.handles (T.Tree.meaning tree.now) start) }
{
    Onward {
        tree,
        at: start,
        passed: false,
    }
    .find(|h| has_name(tree, *h, name))
}

// Whether one from `start` on has the name.
pub(crate) fn any_named<T: Tree, H: Handle>(tree: &T, start: Option<H>, name: &[u8]) -> bool
    ensures { result ≡ list_any (λ h. ident_is (H.name (T.Tree.meaning tree.now) h) name.now) (H.handles (T.Tree.meaning tree.now) start) }
{
    Onward {
        tree,
        at: start,
        passed: false,
    }
    .any(|h| has_name(tree, h, name))
}
