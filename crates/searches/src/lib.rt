// Searches of a tree by names, and the first of siblings and children.
#![tactic(auto)]

ghost use Rattle.std.specs.Prelude.{◌≡◌};
ghost use Rattle.tree.specs.Document.{properties_in};
ghost use Rattle.tree.specs.Going.{first, found, found_entry};
ghost use Rattle.spots.specs.Rows.{row, inner, entry_row};
ghost use Rattle.lists.specs.Properties.{is_property};
ghost use Rattle.lists.specs.Groups.{is_child};
ghost use Rattle.searches.specs.Searches.{is_called, is_named, first_of_siblings, NextCalled, NextGroup};

mod row;

use row::{any_named, find_named, has_name};
use tree::handle::{EntryHandle, NodeHandle};
use tree::interface::Tree;

// Whether the node has the name; no where there is no such node.
pub fn is_called<T: Tree>(tree: &T, node: NodeHandle, name: &[u8]) -> bool
    ensures { result ≡ is_called (found (T.Tree.meaning tree.now) node) name.now }
{
    has_name(tree, node, name)
}

// Whether the entry is a property with the name.
pub fn is_named<T: Tree>(tree: &T, entry: EntryHandle, name: &[u8]) -> bool
    ensures { result ≡ is_named (found_entry (T.Tree.meaning tree.now) entry) name.now }
{
    has_name(tree, entry, name)
}

// The next node from `start` on that has the name.
pub fn next_called<T: Tree>(tree: &T, start: Option<NodeHandle>, name: &[u8]) -> Option<NodeHandle>
    ensures { NextCalled (T.Tree.meaning tree.now) name.now start result }
{
    find_named(tree, start, name)
}

// Whether a node from `start` on has the name.
pub fn has_called<T: Tree>(tree: &T, start: Option<NodeHandle>, name: &[u8]) -> bool
    ensures { result ≡ is_child (row (T.Tree.meaning tree.now) start) name.now }
{
    any_named(tree, start, name)
}

// Whether an entry from `entry` on is a property with the name.
pub fn has_property<T: Tree>(tree: &T, entry: Option<EntryHandle>, name: &[u8]) -> bool
    ensures { result ≡ is_property (properties_in (entry_row (T.Tree.meaning tree.now) entry)) name.now }
{
    any_named(tree, entry, name)
}

// The first node of the block; none without a block.
pub fn first_child<T: Tree>(tree: &T, node: NodeHandle) -> Option<NodeHandle>
    ensures { result ≡ first (inner (T.Tree.meaning tree.now) node) }
{
    tree.block(node).flatten()
}

// The first of the nodes that stand with the node; none where there is no such node.
pub fn first_sibling<T: Tree>(tree: &T, node: NodeHandle) -> Option<NodeHandle>
    ensures { result ≡ first_of_siblings (T.Tree.meaning tree.now) node }
{
    match tree.parent(node) {
        Some(holder) => first_child(tree, holder),
        None => {
            tree.node_span(node)?;
            tree.first_node()
        }
    }
}

// The next node from `start` on that is the first of its name: none of its earlier siblings has that name.
pub fn next_group<T: Tree>(tree: &T, start: Option<NodeHandle>) -> Option<NodeHandle>
    ensures { NextGroup (T.Tree.meaning tree.now) start result }
{
    let mut at = start;
    'nodes: while let Some(h) = at {
        let name = tree.name(h)?;
        let mut before = first_sibling(tree, h);
        'earlier: while let Some(e) = before {
            if e == h {
                break 'earlier;
            }
            if is_called(tree, e, name.bytes) {
                at = tree.next_sibling(h);
                continue 'nodes;
            }
            before = tree.next_sibling(e);
        }
        return Some(h);
    }
    None
}
