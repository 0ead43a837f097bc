// The groups of nodes, one by one.
ghost use Rattle.std.specs.Prelude.{◌≡◌, List, Some as Given};
ghost use Rattle.tree.specs.Going.{Spot, found};
ghost use Rattle.forms.specs.Forms.{Form};
ghost use Rattle.lists.specs.Groups.{called, those_called};
ghost use Rattle.lists.specs.Lists.{group_item, together};
ghost use Rattle.places.specs.Meant.{meant, item_meant};
ghost use Rattle.map_stages.proofs.Groups.{group_at};
ghost use Rattle.map_stages.specs.declared.access.Stage.TheVariants as stage;
ghost use Rattle.map_turns.specs.Given.{Gives};

use super::items::item;
use super::node_map::NodeMap;
use forms::interface::Forms;
use map_stages::access::{Stage, Turn};
use places::item::{Item, KeyKind, Part};
use places::place::Place;
use searches::{next_called, next_group};
use tree::handle::NodeHandle;
use tree::interface::Tree;

// The place of the nodes that have the name of the first of them: a group of one is that node.
fn group_place<T: Tree>(tree: &T, first: NodeHandle) -> Place
    ensures { (fs : List Form) (g : Spot) → found (T.Tree.meaning tree.now) first ≡ Given g → meant (T.Tree.meaning tree.now) fs result ≡ together g.self (those_called (called g.self) g.after) }
{
    let Some(name) = tree.name(first) else {
        return Place::Node(first);
    };
    match next_called(tree, tree.next_sibling(first), name.bytes) {
        None => Place::Node(first),
        Some(_) => Place::Group(first),
    }
}

// The item of the nodes that have the name of the first of them.
pub fn group_item<T: Tree>(tree: &T, first: NodeHandle) -> Item
    ensures { (fs : List Form) (g : Spot) → found (T.Tree.meaning tree.now) first ≡ Given g → item_meant (T.Tree.meaning tree.now) fs result ≡ group_item (group_at g) }
{
    let place = group_place(tree, first);
    item(KeyKind::Group, 0, Part::Node(first), place)
}

impl<T: Tree, F: Forms> NodeMap<'_, T, F> {
    // The next group from `at` on.
    pub fn groups_turn(&self, at: Option<NodeHandle>) -> Turn
        ensures { Gives (T.Tree.meaning self.now.tree.now) (F.Forms.meaning self.now.forms.now) self.now.node self.now.form (stage.Groups at) result }
    {
        let Some(first) = next_group(self.tree, at) else {
            return Turn::Pass(Stage::Omissions(0));
        };
        let group = group_item(self.tree, first);
        Turn::Give(group, Stage::Groups(self.tree.next_sibling(first)))
    }
}
