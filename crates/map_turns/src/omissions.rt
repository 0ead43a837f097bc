// The names of a form that a node does not have.
ghost use Rattle.std.specs.Prelude.{◌≡◌, Some as Given};
ghost use Rattle.map_stages.specs.declared.access.Stage.TheVariants as stage;
ghost use Rattle.map_turns.specs.Given.{Gives};
ghost use Rattle.tree.specs.Going.{Spot, found};
ghost use Rattle.forms.specs.Keys.{plain};
ghost use Rattle.lists.specs.Lists.{unmet};

use super::items::item;
use super::node_map::NodeMap;
use forms::interface::Forms;
use map_stages::access::{Stage, Turn};
use places::item::{KeyKind, Part};
use places::place::Place;
use searches::{first_child, has_called, has_property};
use tree::interface::Tree;

// Whether a name does not begin with '#'.
fn is_plain(name: &[u8]) -> bool
    ensures { result ≡ plain name.now }
{
    match name {
        [] => true,
        [c, ..] => *c != b'#',
    }
}

impl<T: Tree, F: Forms> NodeMap<'_, T, F> {
    // Whether a name is plain and names no property and no child of the node.
    fn is_unmet(&self, name: &[u8]) -> bool
        ensures { (s : Spot) → found (T.Tree.meaning self.now.tree.now) self.now.node ≡ Given s → result ≡ unmet s.self name.now }
    {
        is_plain(name)
            && !has_property(self.tree, self.tree.first_entry(self.node), name)
            && !has_called(self.tree, first_child(self.tree, self.node), name)
    }

    // The name at a position of the form.
    pub fn omission_turn(&self, position: u32) -> Turn
        ensures { Gives (T.Tree.meaning self.now.tree.now) (F.Forms.meaning self.now.forms.now) self.now.node self.now.form (stage.Omissions position) result }
    {
        let Some(form) = self.form else {
            return Turn::End;
        };
        let Some(name) = self.forms.name(form, position) else {
            return Turn::End;
        };
        let next = Stage::Omissions(position + 1);
        if !self.is_unmet(name) {
            return Turn::Pass(next);
        }
        let omitted = item(
            KeyKind::Omission,
            position,
            Part::Form(form, position),
            Place::Omission,
        );
        Turn::Give(omitted, next)
    }
}
