// The name and the type of a node, and its argument lists.
ghost use Rattle.map_stages.specs.declared.access.Stage.TheVariants as stage;
ghost use Rattle.map_turns.specs.Given.{Gives};

use super::items::item;
use super::node_map::NodeMap;
use forms::interface::Forms;
use forms::key::Spelled;
use map_stages::access::{Stage, Turn};
use places::item::{KeyKind, Part};
use places::place::Place;
use tree::interface::Tree;

impl<T: Tree, F: Forms> NodeMap<'_, T, F> {
    pub fn name_turn(&self) -> Turn
        ensures { Gives (T.Tree.meaning self.now.tree.now) (F.Forms.meaning self.now.forms.now) self.now.node self.now.form stage.Name result }
    {
        let name = item(KeyKind::Name, 0, Part::Nothing, Place::NodeName(self.node));
        self.asked(Spelled::Name, name, Stage::Type)
    }

    pub fn type_turn(&self) -> Turn
        ensures { Gives (T.Tree.meaning self.now.tree.now) (F.Forms.meaning self.now.forms.now) self.now.node self.now.form stage.«Type» result }
    {
        let next = Stage::ArgumentType(self.tree.first_entry(self.node), 0);
        let Some(_) = self.tree.node_type(self.node) else {
            return Turn::Pass(next);
        };
        let own = item(KeyKind::Type, 0, Part::Nothing, Place::NodeType(self.node));
        self.asked(Spelled::Type, own, next)
    }

    pub fn args_turn(&self) -> Turn
        ensures { Gives (T.Tree.meaning self.now.tree.now) (F.Forms.meaning self.now.forms.now) self.now.node self.now.form stage.Args result }
    {
        let args = item(KeyKind::Args, 0, Part::Nothing, Place::Arguments(self.node));
        self.asked(Spelled::Args, args, Stage::Rest)
    }

    pub fn rest_turn(&self) -> Turn
        ensures { Gives (T.Tree.meaning self.now.tree.now) (F.Forms.meaning self.now.forms.now) self.now.node self.now.form stage.Rest result }
    {
        let next = Stage::AtProperty(self.tree.first_entry(self.node));
        let Some(form) = self.form else {
            return Turn::Pass(next);
        };
        let rest = item(
            KeyKind::Rest,
            0,
            Part::Nothing,
            Place::Rest(self.node, form),
        );
        self.asked(Spelled::Rest, rest, next)
    }
}
