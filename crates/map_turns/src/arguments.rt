// The arguments of a node, one by one.
ghost use Rattle.std.specs.Prelude.{◌≡◌, ◌+◌, ◌^◌, if◌then◌else◌, nat_lt};
ghost use Rattle.tree.specs.Going.{next_entry};
ghost use Rattle.map_stages.specs.declared.access.Stage.TheVariants as stage;
ghost use Rattle.map_turns.specs.Given.{Gives};

use super::items::item;
use super::node_map::NodeMap;
use forms::interface::Forms;
use forms::key::Spelled;
use map_stages::access::{Stage, Turn};
use places::item::{KeyKind, Part};
use places::place::Place;
use tree::handle::EntryHandle;
use tree::interface::Tree;

// The stage behind an argument. Numbers have 32 bits.
fn behind<T: Tree>(tree: &T, e: EntryHandle, number: u32) -> Stage
    ensures { result ≡ (if nat_lt (number + 1) (2 ^ 32) then stage.ArgumentType (next_entry (T.Tree.meaning tree.now) e) (number + 1) else stage.Args) }
{
    match number.checked_add(1) {
        None => Stage::Args,
        Some(next) => Stage::ArgumentType(tree.next_entry(e), next),
    }
}

impl<T: Tree, F: Forms> NodeMap<'_, T, F> {
    // The next argument from `at` on, which has this number: its type, if it has one.
    pub fn argument_type_turn(&self, at: Option<EntryHandle>, number: u32) -> Turn
        ensures { Gives (T.Tree.meaning self.now.tree.now) (F.Forms.meaning self.now.forms.now) self.now.node self.now.form (stage.ArgumentType at number) result }
    {
        let Some(e) = at else {
            return Turn::Pass(Stage::Args);
        };
        let Some(_) = self.tree.entry_span(e) else {
            return Turn::Pass(Stage::Args);
        };
        if let Some(_) = self.tree.entry_name(e) {
            return Turn::Pass(Stage::ArgumentType(self.tree.next_entry(e), number));
        }
        let Some(_) = self.tree.entry_type(e) else {
            return Turn::Pass(Stage::Argument(e, number));
        };
        let own = item(
            KeyKind::ArgumentType,
            number,
            Part::Nothing,
            Place::EntryType(e),
        );
        Turn::Give(own, Stage::Argument(e, number))
    }

    // This argument itself.
    pub fn argument_turn(&self, e: EntryHandle, number: u32) -> Turn
        ensures { Gives (T.Tree.meaning self.now.tree.now) (F.Forms.meaning self.now.forms.now) self.now.node self.now.form (stage.Argument e number) result }
    {
        let Some(_) = self.tree.entry_span(e) else {
            return Turn::Pass(Stage::Args);
        };
        let next = behind(self.tree, e, number);
        let argument = item(KeyKind::Argument, number, Part::Nothing, Place::Value(e));
        self.asked(Spelled::Argument(number), argument, next)
    }
}
