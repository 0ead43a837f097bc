// The properties of a node that are in force, one by one.
ghost use Rattle.map_stages.specs.declared.access.Stage.TheVariants as stage;
ghost use Rattle.map_turns.specs.Given.{Gives};

use super::items::item;
use super::node_map::NodeMap;
use forms::interface::Forms;
use forms::key::Spelled;
use map_stages::access::{Stage, Turn};
use places::item::{KeyKind, Part};
use places::place::Place;
use searches::{first_child, has_property};
use tree::handle::EntryHandle;
use tree::interface::Tree;

impl<T: Tree, F: Forms> NodeMap<'_, T, F> {
    // The next property from `at` on that no later one overrides: its value under "#@".
    pub fn at_property_turn(&self, at: Option<EntryHandle>) -> Turn
        ensures { Gives (T.Tree.meaning self.now.tree.now) (F.Forms.meaning self.now.forms.now) self.now.node self.now.form (stage.AtProperty at) result }
    {
        let Some(e) = at else {
            return Turn::Pass(Stage::Groups(first_child(self.tree, self.node)));
        };
        let Some(_) = self.tree.entry_span(e) else {
            return Turn::Pass(Stage::Groups(first_child(self.tree, self.node)));
        };
        let next = self.tree.next_entry(e);
        let Some(name) = self.tree.entry_name(e) else {
            return Turn::Pass(Stage::AtProperty(next));
        };
        if has_property(self.tree, next, name.bytes) {
            return Turn::Pass(Stage::AtProperty(next));
        }
        let value = item(KeyKind::AtProperty, 0, Part::Entry(e), Place::Value(e));
        self.asked(
            Spelled::AtProperty(name.bytes),
            value,
            Stage::PropertyType(e),
        )
    }

    // The type of this property.
    pub fn property_type_turn(&self, e: EntryHandle) -> Turn
        ensures { Gives (T.Tree.meaning self.now.tree.now) (F.Forms.meaning self.now.forms.now) self.now.node self.now.form (stage.PropertyType e) result }
    {
        let next = Stage::Property(e);
        let Some(name) = self.tree.entry_name(e) else {
            return Turn::Pass(next);
        };
        let Some(_) = self.tree.entry_type(e) else {
            return Turn::Pass(next);
        };
        let own = item(
            KeyKind::AtPropertyType,
            0,
            Part::Entry(e),
            Place::EntryType(e),
        );
        self.asked(Spelled::AtPropertyType(name.bytes), own, next)
    }

    // This property under its own name.
    pub fn property_turn(&self, e: EntryHandle) -> Turn
        ensures { Gives (T.Tree.meaning self.now.tree.now) (F.Forms.meaning self.now.forms.now) self.now.node self.now.form (stage.Property e) result }
    {
        let next = Stage::AtProperty(self.tree.next_entry(e));
        let Some(_) = self.tree.entry_name(e) else {
            return Turn::Pass(next);
        };
        let property = item(KeyKind::Property, 0, Part::Entry(e), Place::Value(e));
        Turn::Give(property, next)
    }
}
