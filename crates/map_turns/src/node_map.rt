// A node as a map, and what its form asks for.
ghost use Rattle.std.specs.Prelude.{◌≡◌, cond};
ghost use Rattle.forms.specs.Forms.{has};
ghost use Rattle.forms.specs.Keys.{spelled};
ghost use Rattle.forms.specs.Lent.{key_of};
ghost use Rattle.map_stages.specs.declared.access.Turn.TheVariants as turn;
ghost use Rattle.map_stages.specs.Coming.{form_in};

use super::wants::wants;
use forms::interface::Forms;
use forms::key::Spelled;
use map_stages::access::{Stage, Turn};
use places::item::Item;
use tree::handle::NodeHandle;
use tree::interface::Tree;

// A node of a tree as a map, or as a struct with a form of a set. The handle may be no node's.
#[derive(Drop)]
pub struct NodeMap<'a, T, F> {
    pub tree: &'a T,
    pub forms: &'a F,
    pub node: NodeHandle,
    pub form: Option<u32>,
}

impl<T: Tree, F: Forms> NodeMap<'_, T, F> {
    // Whether the form has what the key spells. Without a form nothing is asked for.
    pub fn wants(&self, key: Spelled) -> bool
        ensures { result ≡ has (form_in (F.Forms.meaning self.now.forms.now) self.now.form) (spelled (key_of key.entry)) }
    {
        wants(self.forms, self.form, key)
    }

    // The item where the form asks for the key, and the stage behind it.
    pub(crate) fn asked(&self, key: Spelled, item: Item, next: Stage) -> Turn
        ensures { result ≡ cond (has (form_in (F.Forms.meaning self.now.forms.now) self.now.form) (spelled (key_of key.entry))) (turn.Give item next) (turn.Pass next) }
    {
        if self.wants(key) {
            Turn::Give(item, next)
        } else {
            Turn::Pass(next)
        }
    }
}
