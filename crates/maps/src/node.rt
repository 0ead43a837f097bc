// The map of a node, item by item.
ghost use Rattle.std.specs.Prelude.{◌≡◌};
ghost use Rattle.places.specs.Meant.{item_meant};
ghost use Rattle.map_stages.specs.Coming.{coming};
ghost use Rattle.map_stages.specs.Turning.{Moves};
ghost use Rattle.maps.specs.Hands.{Hands};

use forms::interface::Forms;
use map_stages::access::{NodeMapAccess, Stage, Turn};
use map_turns::node_map::NodeMap;
use places::item::Item;
use tree::interface::Tree;

// One stage; the end where the handle is no node's.
fn turn<T: Tree, F: Forms>(map: &NodeMap<'_, T, F>, stage: Stage) -> Turn
    ensures { Moves (T.Tree.meaning map.now.tree.now) (F.Forms.meaning map.now.forms.now) map.now.node map.now.form stage result }
{
    let Some(_) = map.tree.node_span(map.node) else {
        return Turn::End;
    };
    match stage {
        Stage::Name => map.name_turn(),
        Stage::Type => map.type_turn(),
        Stage::ArgumentType(at, number) => map.argument_type_turn(at, number),
        Stage::Argument(e, number) => map.argument_turn(e, number),
        Stage::Args => map.args_turn(),
        Stage::Rest => map.rest_turn(),
        Stage::AtProperty(at) => map.at_property_turn(at),
        Stage::PropertyType(e) => map.property_type_turn(e),
        Stage::Property(e) => map.property_turn(e),
        Stage::Groups(at) => map.groups_turn(at),
        Stage::Omissions(position) => map.omission_turn(position),
    }
}

// The first item still to come, and the rest is left; none at the end.
pub fn next_item<T: Tree, F: Forms>(access: &mut NodeMapAccess, tree: &T, forms: &F) -> Option<Item>
    ensures item { Hands (item_meant (T.Tree.meaning tree.now) (F.Forms.meaning forms.now)) (coming (T.Tree.meaning tree.now) (F.Forms.meaning forms.now) access.old) result (coming (T.Tree.meaning tree.now) (F.Forms.meaning forms.now) access.new) }
    ensures node { access.new.node ≡ access.old.node }
    ensures form { access.new.form ≡ access.old.form }
{
    let map = NodeMap {
        tree,
        forms,
        node: access.node,
        form: access.form,
    };
    let mut stage = access.stage;
    loop {
        match turn(&map, stage) {
            Turn::End => return None,
            Turn::Pass(next) => stage = next,
            Turn::Give(item, next) => {
                access.stage = next;
                return Some(item);
            }
        }
    }
}
