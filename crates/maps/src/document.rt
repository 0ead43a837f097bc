// The map of a document, item by item.
ghost use Rattle.std.specs.Prelude.{List};
ghost use Rattle.forms.specs.Forms.{Form};
ghost use Rattle.places.specs.Meant.{item_meant};
ghost use Rattle.map_stages.specs.Coming.{document_coming};
ghost use Rattle.maps.specs.Hands.{Hands};

use map_stages::access::DocumentMapAccess;
use map_turns::groups::group_item;
use places::item::Item;
use searches::next_group;
use tree::interface::Tree;

// The first group still to come, and the rest is left; none at the end. The forms have no part in it.
pub fn next_node_group<T: Tree>(access: &mut DocumentMapAccess, tree: &T) -> Option<Item>
    ensures { (fs : List Form) → Hands (item_meant (T.Tree.meaning tree.now) fs) (document_coming (T.Tree.meaning tree.now) access.old) result (document_coming (T.Tree.meaning tree.now) access.new) }
{
    let first = next_group(tree, access.at)?;
    let item = group_item(tree, first);
    access.at = tree.next_sibling(first);
    Some(item)
}
