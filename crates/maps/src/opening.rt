// Maps at their start.
ghost use Rattle.std.specs.Prelude.{List};
ghost use Rattle.tree.specs.Document.{Nodes};
ghost use Rattle.tree.specs.Limits.{Lawful};
ghost use Rattle.forms.specs.Forms.{Form};
ghost use Rattle.map_stages.specs.Opening.{OpensStruct, OpensMap, OpensDocument};

use map_stages::access::{DocumentMapAccess, NodeMapAccess, Stage};
use tree::handle::NodeHandle;
use tree::interface::Tree;

// A node as a struct with a form, over any tree and any forms.
pub fn open_struct(node: NodeHandle, form: u32) -> NodeMapAccess
    ensures { (d : Nodes) (law : Lawful d) (fs : List Form) → OpensStruct d fs node form result }
{
    NodeMapAccess {
        node,
        form: Some(form),
        stage: Stage::Name,
    }
}

// A node as a map.
pub fn open_map<T: Tree>(tree: &T, node: NodeHandle) -> NodeMapAccess
    ensures { (fs : List Form) → OpensMap (T.Tree.meaning tree.now) fs node result }
{
    NodeMapAccess {
        node,
        form: None,
        stage: Stage::AtProperty(tree.first_entry(node)),
    }
}

// The document as a map.
pub fn open_document<T: Tree>(tree: &T) -> DocumentMapAccess
    ensures { OpensDocument (T.Tree.meaning tree.now) result }
{
    DocumentMapAccess {
        at: tree.first_node(),
    }
}
