// The laws of lists: each function's contract is one of them.
#![tactic(auto)]

ghost use Rattle.lists.specs.Partition.{Partition};
ghost use Rattle.lists.specs.Placement.{Placement, KeysTold};
ghost use Rattle.lists.specs.Stages.{Stages};

// The groups of nodes are the nodes parted by their names, and the properties in force are the last of each name.
pub fn partition_holds()
    ensures { Partition }
{}

// What stands under each key of the list of a node asked as a struct or as a map, and of a document.
pub fn placement_holds()
    ensures placement { Placement }
    ensures keys { KeysTold }
{}

// Each of these lists, one stage after another.
pub fn stages_hold()
    ensures { Stages }
{}
