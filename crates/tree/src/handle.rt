// Handles, by which the nodes and entries of a tree are asked for.
ghost use Rattle.std.specs.Prelude.{Some};
ghost use Rattle.std.specs.Fmt.{decimal};

use std::fmt;

// A node of a tree, by number. A caller may make one from any number: a tree answers absent where the number is no node's.
#[derive(Clone, Copy, PartialEq, Eq, Debug)]
pub struct NodeHandle {
    pub number: u32,
}

// An entry of a tree, by number. Nodes and entries are numbered apart.
#[derive(Clone, Copy, PartialEq, Eq, Debug)]
pub struct EntryHandle {
    pub number: u32,
}

impl fmt::Display for NodeHandle {
    ghost output = { λ n. Some (decimal n.number) };

    fn fmt<W: fmt::Write>(&self, f: &mut fmt::Formatter<W>) -> fmt::Result {
        let NodeHandle { number } = self;
        write!(f, "{number}")
    }
}

impl fmt::Display for EntryHandle {
    ghost output = { λ e. Some (decimal e.number) };

    fn fmt<W: fmt::Write>(&self, f: &mut fmt::Formatter<W>) -> fmt::Result {
        let EntryHandle { number } = self;
        write!(f, "{number}")
    }
}
