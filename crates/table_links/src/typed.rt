// What the types of rows say of the numbers in them. A note does nothing when it runs.
ghost use Rattle.std.specs.Prelude.{◌≡◌, Bool, true};
ghost use Rattle.layout.specs.Typed.{byte_typed, node_typed, entry_typed, each};

use layout::rows::{EntryRow, NodeRow};

pub trait Typed: Copy {
    // Whether the numbers in a value are those of their types.
    ghost typed: { Self → Bool };

    fn note(self)
        ensures { typed self ≡ true };
}

impl Typed for u8 {
    ghost typed = { byte_typed };

    fn note(self) {}
}

impl Typed for NodeRow {
    ghost typed = { node_typed };

    fn note(self) {}
}

impl Typed for EntryRow {
    ghost typed = { entry_typed };

    fn note(self) {}
}

pub fn note_all<T: Typed>(rows: &[T])
    ensures { each T.typed rows.now ≡ true }
{
    for row in rows {
        row.note();
    }
}
