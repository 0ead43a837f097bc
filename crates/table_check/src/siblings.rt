// Node rows that stand beside one another.
ghost use Rattle.std.specs.Prelude.{◌≡◌, ◌-◌};
ghost use Rattle.std.specs.Iterator.{at_most};
ghost use Rattle.table_check.specs.Siblings.{sibling_steps};

use layout::rows::NodeRow;

// The rows from `at` up to `to` that stand beside one another: the rows below each are passed over.
#[derive(Drop)]
pub struct Siblings<'a> {
    rows: &'a [NodeRow],
    at: usize,
    to: usize,
}

impl<'a> Siblings<'a> {
    pub fn new(rows: &'a [NodeRow], from: usize, to: usize) -> Siblings<'a>
        ensures rows { result.rows.now ≡ rows.now }
        ensures from { result.at ≡ from }
        ensures to { result.to ≡ to }
    {
        Siblings { rows, at: from, to }
    }
}

// Each row comes with the number of the row behind those below it.
impl Iterator for Siblings<'_> {
    type Item = (usize, usize);

    ghost next_gives = { sibling_steps };

    ghost remaining = { λ s. at_most (s.to - s.at) };

    fn next(&mut self) -> Option<(usize, usize)> {
        let row = self.at;
        if row >= self.to {
            return None;
        }
        self.at = row + 1 + self.rows.get(row)?.below as usize;
        Some((row, self.at))
    }
}
