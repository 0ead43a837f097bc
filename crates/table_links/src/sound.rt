// Tables that the check accepts.
ghost use Rattle.std.specs.Prelude.{◌≡◌, true, false, is_ok, MatchOption};
ghost use Rattle.layout.specs.Tables.{checked};
ghost use Rattle.table_check.specs.Given.{given};

use table_check::check::check;
use table_check::source::Source;

#[derive(Clone, Copy)]
pub struct Sound<'a> {
    pub source: Source<'a>,
    ghost accepted: { is_ok (checked (given source)) ≡ true },
}

impl<'a> Sound<'a> {
    // The tables, if they are sound.
    pub fn new(source: Source<'a>) -> Option<Sound<'a>>
        ensures { MatchOption result (is_ok (checked (given source.entry)) ≡ false) (λ s. s.source ≡ source.entry) }
    {
        match check(source) {
            Ok(_) => Some(Sound { source }),
            Err(_) => None,
        }
    }
}
