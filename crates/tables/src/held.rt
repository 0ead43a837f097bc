// The tree that tables make.
ghost use Rattle.std.specs.Prelude.{◌≡◌, true};
ghost use Rattle.layout.specs.Typed.{typed as types_kept};
ghost use Rattle.table_check.specs.Given.{given};

pub mod make;
pub mod reads;

use linked::linked::Linked;
use table_check::source::Source;

// Tables as the parts of their document.
#[derive(Drop)]
pub struct Rows<'a> {
    source: Source<'a>,
    ghost typed: { types_kept (given source) ≡ true },
}

// Tables with the links of their document.
pub type Tables<'a> = Linked<Rows<'a>>;
