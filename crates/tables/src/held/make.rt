// The making of a tree from tables.
ghost use Rattle.std.specs.Prelude.{◌≡◌, IfOk};
ghost use Rattle.layout.specs.Layout.{Made};
ghost use Rattle.table_check.specs.Given.{given};
ghost use Rattle.tables.specs.Held.{meant};

use crate::held::{Rows, Tables};
use std::alloc::{AllocError, Global};
use table_check::source::Source;
use table_links::links::link;

// The document that the tables lay out, or the empty one where they are unsound. Only memory can be wanting.
pub fn make<'a>(heap: Global, source: Source<'a>) -> Result<Tables<'a>, AllocError>
    ensures { IfOk result (λ t. Made (given source.entry) (meant t)) }
{
    let links = link(heap, source)?;
    Ok(Tables {
        parts: Rows { source },
        links,
    })
}
