// The links of the nodes and entries of tables.
ghost use Rattle.std.specs.Prelude.{◌≡◌, true, IfOk, vec_items};
ghost use Rattle.index.specs.Links.{links_of, entry_links_of};
ghost use Rattle.layout.specs.Layout.{Made};
ghost use Rattle.layout.specs.Tables.{document};
ghost use Rattle.layout.specs.Typed.{typed as types_kept};
ghost use Rattle.table_check.specs.Given.{given};

use super::linking::{link_entries, link_nodes};
use super::sound::Sound;
use super::typed::note_all;
use index::keyed::Keyed;
use index::link::{EntryLink, NodeLink};
use index::links::Links;
use std::alloc::{AllocError, Global};
use table_check::source::Source;

// The numbers in tables are those of their types.
fn note_source(source: Source<'_>)
    ensures { types_kept (given source.entry) ≡ true }
{
    note_all(source.text);
    note_all(source.nodes);
    note_all(source.entries);
}

// The links of the nodes and of the entries, none where the tables are unsound.
fn link_all(
    heap: Global,
    source: Source<'_>,
) -> Result<(Vec<Keyed<NodeLink>>, Vec<Keyed<EntryLink>>), AllocError>
    ensures nodes { IfOk result (λ p. p.0.items ≡ links_of (document (given source.entry))) }
    ensures entries { IfOk result (λ p. p.1.items ≡ entry_links_of (document (given source.entry))) }
{
    let mut nodes = Vec::new(heap);
    let mut entries = Vec::new(heap);
    match Sound::new(source) {
        None => Ok((nodes, entries)),
        Some(tables) => {
            link_nodes(tables, 0, tables.source.nodes.len(), None, &mut nodes)?;
            link_entries(tables, &mut entries)?;
            Ok((nodes, entries))
        }
    }
}

// The links of the document that the tables make, and what is known of that document. Only memory can be wanting.
pub fn link(heap: Global, source: Source<'_>) -> Result<Links, AllocError>
    ensures typed { types_kept (given source.entry) ≡ true }
    ensures law { Made (given source.entry) (document (given source.entry)) }
    ensures nodes { IfOk result (λ l. ∥ vec_items l.nodes.items ≡ links_of (document (given source.entry)) ∥₁) }
    ensures entries { IfOk result (λ l. ∥ vec_items l.entries.items ≡ entry_links_of (document (given source.entry)) ∥₁) }
{
    note_source(source);
    let (nodes, entries) = link_all(heap, source)?;
    Ok(Links::new(nodes, entries).unwrap())
}
