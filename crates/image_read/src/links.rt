// The links of the nodes and entries of an image.
ghost use Rattle.std.specs.Prelude.{◌≡◌, true, IfOk, vec_items};
ghost use Rattle.index.specs.Links.{links_of, entry_links_of};
ghost use Rattle.records.specs.Numbers.{are_bytes};
ghost use Rattle.image_format.specs.Reading.{document_in};
ghost use Rattle.image_format.specs.Law.{Made};

use super::sink::Keeper;
use super::telling::tell_image;
use index::links::Links;
use records::stop::Stop;
use std::alloc::{AllocError, Global};

// What is kept of the nodes and of the entries, nothing where the bytes are no image.
fn keep_all(heap: Global, bytes: &[u8]) -> Result<Keeper, AllocError>
    ensures nodes { IfOk result (λ k. k.nodes.items ≡ links_of (document_in bytes.now)) }
    ensures entries { IfOk result (λ k. k.entries.items ≡ entry_links_of (document_in bytes.now)) }
{
    let mut keeper = Keeper {
        nodes: Vec::new(heap),
        entries: Vec::new(heap),
    };
    match tell_image(bytes, &mut keeper) {
        Ok(()) => Ok(keeper),
        Err(Stop::Fault(_)) => Ok(Keeper {
            nodes: Vec::new(heap),
            entries: Vec::new(heap),
        }),
        Err(Stop::Sink(error)) => Err(error),
    }
}

// The links of the document that the bytes make, and what is known of that document. Only memory can be wanting.
pub fn link(heap: Global, bytes: &[u8]) -> Result<Links, AllocError>
    ensures typed { are_bytes bytes.now ≡ true }
    ensures law { Made bytes.now (document_in bytes.now) }
    ensures nodes { IfOk result (λ l. ∥ vec_items l.nodes.items ≡ links_of (document_in bytes.now) ∥₁) }
    ensures entries { IfOk result (λ l. ∥ vec_items l.entries.items ≡ entry_links_of (document_in bytes.now) ∥₁) }
{
    let keeper = keep_all(heap, bytes)?;
    Ok(Links::new(keeper.nodes, keeper.entries).unwrap())
}
