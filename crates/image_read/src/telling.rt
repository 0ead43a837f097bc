// Tells a sink of every node and entry of an image, in the order in which they stand in it.
ghost use Rattle.std.specs.Prelude.{◌≡◌, ℕ, ◌+◌, ◌<◌, ◌≤◌, List, length, IfOk, Some as Given};
ghost use Rattle.index.specs.declared.keyed.Keyed.{Keyed as Under};
ghost use Rattle.index.specs.declared.link.NodeLink.{NodeLink as NodeLeads};
ghost use Rattle.index.specs.declared.link.EntryLink.{EntryLink as EntryLeads};
ghost use Rattle.image_format.proofs.Linking.{Both, first_entry_at, link_at};
ghost use Rattle.records.specs.Read.{place_of};
ghost use Rattle.image_read.specs.Lent.{Within};
ghost use Rattle.image_read.specs.Told.{ToldEntries, ToldNodes, ToldBlock, ToldImage};

use super::parts::{end_at, fore_at, has_entry, pass_entry, record_of};
use super::sink::Sink;
use image_format::kind::Kind;
use index::keyed::Keyed;
use index::link::{EntryLink, NodeLink};
use records::cursor::Cursor;
use records::stop::Stop;
use tree::handle::{EntryHandle, NodeHandle};

// The first of the entries at `p`, if one is to come.
fn first_entry(p: Cursor<'_>) -> Option<EntryHandle>
    ensures { result ≡ first_entry_at (place_of p.entry) }
{
    has_entry(p).then_some(EntryHandle { number: p.at })
}

// The link of the node at `at`: its entries are at `entries`, its block may stand at `rest`, and `after` is behind it.
fn link_of(
    at: u32,
    entries: Cursor<'_>,
    rest: Cursor<'_>,
    after: Cursor<'_>,
    parent: Option<NodeHandle>,
) -> Keyed<NodeLink>
    ensures { result ≡ link_at parent at (place_of entries.entry) (place_of rest.entry) (place_of after.entry) }
{
    let next = (!after.is_at_end()).then_some(NodeHandle { number: after.at });
    let inner = (rest.bytes.len() > 6).then(|| NodeHandle {
        number: rest.at + 6,
    });
    let block = (!rest.is_at_end()).then_some(inner);
    Keyed {
        key: at,
        value: NodeLink {
            parent,
            next,
            block,
            entry: first_entry(entries),
        },
    }
}

// Tells of the entries from `start` on; what is behind them.
fn tell_entries<'a, S: Sink>(
    start: Cursor<'a>,
    node: NodeHandle,
    sink: &mut S,
) -> Result<Cursor<'a>, Stop<S::Error>>
    ensures is { (ns : List (Under NodeLeads)) (es : List (Under EntryLeads)) → S.told sink.old ns es → ToldEntries (S.told sink.new) node ns es (place_of start.entry) result }
    ensures later { IfOk result (Within start.entry) }
{
    let mut rest = start;
    while has_entry(rest) {
        let after = pass_entry(rest)?;
        let link = Keyed {
            key: rest.at,
            value: EntryLink {
                node,
                next: first_entry(after),
            },
        };
        sink.entry(link).map_err(Stop::Sink)?;
        rest = after;
    }
    Ok(rest)
}

// Tells of the block that may stand at `p`, in the node `holder`; its nodes have the nesting `nesting`.
#[cycle(tell_block_tell_nodes)]
fn tell_block<S: Sink>(
    p: Cursor<'_>,
    nesting: u32,
    holder: NodeHandle,
    sink: &mut S,
) -> Result<(), Stop<S::Error>>
    requires { nesting ≤ 33 }
    ensures { (x : Both) → S.told sink.old x.0 x.1 → ToldBlock (S.told sink.new) (Given holder) x nesting (place_of p.entry) result }
{
    if p.is_at_end() {
        return Ok(());
    }
    let record = record_of(p, Kind::Document)?;
    tell_nodes(record.body, nesting, Some(holder), sink)?;
    Ok(end_at(record.after)?)
}

// Tells of the nodes from `start` on, which have the nesting `nesting`, and of those in their blocks.
#[cycle(tell_block_tell_nodes)]
fn tell_nodes<S: Sink>(
    start: Cursor<'_>,
    nesting: u32,
    parent: Option<NodeHandle>,
    sink: &mut S,
) -> Result<(), Stop<S::Error>>
    requires { nesting ≤ 33 }
    ensures { (x : Both) → S.told sink.old x.0 x.1 → ToldNodes (S.told sink.new) parent x nesting (place_of start.entry) result }
{
    let mut rest = start;
    // the bytes are looked at in place: is_at_end would copy the place at each turn, at a cost that was measured
    while !rest.bytes.is_empty() {
        let fore = fore_at(rest, nesting)?;
        let handle = NodeHandle { number: rest.at };
        let block = tell_entries(fore.rest, handle, sink)?;
        let link = link_of(rest.at, fore.rest, block, fore.after, parent);
        sink.node(link).map_err(Stop::Sink)?;
        tell_block(block, nesting + 1, handle, sink)?;
        rest = fore.after;
    }
    Ok(())
}

// Tells of all nodes and entries of the image.
pub fn tell_image<S: Sink>(bytes: &[u8], sink: &mut S) -> Result<(), Stop<S::Error>>
    ensures { (x : Both) → S.told sink.old x.0 x.1 → ToldImage (S.told sink.new) x bytes.now result }
{
    let whole = Cursor::whole(bytes)?;
    let record = record_of(whole, Kind::Document)?;
    tell_nodes(record.body, 1, None, sink)?;
    Ok(end_at(record.after)?)
}
