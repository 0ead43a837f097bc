// The links of the nodes and entries of sound tables.
ghost use Rattle.std.specs.Prelude.{◌≡◌, ℕ, ◌+◌, ◌<◌, ◌≤◌, ◌++◌, length, OnOk};
ghost use Rattle.tree.specs.Going.{entries_from};
ghost use Rattle.index.specs.Links.{entry_links};
ghost use Rattle.layout.specs.Rows.{picked};
ghost use Rattle.layout.specs.Tables.{next};
ghost use Rattle.layout.proofs.Filling.{row_link, Fills, Whole, rows_entries};
ghost use Rattle.table_check.specs.Given.{given};

use super::sound::Sound;
use index::keyed::Keyed;
use index::link::{EntryLink, NodeLink};
use std::alloc::AllocError;
use table_check::siblings::Siblings;
use tree::handle::{EntryHandle, NodeHandle};

// What leads on from node row `i`, in a block whose rows end before `to`.
fn link_of(tables: Sound<'_>, i: usize, to: usize, parent: Option<NodeHandle>) -> Keyed<NodeLink>
    requires within { to ≤ length tables.source.nodes.now }
    requires inside { next (given tables.source) i ≤ to }
    ensures { result ≡ row_link (given tables.entry.source) i to parent }
{
    let row = tables.source.nodes[i];
    let end = i + 1 + row.below as usize;
    Keyed {
        key: i as u32,
        value: NodeLink {
            parent,
            next: (end < to).then_some(NodeHandle { number: end as u32 }),
            block: row.block.then_some(
                (i + 1 < end).then_some(NodeHandle {
                    number: i as u32 + 1,
                }),
            ),
            entry: (row.entries_count > 0).then_some(EntryHandle {
                number: row.entries_start,
            }),
        },
    }
}

// Adds the links of the node rows from `from` up to `to`, and of those below them.
pub fn link_nodes(
    tables: Sound<'_>,
    from: usize,
    to: usize,
    parent: Option<NodeHandle>,
    out: &mut Vec<Keyed<NodeLink>>,
) -> Result<(), AllocError>
    requires whole { Whole (given tables.source) from to }
    requires within { to ≤ length tables.source.nodes.now }
    ensures { OnOk result (Fills (given tables.entry.source) from to parent out.old.items out.new.items) }
{
    for (i, end) in Siblings::new(tables.source.nodes, from, to) {
        out.push(link_of(tables, i, to, parent))?;
        link_nodes(
            tables,
            i + 1,
            end,
            Some(NodeHandle { number: i as u32 }),
            out,
        )?;
    }
    Ok(())
}

// Adds the links of the entry rows of one node, `count` from `start` on.
fn link_node_entries(
    tables: Sound<'_>,
    node: NodeHandle,
    start: u32,
    count: u32,
    out: &mut Vec<Keyed<EntryLink>>,
) -> Result<(), AllocError>
    requires { start + count ≤ length tables.source.entries.now }
    ensures { OnOk result (out.new.items ≡ out.old.items ++ entry_links (entries_from node (picked (given tables.entry.source) start count))) }
{
    let end = start + count;
    for k in start..end {
        out.push(Keyed {
            key: k,
            value: EntryLink {
                node,
                next: (k + 1 < end).then_some(EntryHandle { number: k + 1 }),
            },
        })?;
    }
    Ok(())
}

// Adds the links of all entry rows.
pub fn link_entries(tables: Sound<'_>, out: &mut Vec<Keyed<EntryLink>>) -> Result<(), AllocError>
    ensures { OnOk result (out.new.items ≡ out.old.items ++ entry_links (rows_entries (given tables.entry.source) 0 tables.entry.source.nodes.now)) }
{
    for (i, row) in tables.source.nodes.iter().enumerate() {
        link_node_entries(
            tables,
            NodeHandle { number: i as u32 },
            row.entries_start,
            row.entries_count,
            out,
        )?;
    }
    Ok(())
}
