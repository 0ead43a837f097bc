// Whether tables are sound.
ghost use Rattle.std.specs.Prelude.{◌≡◌, ℕ, ◌+◌, ◌^◌, ◌<◌, ◌≤◌, length};
ghost use Rattle.layout.specs.Rows.{in_text, perhaps_in_text, value_known};
ghost use Rattle.layout.specs.Tables.{line, node_cause, entry_cause, judged, limited, checked, entry_rows};
ghost use Rattle.layout.specs.Layout.{Exact, Unique};
ghost use Rattle.layout.proofs.Steps.{Judges};
ghost use Rattle.table_check.specs.Given.{given};

use super::siblings::Siblings;
use super::source::Source;
use layout::fault::{Cause, Table, TableFault};
use layout::rows::{EntryRow, IdentRow, Part, ValueRow};
use tree::counts::Counts;

fn lies_in(text: &[u8], part: Part) -> bool
    ensures { result ≡ in_text text.now part }
{
    part.start as usize + part.length as usize <= text.len()
}

fn ident_lies_in(text: &[u8], ident: Option<IdentRow>) -> bool
    ensures { result ≡ perhaps_in_text text.now ident }
{
    ident.is_none_or(|i| lies_in(text, i.part))
}

fn is_known(text: &[u8], value: ValueRow) -> bool
    ensures { result ≡ value_known text.now value }
{
    match value {
        ValueRow::Null | ValueRow::Integer(_) | ValueRow::Float(_) | ValueRow::Bool(_) => true,
        ValueRow::String(part) => lies_in(text, part),
        ValueRow::Unknown(_) => false,
    }
}

// The entry row at which the entries of node row `i` must start.
fn line_of(source: Source<'_>, i: usize) -> usize
    requires { i ≤ length source.nodes.now }
    ensures { result ≡ line (given source.entry) i }
{
    match i.checked_sub(1) {
        None => 0,
        Some(before) => {
            let row = source.nodes[before];
            row.entries_start as usize + row.entries_count as usize
        }
    }
}

// What is wrong with node row `i`, of nesting `nesting`, in a block whose rows end before `to`.
fn node_cause(source: Source<'_>, nesting: usize, i: usize, to: usize) -> Option<Cause>
    requires { i < length source.nodes.now }
    ensures { result ≡ node_cause (given source.entry) nesting i to }
{
    let row = source.nodes[i];
    if !lies_in(source.text, row.name.part) {
        return Some(Cause::Name);
    }
    if !ident_lies_in(source.text, row.ty) {
        return Some(Cause::Type);
    }
    let start = row.entries_start as usize;
    if start != line_of(source, i) || start + row.entries_count as usize > source.entries.len() {
        return Some(Cause::Entries);
    }
    if i + 1 + row.below as usize > to || (!row.block && row.below != 0) {
        return Some(Cause::Size);
    }
    (nesting > 32).then_some(Cause::Nesting)
}

// What is wrong with `row`, entry row `k`; the nodes take the rows before `taken`.
fn entry_cause(source: Source<'_>, k: usize, row: EntryRow, taken: usize) -> Option<Cause>
    requires { taken ≡ line (given source) (length source.nodes.now) }
    ensures { result ≡ entry_cause (given source.entry) k row }
{
    if !ident_lies_in(source.text, row.name) {
        return Some(Cause::Name);
    }
    if !ident_lies_in(source.text, row.ty) {
        return Some(Cause::Type);
    }
    if !is_known(source.text, row.value) {
        return Some(Cause::Value);
    }
    (k >= taken).then_some(Cause::Entries)
}

// Refuses a row, where there is a cause.
fn judge(table: Table, row: usize, cause: Option<Cause>) -> Result<(), TableFault>
    requires { row < 2 ^ 32 }
    ensures { result ≡ judged table row cause }
{
    match cause {
        None => Ok(()),
        Some(cause) => Err(TableFault {
            table,
            row: row as u32,
            cause,
        }),
    }
}

// Refuses row 0 of a table with more than `most` rows.
fn limit(table: Table, most: usize, n: usize) -> Result<(), TableFault>
    ensures { result ≡ limited table most n }
{
    judge(table, 0, (n > most).then_some(Cause::Limit))
}

// Judges the node rows from `from` up to `to`, which have the nesting `nesting`, and those below them.
fn judge_nodes(source: Source<'_>, nesting: usize, from: usize, to: usize) -> Result<(), TableFault>
    requires within { to ≤ length source.nodes.now }
    requires few { length source.nodes.now ≤ 65535 }
    requires shallow { nesting ≤ 33 }
    ensures { Judges (given source.entry) nesting from to result }
{
    for (i, end) in Siblings::new(source.nodes, from, to) {
        judge(Table::Nodes, i, node_cause(source, nesting, i, to))?;
        judge_nodes(source, nesting + 1, i + 1, end)?;
    }
    Ok(())
}

// Judges the entry rows.
fn judge_entries(source: Source<'_>) -> Result<(), TableFault>
    requires { length source.entries.now ≤ 65535 }
    ensures { result ≡ entry_rows (given source.entry) 0 source.entry.entries.now }
{
    let taken = line_of(source, source.nodes.len());
    for (k, row) in source.entries.iter().enumerate() {
        judge(Table::Entries, k, entry_cause(source, k, *row, taken))?;
    }
    Ok(())
}

// The counts of the document that the tables lay out, or their first fault.
pub fn check(source: Source<'_>) -> Result<Counts, TableFault>
    ensures answer { result ≡ checked (given source.entry) }
    ensures exact { Exact (given source.entry) result }
    ensures unique { Unique (given source.entry) }
{
    limit(Table::Nodes, 65_535, source.nodes.len())?;
    judge_nodes(source, 1, 0, source.nodes.len())?;
    limit(Table::Entries, 65_535, source.entries.len())?;
    judge_entries(source)?;
    limit(Table::Text, 1_048_576, source.text.len())?;
    Ok(Counts {
        nodes: source.nodes.len() as u32,
        entries: source.entries.len() as u32,
    })
}
