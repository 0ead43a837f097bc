// A tree as lines of text: each node and entry in document order, indented by nesting.
ghost use Rattle.std.specs.Prelude.{◌≤◌};

use common::quoted::quoted;
use common::shown::shown_or;
use std::alloc::{AllocError, Global};
use std::{io, iter};
use tree::handle::{EntryHandle, NodeHandle};
use tree::interface::Tree;
use tree::span::Identifier;
use tree::value::{Integer, Value};

// An identifier with its span, or nothing.
fn shown_ident(
    heap: Global,
    what: &str,
    ident: Option<Identifier<'_>>,
) -> Result<String, AllocError> {
    match ident {
        None => Ok(String::new(heap)),
        Some(Identifier { bytes, span }) => {
            let bytes = quoted(heap, bytes)?;
            format!(in heap; " {what} {bytes} at {span}")
        }
    }
}

fn shown_value(heap: Global, value: Option<Value<'_>>) -> Result<String, AllocError> {
    match value {
        None => String::from_str(heap, "nothing"),
        Some(Value::Null) => String::from_str(heap, "null"),
        Some(Value::String(bytes)) => {
            let bytes = quoted(heap, bytes)?;
            format!(in heap; "string {bytes}")
        }
        Some(Value::Integer(Integer { high, low })) => {
            format!(in heap; "integer {high} * 2^64 + {low}")
        }
        Some(Value::Float(bits)) => format!(in heap; "float {:016x}", bits),
        Some(Value::Bool(b)) => format!(in heap; "bool {b}"),
    }
}

// A property with its name, or an argument, which has none.
fn shown_role(heap: Global, name: Option<Identifier<'_>>) -> Result<String, AllocError> {
    match name {
        None => String::from_str(heap, " argument"),
        Some(_) => shown_ident(heap, "property", name),
    }
}

// How many nodes hold a node.
fn holders<T: Tree>(tree: &T, n: NodeHandle) -> usize
    ensures { result ≤ 32 }
{
    iter::successors(tree.parent(n), |above| tree.parent(*above))
        .take(32)
        .count()
}

// The node that comes next in document order.
fn following<T: Tree>(tree: &T, n: NodeHandle) -> Option<NodeHandle> {
    if let Some(Some(first)) = tree.block(n) {
        return Some(first);
    }
    iter::successors(Some(n), |at| tree.parent(*at))
        .take(32)
        .find_map(|at| tree.next_sibling(at))
}

fn show_entry<T: Tree>(
    rt: &HostRuntime,
    tree: &T,
    e: EntryHandle,
    indent: usize,
) -> io::Result<()> {
    let heap = rt.alloc();
    let role = shown_role(heap, tree.entry_name(e))?;
    let ty = shown_ident(heap, "type", tree.entry_type(e))?;
    let value = shown_value(heap, tree.entry_value(e))?;
    let span = shown_or(heap, tree.entry_span(e), "nowhere")?;
    println!(rt; "{:indent$}entry {e}{role}{ty} is {value}, span {span}", "")
}

fn show_node<T: Tree>(rt: &HostRuntime, tree: &T, n: NodeHandle, entries: u32) -> io::Result<()> {
    let heap = rt.alloc();
    let indent = 4 * holders(tree, n);
    let name = shown_ident(heap, "name", tree.name(n))?;
    let ty = shown_ident(heap, "type", tree.node_type(n))?;
    let span = shown_or(heap, tree.node_span(n), "nowhere")?;
    let block = match tree.block(n) {
        None => "no block",
        Some(None) => "an empty block",
        Some(Some(_)) => "a block",
    };
    println!(rt; "{:indent$}node {n}{name}{ty}, span {span}, {block}", "")?;
    for e in iter::successors(tree.first_entry(n), |e| tree.next_entry(*e)).take(entries as usize) {
        show_entry(rt, tree, e, indent + 2)?;
    }
    Ok(())
}

// A line for each of at most `nodes` nodes and `entries` entries.
pub fn show<T: Tree>(rt: &HostRuntime, tree: &T, nodes: u32, entries: u32) -> io::Result<()> {
    for n in iter::successors(tree.first_node(), |n| following(tree, *n)).take(nodes as usize) {
        show_node(rt, tree, n, entries)?;
    }
    Ok(())
}
