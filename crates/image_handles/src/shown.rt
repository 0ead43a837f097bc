// Answers of a tree as text; `-` is absent.
use common::shown::shown_or;
use std::alloc::{AllocError, Global};
use std::fmt::Display;
use tree::handle::NodeHandle;
use tree::span::Identifier;
use tree::value::{Integer, Value};

// What is there, as it prints.
pub fn shown<T: Display + Drop>(heap: Global, answer: Option<T>) -> Result<String, AllocError> {
    shown_or(heap, answer, "-")
}

// A block by its first node.
pub fn shown_block(heap: Global, block: Option<Option<NodeHandle>>) -> Result<String, AllocError> {
    match block {
        Some(None) => String::from_str(heap, "empty"),
        _ => shown(heap, block.flatten()),
    }
}

pub fn shown_ident(heap: Global, ident: Option<Identifier<'_>>) -> Result<String, AllocError> {
    match ident {
        None => shown::<&str>(heap, None),
        Some(Identifier { bytes, span }) => {
            let bytes = hex::encode(heap, bytes)?;
            format!(in heap; "{bytes}@{span}")
        }
    }
}

pub fn shown_value(heap: Global, value: Option<Value<'_>>) -> Result<String, AllocError> {
    match value {
        None => shown::<&str>(heap, None),
        Some(Value::Null) => String::from_str(heap, "null"),
        Some(Value::String(bytes)) => {
            let bytes = hex::encode(heap, bytes)?;
            format!(in heap; "string:{bytes}")
        }
        Some(Value::Integer(Integer { high, low })) => format!(in heap; "integer:{high}:{low}"),
        Some(Value::Float(bits)) => format!(in heap; "float:{:016x}", bits),
        Some(Value::Bool(b)) => format!(in heap; "bool:{b}"),
    }
}
