// What stands in the records of an image. Bytes that are no record give what is empty.
ghost use Rattle.std.specs.Prelude.{◌≡◌, ℕ, ◌≤◌, length, take, drop};
ghost use Rattle.std.specs.Option.{option_map};
ghost use Rattle.tree.specs.Lent.{ident_of, value_of};
ghost use Rattle.records.specs.Numbers.{number};
ghost use Rattle.image_format.specs.Signed.{signed};
ghost use Rattle.image_format.proofs.Payload.{body_in, rest_in, span_in, ident_in, perhaps_in, behind, integer_in, flag_in, value_at};

use image_format::kind::Kind;
use records::take::{kind_of, take_record};
use tree::span::{Identifier, Span};
use tree::value::{Integer, Value};

// The body of the record that begins the bytes.
pub fn body(bytes: &[u8]) -> &[u8]
    ensures { result.now ≡ body_in bytes.now }
{
    match take_record(bytes) {
        Ok(cut) => cut.body,
        Err(_) => &[],
    }
}

// What follows that record.
fn rest(bytes: &[u8]) -> &[u8]
    ensures { result.now ≡ rest_in bytes.now }
{
    match take_record(bytes) {
        Ok(cut) => cut.rest,
        Err(_) => &[],
    }
}

// What follows the span that begins a body.
pub fn behind_span(body: &[u8]) -> &[u8]
    ensures { result.now ≡ drop 8 body.now }
{
    if body.len() < 8 { &[] } else { &body[8..] }
}

// The span that begins a body.
pub fn span(body: &[u8]) -> Span
    ensures { result ≡ span_in body.now }
{
    match body {
        [a0, a1, a2, a3, b0, b1, b2, b3, ..] => Span {
            start: u32::from_le_bytes([*a0, *a1, *a2, *a3]),
            length: u32::from_le_bytes([*b0, *b1, *b2, *b3]),
        },
        _ => Span {
            start: 0,
            length: 0,
        },
    }
}

// The name or type that begins the bytes.
pub fn ident(bytes: &[u8]) -> Identifier<'_>
    ensures { ident_of result ≡ ident_in bytes.now }
{
    let inner = body(bytes);
    Identifier {
        bytes: behind_span(inner),
        span: span(inner),
    }
}

// The same, where it is there.
pub fn perhaps(there: bool, bytes: &[u8]) -> Option<Identifier<'_>>
    ensures { option_map ident_of result ≡ perhaps_in there bytes.now }
{
    there.then(|| ident(bytes))
}

// What follows it.
pub fn past(there: bool, bytes: &[u8]) -> &[u8]
    ensures { result.now ≡ behind there bytes.now }
{
    if there { rest(bytes) } else { bytes }
}

// The eight bytes that begin the bytes.
fn eight(bytes: &[u8]) -> [u8; 8]
    requires { 8 ≤ length bytes.now }
    ensures { result ≡ take 8 bytes.now }
{
    *bytes.first_chunk::<8>().unwrap()
}

// They, as a number.
fn word(bytes: &[u8]) -> u64
    requires { 8 ≤ length bytes.now }
    ensures { result ≡ number (take 8 bytes.now) }
{
    u64::from_le_bytes(eight(bytes))
}

// The integer in a body.
fn integer(inner: &[u8]) -> Option<Integer>
    ensures { result ≡ integer_in inner.now }
{
    (inner.len() == 16).then(|| Integer {
        high: i64::from_le_bytes(eight(&inner[8..])),
        low: word(inner),
    })
}

// The bool in a body.
fn flag(inner: &[u8]) -> Option<bool>
    ensures { result ≡ flag_in inner.now }
{
    match inner {
        [0] => Some(false),
        [1] => Some(true),
        _ => None,
    }
}

// The value that begins the bytes.
pub fn value(bytes: &[u8]) -> Value<'_>
    ensures { value_of result ≡ value_at bytes.now }
{
    let inner = body(bytes);
    match Kind::try_from(kind_of(bytes)) {
        Ok(Kind::String) => Value::String(inner),
        Ok(Kind::Integer) => match integer(inner) {
            Some(n) => Value::Integer(n),
            None => Value::Null,
        },
        Ok(Kind::Float) if inner.len() == 8 => Value::Float(word(inner)),
        Ok(Kind::Bool) => match flag(inner) {
            Some(b) => Value::Bool(b),
            None => Value::Null,
        },
        _ => Value::Null,
    }
}
