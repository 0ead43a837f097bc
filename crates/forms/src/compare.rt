// Names compared with what keys spell, byte by byte.
ghost use Rattle.std.specs.Prelude.{◌≡◌, Decides};
ghost use Rattle.std.specs.Str.{bytes_eq};
ghost use Rattle.forms.specs.Keys.{spelled, argument, argument_type, at_property, at_property_type};
ghost use Rattle.forms.specs.Lent.{key_of};

use super::key::Spelled;

// Whether two names are equal.
pub fn same(a: &[u8], b: &[u8]) -> bool
    ensures { result ≡ bytes_eq a.now b.now }
{
    if a.len() != b.len() {
        return false;
    }
    for (i, x) in a.iter().enumerate() {
        if *x != b[i] {
            return false;
        }
    }
    true
}

// Whether the name is "#" and the digits of `i`; they are compared from the last one on.
fn is_number(name: &[u8], i: u32) -> bool
    ensures { Decides result (name.now ≡ spelled (argument i)) }
{
    let Some(mut digits) = name.strip_prefix(b"#") else {
        return false;
    };
    let mut n = i;
    while let [front @ .., last] = digits {
        let digit = b'0' as u32 + n % 10;
        if u32::from(*last) != digit {
            return false;
        }
        if n < 10 {
            return front.is_empty();
        }
        n /= 10;
        digits = front;
    }
    false
}

// Whether the name is "#@" and the part.
fn is_property(name: &[u8], part: &[u8]) -> bool
    ensures { Decides result (name.now ≡ spelled (at_property part.now)) }
{
    name.strip_prefix(b"#@")
        .is_some_and(|rest| same(rest, part))
}

// Whether the name is "#", the digits of `i`, and "#type".
fn is_number_type(name: &[u8], i: u32) -> bool
    ensures { Decides result (name.now ≡ spelled (argument_type i)) }
{
    name.strip_suffix(b"#type")
        .is_some_and(|front| is_number(front, i))
}

// Whether the name is "#@", the part, and "#type".
fn is_property_type(name: &[u8], part: &[u8]) -> bool
    ensures { Decides result (name.now ≡ spelled (at_property_type part.now)) }
{
    name.strip_suffix(b"#type")
        .is_some_and(|front| is_property(front, part))
}

// Whether the name is what the key spells.
pub fn spells(key: Spelled, name: &[u8]) -> bool
    ensures { result ≡ bytes_eq name.now (spelled (key_of key.entry)) }
{
    match key {
        Spelled::Name => same(name, b"#name"),
        Spelled::Type => same(name, b"#type"),
        Spelled::ArgumentType(i) => is_number_type(name, i),
        Spelled::Argument(i) => is_number(name, i),
        Spelled::Args => same(name, b"#args"),
        Spelled::Rest => same(name, b"#rest"),
        Spelled::AtProperty(part) => is_property(name, part),
        Spelled::AtPropertyType(part) => is_property_type(name, part),
        Spelled::Plain(part) => same(name, part),
    }
}
