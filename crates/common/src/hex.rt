// Bytes in hexadecimal digits.
ghost use Rattle.std.specs.Prelude.{◌≡◌, IfOk, vec_items};
ghost use Rattle.std.specs.Option.{option_map};
ghost use Rattle.common.specs.Hex.{digit, pair, bytes_in};

use std::alloc::{AllocError, Global};

// The number of a lower-case hexadecimal digit.
fn number(c: u8) -> Option<u8>
    ensures { result ≡ digit c }
{
    match c {
        b'0'..=b'9' => Some(c - b'0'),
        b'a'..=b'f' => Some(c - b'a' + 10),
        _ => None,
    }
}

// The byte that two digits stand for.
fn byte(high: u8, low: u8) -> Option<u8>
    ensures { result ≡ pair (digit high) (digit low) }
{
    let h = number(high)?;
    let l = number(low)?;
    Some(16 * h + l)
}

// The bytes that a line stands for; none where it is no even number of digits.
pub fn bytes_of(heap: Global, line: &[u8]) -> Result<Option<Vec<u8>>, AllocError>
    ensures { IfOk result (λ x. option_map vec_items x ≡ bytes_in line.now) }
{
    let mut bytes = Vec::new(heap);
    let mut rest = line;
    while let [high, low, after @ ..] = rest {
        match byte(*high, *low) {
            None => return Ok(None),
            Some(b) => bytes.push(b)?,
        }
        rest = after;
    }
    if rest.is_empty() {
        Ok(Some(bytes))
    } else {
        Ok(None)
    }
}
