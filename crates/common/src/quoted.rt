// Bytes as text.
use std::alloc::{AllocError, Global};

// Bytes in quotes; what is no printable ASCII, a quote or a backslash is a backslash and two digits.
pub fn quoted(heap: Global, bytes: &[u8]) -> Result<String, AllocError> {
    let mut s = String::from_str(heap, "\"")?;
    for b in bytes {
        if *b >= 0x20 && *b <= 0x7e && *b != b'"' && *b != b'\\' {
            s.push(*b as char)?;
        } else {
            write!(s, "\\{:02x}", *b)?;
        }
    }
    s.push('"')?;
    Ok(s)
}
