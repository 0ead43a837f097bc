// A listed set of about 1 MiB.
use common::head::put_head;
use form_format::kind::FormKind;
use std::alloc::{AllocError, Global};

// A name of so many letters.
fn put_name(bytes: &mut Vec<u8>, letters: u8) -> Result<(), AllocError> {
    put_head(bytes, 6 + u32::from(letters), FormKind::Name as u16)?;
    for _ in 0..letters {
        bytes.push(b'a')?;
    }
    Ok(())
}

// A form of 62 names of 255 letters, and a last one of so many letters.
fn put_form(bytes: &mut Vec<u8>, last: u8) -> Result<(), AllocError> {
    put_head(bytes, 16_194 + u32::from(last), FormKind::Form as u16)?;
    for _ in 0..62 {
        put_name(bytes, 255)?;
    }
    put_name(bytes, last)
}

// 64 forms of 63 names. All but the last form have 16,384 bytes; its last name has so many letters, 190 for 1,048,576 bytes in all.
pub fn forms_of_16_kib(heap: Global, last: u8) -> Result<Vec<u8>, AllocError> {
    let mut bytes = Vec::new(heap);
    for _ in 0..63 {
        put_form(&mut bytes, 190)?;
    }
    put_form(&mut bytes, last)?;
    Ok(bytes)
}
