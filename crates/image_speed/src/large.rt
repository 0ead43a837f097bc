// Images of 1 MiB.
use common::head::put_head;
use image_format::kind::Kind;
use std::alloc::{AllocError, Global};

const SPAN: [u8; 8] = [0; 8];

// A node of an empty name, 28 bytes: the smallest.
const SMALLEST: [u8; 28] = [
    28, 0, 0, 0, 2, 0, 0, 0, 0, 0, 0, 0, 0, 0, 14, 0, 0, 0, 3, 0, 0, 0, 0, 0, 0, 0, 0, 0,
];

// The argument 1, 36 bytes.
const ARGUMENT: [u8; 36] = [
    36, 0, 0, 0, 5, 0, 2, 0, 0, 0, 1, 0, 0, 0, 22, 0, 0, 0, 8, 0, 1, 0, 0, 0, 0, 0, 0, 0, 0, 0, 0,
    0, 0, 0, 0, 0,
];

// A record of a head and a span: the length of the record, its kind, and a span of zeros.
fn put_front(bytes: &mut Vec<u8>, length: u32, kind: Kind) -> Result<(), AllocError> {
    put_head(bytes, length, kind.into())?;
    bytes.extend_from_slice(&SPAN)
}

fn put_name(bytes: &mut Vec<u8>, length: u32, letters: u32) -> Result<(), AllocError> {
    put_front(bytes, length, Kind::Name)?;
    for _ in 0..letters {
        bytes.push(b'a')?;
    }
    Ok(())
}

// 1,048,576 bytes of the smallest nodes; the first has a name of 26 letters.
pub fn smallest_nodes(heap: Global) -> Result<Vec<u8>, AllocError> {
    let mut bytes = Vec::new(heap);
    put_head(&mut bytes, 1_048_576, Kind::Document.into())?;
    put_front(&mut bytes, 54, Kind::Node)?;
    put_name(&mut bytes, 40, 26)?;
    for _ in 0..37_447 {
        bytes.extend_from_slice(&SMALLEST)?;
    }
    Ok(bytes)
}

// 1,048,576 bytes of the nodes `a 1`, 65 bytes each; the first has a name of 56 letters.
pub fn nodes_with_an_argument(heap: Global) -> Result<Vec<u8>, AllocError> {
    let mut bytes = Vec::new(heap);
    put_head(&mut bytes, 1_048_576, Kind::Document.into())?;
    put_front(&mut bytes, 120, Kind::Node)?;
    put_name(&mut bytes, 70, 56)?;
    bytes.extend_from_slice(&ARGUMENT)?;
    for _ in 0..16_130 {
        put_front(&mut bytes, 65, Kind::Node)?;
        put_name(&mut bytes, 15, 1)?;
        bytes.extend_from_slice(&ARGUMENT)?;
    }
    Ok(bytes)
}

// 1,048,566 bytes of nodes and blocks, each of which holds all that follows it.
pub fn nested_heads(heap: Global) -> Result<Vec<u8>, AllocError> {
    let mut bytes = Vec::new(heap);
    let mut left: u32 = 1_048_566;
    put_head(&mut bytes, left, Kind::Document.into())?;
    for _ in 0..30_840 {
        left = left.saturating_sub(6);
        put_front(&mut bytes, left, Kind::Node)?;
        put_name(&mut bytes, 14, 0)?;
        left = left.saturating_sub(28);
        put_head(&mut bytes, left, Kind::Document.into())?;
    }
    Ok(bytes)
}

// A head of this length and kind, and so many bytes of zero.
pub fn zeros(heap: Global, length: u32, kind: Kind, count: u32) -> Result<Vec<u8>, AllocError> {
    let mut bytes = Vec::new(heap);
    put_head(&mut bytes, length, kind.into())?;
    for _ in 0..count {
        bytes.push(0)?;
    }
    Ok(bytes)
}
