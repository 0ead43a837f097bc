// Heads of records.
ghost use Rattle.std.specs.Prelude.{◌≡◌, ◌++◌, OnOk};
ghost use Rattle.records.specs.Numbers.{low};

use std::alloc::AllocError;

// Puts the head of a record behind the bytes: the length of the record, and its kind.
pub fn put_head(bytes: &mut Vec<u8>, length: u32, kind: u16) -> Result<(), AllocError>
    ensures { OnOk result (bytes.new.items ≡ bytes.old.items ++ (low 4 length ++ low 2 kind)) }
{
    bytes.extend_from_slice(&length.to_le_bytes())?;
    bytes.extend_from_slice(&kind.to_le_bytes())
}
