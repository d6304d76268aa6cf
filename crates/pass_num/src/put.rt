//! Fields put at the end of a vector.
ghost use Rattle.std.specs.Prelude.{◌≡◌, [], ◌∷◌, ◌++◌, OnOk, OnErr};
ghost use Rattle.std.specs.Int.{w16, w32, w64, to_be_bytes};

use byteorder::{BigEndian, ByteOrder};
use std::alloc::AllocError;

/// Appends a number as one byte.
pub fn put_u8(out: &mut Vec<u8>, value: u8) -> Result<(), AllocError>
    ensures ok { OnOk result (out.new.items ≡ out.old.items ++ value ∷ []) }
    ensures unchanged { OnErr result (out.new.items ≡ out.old.items) }
{
    out.push(value)?;
    Ok(())
}

/// Appends a number as two bytes, the highest first.
pub fn put_u16(out: &mut Vec<u8>, value: u16) -> Result<(), AllocError>
    ensures ok { OnOk result (out.new.items ≡ out.old.items ++ to_be_bytes w16 value) }
    ensures unchanged { OnErr result (out.new.items ≡ out.old.items) }
{
    let mut field = [0; 2];
    BigEndian::write_u16(&mut field, value);
    out.extend_from_slice(&field)
}

/// Appends a number as four bytes, the highest first.
pub fn put_u32(out: &mut Vec<u8>, value: u32) -> Result<(), AllocError>
    ensures ok { OnOk result (out.new.items ≡ out.old.items ++ to_be_bytes w32 value) }
    ensures unchanged { OnErr result (out.new.items ≡ out.old.items) }
{
    let mut field = [0; 4];
    BigEndian::write_u32(&mut field, value);
    out.extend_from_slice(&field)
}

/// Appends a number as eight bytes, the highest first.
pub fn put_u64(out: &mut Vec<u8>, value: u64) -> Result<(), AllocError>
    ensures ok { OnOk result (out.new.items ≡ out.old.items ++ to_be_bytes w64 value) }
    ensures unchanged { OnErr result (out.new.items ≡ out.old.items) }
{
    let mut field = [0; 8];
    BigEndian::write_u64(&mut field, value);
    out.extend_from_slice(&field)
}
