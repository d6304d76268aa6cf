//! Fields taken off the front of bytes.
ghost use Rattle.std.specs.Prelude.{◌≡◌, ◌<◌, [], ◌∷◌, ◌++◌, ◌↔◌, length, IfOk, IsErr, OnErr};
ghost use Rattle.std.specs.Int.{w16, w32, w64, to_be_bytes};

use std::marker::Model;

/// Fewer bytes are left than a field has.
#[derive(Clone, Copy, PartialEq, Eq)]
pub struct Short;

/// The bytes that are left to read, seen as a list of bytes.
#[derive(Drop)]
pub struct Cursor<'a> {
    left: &'a [u8],
}

impl<'a> Model for Cursor<'a> {
    ghost use Rattle.std.specs.Prelude.{List, ℕ};

    ghost Value = { List ℕ };

    ghost view = { λ c. c.left.now };
}

impl<'a> Cursor<'a> {
    /// Begins before the first of the bytes.
    pub fn new(bytes: &'a [u8]) -> Cursor<'a>
        ensures { result ≡ bytes.now }
    {
        Cursor { left: bytes }
    }

    /// The bytes that are left.
    pub fn left(&self) -> &'a [u8]
        ensures { result.now ≡ self.now }
    {
        self.left
    }

    /// Takes a number of one byte.
    pub fn take_u8(&mut self) -> Result<u8, Short>
        ensures taken { IfOk result (λ value. self.old ≡ value ∷ self.new) }
        ensures short { IsErr result ↔ (length self.old < 1) }
        ensures unchanged { OnErr result (self.new ≡ self.old) }
    {
        let field = self.take_bytes(1)?;
        Ok(field[0])
    }

    /// Takes a number of two bytes, the highest first.
    pub fn take_u16(&mut self) -> Result<u16, Short>
        ensures taken { IfOk result (λ value. self.old ≡ to_be_bytes w16 value ++ self.new) }
        ensures short { IsErr result ↔ (length self.old < 2) }
        ensures unchanged { OnErr result (self.new ≡ self.old) }
    {
        let field = self.take_bytes(2)?;
        Ok(u16::from_be_bytes([field[0], field[1]]))
    }

    /// Takes a number of four bytes, the highest first.
    pub fn take_u32(&mut self) -> Result<u32, Short>
        ensures taken { IfOk result (λ value. self.old ≡ to_be_bytes w32 value ++ self.new) }
        ensures short { IsErr result ↔ (length self.old < 4) }
        ensures unchanged { OnErr result (self.new ≡ self.old) }
    {
        let field = self.take_bytes(4)?;
        Ok(u32::from_be_bytes([field[0], field[1], field[2], field[3]]))
    }

    /// Takes a number of eight bytes, the highest first.
    pub fn take_u64(&mut self) -> Result<u64, Short>
        ensures taken { IfOk result (λ value. self.old ≡ to_be_bytes w64 value ++ self.new) }
        ensures short { IsErr result ↔ (length self.old < 8) }
        ensures unchanged { OnErr result (self.new ≡ self.old) }
    {
        let field = self.take_bytes(8)?;
        Ok(u64::from_be_bytes([
            field[0], field[1], field[2], field[3], field[4], field[5], field[6], field[7],
        ]))
    }

    /// Takes the next `n` bytes.
    pub fn take_bytes(&mut self, n: usize) -> Result<&'a [u8], Short>
        ensures taken { IfOk result (λ field. self.old ≡ field.now ++ self.new) }
        ensures len { IfOk result (λ field. length field.now ≡ n) }
        ensures short { IsErr result ↔ (length self.old < n) }
        ensures unchanged { OnErr result (self.new ≡ self.old) }
    {
        if self.left.len() < n {
            return Err(Short);
        }
        let (field, left) = self.left.split_at(n);
        self.left = left;
        Ok(field)
    }
}
