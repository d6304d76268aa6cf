//! The bytes of one area in memory.
use crate::blocks::{
    BLOCK, add_blocks, copy_blocks, cut_blocks, overwrite_blocks, read_blocks, write_out_blocks,
};
use std::alloc::{AllocError, Global};
use std::marker::Model;

/// The bytes of an area, in blocks, so that gaps take no memory.
#[derive(Drop)]
pub struct Content {
    blocks: Vec<Vec<u8>>,
    len: usize,
}

impl Model for Content {
    ghost use Rattle.std.specs.Prelude.{List, ℕ, take};
    ghost use Rattle.std.specs.Coded.{coded_list, coded_ℕ};
    ghost use Rattle.pass_outside.specs.Blocks.{flat, IsArea};
    ghost use Rattle.pass_outside.specs.declared.blocks.TheConstants.{BLOCK};

    ghost Value = { List ℕ };

    ghost coded = { coded_list coded_ℕ };

    ghost view = { λ c. take c.len (flat BLOCK c.blocks.items) };

    ghost invariant = { λ c. IsArea BLOCK c.len c.blocks.items };
}

impl Content {
    ghost use Rattle.std.specs.Prelude.{◌≡◌, ◌-◌, ◌++◌, ◌≤◌, length, take, drop, min, IfOk, OnOk, OnErr};
    ghost use Rattle.pass_outside.specs.Areas.{written};

    /// The content that has these bytes.
    pub fn of(alloc: Global, bytes: &[u8]) -> Result<Content, AllocError>
        ensures { IfOk result (λ c. c ≡ bytes.now) }
    {
        let mut content = Content {
            blocks: Vec::new(alloc),
            len: 0,
        };
        content.write(alloc, 0, bytes)?;
        Ok(content)
    }

    /// A second one with the same bytes.
    pub fn copy(&self, alloc: Global) -> Result<Content, AllocError>
        ensures { IfOk result (λ c. c ≡ self.now) }
    {
        let blocks = copy_blocks(alloc, &self.blocks)?;
        let len = self.len;
        Ok(Content { blocks, len })
    }

    pub fn len(&self) -> usize
        ensures { result ≡ length self.now }
    {
        self.len
    }

    /// All bytes in one piece.
    pub fn to_vec(&self, alloc: Global) -> Result<Vec<u8>, AllocError>
        ensures { IfOk result (λ v. v.items ≡ self.now) }
    {
        let mut bytes = Vec::new(alloc);
        bytes.resize(self.len, 0)?;
        self.read_into(0, &mut bytes);
        Ok(bytes)
    }

    /// Moves the bytes from a place on into the front of a slice, as many as there are.
    pub fn read_into(&self, at: u64, into: &mut [u8]) -> usize
        ensures within { result ≤ length into.old }
        ensures count { result ≡ min (length into.old) (length self.now - at) }
        ensures bytes { into.new ≡ take result (drop at self.now) ++ drop result into.old }
    {
        let at = at as usize;
        if self.len <= at {
            return 0;
        }
        let count = into.len().min(self.len - at);
        read_blocks(&self.blocks, at, &mut into[..count]);
        count
    }

    /// Writes bytes at a place, with zeros up to there where it lies past the end. It takes all its memory first.
    pub fn write(&mut self, alloc: Global, at: u64, bytes: &[u8]) -> Result<(), AllocError>
        ensures ok { OnOk result (self.new ≡ written self.old at bytes.now) }
        ensures err { OnErr result (self.new ≡ self.old) }
    {
        let at = at as usize;
        let Some(end) = at.checked_add(bytes.len()) else {
            return Err(AllocError);
        };
        let count = end.div_ceil(BLOCK);
        add_blocks(alloc, &mut self.blocks, count)?;
        write_out_blocks(&mut self.blocks, at / BLOCK, count)?;
        overwrite_blocks(&mut self.blocks, at, bytes);
        self.len = self.len.max(end);
        Ok(())
    }

    /// Drops what lies past a length.
    pub fn cut(&mut self, len: u64)
        ensures { self.new ≡ take len self.old }
    {
        let len = len as usize;
        if len < self.len {
            cut_blocks(&mut self.blocks, len);
            self.len = len;
        }
    }
}
