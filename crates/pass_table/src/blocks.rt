//! A file's bytes, in blocks.
ghost use Rattle.std.specs.Prelude.{◌≡◌, ◌+◌, ◌-◌, ◌*◌, ◌%◌, ◌≤◌, ◌<◌, ◌⊎◌, ◌++◌, OnOk, OnErr, IfOk, replicate, [], length, take, drop, min};
ghost use Rattle.pass_entry.specs.Limits.{block_size, block_count, file_limit, transfer_limit};
ghost use Rattle.pass_plain.specs.Files.{written, resized};
ghost use Rattle.pass_table.specs.Tables.{flat, zeros, AreZero, AreWhole, IsTable};

use crate::table::{BLOCK, blocks_for, cut, enter, lengthen, padded, part, put, table_with};
use pass_entry::Bytes;
use std::alloc::{AllocError, Global};
use std::marker::Model;

/// The bytes of a file, of which only blocks that were written take memory.
#[derive(Drop)]
pub struct Blocks {
    table: Vec<Option<Vec<u8>>>,
    spare: Vec<Vec<u8>>,
    size: usize,
    room: usize,
}

impl Model for Blocks {
    ghost use Rattle.std.specs.Prelude.{take};
    ghost use Rattle.std.specs.Coded.{codes};
    ghost use Rattle.pass_table.specs.Tables.{BlocksView, flat, IsTable};

    ghost Value = { BlocksView };

    ghost coded = { Prim.hlevel (codes) };

    ghost view = { λ b. record { bytes = take b.size (flat b.table.items); room = b.room } };

    ghost invariant = { λ b. IsTable b.table.items b.spare.items b.size b.room };
}

/// A block of zeros.
#[tactic(auto, unfolding(crate::specs::Tables::zeros))]
fn zero_block(alloc: Global) -> Result<Vec<u8>, AllocError>
    ensures { IfOk result (λ own. own.items ≡ zeros) }
{
    padded(alloc, &[], BLOCK)
}

/// One spare block more, up to two.
fn top_up(spare: &mut Vec<Vec<u8>>) -> Result<(), AllocError>
    requires { AreZero spare.old.items }
    ensures zero { AreZero spare.new.items }
    ensures more { OnOk result ((2 ≤ length spare.new.items) ⊎ (length spare.old.items + 1 ≤ length spare.new.items)) }
    ensures grows { length spare.old.items ≤ length spare.new.items }
{
    if spare.len() < 2 {
        let own = zero_block(*spare.allocator())?;
        spare.push(own)?;
    }
    Ok(())
}

/// Puts bytes into a table.
fn enter_all(table: &mut Vec<Option<Vec<u8>>>, spare: &mut Vec<Vec<u8>>, at: usize, bytes: &[u8])
    requires some { 2 ≤ length spare.old.items }
    requires zero { AreZero spare.old.items }
    requires whole { AreWhole block_size table.old.items }
    requires few { length bytes.now ≤ block_size }
    requires more { 0 < length bytes.now }
    requires limit { length table.old.items ≤ block_count }
    requires within { at + length bytes.now ≤ length table.old.items * block_size }
    ensures count { length table.new.items ≡ length table.old.items }
    ensures whole { AreWhole block_size table.new.items }
    ensures flat { flat table.new.items ≡ take at (flat table.old.items) ++ bytes.now ++ drop (at + length bytes.now) (flat table.old.items) }
    ensures zero { AreZero spare.new.items }
{
    enter(table, spare, at, bytes);
}

impl Blocks {
    /// No bytes. It takes no memory before `reserve`.
    pub fn new(alloc: Global) -> Blocks
        ensures { result ≡ record { bytes = []; room = 0 } }
    {
        Blocks {
            table: Vec::new(alloc),
            spare: Vec::new(alloc),
            size: 0,
            room: 0,
        }
    }

    /// These bytes. A block of zeros takes no memory.
    pub fn from_slice(alloc: Global, bytes: &[u8]) -> Result<Blocks, AllocError>
        requires { length bytes.now ≤ file_limit }
        ensures { IfOk result (λ blocks. blocks ≡ record { bytes = bytes.now; room = 0 }) }
    {
        let table = table_with(alloc, bytes)?;
        Ok(Blocks {
            table,
            spare: Vec::new(alloc),
            size: bytes.len(),
            room: 0,
        })
    }

    /// How many bytes there are.
    pub fn size(&self) -> usize
        ensures { result ≡ length self.now.bytes }
    {
        self.size
    }

    /// Makes room up to this end for one write, or for truncations.
    pub fn reserve(&mut self, end: usize) -> Result<(), AllocError>
        requires { end ≤ file_limit }
        ensures room { OnOk result (end ≤ self.new.room) }
        ensures bytes { self.new.bytes ≡ self.old.bytes }
        ensures grows { self.old.room ≤ self.new.room }
        ensures err { OnErr result (self.new ≡ self.old) }
    {
        top_up(&mut self.spare)?;
        top_up(&mut self.spare)?;
        lengthen(&mut self.table, blocks_for(end))?;
        self.room = self.room.max(end);
        Ok(())
    }

    /// The bytes from a place to the end of its block, up to the size.
    fn rest(&self, at: usize) -> &[u8]
        ensures { result.now ≡ take (block_size - at % block_size) (drop at self.now.bytes) }
    {
        if at >= self.size {
            return &[];
        }
        part(&self.table, at, (BLOCK - at % BLOCK).min(self.size - at))
    }

    /// Copies bytes from a place on to the front of a slice, as many as there are and it holds, and returns their number.
    pub fn read_into(&self, at: usize, into: &mut [u8]) -> usize
        ensures count { result ≡ min (length into.old) (length self.now.bytes - at) }
        ensures slice { into.new ≡ take result (drop at self.now.bytes) ++ drop result into.old }
    {
        let count = into.len().min(self.size().saturating_sub(at));
        let mut done = 0;
        'pieces: while done < count {
            let piece = self.rest(at + done);
            let len = piece.len().min(count - done);
            put(into, done, &piece[..len]);
            done += len;
        }
        count
    }

    /// The bytes of a block, up to the size.
    pub fn bytes_in(&self, block: u32) -> &[u8]
        ensures { result.now ≡ take block_size (drop (block * block_size) self.now.bytes) }
    {
        self.rest(block as usize * BLOCK)
    }

    /// A copy of the bytes of a block, up to the size.
    pub fn block_bytes(&self, alloc: Global, block: u32) -> Result<Bytes, AllocError>
        ensures { IfOk result (λ b. b ≡ take block_size (drop (block * block_size) self.now.bytes)) }
    {
        match Bytes::of(alloc, self.bytes_in(block)) {
            Ok(bytes) => Ok(bytes),
            Err(_) => Err(AllocError),
        }
    }

    /// Writes at most 4,096 bytes at a place, with zeros in a gap before it. That uses up the room.
    pub fn write(&mut self, at: usize, bytes: &[u8])
        requires room { at + length bytes.now ≤ self.old.room }
        requires few { length bytes.now ≤ transfer_limit }
        ensures bytes { self.new.bytes ≡ written self.old.bytes at bytes.now }
        ensures room { self.new.room ≤ self.old.room }
        ensures nothing { bytes.now ≡ [] → self.new ≡ self.old }
    {
        let _room = self.room;
        if bytes.is_empty() {
            return;
        }
        let end = at + bytes.len();
        enter_all(&mut self.table, &mut self.spare, at, bytes);
        self.size = self.size.max(end);
        self.room = 0;
    }

    /// Drops what lies past a size, with the blocks that begin there. The room is used up.
    fn cut_to(&mut self, size: usize)
        requires { size ≤ length self.old.bytes }
        ensures bytes { self.new.bytes ≡ resized self.old.bytes size }
        ensures room { self.new.room ≡ 0 }
    {
        cut(&mut self.table, size);
        self.size = size;
        self.room = 0;
    }

    /// Extends to a size with zeros, which are there already.
    fn extend_to(&mut self, size: usize)
        requires larger { length self.old.bytes ≤ size }
        requires room { size ≤ self.old.room }
        ensures bytes { self.new.bytes ≡ resized self.old.bytes size }
        ensures room { self.new.room ≡ self.old.room }
    {
        self.size = size;
    }

    /// Cuts at a size, or extends to it with zeros. A cut uses up the room, and costs the blocks that it drops.
    pub fn truncate(&mut self, size: usize)
        requires { size ≤ self.old.room }
        ensures bytes { self.new.bytes ≡ resized self.old.bytes size }
        ensures room { self.new.room ≤ self.old.room }
    {
        if size < self.size() {
            self.cut_to(size);
        } else {
            self.extend_to(size);
        }
    }
}
