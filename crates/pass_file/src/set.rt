//! Some blocks of a file, by number.
ghost use Rattle.std.specs.Prelude.{ℕ, ◌≡◌, ◌+◌, ◌*◌, ◌≤◌, ◌<◌, ◌==◌, ◌&&◌, ◌||◌, not, nat_lt, [], length, OnOk, IfOk, vec_len, vec_capacity, get_or};
ghost use Rattle.std.specs.List.{insert, remove};
ghost use Rattle.pass_entry.specs.Limits.{block_size, file_limit};
ghost use Rattle.pass_file.specs.BlockSets.{is_among, IsRising, IsPlace};
ghost use Rattle.pass_file.specs.Touches.{is_within};

use pass_table::blocks_for;
use std::alloc::{AllocError, Global};
use std::marker::Model;

/// Numbers of blocks, each once and in ascending order.
#[derive(Drop)]
pub struct BlockSet {
    blocks: Vec<u32>,
}

impl Model for BlockSet {
    ghost use Rattle.std.specs.Prelude.{◌-◌, vec_len, vec_capacity};
    ghost use Rattle.std.specs.Coded.{codes};
    ghost use Rattle.pass_file.specs.BlockSets.{BlockSetView, IsRising};

    ghost Value = { BlockSetView };

    ghost coded = { Prim.hlevel (codes) };

    ghost view = { λ s. record { blocks = s.blocks.items; room = vec_capacity s.blocks - vec_len s.blocks } };

    ghost invariant = { λ s. IsRising s.blocks.items };
}

/// Where a block stands, or would stand.
fn place_of(blocks: &[u32], block: u32) -> usize
    requires { IsRising blocks.now }
    ensures { IsPlace blocks.now block result }
{
    match blocks.binary_search(&block) {
        Ok(place) => place,
        Err(place) => place,
    }
}

fn stands_at(blocks: &[u32], block: u32, place: usize) -> bool
    ensures { result ≡ (nat_lt place (length blocks.now) && (get_or blocks.now place 0 == block)) }
{
    place < blocks.len() && blocks[place] == block
}

/// Whether the block is one of these, by its place.
fn is_there(blocks: &[u32], block: u32, place: usize) -> bool
    requires rising { IsRising blocks.now }
    requires place { IsPlace blocks.now block place }
    ensures among { result ≡ is_among blocks.now block }
    ensures place { result ≡ (nat_lt place (length blocks.now) && (get_or blocks.now place 0 == block)) }
{
    stands_at(blocks, block, place)
}

/// Inserts at a place, where there is room.
fn insert_at(blocks: &mut Vec<u32>, place: usize, block: u32)
    requires within { place ≤ vec_len blocks.old }
    requires room { vec_len blocks.old < vec_capacity blocks.old }
    ensures items { blocks.new.items ≡ insert blocks.old.items place block }
    ensures len { vec_len blocks.new ≡ vec_len blocks.old + 1 }
    ensures capacity { vec_capacity blocks.old ≤ vec_capacity blocks.new }
{
    match blocks.insert(place, block) {
        Ok(()) => {}
        Err(_) => unreachable!(),
    }
}

impl BlockSet {
    /// No blocks, and no memory.
    pub fn new(alloc: Global) -> BlockSet
        ensures { result ≡ record { blocks = []; room = 0 } }
    {
        BlockSet {
            blocks: Vec::new(alloc),
        }
    }

    /// These blocks.
    pub fn from_slice(alloc: Global, blocks: &[u32]) -> Result<BlockSet, AllocError>
        requires { IsRising blocks.now }
        ensures { IfOk result (λ s. s.blocks ≡ blocks.now) }
    {
        let blocks = Vec::from_slice(alloc, blocks)?;
        Ok(BlockSet { blocks })
    }

    /// The blocks in ascending order.
    pub fn as_slice(&self) -> &[u32]
        ensures blocks { result.now ≡ self.now.blocks }
        ensures rising { IsRising result.now }
    {
        self.blocks.as_slice()
    }

    /// Whether the block is one of these.
    pub fn contains(&self, block: u32) -> bool
        ensures { result ≡ is_among self.now.blocks block }
    {
        let blocks = self.as_slice();
        is_there(blocks, block, place_of(blocks, block))
    }

    /// Makes room for so many more blocks.
    pub fn reserve(&mut self, places: usize) -> Result<(), AllocError>
        ensures places { OnOk result (places ≤ self.new.room) }
        ensures blocks { self.new.blocks ≡ self.old.blocks }
        ensures grows { self.old.room ≤ self.new.room }
    {
        self.blocks.reserve(places)
    }

    /// Adds a block.
    pub fn insert(&mut self, block: u32)
        requires { 1 ≤ self.old.room }
        ensures blocks { (b : ℕ) → is_among self.new.blocks b ≡ ((block == b) || is_among self.old.blocks b) }
        ensures room { self.old.room ≤ self.new.room + 1 }
    {
        let blocks = self.as_slice();
        let place = place_of(blocks, block);
        if is_there(blocks, block, place) {
            return;
        }
        insert_at(&mut self.blocks, place, block);
    }

    /// Takes a block out.
    pub fn remove(&mut self, block: u32)
        ensures blocks { (b : ℕ) → is_among self.new.blocks b ≡ (is_among self.old.blocks b && not (block == b)) }
        ensures room { self.old.room ≤ self.new.room }
    {
        let blocks = self.as_slice();
        let place = place_of(blocks, block);
        if is_there(blocks, block, place) {
            self.blocks.remove(place);
        }
    }

    /// Takes out all blocks that begin at or past a size.
    pub fn cut(&mut self, size: usize)
        requires { size ≤ file_limit }
        ensures blocks { (b : ℕ) → is_among self.new.blocks b ≡ (is_among self.old.blocks b && nat_lt (b * block_size) size) }
        ensures room { self.old.room ≤ self.new.room }
    {
        let below = blocks_for(size) as u32;
        let place = place_of(self.as_slice(), below);
        self.blocks.truncate(place);
    }

    /// Takes out all blocks.
    pub fn clear(&mut self)
        ensures blocks { self.new.blocks ≡ [] }
        ensures room { self.old.room ≤ self.new.room }
    {
        self.blocks.clear();
    }

    /// Adds the blocks from one up to another, without that one.
    pub fn insert_all(&mut self, first: u32, end: u32)
        requires order { first ≤ end }
        requires room { end ≤ first + self.old.room }
        ensures blocks { (b : ℕ) → is_among self.new.blocks b ≡ (is_within first end b || is_among self.old.blocks b) }
        ensures room { first + self.old.room ≤ end + self.new.room }
    {
        for block in first..end {
            self.insert(block);
        }
    }
}
