//! The blocks of files that aren't on the disk's data area yet.
ghost use Rattle.std.specs.Prelude.{◌≡◌, ◌+◌, ◌<◌, ℕ, List, slice_get, Some, None, true, false, option_copied, IfOk};
ghost use Rattle.pass_entry.specs.Limits.{block_count};
ghost use Rattle.pass_pool.specs.declared.pool.FileBlock.{FileBlock};
ghost use Rattle.pass_clean.specs.Blocks.{IsRisingBy};
ghost use Rattle.pass_vault.specs.Blocks.{AreBlocks, IsCut};
ghost use Rattle.pass_vault.specs.Pooled.{staged_in, given_in, else_staged, to_write, without_file};

use pass_entry::{BLOCK_COUNT, Bytes};
use pass_keep::Block;
use pass_pool::Pool;
use std::alloc::{AllocError, Global};

/// The blocks that wait in memory, and whether one was written since the data area's last sync.
#[derive(Drop)]
pub(crate) struct Unwritten {
    pub(crate) pool: Pool,
    pub(crate) unsynced: bool,
}

/// The bytes that are given for a block, and the place of the first block above it.
fn given_at<'a>(given: &'a [(u32, Bytes)], place: usize, block: u32) -> (Option<&'a Bytes>, usize)
    requires rising { IsRisingBy given.now }
    requires cut { IsCut given.now block place }
    ensures bytes { option_copied result.0 ≡ given_in given.now block }
    ensures cut { IsCut given.now (block + 1) result.1 }
{
    if place >= given.len() {
        return (None, place);
    }
    let one = &given[place];
    if one.0 == block {
        return (Some(&one.1), place + 1);
    }
    (None, place)
}

/// These bytes, or else those of the block in the pool.
fn or_pooled<'a>(
    given: Option<&'a Bytes>,
    pool: &'a Pool,
    number: u32,
    block: u32,
) -> Option<&'a Bytes>
    ensures { option_copied result ≡ else_staged (option_copied given.entry) (staged_in pool.now number block) }
{
    match given {
        Some(bytes) => Some(bytes),
        None => pool.get(number, block),
    }
}

/// What a sync of the file writes: the given blocks, and its staged ones that aren't given.
pub(crate) fn blocks_to_write<'a>(
    alloc: Global,
    pool: &'a Pool,
    number: u32,
    given: &'a [(u32, Bytes)],
) -> Result<Vec<Block<'a>>, AllocError>
    requires rising { IsRisingBy given.now }
    ensures { IfOk result (λ blocks. AreBlocks number (to_write pool.now number given.now) blocks.items) }
{
    let mut blocks = Vec::new(alloc);
    let mut place = 0;
    for block in 0..BLOCK_COUNT {
        let (bytes, behind) = given_at(given, place, block);
        place = behind;
        if let Some(bytes) = or_pooled(bytes, pool, number, block) {
            blocks.push(Block {
                number,
                block,
                bytes: bytes.as_bytes(),
            })?;
        }
    }
    Ok(blocks)
}

/// Takes all blocks of the file out of the pool.
pub(crate) fn clear_file(pool: &mut Pool, number: u32)
    requires within { (i : ℕ) (p : FileBlock × List ℕ) → slice_get pool.old.entries i ≡ Some p → p.0.block < block_count }
    ensures { pool.new ≡ without_file number pool.old }
{
    for block in 0..BLOCK_COUNT {
        // A block is there once.
        let _len = pool.len();
        drop(pool.take(number, block));
    }
}

/// Whether some block of the file is there.
pub(crate) fn has_file(pool: &Pool, number: u32) -> bool
    requires within { (i : ℕ) (p : FileBlock × List ℕ) → slice_get pool.now.entries i ≡ Some p → p.0.block < block_count }
    ensures some { result ≡ true → (block : ℕ) × (bytes : List ℕ) × (staged_in pool.now number block ≡ Some bytes) }
    ensures none { result ≡ false → (block : ℕ) → staged_in pool.now number block ≡ None }
{
    for block in 0..BLOCK_COUNT {
        if let Some(_bytes) = pool.get(number, block) {
            return true;
        }
    }
    false
}
