//! Bytes in blocks, of which those with nothing but zeros take no memory.
ghost use Rattle.std.specs.Prelude.{◌≡◌, ◌⊎◌, ◌≤◌, ◌<◌, ◌+◌, ◌-◌, ◌*◌, ◌/◌, ◌^◌, ◌++◌, ℕ, length, take, drop, replicate, slice_index, vec_len, IfOk, OnOk, OnErr};
ghost use Rattle.pass_outside.specs.Blocks.{padded, flat, held, AreWithin, over};

use std::alloc::{AllocError, Global};

/// The size of a block in bytes. A shorter one ends in zeros that aren't there.
pub const BLOCK: usize = 65536;

/// Adds empty blocks up to a count.
pub fn add_blocks(alloc: Global, blocks: &mut Vec<Vec<u8>>, count: usize) -> Result<(), AllocError>
    requires within { AreWithin BLOCK blocks.old.items }
    ensures within { AreWithin BLOCK blocks.new.items }
    ensures zeros { (n : ℕ) × (flat BLOCK blocks.new.items ≡ flat BLOCK blocks.old.items ++ replicate n 0) }
    ensures count { OnOk result (count ≤ vec_len blocks.new) }
{
    if blocks.len() < count {
        blocks.reserve(count - blocks.len())?;
    }
    'more: while blocks.len() < count {
        blocks.push(Vec::new(alloc))?;
    }
    Ok(())
}

// Writes out the zeros of a block of that size.
fn write_out(block: &mut Vec<u8>, size: usize) -> Result<(), AllocError>
    ensures ok { OnOk result (block.new.items ≡ block.old.items ++ replicate (size - length block.old.items) 0) }
    ensures err { OnErr result (block.new.items ≡ block.old.items) }
{
    if block.len() < size {
        block.resize(size, 0)?;
    }
    Ok(())
}

/// Writes out the blocks from one to another, without that one, so that a write there finds its memory.
pub fn write_out_blocks(
    blocks: &mut Vec<Vec<u8>>,
    first: usize,
    end: usize,
) -> Result<(), AllocError>
    requires within { AreWithin BLOCK blocks.old.items }
    requires end { end ≤ vec_len blocks.old }
    ensures within { AreWithin BLOCK blocks.new.items }
    ensures same { flat BLOCK blocks.new.items ≡ flat BLOCK blocks.old.items }
    ensures count { vec_len blocks.new ≡ vec_len blocks.old }
    ensures whole { OnOk result ((k : ℕ) → first ≤ k → k < end → slice_index (held blocks.new.items) k ≡ BLOCK) }
    // The other blocks take no more memory than before.
    ensures elsewhere { (k : ℕ) → (k < first) ⊎ (end ≤ k) → slice_index (held blocks.new.items) k ≡ slice_index (held blocks.old.items) k }
{
    let mut next = first;
    'parts: while next < end {
        write_out(&mut blocks[next], BLOCK)?;
        next += 1;
    }
    Ok(())
}

// Writes over a part of a block.
fn overwrite(block: &mut Vec<u8>, from: usize, bytes: &[u8])
    requires { from + length bytes.now ≤ vec_len block.old }
    ensures after { block.new.items ≡ over block.old.items from bytes.now }
    ensures len { vec_len block.new ≡ vec_len block.old }
{
    block[from..from + bytes.len()].copy_from_slice(bytes);
}

/// Writes over what is there, in blocks that are written out.
pub fn overwrite_blocks(blocks: &mut Vec<Vec<u8>>, at: usize, bytes: &[u8])
    requires within { AreWithin BLOCK blocks.old.items }
    requires fits { at + length bytes.now ≤ BLOCK * vec_len blocks.old }
    requires small { at + length bytes.now < 2 ^ 64 }
    requires whole { (k : ℕ) → at / BLOCK ≤ k → BLOCK * k < at + length bytes.now → slice_index (held blocks.old.items) k ≡ BLOCK }
    ensures within { AreWithin BLOCK blocks.new.items }
    ensures written { flat BLOCK blocks.new.items ≡ over (flat BLOCK blocks.old.items) at bytes.now }
{
    let mut done = 0;
    'pieces: while done < bytes.len() {
        let place = at + done;
        let from = place % BLOCK;
        let count = (BLOCK - from).min(bytes.len() - done);
        overwrite(&mut blocks[place / BLOCK], from, &bytes[done..done + count]);
        done += count;
    }
}

fn clear(bytes: &mut [u8])
    ensures { bytes.new ≡ replicate (length bytes.old) 0 }
{
    bytes.fill(0);
}

// Reads a part of a block.
fn read_block(block: &[u8], from: usize, into: &mut [u8])
    requires within { length block.now ≤ BLOCK }
    requires fits { from + length into.old ≤ BLOCK }
    ensures { into.new ≡ take (length into.old) (drop from (padded BLOCK block.now)) }
{
    let start = from.min(block.len());
    let count = (block.len() - start).min(into.len());
    clear(into);
    into[..count].copy_from_slice(&block[start..start + count]);
}

// Reads a part of a block into a part of a slice.
fn read_part(block: &[u8], from: usize, into: &mut [u8], at: usize, count: usize)
    requires within { length block.now ≤ BLOCK }
    requires fits { from + count ≤ BLOCK }
    requires room { at + count ≤ length into.old }
    ensures { into.new ≡ over into.old at (take count (drop from (padded BLOCK block.now))) }
{
    read_block(block, from, &mut into[at..at + count]);
}

/// Fills a slice with the bytes from a place on.
pub fn read_blocks(blocks: &[Vec<u8>], at: usize, into: &mut [u8])
    requires within { AreWithin BLOCK blocks.now }
    requires fits { at + length into.old ≤ BLOCK * length blocks.now }
    requires small { at + length into.old < 2 ^ 64 }
    ensures { into.new ≡ take (length into.old) (drop at (flat BLOCK blocks.now)) }
{
    let mut done = 0;
    'pieces: while done < into.len() {
        let place = at + done;
        let from = place % BLOCK;
        let count = (BLOCK - from).min(into.len() - done);
        read_part(&blocks[place / BLOCK], from, into, done, count);
        done += count;
    }
}

/// Drops what lies past a length. Zeros stand for the rest of the last block.
pub fn cut_blocks(blocks: &mut Vec<Vec<u8>>, len: usize)
    requires within { AreWithin BLOCK blocks.old.items }
    requires fits { len ≤ BLOCK * vec_len blocks.old }
    ensures within { AreWithin BLOCK blocks.new.items }
    ensures front { (n : ℕ) × (flat BLOCK blocks.new.items ≡ take len (flat BLOCK blocks.old.items) ++ replicate n 0) }
{
    let whole = len / BLOCK;
    let rest = len % BLOCK;
    if rest == 0 {
        blocks.truncate(whole);
        return;
    }
    blocks.truncate(whole + 1);
    blocks[whole].truncate(rest);
}

/// Makes a copy of all blocks.
pub fn copy_blocks(alloc: Global, blocks: &[Vec<u8>]) -> Result<Vec<Vec<u8>>, AllocError>
    requires within { AreWithin BLOCK blocks.now }
    ensures { IfOk result (λ copy. (flat BLOCK copy.items ≡ flat BLOCK blocks.now) × (held copy.items ≡ held blocks.now)) }
{
    let mut copy = Vec::new(alloc);
    copy.reserve(blocks.len())?;
    for block in blocks {
        copy.push(block.to_vec(alloc)?)?;
    }
    Ok(copy)
}
