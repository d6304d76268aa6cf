//! The digests of a file after an act, which is not done yet, and copies of its blocks.
ghost use Rattle.std.specs.Prelude.{ℕ, ◌≡◌, ◌+◌, ◌-◌, ◌*◌, ◌≤◌, ◌<◌, ◌++◌, ◌∷◌, [], List, true, length, min, take, drop, replicate, map, get_or, vec_len, vec_capacity, IfOk};
ghost use Rattle.std.specs.List.{range_with_len};
ghost use Rattle.std.specs.Option.{option_map_or};
ghost use Rattle.md5.specs.Md5.{Holds, md5};
ghost use Rattle.pass_entry.specs.Limits.{block_count, block_size};
ghost use Rattle.pass_plain.specs.Files.{file_act, resized, written};
ghost use Rattle.pass_plain.specs.Records.{digest_of};
ghost use Rattle.pass_range.specs.Rows.{range};
ghost use Rattle.pass_clean.specs.Blocks.{AreListed};
ghost use Rattle.pass_file.specs.BlockSets.{is_among, IsRising};
ghost use Rattle.pass_file.specs.Touches.{digests_at};

use crate::touched::{BLOCK, Touched};
use md5::{Digest, Md5};
use pass_entry::{Act, Bytes, Pnode, Record};
use pass_table::{Blocks, zeros};
use std::alloc::{AllocError, Global};

fn cut_out(bytes: &[u8], first: usize, count: usize) -> &[u8]
    requires { first + count ≤ length bytes.now }
    ensures { result.now ≡ take count (drop first bytes.now) }
{
    &bytes[first..first + count]
}

/// At most so many bytes behind the first ones.
fn piece(bytes: &[u8], skip: usize, most: usize) -> &[u8]
    ensures { result.now ≡ take most (drop skip bytes.now) }
{
    let first = skip.min(bytes.len());
    let count = most.min(bytes.len() - first);
    cut_out(bytes, first, count)
}

/// How far a place lies behind the start of a block, at most a block.
fn within(at: usize, start: usize) -> usize
    ensures { result ≡ min block_size (at - start) }
{
    BLOCK.min(at.saturating_sub(start))
}

/// What a write at a place puts into a block, from some place in the block on.
fn part_of(bytes: &[u8], at: usize, start: usize, from: usize) -> &[u8]
    requires { from ≤ block_size }
    ensures { result.now ≡ take (block_size - from) (drop (start - at) bytes.now) }
{
    piece(bytes, start.saturating_sub(at), BLOCK - from)
}

/// What is behind the first bytes.
fn behind(bytes: &[u8], skip: usize) -> &[u8]
    ensures { result.now ≡ drop skip bytes.now }
{
    piece(bytes, skip, bytes.len())
}

/// The zeros that these bytes lack of a length.
fn gap_of(own: &[u8], len: usize) -> &'static [u8]
    requires { len ≤ block_size }
    ensures { result.now ≡ replicate (len - length own.now) 0 }
{
    zeros(len.saturating_sub(own.len()))
}

fn feed(hasher: &mut Md5, bytes: &[u8])
    ensures { (m : List ℕ) → Holds hasher.old m → Holds hasher.new (m ++ bytes.now) }
{
    hasher.update(bytes);
}

/// Takes in the first bytes of a block, with zeros behind those that it has.
fn feed_front(hasher: &mut Md5, own: &[u8], len: usize)
    requires { len ≤ block_size }
    ensures { (m : List ℕ) → Holds hasher.old m → Holds hasher.new (m ++ take len own.now ++ replicate (len - length own.now) 0) }
{
    let front = piece(own, 0, len);
    let gap = gap_of(own, len);
    feed(hasher, front);
    feed(hasher, gap);
}

/// The digest of a block that has these bytes at a place.
fn digest_with(own: &[u8], from: usize, bytes: &[u8]) -> [u8; 16]
    requires { from + length bytes.now ≤ block_size }
    ensures { result ≡ md5 (take from own.now ++ replicate (from - length own.now) 0 ++ bytes.now ++ drop (from + length bytes.now) own.now) }
{
    let rest = behind(own, from + bytes.len());
    let mut hasher = Md5::new();
    feed_front(&mut hasher, own, from);
    feed(&mut hasher, bytes);
    feed(&mut hasher, rest);
    hasher.finalize()
}

/// The digest of a block of so many bytes.
fn digest_of_front(own: &[u8], len: usize) -> [u8; 16]
    requires { len ≤ block_size }
    ensures { result ≡ md5 (take len own.now ++ replicate (len - length own.now) 0) }
{
    let mut hasher = Md5::new();
    feed_front(&mut hasher, own, len);
    hasher.finalize()
}

/// The digest of a block as it is after a write to its file.
fn digest_of_put(content: &Blocks, at: usize, bytes: &[u8], block: u32) -> [u8; 16]
    ensures { result ≡ md5 (take block_size (drop (block * block_size) (written content.now.bytes at bytes.now))) }
{
    let own = content.bytes_in(block);
    if bytes.is_empty() {
        return Md5::digest(own);
    }
    let start = block as usize * BLOCK;
    let from = within(at, start);
    let part = part_of(bytes, at, start, from);
    digest_with(own, from, part)
}

/// The digest of a block as it is after its file gets a size.
fn digest_of_cut(content: &Blocks, size: usize, block: u32) -> [u8; 16]
    ensures { result ≡ md5 (take block_size (drop (block * block_size) (resized content.now.bytes size))) }
{
    let start = block as usize * BLOCK;
    let own = content.bytes_in(block);
    let len = within(size, start);
    digest_of_front(own, len)
}

/// The digest of a block as it is after an act on its file.
fn digest_by(content: &Blocks, act: &Act, block: u32) -> [u8; 16]
    ensures { result ≡ md5 (take block_size (drop (block * block_size) (file_act content.now.bytes act.now))) }
{
    match act {
        Act::Put { out: _, at, bytes } => {
            digest_of_put(content, *at as usize, bytes.as_bytes(), block)
        }
        Act::Cut { out: _, size } => digest_of_cut(content, *size as usize, block),
        _ => Md5::digest(content.bytes_in(block)),
    }
}

/// The record of that digest.
fn digest_after(file: Pnode, content: &Blocks, act: &Act, block: u32) -> Record
    ensures { result ≡ digest_of file (file_act content.now.bytes act.now) block }
{
    Record::Digest {
        pnode: file,
        block,
        md5: digest_by(content, act, block),
    }
}

/// Adds the digest of a block, if there is one.
fn add_some(list: &mut Vec<Record>, file: Pnode, content: &Blocks, act: &Act, block: Option<u32>)
    requires room { vec_len list.old + 1 ≤ vec_capacity list.old }
    ensures list { list.new.items ≡ list.old.items ++ option_map_or (λ e. digest_of file (file_act content.now.bytes act.now) e ∷ []) block [] }
    ensures len { vec_len list.new ≤ vec_len list.old + 1 }
    ensures capacity { vec_capacity list.old ≤ vec_capacity list.new }
{
    if let Some(block) = block {
        list.push_reserved(digest_after(file, content, act, block));
    }
}

/// Adds the digests of the blocks from one up to another, without that one.
fn add_all(list: &mut Vec<Record>, file: Pnode, content: &Blocks, act: &Act, first: u32, end: u32)
    requires order { first ≤ end }
    requires room { vec_len list.old + end ≤ vec_capacity list.old + first }
    ensures { list.new.items ≡ list.old.items ++ map (digest_of file (file_act content.now.bytes act.now)) (range_with_len first (end - first)) }
{
    for block in first..end {
        list.push_reserved(digest_after(file, content, act, block));
    }
}

/// Adds the digests of what an act touches, as they are after it. There is room for them.
pub fn add_digests(
    list: &mut Vec<Record>,
    file: Pnode,
    content: &Blocks,
    act: &Act,
    touched: &Touched,
)
    requires order { touched.now.first ≤ touched.now.end }
    requires room { vec_len list.old + 1 + touched.now.end ≤ vec_capacity list.old + touched.now.first }
    ensures { list.new.items ≡ list.old.items ++ digests_at file (file_act content.now.bytes act.now) touched.now }
{
    add_some(list, file, content, act, touched.edge);
    add_all(list, file, content, act, touched.first, touched.end);
}

/// A copy of a block, with its number.
fn copy_of(alloc: Global, content: &Blocks, block: u32) -> Result<(u32, Bytes), AllocError>
    ensures { IfOk result (λ copy. copy ≡ (block, range block content.now.bytes)) }
{
    let bytes = content.block_bytes(alloc, block)?;
    Ok((block, bytes))
}

/// Copies of some blocks.
pub fn copies(
    alloc: Global,
    blocks: &[u32],
    content: &Blocks,
) -> Result<Vec<(u32, Bytes)>, AllocError>
    requires rising { IsRising blocks.now }
    requires below { (block : ℕ) → is_among blocks.now block ≡ true → block < block_count }
    ensures { IfOk result (λ copies. AreListed (is_among blocks.now) content.now.bytes block_count copies.items) }
{
    let mut copies = Vec::with_capacity(alloc, blocks.len())?;
    for i in 0..blocks.len() {
        let copy = copy_of(alloc, content, blocks[i])?;
        copies.push(copy)?;
    }
    Ok(copies)
}
