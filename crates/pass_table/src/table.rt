//! A table of blocks. A block that it doesn't have is zero.
ghost use Rattle.std.specs.Prelude.{ℕ, ◌≡◌, ◌+◌, ◌-◌, ◌*◌, ◌%◌, ◌<◌, ◌≤◌, ◌++◌, [], length, take, drop, replicate, min, IsSome, OnOk, OnErr, IfOk, Some, None, get_or, slice_set, is_some, vec_capacity, ◌==◌};
ghost use Rattle.std.specs.List.{list_all};
ghost use Rattle.pass_entry.specs.Limits.{block_size, block_count, file_limit};
ghost use Rattle.pass_plain.specs.Files.{extended};
ghost use Rattle.pass_table.specs.Tables.{bytes_of, flat, AreWhole, AreZero};

use pass_entry::BLOCK_SIZE;
use pass_plain::bytes_in;
use std::alloc::{AllocError, Global};

/// The bytes of a block.
pub(crate) const BLOCK: usize = BLOCK_SIZE as usize;

static ZEROS: [u8; BLOCK] = [0; BLOCK];

/// So many zeros, at most a block of them.
pub fn zeros(len: usize) -> &'static [u8]
    requires { len ≤ block_size }
    ensures { result.now ≡ replicate len 0 }
{
    &ZEROS[..len]
}

/// In how many blocks so many bytes lie.
pub fn blocks_for(size: usize) -> usize
    requires { size ≤ file_limit }
    ensures covers { size ≤ result * block_size }
    ensures least { result * block_size < size + block_size }
    ensures few { result ≤ block_count }
{
    size.div_ceil(BLOCK)
}

/// Takes a block out of a table.
fn taken(table: &mut [Option<Vec<u8>>], block: usize) -> Option<Vec<u8>>
    requires { block < length table.old }
    ensures result { result ≡ get_or table.old block None }
    ensures table { table.new ≡ slice_set table.old block None }
{
    table[block].take()
}

fn put_back(table: &mut [Option<Vec<u8>>], block: usize, bytes: Vec<u8>)
    requires { block < length table.old }
    ensures { table.new ≡ slice_set table.old block (Some bytes) }
{
    table[block] = Some(bytes);
}

/// Puts bytes over those at a place.
pub(crate) fn put(own: &mut [u8], from: usize, bytes: &[u8])
    requires { from + length bytes.now ≤ length own.old }
    ensures { own.new ≡ take from own.old ++ bytes.now ++ drop (from + length bytes.now) own.old }
{
    own[from..from + bytes.len()].copy_from_slice(bytes);
}

fn overwrite(own: &mut Vec<u8>, from: usize, bytes: &[u8])
    requires { from + length bytes.now ≤ length own.old.items }
    ensures { own.new.items ≡ take from own.old.items ++ bytes.now ++ drop (from + length bytes.now) own.old.items }
{
    put(own, from, bytes);
}

/// Puts bytes into one block that the table has.
fn put_in(table: &mut [Option<Vec<u8>>], block: usize, from: usize, bytes: &[u8])
    requires low { block < length table.old }
    requires made { IsSome (get_or table.old block None) }
    requires whole { AreWhole block_size table.old }
    requires within { from + length bytes.now ≤ block_size }
    ensures made { (b : ℕ) → IsSome (get_or table.old b None) → IsSome (get_or table.new b None) }
    ensures whole { AreWhole block_size table.new }
    ensures flat { flat table.new ≡ take (block * block_size + from) (flat table.old) ++ bytes.now ++ drop (block * block_size + from + length bytes.now) (flat table.old) }
{
    let Some(mut own) = taken(table, block) else {
        unreachable!()
    };
    overwrite(&mut own, from, bytes);
    put_back(table, block, own);
}

/// Puts at most a block's number of bytes anywhere, where the table has the blocks that they lie in.
fn write(table: &mut [Option<Vec<u8>>], at: usize, bytes: &[u8])
    requires made { (b : ℕ) → b * block_size < at + length bytes.now → at < (b + 1) * block_size → IsSome (get_or table.old b None) }
    requires whole { AreWhole block_size table.old }
    requires few { length bytes.now ≤ block_size }
    requires within { at + length bytes.now ≤ length table.old * block_size }
    ensures whole { AreWhole block_size table.new }
    ensures flat { flat table.new ≡ take at (flat table.old) ++ bytes.now ++ drop (at + length bytes.now) (flat table.old) }
{
    if bytes.is_empty() {
        return;
    }
    let block = at / BLOCK;
    let from = at % BLOCK;
    let first = bytes.len().min(BLOCK - from);
    put_in(table, block, from, &bytes[..first]);
    if first < bytes.len() {
        put_in(table, block + 1, 0, &bytes[first..]);
    }
}

fn is_made(table: &[Option<Vec<u8>>], block: usize) -> bool
    requires { block < length table.now }
    ensures { result ≡ is_some (get_or table.now block None) }
{
    table[block].is_some()
}

/// Makes a block out of a spare one, where the table doesn't have it.
fn make(table: &mut [Option<Vec<u8>>], spare: &mut Vec<Vec<u8>>, block: usize)
    requires low { block < length table.old }
    requires some { 0 < length spare.old.items }
    requires zero { AreZero spare.old.items }
    requires whole { AreWhole block_size table.old }
    ensures made { IsSome (get_or table.new block None) }
    ensures kept { (b : ℕ) → IsSome (get_or table.old b None) → IsSome (get_or table.new b None) }
    ensures flat { flat table.new ≡ flat table.old }
    ensures whole { AreWhole block_size table.new }
    ensures zero { AreZero spare.new.items }
    ensures few { length spare.old.items ≤ length spare.new.items + 1 }
{
    if is_made(table, block) {
        return;
    }
    let Some(own) = spare.pop() else {
        unreachable!()
    };
    put_back(table, block, own);
}

/// Puts at most a block's number of bytes anywhere in a table. Two spare blocks are enough.
pub(crate) fn enter(
    table: &mut [Option<Vec<u8>>],
    spare: &mut Vec<Vec<u8>>,
    at: usize,
    bytes: &[u8],
)
    requires some { 2 ≤ length spare.old.items }
    requires zero { AreZero spare.old.items }
    requires whole { AreWhole block_size table.old }
    requires few { length bytes.now ≤ block_size }
    requires more { 0 < length bytes.now }
    requires within { at + length bytes.now ≤ length table.old * block_size }
    requires limit { length table.old ≤ block_count }
    ensures whole { AreWhole block_size table.new }
    ensures flat { flat table.new ≡ take at (flat table.old) ++ bytes.now ++ drop (at + length bytes.now) (flat table.old) }
    ensures zero { AreZero spare.new.items }
{
    make(table, spare, at / BLOCK);
    make(table, spare, (at + bytes.len() - 1) / BLOCK);
    write(table, at, bytes);
}

fn block_of(table: &[Option<Vec<u8>>], block: usize) -> &Option<Vec<u8>>
    requires { block < length table.now }
    ensures { result.now ≡ get_or table.now block None }
{
    &table[block]
}

fn piece(own: &[u8], from: usize, len: usize) -> &[u8]
    requires { from + len ≤ length own.now }
    ensures { result.now ≡ take len (drop from own.now) }
{
    &own[from..from + len]
}

/// The bytes of a table from a place on, so many that they lie in one block.
pub(crate) fn part(table: &[Option<Vec<u8>>], at: usize, len: usize) -> &[u8]
    requires whole { AreWhole block_size table.now }
    requires low { at < length table.now * block_size }
    requires within { at % block_size + len ≤ block_size }
    ensures { result.now ≡ take len (drop at (flat table.now)) }
{
    match block_of(table, at / BLOCK) {
        Some(own) => piece(own, at % BLOCK, len),
        None => zeros(len),
    }
}

/// Makes the rest of a block zero, from a place in it on.
fn clear_behind(table: &mut [Option<Vec<u8>>], at: usize)
    requires whole { AreWhole block_size table.old }
    requires last { length table.old * block_size < at + block_size }
    requires low { at < length table.old * block_size }
    ensures whole { AreWhole block_size table.new }
    ensures flat { flat table.new ≡ take at (flat table.old) ++ replicate (length (flat table.new) - at) 0 }
{
    if is_made(table, at / BLOCK) {
        put_in(table, at / BLOCK, at % BLOCK, zeros(BLOCK - at % BLOCK));
    }
}

/// Drops the blocks that begin at or past a size, and makes zero what is left behind it.
pub(crate) fn cut(table: &mut Vec<Option<Vec<u8>>>, size: usize)
    requires whole { AreWhole block_size table.old.items }
    requires low { size ≤ length table.old.items * block_size }
    requires limit { length table.old.items ≤ block_count }
    ensures whole { AreWhole block_size table.new.items }
    ensures few { length table.new.items ≤ length table.old.items }
    ensures covers { size ≤ length table.new.items * block_size }
    ensures flat { flat table.new.items ≡ take size (flat table.old.items) ++ replicate (length (flat table.new.items) - size) 0 }
{
    let count = blocks_for(size);
    table.truncate(count);
    if size < count * BLOCK {
        clear_behind(table, size);
    }
}

/// Fills a table up to so many blocks. It has places for them.
fn fill_up(table: &mut Vec<Option<Vec<u8>>>, count: usize)
    requires room { count ≤ vec_capacity table.old }
    requires whole { AreWhole block_size table.old.items }
    requires limit { length table.old.items ≤ block_count }
    requires few { count ≤ block_count }
    ensures whole { AreWhole block_size table.new.items }
    ensures limit { length table.new.items ≤ block_count }
    ensures covers { count ≤ length table.new.items }
    ensures grows { length table.old.items ≤ length table.new.items }
    ensures flat { flat table.new.items ≡ extended (flat table.old.items) (length (flat table.new.items)) }
{
    'more: while table.len() < count {
        table.push_reserved(None);
    }
}

/// Makes places for so many blocks.
pub(crate) fn lengthen(table: &mut Vec<Option<Vec<u8>>>, count: usize) -> Result<(), AllocError>
    requires whole { AreWhole block_size table.old.items }
    requires limit { length table.old.items ≤ block_count }
    requires few { count ≤ block_count }
    ensures whole { AreWhole block_size table.new.items }
    ensures limit { length table.new.items ≤ block_count }
    ensures covers { OnOk result (count ≤ length table.new.items) }
    ensures grows { length table.old.items ≤ length table.new.items }
    ensures flat { flat table.new.items ≡ extended (flat table.old.items) (length (flat table.new.items)) }
{
    table.reserve(count.saturating_sub(table.len()))?;
    fill_up(table, count);
    Ok(())
}

fn is_zero(bytes: &[u8]) -> bool
    ensures { result ≡ list_all (λ b. b == 0) bytes.now }
{
    bytes.iter().all(|byte| *byte == 0)
}

/// These bytes, and zeros behind them up to a size.
pub(crate) fn padded(alloc: Global, bytes: &[u8], size: usize) -> Result<Vec<u8>, AllocError>
    requires { length bytes.now ≤ size }
    ensures { IfOk result (λ own. own.items ≡ extended bytes.now size) }
{
    let mut own = Vec::with_capacity(alloc, size)?;
    own.extend_from_slice(bytes)?;
    own.resize(size, 0)?;
    Ok(own)
}

/// A block with these bytes, and zeros behind them. Zeros alone take no memory.
fn block_with(alloc: Global, bytes: &[u8]) -> Result<Option<Vec<u8>>, AllocError>
    requires { length bytes.now ≤ block_size }
    ensures { IfOk result (λ own. bytes_of own ≡ extended bytes.now block_size) }
{
    if is_zero(bytes) {
        return Ok(None);
    }
    Ok(Some(padded(alloc, bytes, BLOCK)?))
}

/// A table with these bytes, and zeros behind them.
pub(crate) fn table_with(alloc: Global, bytes: &[u8]) -> Result<Vec<Option<Vec<u8>>>, AllocError>
    requires { length bytes.now ≤ file_limit }
    ensures whole { IfOk result (λ table. AreWhole block_size table.items) }
    ensures few { IfOk result (λ table. length table.items ≤ block_count) }
    ensures covers { IfOk result (λ table. length bytes.now ≤ length table.items * block_size) }
    ensures flat { IfOk result (λ table. flat table.items ≡ extended bytes.now (length (flat table.items))) }
{
    let count = blocks_for(bytes.len());
    let mut table = Vec::with_capacity(alloc, count)?;
    for block in 0..count {
        let own = block_with(alloc, bytes_in(bytes, block as u32))?;
        table.push(own)?;
    }
    Ok(table)
}
