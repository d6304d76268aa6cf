//! Of which blocks an act on a file gives digests.
ghost use Rattle.std.specs.Prelude.{ℕ, ◌≡◌, ◌+◌, ◌*◌, ◌/◌, ◌%◌, ◌≤◌, ◌<◌, ◌==◌, ◌&&◌, ◌||◌, not, nat_lt, true, false, length, min, IfSome};
ghost use Rattle.pass_entry.specs.Limits.{block_size, file_limit, transfer_limit};
ghost use Rattle.pass_entry.specs.declared.entry.Act.TheVariants as act;
ghost use Rattle.pass_plain.specs.Recording.{is_resized, is_change};
ghost use Rattle.pass_file.specs.BlockSets.{is_among, AreBelow};
ghost use Rattle.pass_file.specs.FileViews.{end_of};
ghost use Rattle.pass_file.specs.Touches.{is_at, is_within, is_touched, nothing_at, IsTouchOf};

use crate::set::BlockSet;
use pass_entry::{Act, BLOCK_COUNT, BLOCK_SIZE};
use pass_table::Blocks;

/// The bytes of a block.
pub(crate) const BLOCK: usize = BLOCK_SIZE as usize;

/// The blocks of which an act gives digests, and the size of the file after it.
#[derive(Clone, Copy, Drop)]
pub struct Touched {
    /// The block in which the shorter content ends, where it has a digest and isn't written.
    pub edge: Option<u32>,
    /// The blocks that are written, from this one on.
    pub first: u32,
    /// The block behind the last one that is written.
    pub end: u32,
    pub size: usize,
}

/// The shorter content ends within a block.
fn has_edge(old: usize, new: usize) -> bool
    ensures { result ≡ (not (old == new) && not (min old new % block_size == 0)) }
{
    old != new && !old.min(new).is_multiple_of(BLOCK)
}

/// The block in which the shorter content ends.
fn edge_at(old: usize, new: usize) -> u32
    requires { old ≤ file_limit }
    ensures { result ≡ min old new / block_size }
{
    (old.min(new) / BLOCK) as u32
}

/// Whether the block has a digest and gets another length, and is below another one.
fn is_edge(rows: &BlockSet, old: usize, new: usize, block: u32, first: u32) -> bool
    ensures { result ≡ ((is_among rows.now.blocks block && (not (old == new) && not (min old new % block_size == 0))) && nat_lt block first) }
{
    rows.contains(block) && has_edge(old, new) && block < first
}

/// The block with a digest whose part of the file has another length at another size, where it is below another block.
fn edge_of(rows: &BlockSet, old: usize, new: usize, first: u32) -> Option<u32>
    requires below { AreBelow rows.now.blocks old }
    requires old { old ≤ file_limit }
    ensures same { (block : ℕ) → is_at result block ≡ (is_resized old new (is_among rows.now.blocks block) block && nat_lt block first) }
    ensures below { IfSome result (λ e. e < first) }
{
    let block = edge_at(old, new);
    if is_edge(rows, old, new, block, first) {
        Some(block)
    } else {
        None
    }
}

/// Nothing is touched.
fn untouched(size: usize) -> Touched
    ensures { result ≡ nothing_at size }
{
    Touched {
        edge: None,
        first: BLOCK_COUNT,
        end: BLOCK_COUNT,
        size,
    }
}

/// What a write touches.
pub fn touched_by_write(rows: &BlockSet, content: &Blocks, at: usize, bytes: &[u8]) -> Touched
    requires below { AreBelow rows.now.blocks (length content.now.bytes) }
    requires small { length content.now.bytes ≤ file_limit }
    requires limit { at + length bytes.now ≤ file_limit }
    requires few { length bytes.now ≤ transfer_limit }
    ensures { (out : ℕ) → IsTouchOf content.now.bytes rows.now.blocks (act.Put out at bytes.now) result }
{
    let old = content.size();
    if bytes.is_empty() {
        return untouched(old);
    }
    let size = old.max(at + bytes.len());
    let first = (at / BLOCK) as u32;
    Touched {
        edge: edge_of(rows, old, size, first),
        first,
        end: ((at + bytes.len() - 1) / BLOCK) as u32 + 1,
        size,
    }
}

/// What a cut touches.
pub fn touched_by_cut(rows: &BlockSet, content: &Blocks, size: usize) -> Touched
    requires below { AreBelow rows.now.blocks (length content.now.bytes) }
    requires small { length content.now.bytes ≤ file_limit }
    requires limit { size ≤ file_limit }
    ensures { (out : ℕ) → IsTouchOf content.now.bytes rows.now.blocks (act.Cut out size) result }
{
    Touched {
        edge: edge_of(rows, content.size(), size, BLOCK_COUNT),
        first: BLOCK_COUNT,
        end: BLOCK_COUNT,
        size,
    }
}

/// What an act touches.
pub fn touched_by(rows: &BlockSet, content: &Blocks, act: &Act) -> Touched
    requires below { AreBelow rows.now.blocks (length content.now.bytes) }
    requires small { length content.now.bytes ≤ file_limit }
    requires change { is_change act.now ≡ true }
    requires limit { end_of act.now ≤ file_limit }
    ensures { IsTouchOf content.now.bytes rows.now.blocks act.now result }
{
    match act {
        Act::Put { out: _, at, bytes } => {
            touched_by_write(rows, content, *at as usize, bytes.as_bytes())
        }
        Act::Cut { out: _, size } => touched_by_cut(rows, content, *size as usize),
        _ => unreachable!(),
    }
}

/// The blocks that have a digest after a change.
pub fn turn_rows(rows: &mut BlockSet, touched: &Touched)
    requires limit { touched.now.size ≤ file_limit }
    requires order { touched.now.first ≤ touched.now.end }
    requires room { touched.now.end ≤ touched.now.first + rows.old.room }
    ensures { (b : ℕ) → is_among rows.new.blocks b ≡ (is_within touched.now.first touched.now.end b || (is_among rows.old.blocks b && nat_lt (b * block_size) touched.now.size)) }
{
    rows.cut(touched.size);
    rows.insert_all(touched.first, touched.end);
}

/// Adds a block, if there is one.
fn insert_some(set: &mut BlockSet, block: Option<u32>)
    requires { IfSome block (λ _. 1 ≤ set.old.room) }
    ensures { (b : ℕ) → is_among set.new.blocks b ≡ (is_at block b || is_among set.old.blocks b) }
{
    if let Some(block) = block {
        set.insert(block);
    }
}

/// The blocks that are dirty after a change.
pub fn turn_dirty(dirty: &mut BlockSet, touched: &Touched)
    requires limit { touched.now.size ≤ file_limit }
    requires order { touched.now.first ≤ touched.now.end }
    requires room { touched.now.end ≤ touched.now.first + dirty.old.room }
    requires edge { IfSome touched.now.edge (λ _. touched.now.end + 1 ≤ touched.now.first + dirty.old.room) }
    ensures { (b : ℕ) → is_among dirty.new.blocks b ≡ (is_touched touched.now b || (is_among dirty.old.blocks b && nat_lt (b * block_size) touched.now.size)) }
{
    dirty.cut(touched.size);
    dirty.insert_all(touched.first, touched.end);
    insert_some(dirty, touched.edge);
}
