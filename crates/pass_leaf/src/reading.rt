//! Leaves read of bytes.
ghost use Rattle.std.specs.Prelude.{◌≡◌, ◌<◌, ◌≤◌, ◌^◌, ◌++◌, ◌↔◌, ℕ, List, length, IsTrue, IfOk, IfErr, IfSome, IfNone};
ghost use Rattle.std.specs.Int.{w16, w32, to_be_bytes};
ghost use Rattle.pass_entry.specs.Limits.{block_size};
ghost use Rattle.pass_plain.specs.Records.{range_len as range_len_of};
ghost use Rattle.pass_leaf.specs.declared.leaf.LeafBlock.{LeafBlock as AnyBlock};
ghost use Rattle.pass_leaf.specs.declared.reading.LeafFault.TheVariants as leaf_faults;
ghost use Rattle.pass_leaf.specs.Leaves.{MayStand, AreBlocks, IsFormed, block_bytes, blocks_bytes, leaf_bytes, head_bytes, IsNoLeaf};
ghost use Rattle.pass_leaf.specs.Reads.{raw_bytes, IsFit};

use crate::{Leaf, LeafBlock};
use pass_entry::{BLOCK_SIZE, Bytes, Node, Pnode};
use pass_num::Cursor;
use std::alloc::{AllocError, AllocFailed, Global};

/// Why bytes give no leaf.
#[derive(Clone, Copy, PartialEq, Eq, Drop)]
pub(crate) enum LeafFault {
    /// They are none.
    Bad,
    /// Memory was refused.
    NoMemory,
}

impl From<AllocError> for LeafFault {
    ghost from_gives = { λ _ e. e ≡ leaf_faults.NoMemory };

    fn from(_error: AllocError) -> LeafFault {
        LeafFault::NoMemory
    }
}

impl<T: Drop> From<AllocFailed<T>> for LeafFault {
    ghost from_gives = { λ _ e. e ≡ leaf_faults.NoMemory };

    fn from(_error: AllocFailed<T>) -> LeafFault {
        LeafFault::NoMemory
    }
}

// The number and the bytes of a block at the front.
fn take_block<'a>(cursor: &mut Cursor<'a>) -> Option<(u32, &'a [u8])>
    ensures taken { IfSome result (λ b. cursor.old ≡ raw_bytes b.0 b.1.now ++ cursor.new) }
    ensures fits { IfSome result (λ b. length b.1.now < 2 ^ 16) }
    ensures none { IfNone result ((number : ℕ) (bytes rest : List ℕ) → number < 2 ^ 32 → length bytes < 2 ^ 16 → cursor.old ≡ raw_bytes number bytes ++ rest → ⊥) }
{
    let Ok(number) = cursor.take_u32() else {
        return None;
    };
    let Ok(len) = cursor.take_u16() else {
        return None;
    };
    let Ok(bytes) = cursor.take_bytes(len as usize) else {
        return None;
    };
    Some((number, bytes))
}

// How many bytes of a block lie within a size.
fn range_len(size: u64, block: u32) -> u64
    ensures { result ≡ range_len_of size block }
{
    let begin = u64::from(block) * BLOCK_SIZE;
    size.min(begin + BLOCK_SIZE).saturating_sub(begin)
}

// A block of so many bytes may stand in a leaf of that size where blocks from this number on may.
fn is_fit(size: u64, from: u64, number: u32, len: usize) -> bool
    ensures { IsTrue result ↔ IsFit size from number len }
{
    u64::from(number) >= from
        && u64::from(number) * BLOCK_SIZE < size
        && len as u64 == range_len(size, number)
}

// A copy of bytes that a block may have.
fn copied(alloc: Global, bytes: &[u8]) -> Result<Bytes, LeafFault>
    requires { length bytes.now ≤ 4096 }
    ensures ok { IfOk result (λ b. b ≡ bytes.now) }
    ensures err { IfErr result (λ e. e ≡ LeafFault.NoMemory) }
{
    match Bytes::of(alloc, bytes) {
        Ok(bytes) => Ok(bytes),
        Err(_fault) => Err(LeafFault::NoMemory),
    }
}

// The block at the front, which may stand there.
fn read_block(
    alloc: Global,
    cursor: &mut Cursor<'_>,
    size: u64,
    from: u64,
) -> Result<LeafBlock, LeafFault>
    ensures fits { IfOk result (λ b. MayStand size from b) }
    ensures taken { IfOk result (λ b. cursor.old ≡ block_bytes b ++ cursor.new) }
    ensures bad { IfErr result (λ e. e ≡ LeafFault.Bad → (b : AnyBlock) (rest : List ℕ) → MayStand size from b → cursor.old ≡ block_bytes b ++ rest → ⊥) }
{
    let Some((number, bytes)) = take_block(cursor) else {
        return Err(LeafFault::Bad);
    };
    if !is_fit(size, from, number, bytes.len()) {
        return Err(LeafFault::Bad);
    }
    let bytes = copied(alloc, bytes)?;
    Ok(LeafBlock { number, bytes })
}

// The fields in front of a leaf's blocks.
#[derive(Clone, Copy)]
struct Head {
    node: Node,
    size: u64,
    count: u32,
}

// The fields in front of a leaf's blocks, where the pnode isn't 0.
fn take_head(cursor: &mut Cursor<'_>) -> Option<Head>
    ensures pnode { IfSome result (λ h. 1 ≤ h.node.pnode) }
    ensures taken { IfSome result (λ h. cursor.old ≡ head_bytes h.node h.size h.count ++ cursor.new) }
    ensures none { IfNone result (IsNoLeaf cursor.old) }
{
    let Ok(pnode) = cursor.take_u64() else {
        return None;
    };
    let Ok(version) = cursor.take_u64() else {
        return None;
    };
    let Ok(size) = cursor.take_u64() else {
        return None;
    };
    let Ok(count) = cursor.take_u32() else {
        return None;
    };
    if pnode == 0 {
        return None;
    }
    Some(Head {
        node: Node {
            pnode: Pnode(pnode),
            version,
        },
        size,
        count,
    })
}

// So many blocks of a leaf of that size, which are all of the bytes.
fn read_blocks(
    alloc: Global,
    cursor: &mut Cursor<'_>,
    size: u64,
    count: u32,
) -> Result<Vec<LeafBlock>, LeafFault>
    ensures count { IfOk result (λ blocks. length blocks.items ≡ count) }
    ensures fit { IfOk result (λ blocks. AreBlocks size 0 blocks.items) }
    ensures taken { IfOk result (λ blocks. cursor.old ≡ blocks_bytes blocks.items) }
    ensures bad { IfErr result (λ e. e ≡ LeafFault.Bad → (blocks : List AnyBlock) → length blocks ≡ count → AreBlocks size 0 blocks → cursor.old ≡ blocks_bytes blocks → ⊥) }
{
    let mut blocks = Vec::new(alloc);
    let mut from = 0;
    for _ in 0..count {
        let block = match read_block(alloc, cursor, size, from) {
            Ok(block) => block,
            Err(fault) => return Err(fault),
        };
        from = u64::from(block.number) + 1;
        blocks.push(block)?;
    }
    if !cursor.left().is_empty() {
        return Err(LeafFault::Bad);
    }
    Ok(blocks)
}

/// The leaf that has these bytes. What is claimed costs no more than what is there.
pub(crate) fn read_leaf(alloc: Global, bytes: &[u8]) -> Result<Leaf, LeafFault>
    ensures is { IfOk result (λ leaf. leaf_bytes leaf ≡ bytes.now) }
    ensures formed { IfOk result IsFormed }
    ensures bad { IfErr result (λ e. e ≡ LeafFault.Bad → IsNoLeaf bytes.now) }
{
    let mut cursor = Cursor::new(bytes);
    let Some(head) = take_head(&mut cursor) else {
        return Err(LeafFault::Bad);
    };
    match read_blocks(alloc, &mut cursor, head.size, head.count) {
        Ok(blocks) => Ok(Leaf::of(head.node, head.size, blocks)),
        Err(fault) => Err(fault),
    }
}
