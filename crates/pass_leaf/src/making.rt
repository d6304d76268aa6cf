//! The leaf of a version, made of its content and of that of the leaf before it.
ghost use Rattle.std.specs.Prelude.{◌≡◌, ◌<◌, ◌≤◌, ◌*◌, ◌^◌, ◌++◌, ◌∷◌, [], List, length, take, drop, IfOk, OnOk, IsTrue, ◌==◌, bytes_eq, if◌then◌else◌};
ghost use Rattle.std.specs.List.{list_all};
ghost use Rattle.pass_leaf.specs.Leaves.{IsFormed, leaf_bytes};
ghost use Rattle.pass_leaf.specs.Keeping.{part, is_alike as is_alike_of, differs as differs_of, block_of as block_at, block_total, changed as changed_of, leaf_from};

use crate::{Leaf, LeafBlock};
use pass_entry::{BLOCK_SIZE, Bytes, Node};
use pass_plain::bytes_in;
use std::alloc::{AllocError, Global};

// All of these bytes are zero.
fn is_zero(bytes: &[u8]) -> bool
    ensures { result ≡ list_all (λ y. y == 0) bytes.now }
{
    bytes.iter().all(|byte| *byte == 0)
}

// The same bytes.
fn is_same(old: &[u8], new: &[u8]) -> bool
    ensures { result ≡ bytes_eq old.now new.now }
{
    old == new
}

// Byte for byte the same; bytes past the shorter one are zero.
fn is_alike(old: &[u8], new: &[u8]) -> bool
    ensures { result ≡ is_alike_of old.now new.now }
{
    let both = old.len().min(new.len());
    let (old_front, old_rest) = old.split_at(both);
    let (new_front, new_rest) = new.split_at(both);
    let same = is_same(old_front, new_front);
    let zero = is_zero(old_rest);
    let also_zero = is_zero(new_rest);
    same & zero & also_zero
}

// A block of a content.
fn block_of(alloc: Global, content: &[u8], number: u32) -> Result<LeafBlock, AllocError>
    ensures { IfOk result (λ b. b ≡ block_at content.now number) }
{
    match Bytes::of(alloc, bytes_in(content, number)) {
        Ok(bytes) => Ok(LeafBlock { number, bytes }),
        Err(_fault) => Err(AllocError),
    }
}

// Puts a block of a content behind others, where it differs from that of another content.
fn add_changed(
    alloc: Global,
    blocks: &mut Vec<LeafBlock>,
    old: &[u8],
    new: &[u8],
    number: u32,
) -> Result<(), AllocError>
    ensures { OnOk result (blocks.new.items ≡ blocks.old.items ++ (if differs_of old.now new.now number then block_at new.now number ∷ [] else [])) }
{
    if is_alike(bytes_in(old, number), bytes_in(new, number)) {
        return Ok(());
    }
    let block = block_of(alloc, new, number)?;
    blocks.push(block)?;
    Ok(())
}

// The blocks of a content in which it differs from another one.
fn changed(alloc: Global, old: &[u8], new: &[u8]) -> Result<Vec<LeafBlock>, AllocError>
    requires { length new.now ≤ 2 ^ 28 }
    ensures { IfOk result (λ blocks. blocks.items ≡ changed_of old.now new.now) }
{
    let total = (new.len() as u64).div_ceil(BLOCK_SIZE) as u32;
    let mut blocks = Vec::new(alloc);
    for number in 0..total {
        add_changed(alloc, &mut blocks, old, new, number)?;
    }
    Ok(blocks)
}

/// The leaf of a version with a content, behind one with the other content.
pub(crate) fn make_leaf(
    alloc: Global,
    node: Node,
    old: &[u8],
    new: &[u8],
) -> Result<Leaf, AllocError>
    requires pnode { 1 ≤ node.pnode }
    requires size { length new.now ≤ 2 ^ 28 }
    ensures leaf { IfOk result (λ leaf. leaf ≡ leaf_from old.now node new.now) }
    ensures formed { IfOk result IsFormed }
    ensures fits { IfOk result (λ leaf. length (leaf_bytes leaf) < 2 ^ 32) }
{
    let blocks = changed(alloc, old, new)?;
    Ok(Leaf::of(node, new.len() as u64, blocks))
}
