//! The bytes of leaves.
ghost use Rattle.std.specs.Prelude.{◌≡◌, ◌<◌, ◌^◌, ◌++◌, length, IfOk, OnOk};
ghost use Rattle.pass_log.specs.Frames.{staged};
ghost use Rattle.pass_leaf.specs.Leaves.{block_bytes, blocks_bytes, leaf_bytes, head_bytes};

use crate::{Leaf, LeafBlock};
use pass_entry::Node;
use pass_num::{put_u16, put_u32, put_u64};
use std::alloc::{AllocError, Global};

// Puts the fields in front of a leaf's blocks.
fn put_head(out: &mut Vec<u8>, node: Node, size: u64, count: u32) -> Result<(), AllocError>
    ensures { OnOk result (out.new.items ≡ out.old.items ++ head_bytes node size count) }
{
    put_u64(out, node.pnode.0)?;
    put_u64(out, node.version)?;
    put_u64(out, size)?;
    put_u32(out, count)
}

// Puts a block.
fn put_block(out: &mut Vec<u8>, block: &LeafBlock) -> Result<(), AllocError>
    ensures { OnOk result (out.new.items ≡ out.old.items ++ block_bytes block.now) }
{
    let bytes = block.bytes.as_bytes();
    put_u32(out, block.number)?;
    put_u16(out, bytes.len() as u16)?;
    out.extend_from_slice(bytes)
}

// Puts blocks.
fn put_blocks(out: &mut Vec<u8>, blocks: &[LeafBlock]) -> Result<(), AllocError>
    ensures { OnOk result (out.new.items ≡ out.old.items ++ blocks_bytes blocks.now) }
{
    for block in blocks {
        put_block(out, block)?;
    }
    Ok(())
}

// The bytes of a leaf.
fn spell(alloc: Global, leaf: &Leaf) -> Result<Vec<u8>, AllocError>
    ensures { IfOk result (λ v. v.items ≡ leaf_bytes leaf.now) }
{
    let mut out = Vec::new(alloc);
    let blocks = leaf.blocks();
    put_head(&mut out, leaf.node(), leaf.size(), blocks.len() as u32)?;
    put_blocks(&mut out, blocks)?;
    Ok(out)
}

/// The bytes that the first write of a leaf's frame has: a length, the leaf's bytes, and the closed gate behind them.
pub(crate) fn stage(alloc: Global, leaf: &Leaf) -> Result<Vec<u8>, AllocError>
    requires { length (leaf_bytes leaf.now) < 2 ^ 32 }
    ensures { IfOk result (λ v. v.items ≡ staged (leaf_bytes leaf.now)) }
{
    let bytes = spell(alloc, leaf)?;
    let mut frame = Vec::new(alloc);
    put_u32(&mut frame, bytes.len() as u32)?;
    frame.extend_from_slice(&bytes)?;
    frame.push(0)?;
    Ok(frame)
}
