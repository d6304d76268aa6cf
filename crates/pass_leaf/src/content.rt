//! The contents of which leaves tell.
ghost use Rattle.std.specs.Prelude.{◌≡◌, ◌≤◌, ◌+◌, ◌*◌, ◌++◌, ◌==◌, [], length, take, drop, fold, IfOk, OnOk, IfSome, IfNone, Some, None, IsTrue, if◌then◌else◌};
ghost use Rattle.std.specs.List.{list_any};
ghost use Rattle.pass_entry.specs.Limits.{block_size};
ghost use Rattle.pass_leaf.specs.Leaves.{IsFormed};
ghost use Rattle.pass_leaf.specs.Contents.{with_block as with_block_of, laid, content_of, is_of as is_of_node};
ghost use Rattle.pass_leaf.specs.Places.{laid_at};

use crate::{Leaf, LeafBlock};
use pass_entry::{BLOCK_SIZE, Node, Pnode};
use std::alloc::{AllocError, Global};

/// Puts bytes over those of a content from a place on.
pub(crate) fn put(content: &mut [u8], at: usize, bytes: &[u8])
    requires { at + length bytes.now ≤ length content.old }
    ensures { content.new ≡ take at content.old ++ bytes.now ++ drop (at + length bytes.now) content.old }
{
    content[at..at + bytes.len()].copy_from_slice(bytes);
}

/// The greatest size of a content that is made or kept, in bytes. No file is as large.
pub const LARGEST: u64 = 1 << 28;

/// Puts the leaf's blocks over a content of the leaf's size.
pub fn put_blocks(content: &mut [u8], leaf: &Leaf)
    requires { length content.old ≡ leaf.now.size }
    ensures { content.new ≡ fold with_block_of content.old leaf.now.blocks }
{
    for block in leaf.blocks() {
        put(
            content,
            block.number as usize * BLOCK_SIZE as usize,
            block.bytes.as_bytes(),
        );
    }
}

/// Makes of the content of a file's leaf that of its next one. A size that no file has is a want of memory, after which the content is
/// of no use.
pub fn lay(content: &mut Vec<u8>, leaf: &Leaf) -> Result<(), AllocError>
    ensures { OnOk result (content.new.items ≡ laid content.old.items leaf.now) }
{
    if leaf.size() > LARGEST {
        return Err(AllocError);
    }
    content.resize(leaf.size() as usize, 0)?;
    put_blocks(content, leaf);
    Ok(())
}

// Makes of the content of a file that behind one leaf more, which may be another file's.
fn follow(content: &mut Vec<u8>, leaf: &Leaf, pnode: Pnode) -> Result<(), AllocError>
    ensures { OnOk result (content.new.items ≡ (if leaf.now.node.pnode == pnode then laid content.old.items leaf.now else content.old.items)) }
{
    if leaf.node().pnode == pnode {
        lay(content, leaf)?;
    }
    Ok(())
}

// Makes of a content what the leaf at a place makes of it.
fn lay_at(content: &mut Vec<u8>, leaves: &[Leaf], place: usize) -> Result<(), AllocError>
    ensures { OnOk result (content.new.items ≡ laid_at leaves.now content.old.items place) }
{
    match leaves.get(place) {
        Some(leaf) => lay(content, leaf),
        None => Ok(()),
    }
}

/// What the leaves at these places make, one after the other.
pub(crate) fn lay_all(
    alloc: Global,
    leaves: &[Leaf],
    places: &[usize],
) -> Result<Vec<u8>, AllocError>
    ensures { IfOk result (λ v. v.items ≡ fold (laid_at leaves.now) [] places.now) }
{
    let mut content = Vec::new(alloc);
    for i in 0..places.len() {
        lay_at(&mut content, leaves, places[i])?;
    }
    Ok(content)
}

// The leaf is of the node.
fn is_of(node: &Node, leaf: &Leaf) -> bool
    ensures { result ≡ is_of_node node.now leaf.now }
{
    leaf.node().pnode == node.pnode && leaf.node().version == node.version
}

/// A leaf has the node.
pub(crate) fn has_leaf(leaves: &[Leaf], node: &Node) -> bool
    ensures { result ≡ list_any (is_of_node node.now) leaves.now }
{
    for leaf in leaves {
        if is_of(node, leaf) {
            return true;
        }
    }
    false
}

/// The content of a node's leaf, where it has one.
pub(crate) fn content_at(
    alloc: Global,
    leaves: &[Leaf],
    node: &Node,
) -> Result<Option<Vec<u8>>, AllocError>
    ensures some { IfOk result (λ found. IfSome found (λ v. content_of leaves.now node.now ≡ Some v.items)) }
    ensures none { IfOk result (λ found. IfNone found (content_of leaves.now node.now ≡ None)) }
{
    let mut content = Vec::new(alloc);
    for leaf in leaves {
        follow(&mut content, leaf, node.pnode)?;
        if is_of(node, leaf) {
            return Ok(Some(content));
        }
    }
    Ok(None)
}
