//! The leaves of an archive in memory.
ghost use Rattle.std.specs.Prelude.{◌≡◌, ◌↔◌, ◌+◌, ◌<◌, ◌≤◌, ◌^◌, ◌++◌, ◌∷◌, [], List, length, take, drop, IsTrue, IfOk, IfSome, OnOk, OnErr, vec_len, vec_capacity};
ghost use Rattle.pass_log.specs.Frames.{staged};
ghost use Rattle.pass_leaf.specs.Leaves.{Leaf as AnyLeaf, IsFormed, leaf_bytes};
ghost use Rattle.pass_leaf.specs.Contents.{laid, last_content, last_version};
ghost use Rattle.pass_leaf.specs.Keeping.{leaf_from};
ghost use Rattle.pass_leaf.specs.Reads.{AreContents, IsBatch, IsGathered, IsStock};

use crate::content::{lay, put};
use crate::making::make_leaf;
use crate::walk::OPEN;
use crate::writing::stage;
use crate::{Leaf, Leaves};
use pass_entry::{Node, Pnode};
use std::alloc::{AllocError, Global};
use std::collections::BTreeMap;

/// The leaves of an archive, the content of the last leaf of files of which one more was kept, how many of the leaves are on the
/// disk, and the bytes that the first write of the others has.
#[derive(Drop)]
pub(crate) struct Stock {
    pub(crate) leaves: Leaves,
    pub(crate) contents: BTreeMap<u64, Vec<u8>>,
    pub(crate) written: usize,
    pub(crate) frames: Vec<u8>,
}

/// The content of a file's last leaf, its next leaf, and the bytes that the first write of its frame has.
#[derive(Drop)]
pub(crate) struct Made {
    pub(crate) old: Vec<u8>,
    pub(crate) leaf: Leaf,
    pub(crate) frame: Vec<u8>,
}

// The content of a file's last leaf, taken out of a table that may have it.
fn take_content(
    alloc: Global,
    leaves: &Leaves,
    contents: &mut BTreeMap<u64, Vec<u8>>,
    pnode: Pnode,
) -> Result<Vec<u8>, AllocError>
    requires { AreContents contents.old leaves.now }
    ensures content { IfOk result (λ v. v.items ≡ last_content leaves.now pnode) }
    ensures contents { AreContents contents.new leaves.now }
{
    match contents.remove(&pnode.0) {
        Some(content) => Ok(content),
        None => leaves.last_content(alloc, pnode),
    }
}

// The content of a file's next leaf, where memory has room for it.
fn next_content(old: Vec<u8>, leaf: &Leaf) -> Option<Vec<u8>>
    ensures { IfSome result (λ v. v.items ≡ laid old.items leaf.now) }
{
    let mut content = old;
    match lay(&mut content, leaf) {
        Ok(()) => Some(content),
        Err(_refused) => None,
    }
}

// Keeps the content of a file's next leaf in a table, where there is one and memory has room for it.
fn remember(contents: &mut BTreeMap<u64, Vec<u8>>, pnode: Pnode, next: Option<Vec<u8>>)
    ensures { (leaves : List AnyLeaf) (leaf : AnyLeaf) → leaf.node.pnode ≡ pnode → AreContents contents.old leaves → IfSome next (λ v. v.items ≡ laid (last_content leaves pnode) leaf)
        → AreContents contents.new (leaves ++ leaf ∷ []) }
{
    let _ = contents.remove(&pnode.0);
    if let Some(content) = next {
        let _ = contents.insert(pnode.0, content);
    }
}

// Puts a file's next leaf behind the others.
fn enter(
    alloc: Global,
    leaves: &mut Leaves,
    contents: &mut BTreeMap<u64, Vec<u8>>,
    old: Vec<u8>,
    leaf: Leaf,
) -> Result<(), AllocError>
    requires contents { AreContents contents.old leaves.old }
    requires formed { IsFormed leaf }
    requires above { last_version leaves.old leaf.node.pnode < leaf.node.version }
    requires old { old.items ≡ last_content leaves.old leaf.node.pnode }
    ensures contents { AreContents contents.new leaves.new }
    ensures ok { OnOk result (leaves.new ≡ leaves.old ++ leaf ∷ []) }
    ensures err { OnErr result (leaves.new ≡ leaves.old) }
{
    let pnode = leaf.node().pnode;
    let next = next_content(old, &leaf);
    leaves.push(alloc, leaf)?;
    remember(contents, pnode, next);
    Ok(())
}

// Opens the gate at a place.
fn open_gate(frames: &mut Vec<u8>, at: usize)
    requires { at < length frames.old.items }
    ensures { frames.new.items ≡ take at frames.old.items ++ (1 ∷ []) ++ drop (at + 1) frames.old.items }
{
    put(frames, at, &[OPEN]);
}

// Puts the frame of a leaf, for which there is room, behind those that are gathered, and opens the gate between.
fn add_frame(frames: &mut Vec<u8>, frame: &[u8])
    requires { vec_len frames.old + length frame.now ≤ vec_capacity frames.old }
    ensures batch { (gathered : List AnyLeaf) (leaf : AnyLeaf) → IsGathered frames.old.items gathered → frame.now ≡ staged (leaf_bytes leaf) → length (leaf_bytes leaf) < 2 ^ 32
        → IsBatch frames.new.items (gathered ++ leaf ∷ []) }
    ensures size { length frames.new.items ≡ length frames.old.items + length frame.now }
{
    let end = frames.len();
    let _ = frames.extend_from_slice(frame);
    if end > 0 {
        open_gate(frames, end - 1);
    }
}

impl Stock {
    /// The version is above its file's last leaf.
    pub(crate) fn is_new(&self, node: &Node) -> bool
        ensures { IsTrue result ↔ (last_version self.now.leaves node.now.pnode < node.now.version) }
    {
        node.version > self.leaves.last_version(node.pnode)
    }

    /// Makes the next leaf of a file, and room for its frame.
    pub(crate) fn make(
        &mut self,
        alloc: Global,
        node: Node,
        content: &[u8],
    ) -> Result<Made, AllocError>
        requires stocked { IsStock self.old }
        requires pnode { 1 ≤ node.pnode }
        requires size { length content.now ≤ 2 ^ 28 }
        ensures leaves { self.new.leaves ≡ self.old.leaves }
        ensures written { self.new.written ≡ self.old.written }
        ensures frames { self.new.frames.items ≡ self.old.frames.items }
        ensures contents { AreContents self.new.contents self.new.leaves }
        ensures old { IfOk result (λ made. made.old.items ≡ last_content self.old.leaves node.pnode) }
        ensures leaf { IfOk result (λ made. made.leaf ≡ leaf_from (last_content self.old.leaves node.pnode) node content.now) }
        ensures formed { IfOk result (λ made. IsFormed made.leaf) }
        ensures frame { IfOk result (λ made. made.frame.items ≡ staged (leaf_bytes made.leaf)) }
        ensures fits { IfOk result (λ made. length (leaf_bytes made.leaf) < 2 ^ 32) }
        ensures room { IfOk result (λ made. vec_len self.new.frames + length made.frame.items ≤ vec_capacity self.new.frames) }
    {
        let old = take_content(alloc, &self.leaves, &mut self.contents, node.pnode)?;
        let leaf = make_leaf(alloc, node, &old, content)?;
        let frame = stage(alloc, &leaf)?;
        self.frames.reserve(frame.len())?;
        Ok(Made { old, leaf, frame })
    }

    /// Gathers a leaf for whose frame there is room.
    pub(crate) fn add(&mut self, alloc: Global, made: Made) -> Result<(), AllocError>
        requires contents { AreContents self.old.contents self.old.leaves }
        requires formed { IsFormed made.leaf }
        requires above { last_version self.old.leaves made.leaf.node.pnode < made.leaf.node.version }
        requires old { made.old.items ≡ last_content self.old.leaves made.leaf.node.pnode }
        requires frame { made.frame.items ≡ staged (leaf_bytes made.leaf) }
        requires fits { length (leaf_bytes made.leaf) < 2 ^ 32 }
        requires room { vec_len self.old.frames + length made.frame.items ≤ vec_capacity self.old.frames }
        ensures contents { AreContents self.new.contents self.new.leaves }
        ensures batch { OnOk result ((gathered : List AnyLeaf) → IsGathered self.old.frames.items gathered → IsBatch self.new.frames.items (gathered ++ made.leaf ∷ [])) }
        ensures leaves { OnOk result (self.new.leaves ≡ self.old.leaves ++ made.leaf ∷ []) }
        ensures written { self.new.written ≡ self.old.written }
        ensures size { OnOk result (length self.new.frames.items ≡ length self.old.frames.items + length made.frame.items) }
        ensures same { OnErr result (self.new.leaves ≡ self.old.leaves) }
        ensures frames { OnErr result (self.new.frames.items ≡ self.old.frames.items) }
    {
        let Made { old, leaf, frame } = made;
        enter(alloc, &mut self.leaves, &mut self.contents, old, leaf)?;
        add_frame(&mut self.frames, &frame);
        Ok(())
    }

    /// All leaves are on the disk.
    pub(crate) fn settle(&mut self)
        ensures contents { self.new.contents ≡ self.old.contents }
        ensures leaves { self.new.leaves ≡ self.old.leaves }
        ensures written { self.new.written ≡ length self.old.leaves }
        ensures frames { self.new.frames.items ≡ [] }
    {
        self.written = self.leaves.list().len();
        self.frames.clear();
    }
}
