//! A walk over the leaves of an archive, with their contents.
ghost use Rattle.std.specs.Prelude.{◌≡◌, ◌∷◌, ◌++◌, [], ℕ, List, IfOk, IfErr, OnOk, if◌then◌else◌};
ghost use Rattle.pass_leaf.specs.Leaves.{Leaf as AnyLeaf};
ghost use Rattle.pass_leaf.specs.Contents.{laid, last_content};
ghost use Rattle.pass_leaf.specs.Keeping.{FileVersion};
ghost use Rattle.pass_leaf.specs.Archives.{Archive};
ghost use Rattle.pass_past.specs.Keepings.{IsKeeping, IsHalted};
ghost use Rattle.pass_prune.specs.Prunings.{chosen_of};
ghost use Rattle.pass_prune.specs.Tables.{is_chosen_by, chosen_one, IsNext, AreSoFar, IsTakenOut};

use crate::choosing::Choice;
use pass_leaf::{Leaf, Old, OldFault, lay};
use pass_outside::Disk;
use pass_past::keep_next;
use std::alloc::{AllocError, Global};
use std::collections::BTreeMap;

// The number of a leaf's file.
fn file_of(leaf: &Leaf) -> u64
    ensures { result ≡ leaf.now.node.pnode }
{
    leaf.node().pnode.0
}

// The content of a file's last leaf so far, taken out of the table; no bytes where it has none.
fn take_last(alloc: Global, contents: &mut BTreeMap<u64, Vec<u8>>, file: u64) -> Vec<u8>
    ensures content { (all past more : List AnyLeaf) (leaf : AnyLeaf) → leaf.node.pnode ≡ file → IsNext all past leaf more → AreSoFar all past contents.old → result.items ≡ last_content past file }
    ensures others { (all past : List AnyLeaf) → AreSoFar all past contents.old → IsTakenOut all past contents.new file }
{
    match contents.remove(&file) {
        Some(content) => content,
        None => Vec::new(alloc),
    }
}

// The content of a leaf, made of that of its file's leaf before it, which is taken out of the table.
fn take_next(
    alloc: Global,
    contents: &mut BTreeMap<u64, Vec<u8>>,
    leaf: &Leaf,
) -> Result<Vec<u8>, AllocError>
    ensures content { IfOk result (λ v. (all past more : List AnyLeaf) → IsNext all past leaf.now more → AreSoFar all past contents.old
        → v.items ≡ laid (last_content past leaf.now.node.pnode) leaf.now) }
    ensures others { (all past : List AnyLeaf) → AreSoFar all past contents.old → IsTakenOut all past contents.new leaf.now.node.pnode }
{
    let mut content = take_last(alloc, contents, file_of(leaf));
    lay(&mut content, leaf)?;
    Ok(content)
}

// Puts the content of a leaf into the table, unless its file has none behind it.
fn put_back(
    contents: &mut BTreeMap<u64, Vec<u8>>,
    choice: &Choice,
    leaf: &Leaf,
    content: Vec<u8>,
) -> Result<(), AllocError>
    ensures { OnOk result ((past : List AnyLeaf) → content.items ≡ laid (last_content past leaf.now.node.pnode) leaf.now → IsTakenOut choice.now.leaves.now past contents.old leaf.now.node.pnode
        → AreSoFar choice.now.leaves.now (past ++ leaf.now ∷ []) contents.new) }
{
    if choice.is_last(&leaf.node()) {
        return Ok(());
    }
    contents.insert(leaf.node().pnode.0, content)?;
    Ok(())
}

// Keeps the version of a leaf with its content, where it is chosen.
fn keep_where<F: Disk>(
    old: &mut Old<F>,
    choice: &Choice,
    leaf: &Leaf,
    content: &[u8],
) -> Result<(), OldFault>
    ensures kept { OnOk result ((past : List AnyLeaf) → content.now ≡ laid (last_content past leaf.now.node.pnode) leaf.now → (first : Archive F) (done : List FileVersion)
        → IsKeeping F.view first done old.old → IsKeeping F.view first (done ++ chosen_one (is_chosen_by choice.now) past leaf.now) old.new) }
    ensures stopped { IfErr result (λ e. (past : List AnyLeaf) → content.now ≡ laid (last_content past leaf.now.node.pnode) leaf.now → (first : Archive F) (done : List FileVersion)
        → IsKeeping F.view first done old.old → IsHalted F.view first (done ++ chosen_one (is_chosen_by choice.now) past leaf.now) old.new e) }
{
    if !choice.has(&leaf.node()) {
        return Ok(());
    }
    keep_next(old, leaf.node(), content)
}

// Goes on with a leaf: makes its content, and keeps its version, where it is chosen.
fn keep_leaf<F: Disk>(
    old: &mut Old<F>,
    alloc: Global,
    contents: &mut BTreeMap<u64, Vec<u8>>,
    choice: &Choice,
    leaf: &Leaf,
) -> Result<(), OldFault>
    ensures contents { OnOk result ((past more : List AnyLeaf) → IsNext choice.now.leaves.now past leaf.now more → AreSoFar choice.now.leaves.now past contents.old
        → AreSoFar choice.now.leaves.now (past ++ leaf.now ∷ []) contents.new) }
    ensures kept { OnOk result ((past more : List AnyLeaf) → IsNext choice.now.leaves.now past leaf.now more → AreSoFar choice.now.leaves.now past contents.old
        → (first : Archive F) (done : List FileVersion) → IsKeeping F.view first done old.old → IsKeeping F.view first (done ++ chosen_one (is_chosen_by choice.now) past leaf.now) old.new) }
    ensures stopped { IfErr result (λ e. (past more : List AnyLeaf) → IsNext choice.now.leaves.now past leaf.now more → AreSoFar choice.now.leaves.now past contents.old
        → (first : Archive F) (done : List FileVersion) → IsKeeping F.view first done old.old → IsHalted F.view first (done ++ chosen_one (is_chosen_by choice.now) past leaf.now) old.new e) }
{
    let content = match take_next(alloc, contents, leaf) {
        Ok(content) => content,
        Err(_refused) => return Err(OldFault::NoMemory),
    };
    if let Err(fault) = keep_where(old, choice, leaf, &content) {
        return Err(fault);
    }
    match put_back(contents, choice, leaf, content) {
        Ok(()) => Ok(()),
        Err(_refused) => Err(OldFault::NoMemory),
    }
}

/// Keeps the chosen versions, in the order of the leaves. One walk over the leaves: a file's content lies in memory from its first leaf to
/// its last.
pub(crate) fn keep_chosen<F: Disk>(
    old: &mut Old<F>,
    alloc: Global,
    choice: &Choice,
) -> Result<(), OldFault>
    requires begun { IsKeeping F.view old.old [] old.old }
    ensures kept { OnOk result (IsKeeping F.view old.old (chosen_of (is_chosen_by choice.now) choice.now.leaves.now) old.new) }
    ensures stopped { IfErr result (IsHalted F.view old.old (chosen_of (is_chosen_by choice.now) choice.now.leaves.now) old.new) }
{
    let mut contents = BTreeMap::new(alloc);
    for leaf in choice.leaves.list() {
        if let Err(fault) = keep_leaf(old, alloc, &mut contents, choice, leaf) {
            return Err(fault);
        }
    }
    Ok(())
}
