//! All versions of a session are kept.
ghost use Rattle.std.specs.Prelude.{◌≡◌, ◌↔◌, ◌+◌, ◌<◌, ◌≤◌, IsTrue, [], ℕ, List, Some, length, OnOk, IfOk, IfErr, Err};
ghost use Rattle.pass_entry.specs.declared.objects.Node.{Node};
ghost use Rattle.pass_plain.specs.Legal.{session_of, IsLegal};
ghost use Rattle.pass_plain.specs.Sound.{IsSound};
ghost use Rattle.pass_leaf.specs.Contents.{last_version, content_of};
ghost use Rattle.pass_leaf.specs.Keeping.{FileVersion};
ghost use Rattle.pass_leaf.specs.Archives.{Archive};
ghost use Rattle.pass_leaf.specs.Laws.{IsAmong};
ghost use Rattle.pass_past.specs.Pasts.{versions_of};
ghost use Rattle.pass_past.specs.Keepings.{IsKeeping, HasKept, HasStopped, IsHalted};

use crate::laws::agreeing;
use crate::phases::{keep_current, keep_ended, keep_opened};
use pass_entry::Entry;
use pass_leaf::laws::kept;
use pass_leaf::{Old, OldFault};
use pass_outside::Disk;
use pass_plain::Start;
use std::alloc::Global;

// Keeps the versions of a session one after the other.
fn keep_all<A: Disk>(
    old: &mut Old<A>,
    alloc: Global,
    start: &Start,
    history: &[Entry],
) -> Result<(), OldFault>
    requires legal { (objects : ℕ) × IsSound (session_of start.now objects) × IsLegal (session_of start.now objects) history.now }
    requires begun { IsKeeping A.view old.old [] old.old }
    ensures kept { OnOk result (IsKeeping A.view old.old (versions_of (session_of start.now 0) history.now) old.new) }
    ensures stopped { IfErr result (λ e. IsHalted A.view old.old (versions_of (session_of start.now 0) history.now) old.new e) }
{
    if let Err(fault) = keep_opened(old, start) {
        return Err(fault);
    }
    let walked = match keep_ended(old, alloc, start, history) {
        Ok(walked) => walked,
        Err(fault) => return Err(fault),
    };
    keep_current(old, alloc, start, &walked)
}

/// Writes what is gathered of versions that are all kept.
pub fn finish<A: Disk>(old: &mut Old<A>) -> Result<(), OldFault>
    ensures kept { OnOk result ((first : Archive A) (done : List FileVersion) → IsKeeping A.view first done old.old → HasKept A.view first done old.new) }
    ensures stopped { IfErr result (λ e. (first : Archive A) (done : List FileVersion) → IsKeeping A.view first done old.old → HasStopped A.view first done old.new e) }
{
    match old.settle() {
        Ok(()) => Ok(()),
        Err(fault) => Err(fault),
    }
}

// A device call failed.
fn is_of_device(fault: &OldFault) -> bool
    ensures { IsTrue result ↔ (fault.now ≡ OldFault.DiskFault) }
{
    matches!(fault, OldFault::DiskFault)
}

/// Writes what is gathered of versions in front of a fault, unless a device call failed. The answer is the fault that ends the keeping.
pub fn halt<A: Disk>(old: &mut Old<A>, fault: OldFault) -> OldFault
    ensures { (first : Archive A) (versions : List FileVersion) → IsHalted A.view first versions old.old fault → HasStopped A.view first versions old.new result }
{
    if is_of_device(&fault) {
        return fault;
    }
    match old.settle() {
        Ok(()) => fault,
        Err(failed) => failed,
    }
}

/// Keeps each version of a session that is above its file's last leaf in an archive, and answers how many. The history is that of a
/// session that opens with the start, which has the bytes of its files.
pub fn keep<A: Disk>(
    old: &mut Old<A>,
    alloc: Global,
    start: &Start,
    history: &[Entry],
) -> Result<u64, OldFault>
    requires legal { (objects : ℕ) × IsSound (session_of start.now objects) × IsLegal (session_of start.now objects) history.now }
    requires begun { old.old.gathered ≡ [] }
    // The leaves are those from before, with one for each version of the session that was above its file's last leaf.
    ensures kept { OnOk result (HasKept A.view old.old (versions_of (session_of start.now 0) history.now) old.new) }
    ensures count { IfOk result (λ n. length old.new.leaves ≡ length old.old.leaves + n) }
    // Each version that was above its file's last leaf has its content, what was kept before stays as it was, and no other version
    // gets a leaf.
    ensures contents { OnOk result ((v : FileVersion) → IsAmong v (versions_of (session_of start.now 0) history.now) → last_version old.old.leaves v.node.pnode < v.node.version → content_of old.new.leaves v.node ≡ Some v.bytes) }
    ensures stays { (node : Node) (bytes : List ℕ) → content_of old.old.leaves node ≡ Some bytes → content_of old.new.leaves node ≡ Some bytes }
    ensures others { OnOk result ((node : Node) → ((v : FileVersion) → IsAmong v (versions_of (session_of start.now 0) history.now) → v.node ≡ node → v.node.version ≤ last_version old.old.leaves v.node.pnode)
        → content_of old.new.leaves node ≡ content_of old.old.leaves node) }
    // After a fault the leaves of some of the first versions stand.
    ensures stopped { (A.view old.old.disk).faults ≤ old.old.opened → IfErr result (λ e. HasStopped A.view old.old (versions_of (session_of start.now 0) history.now) old.new e) }
    // After a fault of the disk since the opening it leaves the disk alone.
    ensures broken { old.old.opened < (A.view old.old.disk).faults → (result ≡ Err (OldFault.Broken old.old.opened (A.view old.old.disk).faults)) × (old.new ≡ old.old) }
{
    kept();
    agreeing();
    if let Err(fault) = old.check() {
        return Err(fault);
    }
    let before = old.count();
    if let Err(fault) = keep_all(old, alloc, start, history) {
        return Err(halt(old, fault));
    }
    if let Err(fault) = finish(old) {
        return Err(fault);
    }
    Ok(old.count() - before)
}
