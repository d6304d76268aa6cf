//! An archive that is open to keep versions.
ghost use Rattle.std.specs.Prelude.{◌≡◌, ◌⊎◌, ◌<◌, [], length, IsTrue, IfOk, IfErr, IsErrOf};
ghost use Rattle.pass_outside.specs.Areas.{Image};
ghost use Rattle.pass_outside.specs.Moments.{Adds, IsDeviceWork};
ghost use Rattle.pass_log.specs.Frames.{frames_of};
ghost use Rattle.pass_log.specs.Log.{LeavesStore};
ghost use Rattle.pass_leaf.specs.Archives.{IsArchiveOn, IsUnopened};
ghost use Rattle.pass_leaf.specs.Contents.{AreLeaves};
ghost use Rattle.pass_leaf.specs.Reads.{EndsThere, IsStock};
ghost use Rattle.pass_leaf.specs.Open.{IsUnwritten};

use crate::OldFault;
use crate::leaves::find;
use crate::shelf::Shelf;
use crate::stock::Stock;
use crate::tail::{Tail, open_tail};
use crate::walk::Found;
use pass_entry::Node;
use pass_outside::Disk;
use std::alloc::Global;
use std::collections::BTreeMap;
use std::marker::Model;

/// An archive on its disk: a leaf for each version that was kept, in order. It holds them in memory, and beside them the content
/// of the last leaf of each file of which it kept one more.
#[derive(Drop)]
pub struct Old<A: Disk> {
    shelf: Shelf<A>,
}

impl<A: Disk> Model for Old<A> {
    ghost use Rattle.std.specs.Coded.{codes};
    ghost use Rattle.pass_entry.specs.contracts.objects.Node as node_type;
    ghost use Rattle.pass_leaf.specs.contracts.leaf.LeafBlock as block_type;
    ghost use Rattle.pass_leaf.specs.Archives.{Archive};
    ghost use Rattle.pass_leaf.specs.Open.{IsOpen, archive_of};

    ghost Value = { Archive A };

    ghost coded = { Prim.hlevel (codes, node_type.the_row.coded, block_type.the_row.coded) };

    ghost view = { λ o. archive_of o.shelf };

    ghost invariant = { λ o. IsOpen (A.view o.shelf.disk) o.shelf.stock o.shelf.tail };
}

impl<A: Disk> Old<A> {
    ghost use Rattle.std.specs.Prelude.{◌⊎◌, ◌↔◌, ◌+◌, ◌<◌, ◌≤◌, ◌^◌, ℕ, [], true, false, Some, None, length, IsTrue, IfOk, OnOk, OnErr, IfErr, IsErrOf, Err};
    ghost use Rattle.pass_outside.specs.Areas.{Image};
    ghost use Rattle.pass_outside.specs.Moments.{Adds, IsDeviceWork, IsAtEnd};
    ghost use Rattle.pass_log.specs.Frames.{frames_of};
    ghost use Rattle.pass_log.specs.Log.{LeavesStore};
    ghost use Rattle.pass_leaf.specs.Contents.{content_of, AreLeaves};
    ghost use Rattle.pass_leaf.specs.Keeping.{is_above};
    ghost use Rattle.pass_leaf.specs.Archives.{IsArchive, IsArchiveOn, IsUnopened, LeavesThem};
    ghost use Rattle.pass_leaf.specs.Gatherings.{with_version, settled};
    ghost use Rattle.pass_leaf.specs.Open.{IsUnwritten, gathering_of, all_leaves, whole_end, IsUnkept, EndsAfter, HasMoved};

    /// Opens an archive on a disk, which may be empty: syncs its log area and reads it. An area of at most one byte gets its first
    /// closed gate. After a fault the disk is handed back.
    pub fn open(alloc: Global, archive: A) -> Result<Old<A>, (OldFault, A)>
        ensures leaves { IfOk result (λ o. IsArchiveOn (A.view archive) o.leaves o.end) }
        ensures gathered { IfOk result (λ o. o.gathered ≡ []) }
        ensures opened { IfOk result (λ o. o.opened ≡ (A.view o.disk).faults) }
        ensures work { IfOk result (λ o. IsDeviceWork (A.view archive) (A.view o.disk) ⊥) }
        // A crash at any moment leaves what it might have left before, or the frames as they were.
        ensures any_moment { IfOk result (λ o. IsTrue (A.view archive).tells
            → Adds (A.view archive) (A.view o.disk) (λ c. (A.view archive).may_leave c ⊎ (frames_of c.log ≡ frames_of (A.view archive).seen.log))) }
        ensures store { IfOk result (λ o. LeavesStore (A.view archive) (A.view o.disk)) }
        ensures unwritten { IfOk result (λ o. 0 < length o.leaves → IsUnwritten (A.view archive) (A.view o.disk)) }

        // A device call failed; or the archive has a bad frame, and this is the first one; or memory was refused.
        ensures cause { IfErr result (λ e. IsUnopened (A.view archive) e.0) }
        ensures failed_work { IfErr result (λ e. IsDeviceWork (A.view archive) (A.view e.1) (e.0 ≡ OldFault.DiskFault)) }
        ensures failed_moment { IfErr result (λ e. IsTrue (A.view archive).tells
            → Adds (A.view archive) (A.view e.1) (λ c. (A.view archive).may_leave c ⊎ (frames_of c.log ≡ frames_of (A.view archive).seen.log))) }
        ensures failed_store { IfErr result (λ e. LeavesStore (A.view archive) (A.view e.1)) }
        // Unless a device call failed nothing is written: the archive reads as before, and a crash leaves what it might have left.
        ensures refused { IfErr result (λ e. (e.0 ≡ OldFault.DiskFault) ⊎ ((A.view e.1).seen ≡ (A.view archive).seen)) }
        ensures refused_crash { IfErr result (λ e. (e.0 ≡ OldFault.DiskFault) ⊎ ((c : Image) → (A.view e.1).may_leave c → (A.view archive).may_leave c)) }
        ensures refused_moment { IfErr result (λ e. (e.0 ≡ OldFault.DiskFault) ⊎ Adds (A.view archive) (A.view e.1) (A.view archive).may_leave) }
    {
        let mut disk = archive;
        match prepare(alloc, &mut disk) {
            Ok((found, tail)) => Ok(Old {
                shelf: Shelf {
                    alloc,
                    disk,
                    stock: stock_of(alloc, found),
                    tail,
                },
            }),
            Err(fault) => Err((fault, disk)),
        }
    }

    /// Keeps a version of a file with its content, where it is above the file's last leaf: gathers its leaf, and once those that are
    /// gathered have 16 MiB writes them as one batch. The answer says whether it was above.
    pub fn keep(&mut self, node: Node, content: &[u8]) -> Result<bool, OldFault>
        requires pnode { 1 ≤ node.pnode }
        requires size { length content.now ≤ 2 ^ 28 }
        ensures moved { HasMoved A.view self.old self.new (with_version (gathering_of self.old) (record { node = node; bytes = content.now })) result }
        ensures answer { IfOk result (λ kept. kept ≡ is_above (all_leaves self.old) node) }
        ensures ends { IfOk result (EndsAfter (all_leaves self.old) (whole_end self.old) (record { node = node; bytes = content.now }) (whole_end self.new)) }
        // After a fault it leaves the disk alone until the archive is opened again.
        ensures broken { self.old.opened < (A.view self.old.disk).faults → result ≡ Err (OldFault.Broken self.old.opened (A.view self.old.disk).faults) }
        ensures unbroken { (A.view self.old.disk).faults ≤ self.old.opened → IfErr result (λ e. IsTrue (is_above (all_leaves self.old) node)
            × IsUnkept (all_leaves self.old) (whole_end self.old) (record { node = node; bytes = content.now }) e) }
    {
        self.shelf.keep(node, content)
    }

    /// Writes the leaves that are gathered, as one batch.
    pub fn settle(&mut self) -> Result<(), OldFault>
        ensures moved { HasMoved A.view self.old self.new (settled (gathering_of self.old)) result }
        ensures ends { OnOk result (self.new.end ≡ whole_end self.old) }
        ensures broken { self.old.opened < (A.view self.old.disk).faults → result ≡ Err (OldFault.Broken self.old.opened (A.view self.old.disk).faults) }
        ensures unbroken { (A.view self.old.disk).faults ≤ self.old.opened → IfErr result (λ e. (e ≡ OldFault.DiskFault) × (whole_end self.old < 2 ^ 39)) }
    {
        self.shelf.settle()
    }

    /// Answers for a disk that has had a fault since the opening.
    pub fn check(&self) -> Result<(), OldFault>
        ensures ok { OnOk result ((A.view self.now.disk).faults ≡ self.now.opened) }
        ensures err { IfErr result (λ e. (e ≡ OldFault.Broken self.now.opened (A.view self.now.disk).faults) × (self.now.opened < (A.view self.now.disk).faults)) }
        ensures leaves { LeavesThem (A.view self.now.disk) self.now.opened self.now.leaves self.now.end }
        ensures are { AreLeaves self.now.leaves }
        ensures since { (c : Image) → (A.view self.now.disk).left_since (A.view self.now.disk).calls c → (A.view self.now.disk).may_leave c }
    {
        let _calls = self.shelf.disk.calls();
        self.shelf.tail.check(&self.shelf.disk)
    }

    /// How many leaves there are, with those that are gathered.
    pub fn count(&self) -> u64
        ensures { result ≡ length (all_leaves self.now) }
    {
        self.shelf.stock.leaves.list().len() as u64
    }

    /// The whole content of a version that was kept.
    pub fn bytes_of(&self, node: Node) -> Result<Vec<u8>, OldFault>
        ensures bytes { IfOk result (λ v. content_of (all_leaves self.now) node ≡ Some v.items) }
        // Exactly where no leaf has the node.
        ensures none { IsErrOf result OldFault.NoVersion ↔ (content_of (all_leaves self.now) node ≡ None) }
        ensures fault { IfErr result (λ e. (e ≡ OldFault.NoVersion) ⊎ (e ≡ OldFault.NoMemory)) }
    {
        self.shelf.stock.leaves.bytes_of(self.shelf.alloc, node)
    }

    /// The disk.
    pub fn into_disk(self) -> A
        ensures disk { result ≡ self.disk }
        ensures leaves { LeavesThem (A.view self.disk) self.opened self.leaves self.end }
    {
        self.shelf.disk
    }
}

// Opens an archive's log area with what it holds.
fn prepare<D: Disk>(alloc: Global, disk: &mut D) -> Result<(Found, Tail), OldFault>
    ensures leaves { IfOk result (λ x. IsArchiveOn (D.view disk.old) x.0.leaves x.1.end) }
    ensures ends { IfOk result (λ x. EndsThere x.1 x.0.leaves (D.view disk.new)) }
    ensures opened { IfOk result (λ x. x.1.opened ≡ (D.view disk.new).faults) }
    ensures unwritten { IfOk result (λ x. 0 < length x.0.leaves → IsUnwritten (D.view disk.old) (D.view disk.new)) }
    ensures cause { IfErr result (IsUnopened (D.view disk.old)) }
    ensures any_moment { IsTrue (D.view disk.old).tells
        → Adds (D.view disk.old) (D.view disk.new) (λ c. (D.view disk.old).may_leave c ⊎ (frames_of c.log ≡ frames_of (D.view disk.old).seen.log)) }
    ensures store { LeavesStore (D.view disk.old) (D.view disk.new) }
    ensures work { IsDeviceWork (D.view disk.old) (D.view disk.new) (IsErrOf result OldFault.DiskFault) }
    ensures refused { IfErr result (λ e. (e ≡ OldFault.DiskFault) ⊎ ((D.view disk.new).seen ≡ (D.view disk.old).seen)) }
    ensures refused_crash { IfErr result (λ e. (e ≡ OldFault.DiskFault) ⊎ ((c : Image) → (D.view disk.new).may_leave c → (D.view disk.old).may_leave c)) }
    ensures refused_moment { IfErr result (λ e. (e ≡ OldFault.DiskFault) ⊎ Adds (D.view disk.old) (D.view disk.new) (D.view disk.old).may_leave) }
{
    let found = find(alloc, disk)?;
    let tail = open_tail(disk, &found)?;
    Ok((found, tail))
}

// The stock of what was found, all of which is on the disk.
fn stock_of(alloc: Global, found: Found) -> Stock
    requires are { AreLeaves found.leaves }
    ensures stocked { IsStock result }
    ensures leaves { result.leaves ≡ found.leaves }
    ensures written { result.written ≡ length found.leaves }
    ensures frames { result.frames.items ≡ [] }
{
    let written = found.leaves.list().len();
    Stock {
        leaves: found.leaves,
        contents: BTreeMap::new(alloc),
        written,
        frames: Vec::new(alloc),
    }
}
