//! The end of an archive on its disk, where frames are appended.
ghost use Rattle.std.specs.Prelude.{List, ◌++◌, ◌≡◌, ◌⊎◌, ◌+◌, ◌<◌, ◌≤◌, ◌^◌, IsTrue, length, OnOk, OnErr, IfOk, IfErr, IsErrOf};
ghost use Rattle.pass_outside.specs.Areas.{Image};
ghost use Rattle.pass_outside.specs.Moments.{IsAtEnd, Adds, IsDeviceWork};
ghost use Rattle.pass_log.specs.Frames.{frames_of};
ghost use Rattle.pass_log.specs.Log.{LeavesStore};
ghost use Rattle.pass_leaf.specs.Leaves.{Leaf as AnyLeaf};
ghost use Rattle.pass_leaf.specs.Contents.{AreLeaves};
ghost use Rattle.pass_leaf.specs.Reads.{IsFoundOn, EndsThere, IsBatch};
ghost use Rattle.pass_leaf.specs.Open.{HasAppended};

use crate::OldFault;
use crate::walk::{Found, OPEN};
use pass_outside::{Area, Disk, write_synced};

/// The place of the closed gate at the end, and the disk's count of faults at the opening.
#[derive(Clone, Copy)]
pub(crate) struct Tail {
    pub(crate) end: u64,
    pub(crate) opened: u64,
}

/// The end of an archive that was found on a disk, all of it there for good. An area of at most one byte gets a closed gate first.
pub(crate) fn open_tail<D: Disk>(disk: &mut D, found: &Found) -> Result<Tail, OldFault>
    requires found { IsFoundOn (D.view disk.old) found.now }
    requires synced { (c : Image) → (D.view disk.old).may_leave c → c.log ≡ (D.view disk.old).seen.log }
    ensures ends { IfOk result (λ tail. EndsThere tail found.now.leaves (D.view disk.new)) }
    ensures place { IfOk result (λ tail. tail.end ≡ found.now.end) }
    ensures opened { IfOk result (λ tail. tail.opened ≡ (D.view disk.new).faults) }
    ensures any_moment { IsTrue (D.view disk.old).tells → Adds (D.view disk.old) (D.view disk.new) (λ c. frames_of c.log ≡ frames_of (D.view disk.old).seen.log) }
    ensures alone { IsTrue found.now.short ⊎ (disk.new ≡ disk.old) }
    ensures store { LeavesStore (D.view disk.old) (D.view disk.new) }
    ensures fault { IfErr result (λ e. e ≡ OldFault.DiskFault) }
    ensures work { IsDeviceWork (D.view disk.old) (D.view disk.new) (IsErrOf result OldFault.DiskFault) }
{
    if !found.short {
        return Ok(Tail {
            end: found.end,
            opened: disk.faults(),
        });
    }
    write_synced(disk, Area::Log, 0, &[0])?;
    Ok(Tail {
        end: found.end,
        opened: disk.faults(),
    })
}

impl Tail {
    /// Tells whether the disk had a fault since the opening.
    pub(crate) fn check<D: Disk>(&self, disk: &D) -> Result<(), OldFault>
        ensures ok { OnOk result ((D.view disk.now).faults ≤ self.now.opened) }
        ensures err { IfErr result (λ e. (e ≡ OldFault.Broken self.now.opened (D.view disk.now).faults) × (self.now.opened < (D.view disk.now).faults)) }
    {
        let now = disk.faults();
        if now > self.opened {
            return Err(OldFault::Broken {
                opened: self.opened,
                now,
            });
        }
        Ok(())
    }

    /// Appends the frames of a batch, given as the bytes that its first device call writes: behind the closed gate, which then opens.
    pub(crate) fn append<D: Disk>(&mut self, disk: &mut D, frames: &[u8]) -> Result<(), OldFault>
        requires healthy { (D.view disk.old).faults ≤ self.old.opened }
        requires room { self.old.end + length frames.now < 2 ^ 39 }
        ensures appended { (leaves gathered : List AnyLeaf) → EndsThere self.old leaves (D.view disk.old) → IsBatch frames.now gathered → AreLeaves (leaves ++ gathered)
            → HasAppended (D.view disk.old) (D.view disk.new) self.old self.new leaves gathered result }
        ensures store { LeavesStore (D.view disk.old) (D.view disk.new) }
        ensures end { OnOk result (self.new.end ≡ self.old.end + length frames.now) }
        ensures opened { self.new.opened ≡ self.old.opened }
        ensures err { OnErr result (self.new ≡ self.old) }
        ensures work { IsDeviceWork (D.view disk.old) (D.view disk.new) (IsErrOf result OldFault.DiskFault) }
        ensures fault { IfErr result (λ e. e ≡ OldFault.DiskFault) }
        ensures four { OnOk result ((D.view disk.new).calls ≡ (D.view disk.old).calls + 4) }
        ensures since { OnOk result ((c : Image) → (D.view disk.new).left_since (D.view disk.new).calls c → (D.view disk.new).may_leave c) }
    {
        if let Err(_failed) = write_synced(disk, Area::Log, self.end + 1, frames) {
            return Err(OldFault::DiskFault);
        }
        if let Err(_failed) = write_synced(disk, Area::Log, self.end, &[OPEN]) {
            return Err(OldFault::DiskFault);
        }
        // What a crash since now may leave is what one now may.
        let _calls = disk.calls();
        self.end += frames.len() as u64;
        Ok(())
    }
}
