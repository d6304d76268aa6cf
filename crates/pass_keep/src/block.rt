//! Blocks of files that are written.
ghost use Rattle.std.specs.Prelude.{◌≡◌, ◌+◌, IsTrue, OnOk, length};
ghost use Rattle.pass_outside.specs.Areas.{Image};
ghost use Rattle.pass_outside.specs.Moments.{IsAtEnd, IsDeviceRun, AfterStep, Follows};
ghost use Rattle.pass_keep.specs.Dirty.{IsAscending, AreSized, AreHeld, Beside};

use pass_outside::{Area, Disk, Failed};
use pass_range::write_range;

/// A block of the file of that number, with the bytes of its range.
#[derive(Clone, Copy)]
pub struct Block<'a> {
    pub number: u32,
    pub block: u32,
    pub bytes: &'a [u8],
}

/// Writes blocks to the store area, one device call each, and syncs it.
pub fn write_blocks<D: Disk>(disk: &mut D, blocks: &[Block<'_>]) -> Result<(), Failed>
    requires ascending { IsAscending blocks.now }
    requires sized { AreSized blocks.now }
    ensures held { OnOk result (IsTrue (D.view disk.old).tells → (c : Image) → (D.view disk.new).may_leave c → AreHeld blocks.now (length blocks.now) c.store) }
    ensures seen { OnOk result (IsTrue (D.view disk.old).tells → Beside blocks.now (D.view disk.old).seen (D.view disk.new).seen) }
    ensures durable { OnOk result ((c : Image) → (D.view disk.new).may_leave c → c.store ≡ (D.view disk.new).seen.store) }
    ensures beside { Follows (Beside blocks.now) (D.view disk.old) (D.view disk.new) }
    ensures run { IsDeviceRun (D.view disk.old) (D.view disk.new) result (AfterStep (Beside blocks.now) (D.view disk.old)) }
    ensures log { IsTrue (D.view disk.old).tells → (D.view disk.new).seen.log ≡ (D.view disk.old).seen.log }
    ensures calls { OnOk result ((D.view disk.new).calls ≡ (D.view disk.old).calls + length blocks.now + 1) }
    ensures stands { IsAtEnd (D.view disk.old) → disk.new ≡ disk.old }
{
    for one in blocks {
        write_range(disk, one.number, one.block, one.bytes)?;
    }
    disk.sync(Area::Store)
}
