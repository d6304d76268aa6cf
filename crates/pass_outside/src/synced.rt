//! Runs of two device calls, after which something is on the disk for good.
ghost use Rattle.std.specs.Prelude.{◌≡◌, ◌+◌, IsTrue, length, OnOk};
ghost use Rattle.pass_outside.specs.Areas.{Image, area_of, other, written, Torn, OnArea};
ghost use Rattle.pass_outside.specs.Moments.{IsAtEnd, IsDeviceRun, AfterStep, Follows};

use crate::{Area, Disk, Failed};

/// Writes to an area and syncs it. After Ok the bytes are there for good.
pub fn write_synced<D: Disk>(disk: &mut D, area: Area, at: u64, bytes: &[u8]) -> Result<(), Failed>
    ensures written { OnOk result (IsTrue (D.view disk.old).tells → area_of area (D.view disk.new).seen ≡ written (area_of area (D.view disk.old).seen) at bytes.now) }
    ensures durable { OnOk result ((c : Image) → (D.view disk.new).may_leave c → area_of area c ≡ area_of area (D.view disk.new).seen) }
    ensures elsewhere { IsTrue (D.view disk.old).tells → area_of (other area) (D.view disk.new).seen ≡ area_of (other area) (D.view disk.old).seen }
    ensures two { OnOk result ((D.view disk.new).calls ≡ (D.view disk.old).calls + 2) }
    ensures crash { Follows (OnArea area (Torn at (length bytes.now))) (D.view disk.old) (D.view disk.new) }
    ensures run { IsDeviceRun (D.view disk.old) (D.view disk.new) result (AfterStep (OnArea area (Torn at (length bytes.now))) (D.view disk.old)) }
    ensures stands { IsAtEnd (D.view disk.old) → disk.new ≡ disk.old }
{
    disk.write_at(area, at, bytes)?;
    disk.sync(area)
}

/// Syncs the log, then the store area. After Ok a crash leaves what a read gives.
pub fn sync_both<D: Disk>(disk: &mut D) -> Result<(), Failed>
    ensures durable { OnOk result ((c : Image) → (D.view disk.new).may_leave c → c ≡ (D.view disk.new).seen) }
    ensures content { OnOk result ((D.view disk.new).seen ≡ (D.view disk.old).seen) }
    ensures two { OnOk result ((D.view disk.new).calls ≡ (D.view disk.old).calls + 2) }
    ensures crash { (c : Image) → (D.view disk.new).may_leave c → (D.view disk.old).may_leave c }
    ensures run { IsDeviceRun (D.view disk.old) (D.view disk.new) result (D.view disk.old).may_leave }
    ensures stands { IsAtEnd (D.view disk.old) → disk.new ≡ disk.old }
{
    disk.sync(Area::Log)?;
    disk.sync(Area::Store)
}
