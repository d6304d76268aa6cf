//! A session begins on a disk.
ghost use Rattle.std.specs.Prelude.{◌≡◌, ◌⊎◌, ◌+◌, ◌<◌, ◌≤◌, ◌^◌, [], IsTrue, OnOk, IfOk, IfErr};
ghost use Rattle.std.specs.List.{All};
ghost use Rattle.pass_entry.specs.Ranges.{IsInRange};
ghost use Rattle.pass_outside.specs.Areas.{Image};
ghost use Rattle.pass_outside.specs.Moments.{IsAtEnd};
ghost use Rattle.pass_log.specs.Log.{log_end, log_opened};
ghost use Rattle.pass_log.specs.LogImage.{IsRead};
ghost use Rattle.pass_log.specs.Records.{frame_length};
ghost use Rattle.pass_plain.specs.Ceilings.{ceilings_between};
ghost use Rattle.pass_plain.specs.WellLogged.{ceiling_of};
ghost use Rattle.pass_keep.specs.Kept.{Story, IsUnwritten, IsBegun, IsKept, ceilings_length};

use pass_entry::Record;
use pass_log::{Log, LogFault, LogImage};
use pass_outside::Disk;
use std::alloc::Global;

/// Opens the log of which that image was read, and appends the records that raise its ceiling for a session.
pub fn begin<D: Disk>(
    alloc: Global,
    disk: &mut D,
    image: &LogImage,
    ceilings: &[Record],
) -> Result<Log, LogFault>
    ghost story: { Story }
    requires before { story.before ≡ image.now.list.items }
    requires ceilings { ceilings.now ≡ ceilings_between (ceiling_of story.before) story.ceiling }
    requires in_range { All IsInRange ceilings.now }
    requires image { IsRead (D.view disk.old) image.now }
    requires start { story.start ≤ (D.view disk.old).calls }
    requires since { IsUnwritten story (D.view disk.old) }
    requires room { image.now.end ≤ 2 ^ 38 }
    requires size { frame_length ceilings.now ≤ ceilings_length }
    ensures kept { IfOk result (λ log. IsKept story (D.view disk.new) log 0 []) }
    ensures begun { IsBegun story (D.view disk.new) }
    ensures failed { IfErr result (λ e. ((e ≡ LogFault.DiskFault) × (((D.view disk.old).faults < (D.view disk.new).faults) ⊎ IsAtEnd (D.view disk.new))) ⊎ (e ≡ LogFault.NoMemory)) }
    ensures healthy { OnOk result ((D.view disk.new).faults ≡ (D.view disk.old).faults) }
    ensures place { IfOk result (λ log. log_end log ≡ image.now.end + frame_length ceilings.now) }
    ensures opened { IfOk result (λ log. log_opened log ≡ (D.view disk.new).faults) }
    ensures tells { (D.view disk.new).tells ≡ (D.view disk.old).tells }
    ensures rises { (D.view disk.old).faults ≤ (D.view disk.new).faults }
    ensures later { (D.view disk.old).calls ≤ (D.view disk.new).calls }
    ensures stands { IsAtEnd (D.view disk.old) → disk.new ≡ disk.old }
{
    let mut log = Log::open(disk, image)?;
    log.append(alloc, disk, ceilings)?;
    // The count marks the moment.
    let _calls = disk.calls();
    Ok(log)
}
