//! Records that are appended to the log in parts, one frame for each.
ghost use Rattle.std.specs.Prelude.{◌≡◌, ◌⊎◌, ◌+◌, ◌*◌, ◌<◌, ◌≤◌, ◌^◌, ℕ, List, Vec, length, slice_get, Some, OnOk, OnErr, IfOk, IfErr};
ghost use Rattle.std.specs.List.{All};
ghost use Rattle.std.specs.declared.alloc.Global.{Global as AnyGlobal};
ghost use Rattle.pass_entry.specs.declared.record.Record.{Record as AnyRecord};
ghost use Rattle.pass_entry.specs.Ranges.{IsInRange};
ghost use Rattle.pass_outside.specs.Moments.{IsAtEnd};
ghost use Rattle.pass_log.specs.Log.{log_end, log_opened, IsSettled, IsFrameOf, LeavesStore};
ghost use Rattle.pass_log.specs.Records.{spellings};
ghost use Rattle.pass_keep.specs.Parts.{lists_of, frames_length, bytes_length, AreFrames, KeepsMore, KeepsStill};

use pass_entry::Record;
use pass_log::{Log, LogFault, stage};
use pass_outside::Disk;
use std::alloc::{AllocError, Global};

/// The bytes of a frame for each part.
pub fn stage_all(alloc: Global, parts: &[Vec<Record>]) -> Result<Vec<Vec<u8>>, AllocError>
    requires in_range { All (λ part. All IsInRange part.items) parts.now }
    requires size { All (λ part. length (spellings part.items) < 2 ^ 32) parts.now }
    ensures frames { IfOk result (λ frames. AreFrames (lists_of parts.now) frames.items) }
    ensures length { IfOk result (λ frames. bytes_length frames.items ≡ frames_length parts.now) }
{
    let mut frames = Vec::new(alloc);
    for part in parts {
        let Ok(frame) = stage(alloc, part) else {
            return Err(AllocError);
        };
        frames.push(frame)?;
    }
    Ok(frames)
}

/// Appends frames, four device calls each.
pub fn append_frames<D: Disk>(
    log: &mut Log,
    disk: &mut D,
    frames: &[Vec<u8>],
) -> Result<(), LogFault>
    requires settled { IsSettled log.old (D.view disk.old) }
    requires healthy { (D.view disk.old).faults ≤ log_opened log.old }
    requires frames { (i : ℕ) (frame : Vec ℕ AnyGlobal) → slice_get frames.now i ≡ Some frame → (batch : List AnyRecord) × IsFrameOf batch frame.items }
    requires room { log_end log.old + bytes_length frames.now < 2 ^ 39 }
    ensures kept { OnOk result (KeepsMore frames.now (D.view disk.old) log.old (D.view disk.new) log.new) }
    ensures err { OnErr result (KeepsStill frames.now (D.view disk.old) log.old (D.view disk.new) log.new) }
    ensures store { LeavesStore (D.view disk.old) (D.view disk.new) }
    ensures failed { IfErr result (λ e. (e ≡ LogFault.DiskFault) × (((D.view disk.old).faults < (D.view disk.new).faults) ⊎ IsAtEnd (D.view disk.new))) }
    ensures healthy { OnOk result ((D.view disk.new).faults ≡ (D.view disk.old).faults) }
    ensures opened { log_opened log.new ≡ log_opened log.old }
    ensures place { log_end log.new ≤ log_end log.old + bytes_length frames.now }
    ensures calls { OnOk result ((D.view disk.new).calls ≡ (D.view disk.old).calls + 4 * length frames.now) }
    ensures tells { (D.view disk.new).tells ≡ (D.view disk.old).tells }
    ensures rises { (D.view disk.old).faults ≤ (D.view disk.new).faults }
    ensures later { (D.view disk.old).calls ≤ (D.view disk.new).calls }
    ensures stands { IsAtEnd (D.view disk.old) → (disk.new ≡ disk.old) × (log.new ≡ log.old) }
{
    for frame in frames {
        log.append_frame(disk, frame)?;
        // The count marks the moment.
        let _calls = disk.calls();
    }
    Ok(())
}
