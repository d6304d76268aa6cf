//! The open log.
use crate::frame::stage;
use crate::{LogFault, LogImage};
use pass_entry::Record;
use pass_outside::{Area, Disk, write_synced};
use pass_record::{spelling_length, written_is_read};
use std::alloc::Global;

/// A log on its disk: it knows the place of the closed gate at its end, and the disk's count of faults at its opening.
#[derive(Clone, Copy, PartialEq, Eq, Drop)]
pub struct Log {
    end: u64,
    opened: u64,
}

impl Log {
    ghost use Rattle.std.specs.Prelude.{◌≡◌, ◌⊎◌, ◌+◌, ◌<◌, ◌≤◌, ◌^◌, ◌++◌, true, false, IsTrue, List, length, take, IsOk, OnOk, OnErr, IfOk, IfErr, IsErrOf, Err};
    ghost use Rattle.std.specs.List.{All};
    ghost use Rattle.pass_entry.specs.declared.record.Record.{Record};
    ghost use Rattle.pass_entry.specs.Ranges.{IsInRange};
    ghost use Rattle.pass_outside.specs.Areas.{Image};
    ghost use Rattle.pass_outside.specs.Moments.{IsAtEnd, Adds, IsDeviceWork};
    ghost use Rattle.pass_log.specs.Frames.{frames_of, with_frame};
    ghost use Rattle.pass_log.specs.Records.{image_of, spellings, frame_length, with_batch, IsOldOrBoth};
    ghost use Rattle.pass_log.specs.Log.{log_end, log_opened, IsSettled, IsStaged, IsFrameOf, batch_of, standing, IsBeforeOrAfter, IsOldOrMore, LeavesStore, append_calls};
    ghost use Rattle.pass_log.specs.LogImage.{IsRead};

    /// Opens a log of which that image was read, all of it on the disk and nothing written since. A log area of at
    /// most one byte gets a closed gate first.
    pub fn open<D: Disk>(disk: &mut D, image: &LogImage) -> Result<Log, LogFault>
        requires image { IsRead (D.view disk.old) image.now }
        requires synced { IsTrue (D.view disk.old).tells → (c : Image) → (D.view disk.old).may_leave c → c.log ≡ (D.view disk.old).seen.log }

        ensures settled { IfOk result (λ log. IsSettled log (D.view disk.new)) }
        ensures place { IfOk result (λ log. log_end log ≡ image.now.end) }
        ensures opened { IfOk result (λ log. log_opened log ≡ (D.view disk.new).faults) }
        ensures same { OnOk result (IsTrue (D.view disk.old).tells → image_of (D.view disk.new).seen.log ≡ image_of (D.view disk.old).seen.log) }
        // From then on each crash leaves what the log area reads.
        ensures durable { OnOk result (IsTrue (D.view disk.old).tells → (c : Image) → (D.view disk.new).may_leave c → c.log ≡ (D.view disk.new).seen.log) }
        // A crash at any moment leaves the image that was read.
        ensures any_moment { IsTrue (D.view disk.old).tells → Adds (D.view disk.old) (D.view disk.new) (λ c. image_of c.log ≡ image_of (D.view disk.old).seen.log) }
        ensures store { LeavesStore (D.view disk.old) (D.view disk.new) }
        ensures work { IsDeviceWork (D.view disk.old) (D.view disk.new) (IsErrOf result LogFault.DiskFault) }
        // The gate is a write and a sync; a log that has one makes no device call.
        ensures calls { OnOk result (image.now.short ≡ true → (D.view disk.new).calls ≡ (D.view disk.old).calls + 2) }
        ensures untouched { image.now.short ≡ false → disk.new ≡ disk.old }
        ensures opens { image.now.short ≡ false → IsOk result }
        ensures healthy { OnOk result ((D.view disk.new).faults ≡ (D.view disk.old).faults) }
        ensures failed { IfErr result (λ e. (e ≡ LogFault.DiskFault) × (((D.view disk.old).faults < (D.view disk.new).faults) ⊎ IsAtEnd (D.view disk.new))) }
        ensures stands { IsAtEnd (D.view disk.old) → disk.new ≡ disk.old }
    {
        if !image.short {
            return Ok(Log {
                end: image.end,
                opened: disk.faults(),
            });
        }
        write_synced(disk, Area::Log, 0, &[0])?;
        Ok(Log {
            end: image.end,
            opened: disk.faults(),
        })
    }

    /// The place of the closed gate at its end, in bytes.
    pub fn end(&self) -> u64
        ensures { result ≡ log_end self.now }
    {
        self.end
    }

    /// The disk's count of faults at its opening.
    pub fn opened(&self) -> u64
        ensures { result ≡ log_opened self.now }
    {
        self.opened
    }

    // Tells whether the disk had a fault since the opening.
    fn check<D: Disk>(&self, disk: &D) -> Result<(), LogFault>
        ensures ok { OnOk result ((D.view disk.now).faults ≤ self.now.opened) }
        ensures err { IfErr result (λ e. (e ≡ LogFault.Broken self.now.opened (D.view disk.now).faults) × (self.now.opened < (D.view disk.now).faults)) }
    {
        let now = disk.faults();
        if now > self.opened {
            return Err(LogFault::Broken {
                opened: self.opened,
                now,
            });
        }
        Ok(())
    }

    // Writes a frame behind the closed gate, and then opens the gate.
    fn write_frame<D: Disk>(&mut self, disk: &mut D, frame: &[u8]) -> Result<(), LogFault>
        requires settled { IsSettled self.old (D.view disk.old) }
        requires healthy { (D.view disk.old).faults ≤ self.old.opened }
        requires staged { IsStaged frame.now }
        requires room { self.old.end + length frame.now < 2 ^ 39 }

        ensures acknowledged { OnOk result (IsTrue (D.view disk.old).tells → (c : Image) → (D.view disk.new).may_leave c
            → frames_of c.log ≡ with_frame (batch_of frame.now) (frames_of (D.view disk.old).seen.log)) }
        ensures any_moment { IsTrue (D.view disk.old).tells → Adds (D.view disk.old) (D.view disk.new)
            (λ c. IsBeforeOrAfter frame.now self.old.end (D.view disk.old).seen.log c.log) }
        ensures store { LeavesStore (D.view disk.old) (D.view disk.new) }
        ensures reads { OnOk result (IsTrue (D.view disk.old).tells → frames_of (D.view disk.new).seen.log ≡ with_frame (batch_of frame.now) (frames_of (D.view disk.old).seen.log)) }
        ensures bytes { OnOk result (IsTrue (D.view disk.old).tells → take (self.old.end + length frame.now) (D.view disk.new).seen.log ≡ take self.old.end (D.view disk.old).seen.log ++ standing frame.now) }
        ensures durable { OnOk result (IsTrue (D.view disk.old).tells → (c : Image) → (D.view disk.new).may_leave c → c.log ≡ (D.view disk.new).seen.log) }
        ensures calls { OnOk result ((D.view disk.new).calls ≡ (D.view disk.old).calls + append_calls) }
        ensures healthy { OnOk result (((D.view disk.old).faults ≡ self.old.opened) × ((D.view disk.new).faults ≡ self.old.opened) × (IsAtEnd (D.view disk.old) → ⊥)) }
        ensures settled { IsSettled self.new (D.view disk.new) }
        ensures end { OnOk result (self.new ≡ record self.old { end = self.old.end + length frame.now }) }
        ensures err { OnErr result (self.new ≡ self.old) }
        ensures work { IsDeviceWork (D.view disk.old) (D.view disk.new) (IsErrOf result LogFault.DiskFault) }
        ensures failed { IfErr result (λ e. (e ≡ LogFault.DiskFault) × (((D.view disk.old).faults < (D.view disk.new).faults) ⊎ IsAtEnd (D.view disk.new))) }
        ensures stands { IsAtEnd (D.view disk.old) → disk.new ≡ disk.old }
    {
        write_synced(disk, Area::Log, self.end + 1, frame)?;
        write_synced(disk, Area::Log, self.end, &[1])?;
        self.end += frame.len() as u64;
        Ok(())
    }

    /// Appends a frame, given as the bytes that its first device call writes: four device calls, and no memory.
    pub fn append_frame<D: Disk>(&mut self, disk: &mut D, frame: &[u8]) -> Result<(), LogFault>
        requires settled { IsSettled self.old (D.view disk.old) }
        requires frame { (batch : List Record) × IsFrameOf batch frame.now }
        requires room { log_end self.old + length frame.now < 2 ^ 39 }

        // From then on each crash leaves the records from before, and the whole batch.
        ensures acknowledged { OnOk result ((batch : List Record) → IsFrameOf batch frame.now → IsTrue (D.view disk.old).tells → (c : Image) → (D.view disk.new).may_leave c
            → image_of c.log ≡ with_batch batch (image_of (D.view disk.old).seen.log)) }
        // A crash at any moment of the call leaves the records from before, or these and the whole batch.
        ensures any_moment { (batch : List Record) → IsFrameOf batch frame.now → IsTrue (D.view disk.old).tells
            → Adds (D.view disk.old) (D.view disk.new) (λ c. IsOldOrBoth batch (image_of (D.view disk.old).seen.log) (image_of c.log)) }
        ensures reads { OnOk result ((batch : List Record) → IsFrameOf batch frame.now → IsTrue (D.view disk.old).tells
            → image_of (D.view disk.new).seen.log ≡ with_batch batch (image_of (D.view disk.old).seen.log)) }
        // The log area has the bytes from before up to their end, and behind them the frame; and each crash leaves what it reads.
        ensures bytes { OnOk result (IsTrue (D.view disk.old).tells
            → take (log_end self.old + length frame.now) (D.view disk.new).seen.log ≡ take (log_end self.old) (D.view disk.old).seen.log ++ standing frame.now) }
        ensures durable { OnOk result (IsTrue (D.view disk.old).tells → (c : Image) → (D.view disk.new).may_leave c → c.log ≡ (D.view disk.new).seen.log) }
        // A crash at any moment leaves those bytes as they were, or with all of the frame.
        ensures frame_moment { (batch : List Record) → IsFrameOf batch frame.now → IsTrue (D.view disk.old).tells
            → Adds (D.view disk.old) (D.view disk.new) (λ c. IsOldOrMore batch frame.now (log_end self.old) (D.view disk.old).seen.log c.log) }
        ensures store { LeavesStore (D.view disk.old) (D.view disk.new) }
        ensures settled { IsSettled self.new (D.view disk.new) }
        ensures end { OnOk result (log_end self.new ≡ log_end self.old + length frame.now) }
        ensures opened { log_opened self.new ≡ log_opened self.old }
        ensures err { OnErr result (self.new ≡ self.old) }
        ensures calls { OnOk result ((D.view disk.new).calls ≡ (D.view disk.old).calls + append_calls) }
        ensures healthy { OnOk result (((D.view disk.old).faults ≡ log_opened self.old) × ((D.view disk.new).faults ≡ log_opened self.old) × (IsAtEnd (D.view disk.old) → ⊥)) }
        ensures work { IsDeviceWork (D.view disk.old) (D.view disk.new) (IsErrOf result LogFault.DiskFault) }
        // After a fault it leaves the disk alone until the log is opened again.
        ensures broken { log_opened self.old < (D.view disk.old).faults → (result ≡ Err (LogFault.Broken (log_opened self.old) (D.view disk.old).faults)) × (disk.new ≡ disk.old) }
        ensures unbroken { (D.view disk.old).faults ≤ log_opened self.old → IfErr result (λ e. (e ≡ LogFault.DiskFault) × (((D.view disk.old).faults < (D.view disk.new).faults) ⊎ IsAtEnd (D.view disk.new))) }
        ensures stands { IsAtEnd (D.view disk.old) → disk.new ≡ disk.old }
    {
        self.check(&*disk)?;
        written_is_read();
        spelling_length();
        self.write_frame(disk, frame)
    }

    /// Appends the records as one frame: four device calls. An empty batch makes none.
    pub fn append<D: Disk>(
        &mut self,
        alloc: Global,
        disk: &mut D,
        batch: &[Record],
    ) -> Result<(), LogFault>
        requires settled { IsSettled self.old (D.view disk.old) }
        requires in_range { All IsInRange batch.now }
        requires size { length (spellings batch.now) < 2 ^ 32 }
        requires room { log_end self.old + frame_length batch.now < 2 ^ 39 }

        // From then on each crash leaves the records from before, and the whole batch.
        ensures acknowledged { OnOk result (0 < length batch.now → IsTrue (D.view disk.old).tells → (c : Image) → (D.view disk.new).may_leave c
            → image_of c.log ≡ with_batch batch.now (image_of (D.view disk.old).seen.log)) }
        // A crash at any moment of the call leaves the records from before, or these and the whole batch.
        ensures any_moment { IsTrue (D.view disk.old).tells
            → Adds (D.view disk.old) (D.view disk.new) (λ c. IsOldOrBoth batch.now (image_of (D.view disk.old).seen.log) (image_of c.log)) }
        ensures reads { OnOk result (0 < length batch.now → IsTrue (D.view disk.old).tells
            → image_of (D.view disk.new).seen.log ≡ with_batch batch.now (image_of (D.view disk.old).seen.log)) }
        ensures store { LeavesStore (D.view disk.old) (D.view disk.new) }
        ensures settled { IsSettled self.new (D.view disk.new) }
        ensures none { length batch.now ≡ 0 → (disk.new ≡ disk.old) × (self.new ≡ self.old) }
        ensures end { OnOk result (0 < length batch.now → log_end self.new ≡ log_end self.old + frame_length batch.now) }
        ensures opened { log_opened self.new ≡ log_opened self.old }
        ensures err { OnErr result (self.new ≡ self.old) }
        ensures calls { OnOk result (0 < length batch.now → (D.view disk.new).calls ≡ (D.view disk.old).calls + append_calls) }
        ensures healthy { OnOk result (0 < length batch.now → ((D.view disk.old).faults ≡ log_opened self.old) × ((D.view disk.new).faults ≡ log_opened self.old) × (IsAtEnd (D.view disk.old) → ⊥)) }
        ensures work { IsDeviceWork (D.view disk.old) (D.view disk.new) (IsErrOf result LogFault.DiskFault) }
        // After a fault it leaves the disk alone until the log is opened again.
        ensures broken { log_opened self.old < (D.view disk.old).faults → (result ≡ Err (LogFault.Broken (log_opened self.old) (D.view disk.old).faults)) × (disk.new ≡ disk.old) }
        ensures unbroken { (D.view disk.old).faults ≤ log_opened self.old → IfErr result (λ e. ((e ≡ LogFault.DiskFault) × (((D.view disk.old).faults < (D.view disk.new).faults) ⊎ IsAtEnd (D.view disk.new))) ⊎ ((e ≡ LogFault.NoMemory) × (disk.new ≡ disk.old))) }
        ensures stands { IsAtEnd (D.view disk.old) → disk.new ≡ disk.old }
    {
        self.check(&*disk)?;
        if batch.is_empty() {
            return Ok(());
        }
        let frame = stage(alloc, batch)?;
        self.append_frame(disk, &frame)
    }
}
