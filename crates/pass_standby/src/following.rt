//! A standby that goes on.
ghost use Rattle.std.specs.Prelude.{◌≡◌, ◌⊎◌, ◌+◌, ◌<◌, ◌≤◌, ◌^◌, ◌++◌, ◌∷◌, [], ℕ, List, None, length, take, drop, IsTrue, IfOk, OnOk, OnErr, IfErr, IsErrOf};
ghost use Rattle.pass_entry.specs.declared.record.Record.{Record as AnyRecord};
ghost use Rattle.pass_graph.specs.Logged.{Summarizes};
ghost use Rattle.pass_outside.specs.Areas.{Image};
ghost use Rattle.pass_outside.specs.Moments.{Adds, IsDeviceWork};
ghost use Rattle.pass_log.specs.Log.{log_end, log_opened, standing, IsOldOrMore, IsSettled, IsFrameOf, LeavesStore};
ghost use Rattle.pass_log.specs.Records.{image_of, with_batch};
ghost use Rattle.pass_standby.specs.declared.frame.Judgement.TheVariants as judgements;
ghost use Rattle.pass_standby.specs.Logs.{IsBatch};
ghost use Rattle.pass_standby.specs.Streams.{head, batch_in, judgement, judged, followed, bytes_as, bytes_with, IsWhole, IsSpelled, HasFrames, HasSomeFrames};
ghost use Rattle.pass_standby.specs.Standing.{told_so_far, staged_of, log_to, Reads, IsFollowing, HasBegun, Undone, Ends};

use crate::StandbyFault;
use crate::batch::{BatchFault, read_batch};
use crate::frame::{HEAD, Judgement, gather, judge};
use pass_entry::Record;
use pass_graph::Logged;
use pass_log::Log;
use pass_outside::Disk;
use pass_waldo::Index;
use std::alloc::{AllocError, Global};

/// The disk with its log, the index of the log's records, tables by which the next records are judged before they reach the
/// disk, and the bytes of the frame that has begun.
#[derive(Drop)]
pub(crate) struct Following<D> {
    pub(crate) alloc: Global,
    pub(crate) disk: D,
    pub(crate) log: Log,
    pub(crate) index: Index,
    pub(crate) judge: Logged,
    pub(crate) begun: Vec<u8>,
}

// Takes records into an index, behind whose records they have no flaw.
fn index_all(index: &mut Index, batch: &[Record]) -> Result<(), AllocError>
    ensures ok { OnOk result (index.new ≡ index.old ++ batch.now) }
    ensures err { OnErr result ((lacks : List AnyRecord) × (index.new ++ lacks ≡ index.old ++ batch.now)) }
    ensures least { length index.old ≤ length index.new }
{
    for one in batch {
        if let Err(_refused) = index.add(one) {
            return Err(AllocError);
        }
    }
    Ok(())
}

// The records of a whole frame at that place, judged by the tables.
fn read_whole(
    alloc: Global,
    judge: &mut Logged,
    frame: &[u8],
    at: u64,
) -> Result<Vec<Record>, StandbyFault>
    requires { head ≤ length frame.now }
    ensures batch { IfOk result (λ batch. (before : List AnyRecord) → Summarizes judge.old before → IsBatch before (drop head frame.now) [] batch.items judge.new) }
    ensures fault { IfErr result (λ e. (e ≡ StandbyFault.NoMemory)
        ⊎ ((e ≡ StandbyFault.BadStream at) × ((before : List AnyRecord) → Summarizes judge.old before → batch_in before (drop head frame.now) ≡ None))) }
{
    let mut batch = Vec::new(alloc);
    match read_batch(alloc, judge, &frame[HEAD..], &mut batch) {
        Ok(()) => Ok(batch),
        Err(BatchFault::Bad) => Err(StandbyFault::BadStream { at }),
        Err(BatchFault::NoMemory) => Err(StandbyFault::NoMemory),
    }
}

impl<D: Disk> Following<D> {
    // Appends the whole frame that has come to the log. What comes first of it is its gate, which the log opens last.
    fn append(&mut self) -> Result<(), StandbyFault>
        requires settled { IsSettled self.old.log (D.view self.old.disk) }
        requires healthy { (D.view self.old.disk).faults ≡ log_opened self.old.log }
        requires some { 0 < length self.old.begun.items }
        requires frame { (batch : List AnyRecord) × IsFrameOf batch (staged_of self.old.begun.items) }
        requires room { log_end self.old.log + length self.old.begun.items < 2 ^ 39 }
        ensures leaves { OnOk result ((batch : List AnyRecord) → IsFrameOf batch (staged_of self.old.begun.items) → IsTrue (D.view self.old.disk).tells
            → (c : Image) → (D.view self.new.disk).may_leave c → image_of c.log ≡ with_batch batch (image_of (D.view self.old.disk).seen.log)) }
        ensures bytes { OnOk result (IsTrue (D.view self.old.disk).tells
            → log_to (D.view self.new.disk) (log_end self.old.log + length (staged_of self.old.begun.items)) ≡ log_to (D.view self.old.disk) (log_end self.old.log) ++ standing (staged_of self.old.begun.items)) }
        ensures durable { OnOk result (IsTrue (D.view self.old.disk).tells → (c : Image) → (D.view self.new.disk).may_leave c → c.log ≡ (D.view self.new.disk).seen.log) }
        ensures reads { OnOk result ((batch : List AnyRecord) → IsFrameOf batch (staged_of self.old.begun.items) → IsTrue (D.view self.old.disk).tells
            → image_of (D.view self.new.disk).seen.log ≡ with_batch batch (image_of (D.view self.old.disk).seen.log)) }
        ensures any_moment { (batch : List AnyRecord) → IsFrameOf batch (staged_of self.old.begun.items) → IsTrue (D.view self.old.disk).tells
            → Adds (D.view self.old.disk) (D.view self.new.disk) (λ c. IsOldOrMore batch (staged_of self.old.begun.items) (log_end self.old.log) (D.view self.old.disk).seen.log c.log) }
        ensures store { LeavesStore (D.view self.old.disk) (D.view self.new.disk) }
        ensures work { IsDeviceWork (D.view self.old.disk) (D.view self.new.disk) (IsErrOf result StandbyFault.DiskFault) }
        ensures settled { IsSettled self.new.log (D.view self.new.disk) }
        ensures healthy { OnOk result ((D.view self.new.disk).faults ≡ log_opened self.new.log) }
        ensures end { OnOk result (log_end self.new.log ≡ log_end self.old.log + length self.old.begun.items) }
        ensures same_end { OnErr result (log_end self.new.log ≡ log_end self.old.log) }
        ensures begun { OnOk result (self.new.begun.items ≡ []) }
        ensures index { self.new.index ≡ self.old.index }
        ensures judge { self.new.judge ≡ self.old.judge }
        ensures fault { IfErr result (λ e. (e ≡ StandbyFault.DiskFault) ⊎ (e ≡ StandbyFault.NoMemory)) }
    {
        self.begun.push(0)?;
        if let Err(_failed) = self.log.append_frame(&mut self.disk, &self.begun[1..]) {
            return Err(StandbyFault::DiskFault);
        }
        self.begun.clear();
        Ok(())
    }

    // Keeps the whole frame that has come, on the disk and then in the index.
    fn keep(&mut self) -> Result<(), StandbyFault>
        requires following { IsFollowing D.view self.old }
        requires whole { IsWhole (log_end self.old.log) self.old.begun.items }
        requires spelled { IsSpelled self.old.begun.items }
        ensures told { OnOk result (told_so_far self.new ≡ judged (told_so_far self.old) self.old.begun.items judgements.Whole) }
        ensures following { OnOk result (IsFollowing D.view self.new) }
        ensures begun { OnOk result (self.new.begun.items ≡ []) }
        ensures bytes { OnOk result (Reads (D.view self.new.disk) (log_end self.new.log) (bytes_as (log_to (D.view self.old.disk) (log_end self.old.log)) (told_so_far self.old) self.old.begun.items
            (judged (told_so_far self.old) self.old.begun.items judgements.Whole))) }
        ensures err { IfErr result (Undone D.view (log_to (D.view self.old.disk) (log_end self.old.log)) (told_so_far self.old) self.old.begun.items
            (judged (told_so_far self.old) self.old.begun.items judgements.Whole) self.new) }
        ensures any_moment { IsTrue (D.view self.old.disk).tells → Adds (D.view self.old.disk) (D.view self.new.disk)
            (λ c. HasFrames (told_so_far self.old) (log_to (D.view self.old.disk) (log_end self.old.log)) c.log
            ⊎ HasFrames (judged (told_so_far self.old) self.old.begun.items judgements.Whole) (bytes_as (log_to (D.view self.old.disk) (log_end self.old.log)) (told_so_far self.old) self.old.begun.items
            (judged (told_so_far self.old) self.old.begun.items judgements.Whole)) c.log) }
        ensures store { LeavesStore (D.view self.old.disk) (D.view self.new.disk) }
        ensures work { IsDeviceWork (D.view self.old.disk) (D.view self.new.disk) (IsErrOf result StandbyFault.DiskFault) }
    {
        let at = self.log.end();
        // The count marks the moment.
        let _calls = self.disk.calls();
        let batch = match read_whole(self.alloc, &mut self.judge, &self.begun, at) {
            Ok(batch) => batch,
            Err(fault) => return Err(fault),
        };
        if let Err(fault) = self.append() {
            return Err(fault);
        }
        if let Err(_refused) = index_all(&mut self.index, &batch) {
            return Err(StandbyFault::NoMemory);
        }
        Ok(())
    }

    // Judges what has come of the frame, and keeps it where it is whole.
    fn settle(&mut self) -> Result<(), StandbyFault>
        requires following { IsFollowing D.view self.old }
        requires some { 1 ≤ length self.old.begun.items }
        requires whole { judgement (log_end self.old.log) self.old.begun.items ≡ judgements.Whole → IsWhole (log_end self.old.log) self.old.begun.items }
        ensures told { OnOk result (told_so_far self.new ≡ judged (told_so_far self.old) self.old.begun.items (judgement (log_end self.old.log) self.old.begun.items)) }
        ensures following { OnOk result (IsFollowing D.view self.new) }
        ensures begun { OnOk result (HasBegun self.new) }
        ensures bytes { OnOk result (Reads (D.view self.new.disk) (log_end self.new.log) (bytes_as (log_to (D.view self.old.disk) (log_end self.old.log)) (told_so_far self.old) self.old.begun.items
            (judged (told_so_far self.old) self.old.begun.items (judgement (log_end self.old.log) self.old.begun.items)))) }
        ensures err { IfErr result (Undone D.view (log_to (D.view self.old.disk) (log_end self.old.log)) (told_so_far self.old) self.old.begun.items
            (judged (told_so_far self.old) self.old.begun.items (judgement (log_end self.old.log) self.old.begun.items)) self.new) }
        ensures any_moment { IsTrue (D.view self.old.disk).tells → Adds (D.view self.old.disk) (D.view self.new.disk)
            (λ c. HasFrames (told_so_far self.old) (log_to (D.view self.old.disk) (log_end self.old.log)) c.log
            ⊎ HasFrames (judged (told_so_far self.old) self.old.begun.items (judgement (log_end self.old.log) self.old.begun.items))
            (bytes_as (log_to (D.view self.old.disk) (log_end self.old.log)) (told_so_far self.old) self.old.begun.items
            (judged (told_so_far self.old) self.old.begun.items (judgement (log_end self.old.log) self.old.begun.items))) c.log) }
        ensures store { LeavesStore (D.view self.old.disk) (D.view self.new.disk) }
        ensures work { IsDeviceWork (D.view self.old.disk) (D.view self.new.disk) (IsErrOf result StandbyFault.DiskFault) }
    {
        let at = self.log.end();
        match judge(at, &self.begun) {
            Judgement::Begun => Ok(()),
            Judgement::Bad => Err(StandbyFault::BadStream { at }),
            Judgement::Whole => self.keep(),
        }
    }

    // Takes bytes off the front of a piece, up to where the frame that has begun is judged next. Their number is the answer.
    fn take(&mut self, piece: &[u8]) -> Result<usize, StandbyFault>
        requires following { IsFollowing D.view self.old }
        requires begun { HasBegun self.old }
        requires some { 0 < length piece.now }
        ensures within { IfOk result (λ used. (0 < used) × (used ≤ length piece.now)) }
        ensures told { IfOk result (λ used. told_so_far self.new ≡ followed (told_so_far self.old) (take used piece.now)) }
        ensures bytes { IfOk result (λ used. Reads (D.view self.new.disk) (log_end self.new.log) (bytes_with (log_to (D.view self.old.disk) (log_end self.old.log)) (told_so_far self.old) (take used piece.now))) }
        ensures following { OnOk result (IsFollowing D.view self.new) }
        ensures begun { OnOk result (HasBegun self.new) }
        ensures err { IfErr result (Ends D.view (log_to (D.view self.old.disk) (log_end self.old.log)) (told_so_far self.old) piece.now self.new) }
        ensures any_moment { IsTrue (D.view self.old.disk).tells → Adds (D.view self.old.disk) (D.view self.new.disk)
            (λ c. HasSomeFrames (log_to (D.view self.old.disk) (log_end self.old.log)) (told_so_far self.old) piece.now c.log) }
        ensures store { LeavesStore (D.view self.old.disk) (D.view self.new.disk) }
        ensures work { IsDeviceWork (D.view self.old.disk) (D.view self.new.disk) (IsErrOf result StandbyFault.DiskFault) }
    {
        let Ok(used) = gather(&mut self.begun, piece) else {
            return Err(StandbyFault::NoMemory);
        };
        if let Err(fault) = self.settle() {
            return Err(fault);
        }
        Ok(used)
    }

    /// Takes a piece of the stream.
    pub(crate) fn feed(&mut self, piece: &[u8]) -> Result<(), StandbyFault>
        requires following { IsFollowing D.view self.old }
        requires begun { HasBegun self.old }
        ensures told { OnOk result (told_so_far self.new ≡ followed (told_so_far self.old) piece.now) }
        ensures bytes { OnOk result (Reads (D.view self.new.disk) (log_end self.new.log) (bytes_with (log_to (D.view self.old.disk) (log_end self.old.log)) (told_so_far self.old) piece.now)) }
        ensures following { OnOk result (IsFollowing D.view self.new) }
        ensures begun { OnOk result (HasBegun self.new) }
        ensures err { IfErr result (Ends D.view (log_to (D.view self.old.disk) (log_end self.old.log)) (told_so_far self.old) piece.now self.new) }
        ensures any_moment { IsTrue (D.view self.old.disk).tells → Adds (D.view self.old.disk) (D.view self.new.disk)
            (λ c. HasSomeFrames (log_to (D.view self.old.disk) (log_end self.old.log)) (told_so_far self.old) piece.now c.log) }
        ensures store { LeavesStore (D.view self.old.disk) (D.view self.new.disk) }
        ensures work { IsDeviceWork (D.view self.old.disk) (D.view self.new.disk) (IsErrOf result StandbyFault.DiskFault) }
    {
        let mut rest = piece;
        while !rest.is_empty() {
            match self.take(rest) {
                Ok(used) => rest = &rest[used..],
                Err(fault) => return Err(fault),
            }
        }
        Ok(())
    }
}
