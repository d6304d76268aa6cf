//! What holds of runs over one disk, one after the other. Each function carries laws in its contract and does nothing.
ghost use Rattle.std.specs.Prelude.{ℕ, List, IsTrue, take};
ghost use Rattle.pass_entry.specs.declared.record.Record.{Record};
ghost use Rattle.pass_outside.specs.Areas.{Image};
ghost use Rattle.pass_range.specs.declared.range.Range.{Range};
ghost use Rattle.pass_book.specs.Numbers.{IsFileNumber};
ghost use Rattle.pass_run.specs.Stored.{IsKeptCall};
ghost use Rattle.pass_run.specs.Successive.{EndedRun, HasFollowed, IsReopened, IsReopenedSince, IsReopenedWhole, OverRun, story_of_over};

use pass_outside::Disk;

/// The next run opens what a run that came to its end has recorded, its files with the bytes that they had; and behind it a crash leaves the
/// records of both.
pub fn successive<D: Disk>()
    ensures { (first second third : D) (one : EndedRun D.view first second) (two : EndedRun D.view second third) → IsTrue (D.view second).tells → IsTrue (D.view third).tells
        → HasFollowed D.view first second third one two }
{}

/// What a store opens with that reads what a crash left of a run: behind one that came to its end, and since each sync of a file of which a
/// history tells. Which ranges it lists as unmatched is told by `pass_recover::recover`.
pub fn reopened<D: Disk>()
    ensures whole { (old new : D) (run : EndedRun D.view old new) → IsTrue (D.view new).tells → (c : Image) → (D.view new).may_leave c → (list : List Record) (unmatched : List Range)
        → IsReopened c list unmatched → IsReopenedWhole D.view old new run list unmatched }
    ensures since { (old new : D) (run : OverRun D.view old new) (p q number : ℕ) (call : IsKeptCall run.history p q)
        (numbered : IsFileNumber (story_of_over run).session (take p run.history) call.keep.what number) → IsTrue (D.view new).tells
        → (c : Image) → (D.view new).left_since (run.over.stored.synced p q number call numbered).sync.x.calls c → (list : List Record) (unmatched : List Range)
        → IsReopened c list unmatched → IsReopenedSince (story_of_over run) (run.over.stored.synced p q number call numbered).sync.x (record { pnode = call.keep.what; number = number }) list unmatched }
{}
