//! The last entry of a sync, or what stands where it is left.
ghost use Rattle.std.specs.Prelude.{◌≡◌, ◌<◌, ◌≤◌, ◌^◌, ℕ, List, Some, Ok, Err, false, length, max};
ghost use Rattle.std.specs.FinMap as finite_map;
ghost use mathlib.Core.List.{IsPrefix};
ghost use Rattle.pass_entry.specs.declared.entry.Entry.{Entry as AnyEntry};
ghost use Rattle.pass_plain.specs.declared.request.Request.TheVariants as requests;
ghost use Rattle.pass_plain.specs.Processes.{is_file};
ghost use Rattle.pass_book.specs.Syncs.{Backs};
ghost use Rattle.pass_hold.specs.Callings.{HasLooked, IsIdle};
ghost use Rattle.pass_answer.specs.Answers.{HasMoved};
ghost use Rattle.pass_answer.specs.declared.answer.Moved.TheVariants as moved;
ghost use Rattle.pass_safe.specs.Syncings.{HasKept, HasRisen, IsBacking, IsFileSaved, IsKeeping, IsSaved, end_of, kept_entry};
ghost use Rattle.pass_answer.specs.Syncs.{HasSynced};
ghost use Rattle.pass_answer.specs.Syncs.{SyncAnswers};

use crate::fault::SafeFault;
use crate::keeping::Keeping;
use crate::saving::Saved;
use pass_answer::{CallEnd, Moved};
use pass_book::Note;
use pass_entry::Descriptor;
use pass_file::FileDesk;
use pass_hold::{Caller, Shelf, Whose};
use pass_proc::{Proc, ProcessDesk};
use std::alloc::Global;

/// The last entry of a sync, where the caller has seen the sync.
fn kept_step<J: Whose>(
    alloc: Global,
    shelf: &mut Shelf<J>,
    caller: &mut Caller<J>,
    process: &mut ProcessDesk<J>,
    number: u64,
    fd: u8,
)
    requires who { caller.old.who ≡ process.old.who }
    requires kept { (before : List AnyEntry) × (what place : ℕ) × IsKeeping J.book.session process.old.who number before caller.old.seen fd what process.old.state place }
    requires backs { Backs J.book.session caller.old.seen (length caller.old.seen) caller.old.syncs (kept_entry process.old.who number fd) }
    ensures call { (before : List AnyEntry) (what place calls entries : ℕ) → IsKeeping J.book.session process.old.who number before caller.old.seen fd what process.old.state place → place < entries
        → HasMoved J.book.session process.old.who before caller.new.seen process.new.state (requests.Sync fd) (moved.Synced calls entries) }
    ensures idle { IsIdle J.book.session caller.new.seen process.new.who number process.new.state }
    ensures who { (process.new.who ≡ process.old.who) × (caller.new.who ≡ caller.old.who) }
    ensures own { caller.new.own ≡ caller.old.own }
    ensures grows { IsPrefix caller.old.syncs caller.new.syncs }
    ensures few { length caller.new.seen ≤ 2 ^ 32 }
{
    let _held = caller.held();
    process.kept(alloc, shelf, caller, number, fd);
}

/// A caller meets what the vault had seen, by which so many entries are durable. Their records are shed.
fn meet_told<J: Whose>(caller: &mut Caller<J>, shelf: &mut Shelf<J>, told: Note, entries: u64)
    requires book { told.book ≡ J.book }
    requires synced { (calls : ℕ) × HasSynced calls entries told.syncs }
    requires within { entries ≤ length told.seen }
    ensures who { (caller.new.who ≡ caller.old.who) × (caller.new.own ≡ caller.old.own) }
    ensures looked { HasLooked J.book.session caller.old.who caller.old.seen caller.new.seen }
    ensures told { IsPrefix told.seen caller.new.seen × IsPrefix told.syncs caller.new.syncs }
    ensures shelf { shelf.new ≡ record shelf.old { syncs = shelf.new.syncs; kept = max shelf.old.kept entries } }
{
    caller.meet(told);
    caller.look(shelf);
    shelf.shed(entries);
}

/// The last entry of a sync, whose caller meets what the vault had seen.
fn end_sync<J: Whose>(
    alloc: Global,
    shelf: &mut Shelf<J>,
    proc: &mut Proc<J>,
    keeping: &Keeping<J>,
    saved: Saved,
) -> Moved
    requires kept { (what : ℕ) × HasKept J.book.session keeping.now proc.old what × IsBacking J.book.session proc.old.who proc.old.state what saved }
    requires saved { (seen : List AnyEntry) × IsSaved J.book seen saved }
    requires above { keeping.now.place < saved.receipt.entries }
    ensures { SyncAnswers J.book.session J.places keeping.now.before proc.new keeping.now.fd (Ok result) }
{
    let moved = Moved::Synced {
        calls: saved.receipt.calls,
        entries: saved.receipt.entries,
    };
    let number = proc.number;
    let entries = saved.receipt.entries;
    meet_told(&mut proc.caller, shelf, saved.told, entries);
    kept_step(
        alloc,
        shelf,
        &mut proc.caller,
        &mut proc.process,
        number,
        keeping.fd,
    );
    moved
}

/// Makes the last entry of a sync of a file. It takes no memory.
pub fn kept<J: Whose>(
    alloc: Global,
    file: &FileDesk<J>,
    shelf: &mut Shelf<J>,
    proc: &mut Proc<J>,
    keeping: &Keeping<J>,
    saved: Saved,
) -> Moved
    requires kept { HasKept J.book.session keeping.now proc.old file.now.what }
    requires saved { IsSaved J.book file.now.seen saved }
    requires of_file { IsFileSaved file.now.what file.now.number saved }
    requires above { keeping.now.place < saved.receipt.entries }
    ensures { SyncAnswers J.book.session J.places keeping.now.before proc.new keeping.now.fd (Ok result) }
{
    let _ = file.number();
    end_sync(alloc, shelf, proc, keeping, saved)
}

/// Makes the last entry of a sync of a pipe or an app object. It takes no memory.
pub fn kept_entries<J: Whose>(
    alloc: Global,
    descriptor: &Descriptor,
    shelf: &mut Shelf<J>,
    proc: &mut Proc<J>,
    keeping: &Keeping<J>,
    saved: Saved,
) -> Moved
    requires kept { HasKept J.book.session keeping.now proc.old descriptor.now.pnode }
    requires descriptor { finite_map.get proc.old.state.descriptors keeping.now.fd ≡ Some descriptor.now }
    requires no_file { is_file descriptor.now ≡ false }
    requires saved { (seen : List AnyEntry) × IsSaved J.book seen saved }
    requires above { keeping.now.place < saved.receipt.entries }
    ensures { SyncAnswers J.book.session J.places keeping.now.before proc.new keeping.now.fd (Ok result) }
{
    let _ = descriptor;
    end_sync(alloc, shelf, proc, keeping, saved)
}

#[tactic(auto, using(crate::proofs::Ends::kept_left))]
/// The answer of a sync that the vault gave none: its first entry stands, and nothing else.
pub fn left<J: Whose>(proc: &Proc<J>, keeping: &Keeping<J>, fault: SafeFault) -> CallEnd
    requires kept { (what : ℕ) × HasKept J.book.session keeping.now proc.now what }
    requires risen { HasRisen fault }
    ensures call { SyncAnswers J.book.session J.places keeping.now.before proc.now keeping.now.fd (Err result) }
    ensures cause { result ≡ end_of fault }
{
    let _ = proc;
    let _ = keeping;
    match fault {
        SafeFault::DiskFault { opened, now } => CallEnd::DiskFault { opened, now },
        SafeFault::NoMemory => CallEnd::NoMemory,
    }
}
