//! What a sync makes durable, under the vault's lock.
ghost use Rattle.std.specs.Prelude.{◌≡◌, ◌⊎◌, ◌+◌, ◌<◌, ◌≤◌, ◌↔◌, ℕ, List, None, Err, true, IfOk, IfErr, OnOk, OnErr, length};
ghost use mathlib.Core.List.{IsPrefix};
ghost use Rattle.pass_entry.specs.declared.entry.Entry.{Entry as AnyEntry};
ghost use Rattle.pass_book.specs.Syncs.{called, durable};
ghost use Rattle.pass_hold.specs.Callings.{HasLooked};
ghost use Rattle.pass_vault.specs.Vaulted.{real_syncs};
ghost use Rattle.pass_safe.specs.Commits.{HasCommitted, HasFlushed, HasNotFlushed, HasStopped, flushed_to, saved_to, unsaved_to};
ghost use Rattle.pass_safe.specs.Safes.{IsFaultSince, IsLostBy, Leaves};
ghost use Rattle.pass_safe.specs.Settled.{IsClean};
ghost use Rattle.pass_safe.specs.Syncings.{HasKept, HasRisen, IsCopy, IsFileSaved, IsSaved, KeepingView};
ghost use Rattle.pass_safe.specs.declared.fault.SafeFault.TheVariants.{NoMemory};

use crate::fault::SafeFault;
use crate::ground::Opening;
use crate::keeping::Keeping;
use crate::safe::Safe;
use pass_book::Note;
use pass_entry::Record;
use pass_file::FileDesk;
use pass_hold::{Shelf, Whose};
use pass_outside::Disk;
use pass_proc::Proc;
use pass_registry::RegistryDesk;
use pass_vault::Receipt;
use std::alloc::{AllocError, Global};

/// The records of the entries that are not durable, in parts for the log, and what the book had.
#[derive(Drop)]
pub(crate) struct Copied {
    pub(crate) parts: Vec<Vec<Record>>,
    pub(crate) note: Note,
}

/// What the vault has come to, and what it had seen then.
#[derive(Drop)]
pub struct Saved {
    pub receipt: Receipt,
    pub told: Note,
}

/// The first entry of a sync is durable by the work of another one: nothing has to be copied.
pub(crate) fn is_durable<J: Opening, D: Disk>(safe: &Safe<J, D>, keeping: &Keeping<J>) -> bool
    ensures { (result ≡ true) ↔ (keeping.now.place < durable safe.now.vault.syncs) }
{
    keeping.place < safe.durable()
}

/// Vault and book meet: no record of an entry was shed that is not durable.
fn meet_list<J: Opening, D: Disk>(safe: &mut Safe<J, D>, shelf: &mut Shelf<J>)
    ensures safe { safe.new ≡ safe.old }
    ensures shelf { shelf.new ≡ shelf.old }
    ensures kept { shelf.old.kept ≤ durable safe.old.vault.syncs }
{
    let list = shelf.list();
    safe.meet(list);
}

/// Copies what is not durable, in one hold of the book. The file sees the whole history.
pub(crate) fn copy<J: Opening, D: Disk>(
    safe: &mut Safe<J, D>,
    file: &mut FileDesk<J>,
    shelf: &mut Shelf<J>,
) -> Result<Copied, AllocError>
    ensures safe { safe.new ≡ safe.old }
    ensures shelf { shelf.new ≡ record shelf.old { syncs = shelf.new.syncs } }
    ensures file { file.new ≡ record file.old { seen = shelf.old.history; syncs = file.new.syncs } }
    ensures begins { IsPrefix file.old.seen file.new.seen }
    ensures listed { IsPrefix file.old.syncs file.new.syncs × IsPrefix safe.old.vault.syncs file.new.syncs }
    ensures copied { IfOk result (λ c. IsCopy J.book safe.old.vault c file.new.seen) }
{
    let told = safe.note();
    let from = safe.durable();
    file.see(shelf, told);
    meet_list(safe, shelf);
    let (parts, note) = shelf.parts(from)?;
    Ok(Copied { parts, note })
}

/// The same with no file at hand: the registry sees the whole history.
pub(crate) fn copy_all<J: Opening, D: Disk>(
    safe: &mut Safe<J, D>,
    registry: &mut RegistryDesk<J>,
    shelf: &mut Shelf<J>,
) -> Result<Copied, AllocError>
    ensures safe { safe.new ≡ safe.old }
    ensures shelf { shelf.new ≡ record shelf.old { syncs = shelf.new.syncs } }
    ensures registry { registry.new ≡ record registry.old { seen = shelf.old.history } }
    ensures begins { IsPrefix safe.old.vault.seen shelf.old.history }
    ensures copied { IfOk result (λ c. IsCopy J.book safe.old.vault c shelf.old.history) }
{
    let told = safe.note();
    let from = safe.durable();
    registry.meet(told);
    registry.see(shelf);
    meet_list(safe, shelf);
    let (parts, note) = shelf.parts(from)?;
    Ok(Copied { parts, note })
}

/// A process sees what was told, and then the whole history.
pub fn look_told<J: Whose>(proc: &mut Proc<J>, shelf: &mut Shelf<J>, told: Note)
    requires { told.book ≡ J.book }
    ensures looked { HasLooked J.book.session proc.old.who proc.old.seen proc.new.seen }
    ensures whole { proc.new.seen ≡ shelf.old.history }
    ensures same { proc.new ≡ record proc.old { seen = shelf.old.history; syncs = proc.new.syncs; looks = proc.old.looks + 1; looked = length shelf.old.history } }
    ensures listed { IsPrefix proc.old.syncs proc.new.syncs × IsPrefix told.syncs proc.new.syncs }
    ensures kept { (k : KeepingView) (what : ℕ) → HasKept J.book.session k proc.old what → HasKept J.book.session k proc.new what }
    ensures told { IsPrefix told.seen proc.new.seen }
    ensures shelf { shelf.new ≡ record shelf.old { syncs = shelf.new.syncs } }
{
    proc.caller.meet(told);
    proc.caller.look(shelf);
}

/// The same for a sync of a pipe or an app object: its process sees the whole history.
pub(crate) fn copy_entries<J: Opening, D: Disk>(
    safe: &mut Safe<J, D>,
    proc: &mut Proc<J>,
    shelf: &mut Shelf<J>,
) -> Result<Copied, AllocError>
    ensures safe { safe.new ≡ safe.old }
    ensures shelf { shelf.new ≡ record shelf.old { syncs = shelf.new.syncs } }
    ensures looked { HasLooked J.book.session proc.old.who proc.old.seen proc.new.seen }
    ensures same { proc.new ≡ record proc.old { seen = shelf.old.history; syncs = proc.new.syncs; looks = proc.old.looks + 1; looked = length shelf.old.history } }
    ensures listed { IsPrefix proc.old.syncs proc.new.syncs × IsPrefix safe.old.vault.syncs proc.new.syncs }
    ensures kept { (k : KeepingView) (what : ℕ) → HasKept J.book.session k proc.old what → HasKept J.book.session k proc.new what }
    ensures copied { IfOk result (λ c. IsCopy J.book safe.old.vault c proc.new.seen) }
{
    let told = safe.note();
    let from = safe.durable();
    look_told(proc, shelf, told);
    meet_list(safe, shelf);
    let (parts, note) = shelf.parts(from)?;
    Ok(Copied { parts, note })
}

/// Makes the entries that were copied durable, by one sync. The book is free.
pub(crate) fn flush_copied<J: Opening, D: Disk>(
    alloc: Global,
    safe: &mut Safe<J, D>,
    copied: Copied,
) -> Result<Receipt, SafeFault>
    requires copied { (seen : List AnyEntry) × IsCopy J.book safe.old.vault copied seen }
    ensures done { IfOk result (λ r. safe.new.vault ≡ flushed_to safe.old.vault safe.new.vault copied.note.seen r.calls) }
    ensures receipt { IfOk result (λ r. r ≡ record { calls = (D.view safe.new.vault.disk).calls; entries = length copied.note.seen }) }
    ensures undone { OnErr result (HasNotFlushed copied.note.seen safe.old.vault safe.new.vault) }
    ensures memory { result ≡ Err NoMemory → safe.new ≡ safe.old }
    ensures risen { IfErr result HasRisen }
    ensures since { IfErr result (IsFaultSince D.view J.ground.opened) }
    ensures safe { Leaves D.view safe.old safe.new result }
{
    let Copied { parts, note } = copied;
    match safe.flush(alloc, &parts, note) {
        Ok(()) => Ok(safe.receipt()),
        Err(fault) => Err(fault),
    }
}

/// The data of a file that has seen what the vault has.
fn save<J: Opening, D: Disk>(
    alloc: Global,
    safe: &mut Safe<J, D>,
    file: FileDesk<J>,
) -> (FileDesk<J>, Result<Saved, SafeFault>)
    requires seen { file.seen ≡ safe.old.vault.seen }
    ensures file { result.0 ≡ record file { syncs = result.0.syncs } }
    ensures done { IfOk result.1 (λ s. safe.new.vault ≡ saved_to safe.old.vault safe.new.vault file.what file.number s.receipt) }
    ensures receipt { IfOk result.1 (λ s. s.receipt ≡ record { calls = (D.view safe.new.vault.disk).calls; entries = length file.seen }) }
    ensures listed { OnOk result.1 (result.0.syncs ≡ safe.new.vault.syncs) }
    ensures clean { OnOk result.1 (IsClean J.book.session safe.new.vault.seen safe.new.vault.syncs file.what) }
    ensures saved { IfOk result.1 (λ s. IsSaved J.book file.seen s) }
    ensures of_file { IfOk result.1 (λ s. IsFileSaved file.what file.number s) }
    ensures undone { OnErr result.1 (safe.new.vault ≡ unsaved_to safe.old.vault safe.new.vault) }
    ensures memory { result.1 ≡ Err NoMemory → (safe.new ≡ safe.old) × (result.0 ≡ file) }
    ensures risen { IfErr result.1 HasRisen }
    ensures since { IfErr result.1 (IsFaultSince D.view J.ground.opened) }
    ensures safe { Leaves D.view safe.old safe.new result.1 }
{
    let (file, result) = safe.save(alloc, file);
    match result {
        Ok(receipt) => {
            let told = safe.note();
            let _durable = safe.durable();
            (file, Ok(Saved { receipt, told }))
        }
        Err(fault) => (file, Err(fault)),
    }
}

/// Makes the entries that were copied durable, and then the data of the file. The book is free.
pub(crate) fn commit<J: Opening, D: Disk>(
    alloc: Global,
    safe: &mut Safe<J, D>,
    file: FileDesk<J>,
    copied: Copied,
) -> (FileDesk<J>, Result<Saved, SafeFault>)
    requires copied { IsCopy J.book safe.old.vault copied file.seen }
    ensures file { result.0 ≡ record file { syncs = result.0.syncs } }
    ensures done { IfOk result.1 (λ s. HasCommitted file safe.old.vault safe.new.vault s.receipt) }
    ensures receipt { IfOk result.1 (λ s. s.receipt ≡ record { calls = (D.view safe.new.vault.disk).calls; entries = length file.seen }) }
    ensures listed { OnOk result.1 (result.0.syncs ≡ safe.new.vault.syncs) }
    ensures clean { OnOk result.1 (IsClean J.book.session safe.new.vault.seen safe.new.vault.syncs file.what) }
    ensures saved { IfOk result.1 (λ s. IsSaved J.book file.seen s) }
    ensures of_file { IfOk result.1 (λ s. IsFileSaved file.what file.number s) }
    ensures undone { OnErr result.1 (HasStopped file.seen safe.old.vault safe.new.vault) }
    ensures memory { result.1 ≡ Err NoMemory → ((safe.new ≡ safe.old) ⊎ HasFlushed file.seen safe.old.vault safe.new.vault) × (result.0 ≡ file) }
    ensures risen { IfErr result.1 HasRisen }
    ensures since { IfErr result.1 (IsFaultSince D.view J.ground.opened) }
    ensures safe { Leaves D.view safe.old safe.new result.1 }
{
    if let Err(fault) = flush_copied(alloc, safe, copied) {
        return (file, Err(fault));
    }
    save(alloc, safe, file)
}

/// Makes the entries that were copied durable, for a sync of a pipe or an app object. The book is free.
pub(crate) fn commit_entries<J: Opening, D: Disk>(
    alloc: Global,
    safe: &mut Safe<J, D>,
    proc: &Proc<J>,
    copied: Copied,
) -> Result<Saved, SafeFault>
    requires copied { IsCopy J.book safe.old.vault copied proc.now.seen }
    ensures done { IfOk result (λ s. safe.new.vault ≡ flushed_to safe.old.vault safe.new.vault proc.now.seen s.receipt.calls) }
    ensures receipt { IfOk result (λ s. s.receipt ≡ record { calls = (D.view safe.new.vault.disk).calls; entries = length proc.now.seen }) }
    ensures saved { IfOk result (λ s. IsSaved J.book proc.now.seen s) }
    ensures undone { OnErr result (HasNotFlushed proc.now.seen safe.old.vault safe.new.vault) }
    ensures memory { result ≡ Err NoMemory → safe.new ≡ safe.old }
    ensures risen { IfErr result HasRisen }
    ensures since { IfErr result (IsFaultSince D.view J.ground.opened) }
    ensures safe { Leaves D.view safe.old safe.new result }
{
    let _ = proc;
    match flush_copied(alloc, safe, copied) {
        Ok(receipt) => {
            let _durable = safe.durable();
            let told = safe.note();
            Ok(Saved { receipt, told })
        }
        Err(fault) => Err(fault),
    }
}

/// Makes the data of the file durable, all of whose entries are so by the work of another sync. The book is free.
pub(crate) fn share<J: Opening, D: Disk>(
    alloc: Global,
    safe: &mut Safe<J, D>,
    file: FileDesk<J>,
) -> (FileDesk<J>, Result<Saved, SafeFault>)
    requires below { length file.seen ≤ durable safe.old.vault.syncs }
    ensures file { result.0 ≡ record file { seen = safe.old.vault.seen; syncs = result.0.syncs } }
    ensures begins { IsPrefix file.seen safe.old.vault.seen }
    ensures done { IfOk result.1 (λ s. safe.new.vault ≡ saved_to safe.old.vault safe.new.vault file.what file.number s.receipt) }
    ensures receipt { IfOk result.1 (λ s. s.receipt ≡ record { calls = (D.view safe.new.vault.disk).calls; entries = length safe.old.vault.seen }) }
    ensures entries { IfOk result.1 (λ s. length file.seen ≤ s.receipt.entries) }
    ensures listed { OnOk result.1 (result.0.syncs ≡ safe.new.vault.syncs) }
    ensures clean { OnOk result.1 (IsClean J.book.session safe.new.vault.seen safe.new.vault.syncs file.what) }
    ensures saved { IfOk result.1 (λ s. IsSaved J.book result.0.seen s) }
    ensures of_file { IfOk result.1 (λ s. IsFileSaved result.0.what result.0.number s) }
    ensures undone { OnErr result.1 (safe.new.vault ≡ unsaved_to safe.old.vault safe.new.vault) }
    ensures memory { result.1 ≡ Err NoMemory → safe.new ≡ safe.old }
    ensures risen { IfErr result.1 HasRisen }
    ensures since { IfErr result.1 (IsFaultSince D.view J.ground.opened) }
    ensures safe { Leaves D.view safe.old safe.new result.1 }
{
    let file = safe.show(file);
    save(alloc, safe, file)
}

/// The same for a sync of a pipe or an app object, whose first entry is durable by the work of another sync: it has that one's receipt, and
/// takes no memory.
pub(crate) fn share_entries<J: Opening, D: Disk>(
    safe: &mut Safe<J, D>,
    keeping: &Keeping<J>,
) -> Result<Saved, SafeFault>
    requires durable { keeping.now.place < durable safe.old.vault.syncs }
    ensures safe { safe.new ≡ safe.old }
    ensures healthy { OnOk result (safe.old.lost ≡ None) }
    ensures lost { IfErr result (IsLostBy D.view safe.old) }
    ensures receipt { IfOk result (λ s. s.receipt ≡ record { calls = called (real_syncs safe.old.vault.syncs); entries = durable safe.old.vault.syncs }) }
    ensures above { IfOk result (λ s. keeping.now.place < s.receipt.entries) }
    ensures saved { IfOk result (λ s. IsSaved J.book safe.old.vault.seen s) }
    ensures risen { IfErr result HasRisen }
    ensures since { IfErr result (IsFaultSince D.view J.ground.opened) }
{
    let _ = keeping;
    if let Err(fault) = safe.healthy() {
        return Err(fault);
    }
    let _durable = safe.durable();
    let receipt = safe.receipt();
    let told = safe.note();
    Ok(Saved { receipt, told })
}
