//! The end of a session: everything becomes durable, with no lock.
ghost use Rattle.std.specs.Prelude.{◌≡◌, ◌<◌, ◌∷◌, [], ℕ, false, None, Some, Err, IfOk, OnOk, OnErr, length};
ghost use Rattle.std.specs.List.{All};
ghost use mathlib.Core.List.{IsPrefix};
ghost use Rattle.pass_entry.specs.Limits.{block_count};
ghost use Rattle.pass_plain.specs.Legal.{IsLegal};
ghost use Rattle.pass_plain.specs.Sound.{IsSound};
ghost use Rattle.pass_book.specs.Syncs.{IsBacked};
ghost use Rattle.pass_clean.specs.Cleaned.{is_dirty};
ghost use Rattle.pass_keep.specs.Keepers.{GoesOn};
ghost use Rattle.pass_safe.specs.Commits.{HasNotFlushed, flushed_to};
ghost use Rattle.pass_safe.specs.Grounds.{HasGoneOn, ground_of};
ghost use Rattle.pass_safe.specs.Safes.{IsLost, Leaves};
ghost use Rattle.pass_safe.specs.Settled.{AreAll, AreSettled, IsClean, IsDurable};
ghost use Rattle.pass_safe.specs.declared.fault.Lost.{Lost as AnyLost};
ghost use Rattle.pass_safe.specs.declared.fault.SafeFault.TheVariants.{DiskFault, NoMemory};

use crate::fault::SafeFault;
use crate::ground::Opening;
use crate::safe::Safe;
use crate::saving::{copy_all, flush_copied};
use pass_book::Note;
use pass_entry::Entry;
use pass_file::FileDesk;
use pass_hold::Shelf;
use pass_outside::Disk;
use pass_registry::RegistryDesk;
use pass_vault::{Receipt, Vault};
use std::alloc::Global;

/// What is left of a session: how making everything durable went, the vault, and the history.
#[derive(Drop)]
pub struct Finished<D: Disk> {
    pub settled: Result<Receipt, SafeFault>,
    pub vault: Vault<D>,
    pub history: Vec<Entry>,
    /// What the book had at its end, for the vault.
    pub told: Note,
}

/// Writes the dirty blocks of a file, and those of it that wait in the vault, at the end of a session.
fn settle_one<J: Opening, D: Disk>(
    alloc: Global,
    safe: &mut Safe<J, D>,
    shelf: &mut Shelf<J>,
    file: FileDesk<J>,
) -> Result<(), SafeFault>
    requires whole { safe.old.vault.seen ≡ shelf.old.history }
    ensures shelf { shelf.new ≡ record shelf.old { syncs = shelf.new.syncs } }
    ensures vault { safe.new.vault ≡ record safe.old.vault { disk = safe.new.vault.disk; pool = safe.new.vault.pool; unsynced = safe.new.vault.unsynced; syncs = safe.new.vault.syncs } }
    ensures grows { IsPrefix safe.old.vault.syncs safe.new.vault.syncs }
    ensures done { OnOk result (AreSettled (length shelf.old.history) (file ∷ []) safe.old.vault.syncs safe.new.vault.syncs) }
    ensures clean { OnOk result (IsClean J.book.session shelf.old.history safe.new.vault.syncs file.what) }
    ensures safe { Leaves D.view safe.old safe.new result }
{
    let file = safe.join(file, shelf);
    let (file, result) = safe.settle(alloc, file);
    drop(file);
    match result {
        Ok(_receipt) => Ok(()),
        Err(fault) => Err(fault),
    }
}

/// Writes these blocks of each of these files, in their order.
fn settle_each<J: Opening, D: Disk>(
    alloc: Global,
    safe: &mut Safe<J, D>,
    shelf: &mut Shelf<J>,
    files: Vec<FileDesk<J>>,
) -> Result<(), SafeFault>
    requires whole { safe.old.vault.seen ≡ shelf.old.history }
    requires healthy { safe.old.lost ≡ None }
    ensures shelf { shelf.new ≡ record shelf.old { syncs = shelf.new.syncs } }
    ensures vault { safe.new.vault ≡ record safe.old.vault { disk = safe.new.vault.disk; pool = safe.new.vault.pool; unsynced = safe.new.vault.unsynced; syncs = safe.new.vault.syncs } }
    ensures grows { IsPrefix safe.old.vault.syncs safe.new.vault.syncs }
    ensures done { OnOk result (AreSettled (length shelf.old.history) files.items safe.old.vault.syncs safe.new.vault.syncs) }
    ensures clean { OnOk result (All (λ f. IsClean J.book.session shelf.old.history safe.new.vault.syncs f.what) files.items) }
    ensures safe { Leaves D.view safe.old safe.new result }
{
    for file in files {
        if let Err(fault) = settle_one(alloc, safe, shelf, file) {
            return Err(fault);
        }
    }
    Ok(())
}

/// Vault and book meet: what the vault has seen begins the history.
fn meet_all<J: Opening, D: Disk>(
    safe: &mut Safe<J, D>,
    registry: &mut RegistryDesk<J>,
    shelf: &mut Shelf<J>,
)
    ensures safe { safe.new ≡ safe.old }
    ensures shelf { shelf.new ≡ record shelf.old { syncs = shelf.new.syncs } }
    ensures begins { IsPrefix safe.old.vault.seen shelf.old.history }
{
    let told = safe.note();
    registry.meet(told);
    registry.see(shelf);
}

/// Makes every entry durable.
fn flush_all<J: Opening, D: Disk>(
    alloc: Global,
    safe: &mut Safe<J, D>,
    registry: &mut RegistryDesk<J>,
    shelf: &mut Shelf<J>,
) -> Result<Receipt, SafeFault>
    requires healthy { safe.old.lost ≡ None }
    ensures shelf { shelf.new ≡ record shelf.old { syncs = shelf.new.syncs } }
    ensures done { IfOk result (λ r. safe.new.vault ≡ flushed_to safe.old.vault safe.new.vault shelf.old.history r.calls) }
    ensures undone { OnErr result (HasNotFlushed shelf.old.history safe.old.vault safe.new.vault) }
    ensures safe { Leaves D.view safe.old safe.new result }
{
    match copy_all(safe, registry, shelf) {
        Ok(copied) => flush_copied(alloc, safe, copied),
        Err(_refused) => Err(SafeFault::NoMemory),
    }
}

/// Makes every entry durable, and then the dirty blocks of each of these files, and those that wait in the vault. Where more waits than
/// the blocks of these files, it answers as where memory is refused.
fn settle_all<J: Opening, D: Disk>(
    alloc: Global,
    safe: &mut Safe<J, D>,
    registry: &mut RegistryDesk<J>,
    shelf: &mut Shelf<J>,
    files: Vec<FileDesk<J>>,
) -> Result<Receipt, SafeFault>
    ensures shelf { shelf.new ≡ record shelf.old { syncs = shelf.new.syncs } }
    ensures vault { safe.new.vault ≡ record safe.old.vault {
      seen = safe.new.vault.seen;
      disk = safe.new.vault.disk;
      place = safe.new.vault.place;
      pool = safe.new.vault.pool;
      unsynced = safe.new.vault.unsynced;
      syncs = safe.new.vault.syncs;
    } }
    ensures told { IsPrefix safe.new.vault.seen shelf.old.history }
    ensures grows { IsPrefix safe.old.vault.syncs safe.new.vault.syncs }
    ensures done { IfOk result (λ r. IsDurable shelf.old.history files.items safe.old.vault safe.new.vault r) }
    ensures clean { OnOk result (All (λ f. IsClean J.book.session shelf.old.history safe.new.vault.syncs f.what) files.items) }
    ensures written { OnOk result ((safe.new.vault.pool.entries ≡ []) × (safe.new.vault.unsynced ≡ false)) }
    ensures safe { Leaves D.view safe.old safe.new result }
{
    if let Err(fault) = safe.healthy() {
        drop(files);
        meet_all(safe, registry, shelf);
        return Err(fault);
    }
    if let Err(fault) = flush_all(alloc, safe, registry, shelf) {
        drop(files);
        return Err(fault);
    }
    if let Err(fault) = settle_each(alloc, safe, shelf, files) {
        return Err(fault);
    }
    if !safe.is_written() {
        return Err(SafeFault::NoMemory);
    }
    let _durable = safe.durable();
    Ok(safe.receipt())
}

/// Makes every entry of a session durable, and then the dirty blocks of its files, in the order given, which is that of their numbers.
/// Vault and history are handed out whatever comes. After a device call that failed nothing more is written.
pub fn finish<J: Opening, D: Disk>(
    alloc: Global,
    safe: Safe<J, D>,
    registry: RegistryDesk<J>,
    shelf: Shelf<J>,
    files: Vec<FileDesk<J>>,
) -> Finished<D>
    ensures history { result.history.items ≡ shelf.history }
    ensures sound { IsSound J.book.session }
    ensures legal { IsLegal J.book.session shelf.history }
    ensures note { result.told ≡ record { book = J.book; seen = shelf.history; syncs = result.told.syncs } }
    // What is said to be kept is durable, by the list that the book had seen.
    ensures backed { IsBacked J.book.session shelf.history result.told.syncs }
    ensures vault { result.vault ≡ record safe.vault {
      seen = result.vault.seen;
      disk = result.vault.disk;
      place = result.vault.place;
      pool = result.vault.pool;
      unsynced = result.vault.unsynced;
      syncs = result.vault.syncs;
    } }
    ensures ground { ground_of result.vault ≡ J.ground }
    ensures gone_on { HasGoneOn J.tells J.ground.opened (D.view result.vault.disk) }
    ensures told { IsPrefix result.vault.seen shelf.history }
    ensures grows { IsPrefix safe.vault.syncs result.vault.syncs }
    ensures done { IfOk result.settled (λ r. IsDurable shelf.history files.items safe.vault result.vault r) }
    ensures clean { OnOk result.settled (All (λ f. IsClean J.book.session shelf.history result.vault.syncs f.what) files.items) }
    // Where these are all files that may have dirty blocks, none is left, as a vault's `images` asks it.
    ensures settled { AreAll J.book.session shelf.history files.items → OnOk result.settled ((file block : ℕ) → block < block_count → is_dirty J.book.session shelf.history result.vault.syncs file block ≡ false) }
    // No block waits to be written, and none to be synced.
    ensures written { OnOk result.settled ((result.vault.pool.entries ≡ []) × (result.vault.unsynced ≡ false)) }
    ensures healthy { OnOk result.settled ((D.view result.vault.disk).faults ≡ J.ground.opened) }
    ensures lost { (l : AnyLost) → safe.lost ≡ Some l → (result.settled ≡ Err (DiskFault l.opened l.found)) × (result.vault ≡ safe.vault) }
    ensures failed { (opened found : ℕ) → result.settled ≡ Err (DiskFault opened found) → IsLost (D.view result.vault.disk) J.ground.opened (record { opened = opened; found = found }) }
    ensures goes_on { GoesOn (D.view safe.vault.disk) (D.view result.vault.disk) }
{
    let mut safe = safe;
    let mut registry = registry;
    let mut shelf = shelf;
    let settled = settle_all(alloc, &mut safe, &mut registry, &mut shelf, files);
    let told = shelf.note();
    Finished {
        settled,
        vault: safe.into_vault(),
        history: shelf.into_history(),
        told,
    }
}
