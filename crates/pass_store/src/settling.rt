//! The end of a session: its files come out of their locks, and everything becomes durable.
ghost use Rattle.std.specs.Prelude.{◌≡◌, ◌<◌, [], ℕ, Err, false, IfOk, OnOk, length};
ghost use Rattle.pass_entry.specs.Limits.{block_count};
ghost use Rattle.pass_plain.specs.Legal.{IsLegal};
ghost use Rattle.pass_plain.specs.Sound.{IsSound};
ghost use Rattle.pass_book.specs.Syncs.{IsBacked};
ghost use Rattle.pass_clean.specs.Cleaned.{is_dirty};
ghost use Rattle.pass_vault.specs.Vaulted.{real_syncs};
ghost use Rattle.pass_safe.specs.Safes.{IsLost};
ghost use Rattle.pass_safe.specs.Settled.{AreAll, EndsWith};
ghost use Rattle.pass_safe.specs.declared.fault.SafeFault.TheVariants.{DiskFault};
ghost use Rattle.pass_store.specs.Closings.{AreByNumber};
ghost use Rattle.pass_safe.specs.Grounds.{HasGoneOn, ground_of};

use pass_entry::Entry;
use pass_file::FileDesk;
use pass_flow::Versioned;
use pass_hold::{Shelf, Whose};
use pass_outside::Disk;
use pass_registry::RegistryDesk;
use pass_safe::{Finished, Opening, Safe, SafeFault, finish};
use pass_slots::{Slot, made_file};
use pass_vault::{Receipt, Vault};
use std::alloc::{AllocError, Global};
use std::sync::Mutex;

/// What is left of a session: how settling went, its history, and a vault that has seen it.
#[derive(Drop)]
pub(crate) struct Rest<D: Disk> {
    pub(crate) settled: Result<Receipt, SafeFault>,
    pub(crate) history: Vec<Entry>,
    pub(crate) vault: Vault<D>,
}

/// The file that lies in a slot. A file that nobody has used becomes one.
fn file_in<J: Whose>(
    alloc: Global,
    registry: &mut RegistryDesk<J>,
    shelf: &mut Shelf<J>,
    slot: Slot<J>,
) -> Option<FileDesk<J>>
    requires seen { registry.old.seen ≡ shelf.old.history }
    ensures seen { registry.new.seen ≡ shelf.old.history }
    ensures shelf { shelf.new ≡ record shelf.old { syncs = shelf.new.syncs } }
{
    let slot = match slot {
        Slot::Blank(blank) => made_file(alloc, registry, shelf, blank),
        used => used,
    };
    slot.into_file()
}

/// Adds a file to those of the numbers below its own.
fn add_file<J: Whose>(
    registry: &RegistryDesk<J>,
    files: &mut Vec<FileDesk<J>>,
    file: FileDesk<J>,
) -> Result<(), AllocError>
    requires { AreByNumber J.book.session registry.now.seen files.old.items }
    ensures { OnOk result (AreByNumber J.book.session registry.now.seen files.new.items) }
{
    if let Some(number) = registry.number(file.what()) {
        if number as usize == files.len() {
            files.push(file)?;
            return Ok(());
        }
    }
    drop(file);
    Ok(())
}

/// The files that lie in these locks, by ascending numbers.
fn numbered_files<J: Whose>(
    alloc: Global,
    slots: Vec<Mutex<Slot<J>>>,
    registry: &mut RegistryDesk<J>,
    shelf: &mut Shelf<J>,
) -> Result<Vec<FileDesk<J>>, AllocError>
    ensures seen { registry.new.seen ≡ shelf.old.history }
    ensures shelf { shelf.new ≡ record shelf.old { syncs = shelf.new.syncs } }
    ensures files { IfOk result (λ files. AreByNumber J.book.session shelf.old.history files.items) }
{
    registry.see(shelf);
    let mut files = Vec::new(alloc);
    for slot in slots {
        if let Some(file) = file_in(alloc, registry, shelf, slot.into_inner()) {
            add_file(registry, &mut files, file)?;
        }
    }
    Ok(files)
}

/// All files of a session, by ascending numbers. Each lies in a lock of its own, where a search for it ended before now.
fn all_files<J: Whose>(
    alloc: Global,
    slots: Vec<Mutex<Slot<J>>>,
    registry: &mut RegistryDesk<J>,
    shelf: &mut Shelf<J>,
) -> Result<Vec<FileDesk<J>>, AllocError>
    ensures shelf { shelf.new ≡ record shelf.old { syncs = shelf.new.syncs } }
    ensures files { IfOk result (λ files. AreAll J.book.session shelf.old.history files.items) }
{
    let files = numbered_files(alloc, slots, registry, shelf)?;
    if files.len() < registry.files() as usize {
        drop(files);
        return Err(AllocError);
    }
    Ok(files)
}

/// The history of a session, and its vault, which sees the whole of it. It makes no device call and takes no memory.
pub(crate) fn unsettled<J: Opening, D: Disk>(
    registry: RegistryDesk<J>,
    shelf: Shelf<J>,
    safe: Safe<J, D>,
) -> (Vec<Entry>, Vault<D>)
    ensures sound { IsSound J.book.session }
    ensures legal { IsLegal J.book.session result.0.items }
    ensures history { result.0.items ≡ shelf.history }
    ensures whole { result.1.seen ≡ result.0.items }
    ensures book { result.1.book ≡ J.book }
    ensures backed { IsBacked J.book.session result.0.items result.1.syncs }
    ensures ground { ground_of result.1 ≡ J.ground }
    ensures gone_on { HasGoneOn J.tells J.ground.opened (D.view result.1.disk) }
{
    let mut registry = registry;
    let mut shelf = shelf;
    let mut safe = safe;
    registry.meet(safe.note());
    registry.see(&mut shelf);
    let told = shelf.note();
    let _durable = safe.durable();
    let mut vault = safe.into_vault();
    vault.meet(told);
    drop(registry);
    (shelf.into_history(), vault)
}

/// Makes every entry durable, and then writes the changed blocks of each of these files, and those that wait.
fn settle_files<J: Opening, D: Disk>(
    alloc: Global,
    registry: RegistryDesk<J>,
    shelf: Shelf<J>,
    safe: Safe<J, D>,
    files: Vec<FileDesk<J>>,
) -> Rest<D>
    requires files { AreAll J.book.session shelf.history files.items }
    ensures sound { IsSound J.book.session }
    ensures legal { IsLegal J.book.session result.history.items }
    ensures history { result.history.items ≡ shelf.history }
    ensures whole { result.vault.seen ≡ result.history.items }
    ensures book { result.vault.book ≡ J.book }
    ensures backed { IsBacked J.book.session result.history.items result.vault.syncs }
    ensures ground { ground_of result.vault ≡ J.ground }
    ensures gone_on { HasGoneOn J.tells J.ground.opened (D.view result.vault.disk) }
    ensures done { IfOk result.settled (λ r. EndsWith r.calls r.entries (real_syncs result.vault.syncs) × (r.entries ≡ length result.history.items)) }
    ensures clean { OnOk result.settled ((file block : ℕ) → block < block_count → is_dirty J.book.session result.history.items result.vault.syncs file block ≡ false) }
    ensures written { OnOk result.settled ((result.vault.pool.entries ≡ []) × (result.vault.unsynced ≡ false)) }
    ensures healthy { OnOk result.settled ((D.view result.vault.disk).faults ≡ J.ground.opened) }
    ensures failed { (opened found : ℕ) → result.settled ≡ Err (DiskFault opened found) → IsLost (D.view result.vault.disk) J.ground.opened (record { opened = opened; found = found }) }
{
    let _durable = safe.durable();
    let Finished {
        settled,
        vault,
        history,
        told,
    } = finish(alloc, safe, registry, shelf, files);
    let mut vault = vault;
    vault.meet(told);
    Rest {
        settled,
        history,
        vault,
    }
}

/// Makes every entry of a session durable, and then writes the changed blocks of its files, which lie in these locks, and those that wait.
pub(crate) fn settle_all<J: Opening, D: Disk>(
    alloc: Global,
    slots: Vec<Mutex<Slot<J>>>,
    registry: RegistryDesk<J>,
    shelf: Shelf<J>,
    safe: Safe<J, D>,
) -> Rest<D>
    ensures sound { IsSound J.book.session }
    ensures legal { IsLegal J.book.session result.history.items }
    ensures history { result.history.items ≡ shelf.history }
    ensures whole { result.vault.seen ≡ result.history.items }
    ensures book { result.vault.book ≡ J.book }
    ensures backed { IsBacked J.book.session result.history.items result.vault.syncs }
    ensures ground { ground_of result.vault ≡ J.ground }
    ensures gone_on { HasGoneOn J.tells J.ground.opened (D.view result.vault.disk) }
    ensures done { IfOk result.settled (λ r. EndsWith r.calls r.entries (real_syncs result.vault.syncs) × (r.entries ≡ length result.history.items)) }
    ensures clean { OnOk result.settled ((file block : ℕ) → block < block_count → is_dirty J.book.session result.history.items result.vault.syncs file block ≡ false) }
    ensures written { OnOk result.settled ((result.vault.pool.entries ≡ []) × (result.vault.unsynced ≡ false)) }
    ensures healthy { OnOk result.settled ((D.view result.vault.disk).faults ≡ J.ground.opened) }
    ensures failed { (opened found : ℕ) → result.settled ≡ Err (DiskFault opened found) → IsLost (D.view result.vault.disk) J.ground.opened (record { opened = opened; found = found }) }
{
    let mut registry = registry;
    let mut shelf = shelf;
    match all_files(alloc, slots, &mut registry, &mut shelf) {
        Ok(files) => settle_files(alloc, registry, shelf, safe, files),
        Err(_refused) => {
            let (history, vault) = unsettled(registry, shelf, safe);
            Rest {
                settled: Err(SafeFault::NoMemory),
                history,
                vault,
            }
        }
    }
}
