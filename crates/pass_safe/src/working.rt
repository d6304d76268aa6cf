//! What is done with the vault while no device call has failed.
ghost use Rattle.std.specs.Prelude.{◌≡◌, ◌⊎◌, ◌<◌, ◌≤◌, ◌++◌, ◌∷◌, ◌↔◌, [], false, true, None, Ok, Err, IfOk, IfSome, IsSome, OnOk, OnErr, length};
ghost use mathlib.Core.List.{IsPrefix};
ghost use Rattle.pass_plain.specs.Legal.{IsLegal};
ghost use Rattle.pass_book.specs.Parting.{lists_of};
ghost use Rattle.pass_book.specs.Records.{AreParts};
ghost use Rattle.pass_book.specs.Syncs.{durable};
ghost use Rattle.pass_clean.specs.Blocks.{AreDirty, IsRisingBy};
ghost use Rattle.pass_keep.specs.Keepers.{GoesOn};
ghost use Rattle.pass_vault.specs.Blocks.{AreSomeDirty};
ghost use Rattle.pass_vault.specs.Rooms.{most_entries};
ghost use Rattle.pass_vault.specs.Vaulted.{HasWaiting, flushed};
ghost use Rattle.pass_safe.specs.Commits.{HasStaged, left_by_staging, saved_to, staged_to, unsaved_to, unstaged_to};
ghost use Rattle.pass_safe.specs.Safes.{IsSafe, lost_in};
ghost use Rattle.pass_safe.specs.Settled.{HasUnwritten, IsClean, settled_to};
ghost use Rattle.pass_safe.specs.Syncings.{HasReceipt};
ghost use Rattle.pass_safe.specs.declared.fault.SafeFault.TheVariants.{NoMemory};

use crate::fault::{SafeFault, fault_of};
use crate::ground::Opening;
use pass_book::Note;
use pass_bounds::laws::histories;
use pass_entry::{Bytes, Record};
use pass_file::FileDesk;
use pass_hold::Shelf;
use pass_outside::Disk;
use pass_vault::laws::some_dirty;
use pass_vault::{Receipt, Vault};
use std::alloc::Global;

/// Makes the entries that a note has seen durable.
pub(crate) fn flush_vault<J: Opening, D: Disk>(
    alloc: Global,
    vault: &mut Vault<D>,
    parts: &[Vec<Record>],
    upto: Note,
) -> Result<(), SafeFault>
    requires safe { IsSafe J.book J.ground J.tells D.view vault.old None }
    requires one { upto.book ≡ J.book }
    requires begins { IsPrefix vault.old.seen upto.seen }
    requires legal { IsLegal J.book.session upto.seen }
    requires few { length upto.seen ≤ most_entries }
    requires parts { AreParts J.book.session upto.seen (durable vault.old.syncs) (lists_of parts.now) }
    ensures safe { IsSafe J.book J.ground J.tells D.view vault.new (lost_in result) }
    ensures done { OnOk result (vault.new ≡ record vault.old {
      seen = upto.seen;
      disk = vault.new.disk;
      place = vault.new.place;
      syncs = vault.old.syncs ++ flushed (D.view vault.new.disk).calls (length upto.seen) ∷ [];
    }) }
    ensures undone { OnErr result (vault.new ≡ record vault.old { seen = vault.new.seen; disk = vault.new.disk; place = vault.new.place }) }
    ensures told { IsPrefix vault.new.seen upto.seen }
    ensures memory { result ≡ Err NoMemory → vault.new ≡ vault.old }
    ensures goes_on { GoesOn (D.view vault.old.disk) (D.view vault.new.disk) }
{
    histories();
    let _durable = vault.durable();
    match vault.flush_parts(alloc, parts, upto) {
        Ok(()) => Ok(()),
        Err(fault) => Err(fault_of(fault)),
    }
}

/// Writes these blocks of a file, which are its dirty ones.
fn save_blocks<J: Opening, D: Disk>(
    alloc: Global,
    file: FileDesk<J>,
    vault: &mut Vault<D>,
    blocks: &[(u32, Bytes)],
) -> (FileDesk<J>, Result<Receipt, SafeFault>)
    requires safe { IsSafe J.book J.ground J.tells D.view vault.old None }
    requires seen { file.seen ≡ vault.old.seen }
    requires dirty { AreDirty J.book.session file.seen file.syncs file.what blocks.now }
    requires rising { IsRisingBy blocks.now }
    ensures safe { IsSafe J.book J.ground J.tells D.view vault.new (lost_in result.1) }
    ensures file { result.0 ≡ record file { syncs = result.0.syncs } }
    ensures done { IfOk result.1 (λ r. vault.new ≡ saved_to vault.old vault.new file.what file.number r) }
    ensures receipt { IfOk result.1 (λ r. r ≡ record { calls = (D.view vault.new.disk).calls; entries = length file.seen }) }
    ensures listed { OnOk result.1 (result.0.syncs ≡ vault.new.syncs) }
    ensures clean { OnOk result.1 (IsClean J.book.session vault.new.seen vault.new.syncs file.what) }
    ensures undone { OnErr result.1 (vault.new ≡ unsaved_to vault.old vault.new) }
    ensures memory { result.1 ≡ Err NoMemory → (vault.new ≡ vault.old) × (result.0 ≡ file) }
    ensures goes_on { GoesOn (D.view vault.old.disk) (D.view vault.new.disk) }
{
    let number = file.number();
    let (lent, mut desk) = file.lend();
    match vault.sync_file(alloc, &mut desk, number, blocks) {
        Ok(receipt) => (lent.synced(desk), Ok(receipt)),
        Err(fault) => (lent.back(desk), Err(fault_of(fault))),
    }
}

/// Writes the dirty blocks of a file.
pub(crate) fn save_file<J: Opening, D: Disk>(
    alloc: Global,
    file: FileDesk<J>,
    vault: &mut Vault<D>,
) -> (FileDesk<J>, Result<Receipt, SafeFault>)
    requires safe { IsSafe J.book J.ground J.tells D.view vault.old None }
    requires seen { file.seen ≡ vault.old.seen }
    ensures safe { IsSafe J.book J.ground J.tells D.view vault.new (lost_in result.1) }
    ensures file { result.0 ≡ record file { syncs = result.0.syncs } }
    ensures done { IfOk result.1 (λ r. vault.new ≡ saved_to vault.old vault.new file.what file.number r) }
    ensures receipt { IfOk result.1 (λ r. r ≡ record { calls = (D.view vault.new.disk).calls; entries = length file.seen }) }
    ensures listed { OnOk result.1 (result.0.syncs ≡ vault.new.syncs) }
    ensures clean { OnOk result.1 (IsClean J.book.session vault.new.seen vault.new.syncs file.what) }
    ensures undone { OnErr result.1 (vault.new ≡ unsaved_to vault.old vault.new) }
    ensures memory { result.1 ≡ Err NoMemory → (vault.new ≡ vault.old) × (result.0 ≡ file) }
    ensures goes_on { GoesOn (D.view vault.old.disk) (D.view vault.new.disk) }
{
    let Ok(blocks) = file.dirty(alloc) else {
        return (file, Err(SafeFault::NoMemory));
    };
    save_blocks(alloc, file, vault, &blocks)
}

/// Whether nothing of a file is to be written, of which no block is dirty or some are: none of its blocks waits, and nothing is unsynced.
fn is_settled<D: Disk>(vault: &Vault<D>, number: u32, clean: bool) -> bool
    ensures none { result ≡ true → (clean ≡ true) × (HasWaiting vault.now number → ⊥) }
    ensures some { result ≡ false → (clean ≡ false) ⊎ HasWaiting vault.now number }
{
    if !clean {
        return false;
    }
    !vault.waits(number)
}

/// Writes the dirty blocks of a file and those of it that wait in the vault, where it has some or anything is unsynced, and leaves any
/// other alone.
pub(crate) fn settle_file<J: Opening, D: Disk>(
    alloc: Global,
    file: FileDesk<J>,
    vault: &mut Vault<D>,
) -> (FileDesk<J>, Result<Option<Receipt>, SafeFault>)
    requires safe { IsSafe J.book J.ground J.tells D.view vault.old None }
    requires seen { file.seen ≡ vault.old.seen }
    ensures safe { IsSafe J.book J.ground J.tells D.view vault.new (lost_in result.1) }
    ensures file { result.0 ≡ record file { syncs = result.0.syncs } }
    ensures done { IfOk result.1 (λ r. vault.new ≡ settled_to vault.old vault.new file.what file.number r) }
    ensures receipt { IfOk result.1 (λ o. IfSome o (λ r. r ≡ record { calls = (D.view vault.new.disk).calls; entries = length file.seen })) }
    ensures synced { IfOk result.1 (λ o. IfSome o (HasReceipt vault.new)) }
    ensures idle { result.1 ≡ Ok None → (vault.new ≡ vault.old) × (result.0 ≡ file) }
    ensures dirty { IfOk result.1 (λ r. IsSome r ↔ HasUnwritten J.book.session file vault.old) }
    ensures clean { OnOk result.1 (IsPrefix file.syncs vault.old.syncs → IsClean J.book.session vault.new.seen vault.new.syncs file.what) }
    ensures undone { OnErr result.1 (vault.new ≡ unsaved_to vault.old vault.new) }
    ensures memory { result.1 ≡ Err NoMemory → (vault.new ≡ vault.old) × (result.0 ≡ file) }
    ensures goes_on { GoesOn (D.view vault.old.disk) (D.view vault.new.disk) }
{
    let Ok(blocks) = file.dirty(alloc) else {
        return (file, Err(SafeFault::NoMemory));
    };
    if is_settled(vault, file.number(), blocks.is_empty()) {
        return (file, Ok(None));
    }
    let (file, result) = save_blocks(alloc, file, vault, &blocks);
    match result {
        Ok(receipt) => (file, Ok(Some(receipt))),
        Err(fault) => (file, Err(fault)),
    }
}

/// Puts these blocks of a file, some of its dirty ones, into the vault's pool.
fn stage_blocks<J: Opening, D: Disk>(
    file: FileDesk<J>,
    vault: &mut Vault<D>,
    blocks: &[(u32, Bytes)],
) -> (FileDesk<J>, Result<(), SafeFault>)
    requires safe { IsSafe J.book J.ground J.tells D.view vault.old None }
    requires seen { file.seen ≡ vault.old.seen }
    requires dirty { AreSomeDirty J.book.session file.seen file.syncs file.what blocks.now }
    ensures safe { IsSafe J.book J.ground J.tells D.view vault.new (lost_in result.1) }
    ensures file { result.0 ≡ record file { syncs = result.0.syncs } }
    ensures done { OnOk result.1 (vault.new ≡ staged_to vault.old vault.new file.what file.number (D.view vault.new.disk).calls (length file.seen) blocks.now) }
    ensures undone { OnErr result.1 (vault.new ≡ unstaged_to vault.old vault.new) }
    ensures goes_on { GoesOn (D.view vault.old.disk) (D.view vault.new.disk) }
{
    let number = file.number();
    let (lent, mut desk) = file.lend();
    match vault.stage(&mut desk, number, blocks) {
        Ok(()) => (lent.staged(desk, blocks), Ok(())),
        Err(fault) => (lent.back(desk), Err(fault_of(fault))),
    }
}

/// Puts so many dirty blocks of a file at most into the vault's pool, and answers their number. A file without any is left alone.
pub(crate) fn stage_file<J: Opening, D: Disk>(
    alloc: Global,
    file: FileDesk<J>,
    vault: &mut Vault<D>,
    limit: u32,
) -> (FileDesk<J>, Result<u32, SafeFault>)
    requires safe { IsSafe J.book J.ground J.tells D.view vault.old None }
    requires seen { file.seen ≡ vault.old.seen }
    ensures safe { IsSafe J.book J.ground J.tells D.view vault.new (lost_in result.1) }
    ensures file { result.0 ≡ record file { syncs = result.0.syncs } }
    ensures few { IfOk result.1 (λ n. n ≤ limit) }
    ensures done { IfOk result.1 (λ n. 0 < n → HasStaged J.book.session file vault.old vault.new n) }
    ensures idle { result.1 ≡ Ok 0 → (vault.new ≡ vault.old) × (result.0 ≡ file) }
    ensures undone { OnErr result.1 (vault.new ≡ unstaged_to vault.old vault.new) }
    ensures same { vault.new ≡ left_by_staging vault.old vault.new }
    ensures goes_on { GoesOn (D.view vault.old.disk) (D.view vault.new.disk) }
{
    some_dirty();
    let Ok(mut blocks) = file.dirty(alloc) else {
        return (file, Err(SafeFault::NoMemory));
    };
    blocks.truncate(limit as usize);
    if blocks.is_empty() {
        return (file, Ok(0));
    }
    let count = blocks.len() as u32;
    let (file, result) = stage_blocks(file, vault, &blocks);
    match result {
        Ok(()) => (file, Ok(count)),
        Err(fault) => (file, Err(fault)),
    }
}

/// The file sees what the vault has seen.
pub(crate) fn show_file<J: Opening, D: Disk>(file: FileDesk<J>, vault: &mut Vault<D>) -> FileDesk<J>
    requires book { vault.old.book ≡ J.book }
    requires few { length vault.old.seen ≤ most_entries }
    requires below { length file.seen ≤ durable vault.old.syncs }
    ensures vault { vault.new ≡ vault.old }
    ensures file { result ≡ record file { seen = vault.old.seen; syncs = result.syncs } }
    ensures begins { IsPrefix file.seen result.seen }
    ensures list { IsPrefix file.syncs vault.old.syncs → result.syncs ≡ vault.old.syncs }
{
    let _durable = vault.durable();
    let told = vault.note();
    let (lent, mut desk) = file.lend();
    desk.meet(told);
    lent.back(desk)
}

/// The file sees the whole history, which the vault has seen, and the vault has the syncs that the file knows.
pub(crate) fn join_file<J: Opening, D: Disk>(
    file: FileDesk<J>,
    vault: &mut Vault<D>,
    shelf: &mut Shelf<J>,
) -> FileDesk<J>
    requires book { vault.old.book ≡ J.book }
    requires whole { vault.old.seen ≡ shelf.old.history }
    ensures vault { vault.new ≡ vault.old }
    ensures shelf { shelf.new ≡ record shelf.old { syncs = shelf.new.syncs } }
    ensures file { result ≡ record file { seen = shelf.old.history; syncs = result.syncs } }
    ensures listed { IsPrefix result.syncs vault.old.syncs }
{
    let (lent, mut desk) = file.lend();
    shelf.show(&mut desk);
    let note = shelf.note();
    vault.meet(note);
    lent.back(desk)
}
