//! The data of a file, where a store is settled while its calls go on.
ghost use Rattle.std.specs.Prelude.{◌≡◌, ◌⊎◌, ◌≤◌, ◌↔◌, Err, true, IfOk, IfErr, IfSome, OnErr, length};
ghost use Rattle.pass_book.specs.Syncs.{durable};
ghost use Rattle.pass_safe.specs.Commits.{HasFlushed, HasStopped, left_by_staging, unsaved_to};
ghost use Rattle.pass_safe.specs.Safes.{IsFaultSince, Leaves};
ghost use Rattle.pass_safe.specs.Settled.{HasSettled, settled_to};
ghost use Rattle.pass_safe.specs.Syncings.{HasReceipt, HasRisen, IsCopy, IsSaved};
ghost use Rattle.pass_safe.specs.declared.fault.SafeFault.TheVariants.{NoMemory};

use crate::fault::SafeFault;
use crate::ground::Opening;
use crate::safe::Safe;
use crate::saving::{Copied, Saved, flush_copied};
use pass_file::FileDesk;
use pass_outside::Disk;
use pass_vault::Receipt;
use std::alloc::Global;

/// Whether all that a file has seen is durable. The file comes back as it was.
pub(crate) fn is_seen<J: Opening, D: Disk>(
    safe: &Safe<J, D>,
    file: FileDesk<J>,
) -> (FileDesk<J>, bool)
    ensures file { result.0 ≡ file }
    ensures seen { (result.1 ≡ true) ↔ (length file.seen ≤ durable safe.now.vault.syncs) }
{
    let (lent, desk) = file.lend();
    let is = desk.seen() <= safe.durable();
    (lent.back(desk), is)
}

/// Settles a file all of whose entries are durable: it sees what the vault has seen.
pub(crate) fn settle_shared<J: Opening, D: Disk>(
    alloc: Global,
    safe: &mut Safe<J, D>,
    file: FileDesk<J>,
) -> (FileDesk<J>, Result<Option<Receipt>, SafeFault>)
    requires below { length file.seen ≤ durable safe.old.vault.syncs }
    ensures file { result.0 ≡ record file { seen = safe.old.vault.seen; syncs = result.0.syncs } }
    ensures done { IfOk result.1 (λ r. safe.new.vault ≡ settled_to safe.old.vault safe.new.vault file.what file.number r) }
    ensures synced { IfOk result.1 (λ o. IfSome o (HasReceipt safe.new.vault)) }
    ensures undone { OnErr result.1 (safe.new.vault ≡ unsaved_to safe.old.vault safe.new.vault) }
    ensures memory { result.1 ≡ Err NoMemory → safe.new ≡ safe.old }
    ensures risen { IfErr result.1 HasRisen }
    ensures since { IfErr result.1 (IsFaultSince D.view J.ground.opened) }
    ensures safe { Leaves D.view safe.old safe.new result.1 }
{
    let file = safe.show(file);
    safe.settle(alloc, file)
}

/// Settles a file that has seen the whole history of a copy, whose entries are made durable first. The book is free.
pub(crate) fn settle_copied<J: Opening, D: Disk>(
    alloc: Global,
    safe: &mut Safe<J, D>,
    file: FileDesk<J>,
    copied: Copied,
) -> (FileDesk<J>, Result<Option<Receipt>, SafeFault>)
    requires copied { IsCopy J.book safe.old.vault copied file.seen }
    ensures file { result.0 ≡ record file { syncs = result.0.syncs } }
    ensures done { IfOk result.1 (λ r. HasSettled file safe.old.vault safe.new.vault r) }
    ensures synced { IfOk result.1 (λ o. IfSome o (HasReceipt safe.new.vault)) }
    ensures undone { OnErr result.1 (HasStopped file.seen safe.old.vault safe.new.vault) }
    ensures memory { result.1 ≡ Err NoMemory → ((safe.new ≡ safe.old) ⊎ HasFlushed file.seen safe.old.vault safe.new.vault) × (result.0 ≡ file) }
    ensures risen { IfErr result.1 HasRisen }
    ensures since { IfErr result.1 (IsFaultSince D.view J.ground.opened) }
    ensures safe { Leaves D.view safe.old safe.new result.1 }
{
    if let Err(fault) = flush_copied(alloc, safe, copied) {
        return (file, Err(fault));
    }
    safe.settle(alloc, file)
}

/// Puts so many dirty blocks of a file at most into the vault's pool, all of whose entries are durable: it sees what the vault has seen.
pub(crate) fn stage_shared<J: Opening, D: Disk>(
    alloc: Global,
    safe: &mut Safe<J, D>,
    file: FileDesk<J>,
    limit: u32,
) -> (FileDesk<J>, Result<u32, SafeFault>)
    requires below { length file.seen ≤ durable safe.old.vault.syncs }
    ensures file { result.0 ≡ record file { seen = safe.old.vault.seen; syncs = result.0.syncs } }
    ensures few { IfOk result.1 (λ n. n ≤ limit) }
    ensures same { safe.new.vault ≡ left_by_staging safe.old.vault safe.new.vault }
    ensures risen { IfErr result.1 HasRisen }
    ensures since { IfErr result.1 (IsFaultSince D.view J.ground.opened) }
    ensures safe { Leaves D.view safe.old safe.new result.1 }
{
    let file = safe.show(file);
    safe.stage(alloc, file, limit)
}

/// The same of a file that has seen the whole history of a copy, whose entries are made durable first. The book is free.
pub(crate) fn stage_copied<J: Opening, D: Disk>(
    alloc: Global,
    safe: &mut Safe<J, D>,
    file: FileDesk<J>,
    copied: Copied,
    limit: u32,
) -> (FileDesk<J>, Result<u32, SafeFault>)
    requires copied { IsCopy J.book safe.old.vault copied file.seen }
    ensures file { result.0 ≡ record file { syncs = result.0.syncs } }
    ensures few { IfOk result.1 (λ n. n ≤ limit) }
    ensures same { safe.new.vault ≡ left_by_staging safe.old.vault safe.new.vault }
    ensures risen { IfErr result.1 HasRisen }
    ensures since { IfErr result.1 (IsFaultSince D.view J.ground.opened) }
    ensures safe { Leaves D.view safe.old safe.new result.1 }
{
    if let Err(fault) = flush_copied(alloc, safe, copied) {
        return (file, Err(fault));
    }
    safe.stage(alloc, file, limit)
}

#[tactic(auto, using(crate::proofs::Lent::told_saved))]
/// A receipt of the vault, with what the vault has seen. It takes no memory.
pub(crate) fn told<J: Opening, D: Disk>(safe: &mut Safe<J, D>, receipt: Receipt) -> Saved
    requires { HasReceipt safe.old.vault receipt }
    ensures safe { safe.new ≡ safe.old }
    ensures receipt { result.receipt ≡ receipt }
    ensures saved { IsSaved J.book safe.old.vault.seen result }
{
    let _durable = safe.durable();
    let told = safe.note();
    Saved { receipt, told }
}
