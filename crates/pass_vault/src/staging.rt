//! Blocks that are put into a vault's pool to be written later.
ghost use Rattle.std.specs.Prelude.{◌≡◌, ◌⊎◌, ◌+◌, ◌<◌, ◌≤◌, ◌++◌, ◌∷◌, [], ℕ, List, length, take, true, None, OnOk, OnErr, IfErr, IsErrOf, Err};
ghost use Rattle.pass_outside.specs.Moments.{IsAtEnd};
ghost use Rattle.pass_log.specs.Log.{log_opened};
ghost use Rattle.pass_book.specs.declared.view.Role.TheVariants as role;
ghost use Rattle.pass_book.specs.Names.{name};
ghost use Rattle.pass_book.specs.Numbers.{IsFileNumber};
ghost use Rattle.pass_book.specs.Syncs.{durable};
ghost use Rattle.pass_book.specs.Tokens.{HasMet};
ghost use Rattle.pass_pool.specs.Pools.{pushed_out};
ghost use Rattle.pass_keep.specs.Keepers.{disk_of, log_of, durable_of, GoesOn, Made, Failed, KeptStill};
ghost use Rattle.pass_vault.specs.Vaulted.{file_staged};
ghost use Rattle.pass_vault.specs.Vaults.{valued, IsVault};
ghost use Rattle.pass_vault.specs.Pooled.{with_block, staged_all, list_of, pushed_all, Unsyncs};
ghost use Rattle.pass_vault.specs.Saves.{IsStageable, Stages, StagesNone};
ghost use Rattle.pass_vault.specs.Blocks.{AreSomeDirty};

use crate::opening::Opening;
use crate::unwritten::Unwritten;
use pass_book::{Desk, VaultSeat};
use pass_entry::Bytes;
use pass_keep::{Block, KeepFault, Keeper};
use pass_outside::Disk;

/// Refuses where the disk had a fault since the log was opened.
pub(crate) fn check<D: Disk>(keeper: &mut Keeper<D>) -> Result<(), KeepFault>
    ensures kept { KeptStill D.view keeper.old keeper.new }
    ensures disk { disk_of keeper.new ≡ disk_of keeper.old }
    ensures log { log_of keeper.new ≡ log_of keeper.old }
    ensures durable { durable_of keeper.new ≡ durable_of keeper.old }
    ensures broken { log_opened (log_of keeper.old) < (D.view (disk_of keeper.old)).faults
        → (result ≡ Err (KeepFault.Broken (log_opened (log_of keeper.old)) (D.view (disk_of keeper.old)).faults)) × (keeper.new ≡ keeper.old) }
    ensures only { OnErr result (log_opened (log_of keeper.old) < (D.view (disk_of keeper.old)).faults) }
{
    match keeper.ready(0) {
        // No memory was asked for.
        Err(KeepFault::NoMemory) => Ok(()),
        ready => ready,
    }
}

// Puts a block into the pool, and writes the one that it pushes out.
fn put_one<D: Disk>(
    keeper: &mut Keeper<D>,
    unwritten: &mut Unwritten,
    number: u32,
    block: u32,
    bytes: Bytes,
) -> Result<(), KeepFault>
    requires known { IsStageable D.view keeper.old unwritten.old number ((block, bytes) ∷ []) }
    ensures kept { OnOk result (Stages D.view number ((block, bytes) ∷ []) keeper.old unwritten.old keeper.new unwritten.new) }
    ensures still { OnErr result (StagesNone D.view number ((block, bytes) ∷ []) keeper.old unwritten.old keeper.new unwritten.new) }
    ensures pool { OnOk result (unwritten.new.pool ≡ with_block unwritten.old.pool number (block, bytes)) }
    ensures unsynced { OnOk result (Unsyncs (list_of (pushed_out unwritten.old.pool (record { number = number; block = block }))) unwritten.old.unsynced unwritten.new.unsynced) }
    ensures made { OnOk result (Made (length (list_of (pushed_out unwritten.old.pool (record { number = number; block = block })))) (D.view (disk_of keeper.old)) (D.view (disk_of keeper.new))) }
    ensures failed { (opened now : ℕ) → IsErrOf result (KeepFault.DiskFault opened now) → Failed (log_opened (log_of keeper.old)) (D.view (disk_of keeper.old)) (D.view (disk_of keeper.new)) (KeepFault.DiskFault opened now) }
    ensures only { (opened now : ℕ) → IsErrOf result (KeepFault.Broken opened now) → ⊥ }
    ensures no_memory { IsErrOf result KeepFault.NoMemory → (D.view (disk_of keeper.new)).faults ≡ (D.view (disk_of keeper.old)).faults }
    ensures log { log_of keeper.new ≡ log_of keeper.old }
    ensures durable { durable_of keeper.new ≡ durable_of keeper.old }
    ensures goes_on { GoesOn (D.view (disk_of keeper.old)) (D.view (disk_of keeper.new)) }
{
    let _len = unwritten.pool.len();
    let Some(out) = unwritten.pool.put(number, block, bytes)? else {
        return Ok(());
    };
    unwritten.unsynced = true;
    keeper.put(Block {
        number: out.number,
        block: out.block,
        bytes: out.bytes.as_bytes(),
    })
}

// Puts blocks of a file into the pool, in their order.
fn put_all<D: Disk>(
    keeper: &mut Keeper<D>,
    unwritten: &mut Unwritten,
    number: u32,
    blocks: &[(u32, Bytes)],
) -> Result<(), KeepFault>
    requires known { IsStageable D.view keeper.old unwritten.old number blocks.now }
    ensures kept { OnOk result (Stages D.view number blocks.now keeper.old unwritten.old keeper.new unwritten.new) }
    ensures still { OnErr result (StagesNone D.view number blocks.now keeper.old unwritten.old keeper.new unwritten.new) }
    ensures pool { OnOk result (unwritten.new.pool ≡ staged_all unwritten.old.pool number blocks.now) }
    ensures unsynced { OnOk result (Unsyncs (pushed_all unwritten.old.pool number blocks.now) unwritten.old.unsynced unwritten.new.unsynced) }
    ensures made { OnOk result (Made (length (pushed_all unwritten.old.pool number blocks.now)) (D.view (disk_of keeper.old)) (D.view (disk_of keeper.new))) }
    ensures failed { (opened now : ℕ) → IsErrOf result (KeepFault.DiskFault opened now) → Failed (log_opened (log_of keeper.old)) (D.view (disk_of keeper.old)) (D.view (disk_of keeper.new)) (KeepFault.DiskFault opened now) }
    ensures only { (opened now : ℕ) → IsErrOf result (KeepFault.Broken opened now) → ⊥ }
    ensures no_memory { IsErrOf result KeepFault.NoMemory → (D.view (disk_of keeper.new)).faults ≡ (D.view (disk_of keeper.old)).faults }
    ensures log { log_of keeper.new ≡ log_of keeper.old }
    ensures durable { durable_of keeper.new ≡ durable_of keeper.old }
    ensures goes_on { GoesOn (D.view (disk_of keeper.old)) (D.view (disk_of keeper.new)) }
{
    for one in blocks {
        let (block, bytes) = one;
        let bytes = bytes.clone()?;
        put_one(keeper, unwritten, number, *block, bytes)?;
    }
    Ok(())
}

/// Puts blocks of the desk's file into the pool, and notes the staging.
pub(crate) fn stage_file<D: Disk>(
    keeper: &mut Keeper<D>,
    seat: &mut VaultSeat,
    opening: &Opening<D>,
    unwritten: &mut Unwritten,
    desk: &mut Desk,
    number: u32,
    blocks: &[(u32, Bytes)],
) -> Result<(), KeepFault>
    requires kept { IsVault D.view (valued D.view keeper.old seat.old opening.now unwritten.old) keeper.old }
    requires one { desk.old.book ≡ seat.old.book }
    requires number { IsFileNumber seat.old.book.session desk.old.seen desk.old.what number }
    requires dirty { AreSomeDirty seat.old.book.session (take (durable seat.old.syncs) seat.old.seen) desk.old.syncs desk.old.what blocks.now }
    ensures kept { IsVault D.view (valued D.view keeper.new seat.new opening.now unwritten.new) keeper.new }
    ensures done { OnOk result (seat.new ≡ record seat.old { seen = desk.new.seen; syncs = seat.old.syncs ++ file_staged desk.old.what number (D.view (disk_of keeper.new)).calls (durable seat.old.syncs) blocks.now ∷ [] }) }
    ensures undone { OnErr result (seat.new ≡ record seat.old { seen = desk.new.seen }) }
    ensures desk { desk.new ≡ record desk.old { seen = desk.new.seen; syncs = seat.new.syncs } }
    ensures met { HasMet (name role.Desk desk.old.what) desk.old.seen desk.old.syncs seat.old.seen seat.old.syncs desk.new.seen seat.old.syncs }
    ensures pool { OnOk result (unwritten.new.pool ≡ staged_all unwritten.old.pool number blocks.now) }
    ensures unsynced { OnOk result (Unsyncs (pushed_all unwritten.old.pool number blocks.now) unwritten.old.unsynced unwritten.new.unsynced) }
    ensures made { OnOk result (Made (length (pushed_all unwritten.old.pool number blocks.now)) (D.view (disk_of keeper.old)) (D.view (disk_of keeper.new))) }
    ensures failed { (opened now : ℕ) → IsErrOf result (KeepFault.DiskFault opened now) → Failed (log_opened (log_of keeper.old)) (D.view (disk_of keeper.old)) (D.view (disk_of keeper.new)) (KeepFault.DiskFault opened now) }
    ensures only { (opened now : ℕ) → IsErrOf result (KeepFault.Broken opened now) → ⊥ }
    ensures no_memory { IsErrOf result KeepFault.NoMemory → (D.view (disk_of keeper.new)).faults ≡ (D.view (disk_of keeper.old)).faults }
    ensures log { log_of keeper.new ≡ log_of keeper.old }
    ensures goes_on { GoesOn (D.view (disk_of keeper.old)) (D.view (disk_of keeper.new)) }
{
    let _ = opening;
    seat.meet_desk(desk);
    let _seen = seat.seen();
    put_all(keeper, unwritten, number, blocks)?;
    let calls = keeper.calls();
    let entries = keeper.durable();
    seat.staged_file(desk, number, blocks, calls, entries);
    Ok(())
}
