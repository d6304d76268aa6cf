//! What a vault does once it can no longer refuse: its disk, its seat and its opening lie beside each other.
ghost use Rattle.std.specs.Prelude.{◌≡◌, ◌⊎◌, ◌+◌, ◌*◌, ◌<◌, ◌≤◌, ◌^◌, ◌++◌, ◌∷◌, [], ℕ, List, length, take, true, false, None, IsTrue, OnOk, OnErr, IfOk, IfErr, IsErrOf, Err};
ghost use Rattle.std.specs.List.{All};
ghost use Rattle.lru.specs.LruCache.{lru_cache};
ghost use Rattle.pass_entry.specs.declared.record.Record.{Record as AnyRecord};
ghost use Rattle.pass_entry.specs.Ranges.{IsInRange};
ghost use Rattle.pass_outside.specs.Areas.{Image};
ghost use Rattle.pass_outside.specs.Moments.{IsAtEnd};
ghost use Rattle.pass_log.specs.LogImage.{IsRead};
ghost use Rattle.pass_range.specs.Lawful.{Tells};
ghost use Rattle.pass_log.specs.Log.{log_end, log_opened};
ghost use Rattle.pass_book.specs.declared.view.Role.TheVariants as role;
ghost use Rattle.pass_book.specs.Names.{name};
ghost use Rattle.pass_book.specs.Numbers.{IsFileNumber};
ghost use Rattle.pass_book.specs.Syncs.{durable};
ghost use Rattle.pass_book.specs.Tokens.{HasMet};
ghost use Rattle.pass_log.specs.Records.{frame_length};
ghost use Rattle.pass_plain.specs.Ceilings.{ceilings_between};
ghost use Rattle.pass_plain.specs.WellLogged.{ceiling_of};
ghost use Rattle.pass_keep.specs.Kept.{Story, IsStory, IsBegun, AreParts, ceilings_length};
ghost use Rattle.pass_keep.specs.Keepers.{disk_of, log_of, durable_of, IsKeeper, HasSpare, GoesOn, Made, Failed, KeptStill, KeptUnsynced};
ghost use Rattle.pass_keep.specs.Dirty.{IsAscending, AreSized};
ghost use Rattle.pass_keep.specs.Parts.{bytes_length, AreFrames};
ghost use Rattle.pass_clean.specs.Blocks.{AreDirty};
ghost use Rattle.pass_vault.specs.Vaulted.{story_of, story_with, flushed, file_synced};
ghost use Rattle.pass_vault.specs.Rooms.{most_entries};
ghost use Rattle.pass_vault.specs.Vaults.{valued, begun_with, IsVault};
ghost use Rattle.pass_vault.specs.Pooled.{pool_capacity, to_write, without_file, sync_calls};
ghost use Rattle.pass_vault.specs.Saves.{KeptSaved, Lands};
ghost use Rattle.pass_vault.specs.Blocks.{AreBlocks};

use crate::opening::Opening;
use crate::unwritten::{Unwritten, blocks_to_write, clear_file};
use crate::vault::Receipt;
use pass_book::{Desk, Note, VaultSeat};
use pass_bounds::laws::histories;
use pass_entry::{Bytes, Pnode, Record, Synced};
use pass_keep::{Block, KeepFault, Keeper};
use pass_log::LogImage;
use pass_outside::Disk;
use pass_pool::Pool;
use std::alloc::Global;

// How many blocks wait in a vault's memory at most.
const POOL_CAPACITY: u32 = 4_096;

/// Opens the keeper of the session that a seat is of.
pub(crate) fn opened<D: Disk>(
    alloc: Global,
    disk: D,
    image: &LogImage,
    ceiling: Pnode,
    ceilings: &[Record],
    seat: &VaultSeat,
    since: u64,
) -> Result<Keeper<D>, (KeepFault, D)>
    requires start { Tells image.now.list.items seat.now.book.session.start }
    requires ceilings { ceilings.now ≡ ceilings_between (ceiling_of image.now.list.items) ceiling }
    requires in_range { All IsInRange ceilings.now }
    requires image { IsRead (D.view disk) image.now }
    requires since { since ≤ (D.view disk).calls }
    requires same { IsTrue (D.view disk).tells → (c : Image) → (D.view disk).left_since since c → c ≡ (D.view disk).seen }
    requires room { image.now.end ≤ 2 ^ 38 }
    requires size { frame_length ceilings.now ≤ ceilings_length }
    ensures kept { IfOk result (λ k. IsKeeper D.view (record { story = begun_with image.now.list.items (D.view disk).seen.store ceiling seat.now since; noted = [] }) k) }
    ensures durable { IfOk result (λ k. durable_of k ≡ 0) }
    ensures healthy { IfOk result (λ k. (D.view (disk_of k)).faults ≡ (D.view disk).faults) }
    ensures place { IfOk result (λ k. log_end (log_of k) ≡ image.now.end + frame_length ceilings.now) }
    ensures opened { IfOk result (λ k. log_opened (log_of k) ≡ (D.view (disk_of k)).faults) }
    ensures goes_on { IfOk result (λ k. GoesOn (D.view disk) (D.view (disk_of k))) }
    ensures begun { IfErr result (λ e. IsBegun (begun_with image.now.list.items (D.view disk).seen.store ceiling seat.now since) (D.view e.1)) }
    ensures failed { IfErr result (λ e. Failed (D.view disk).faults (D.view disk) (D.view e.1) e.0 ⊎ (e.0 ≡ KeepFault.NoMemory)) }
    ensures stopped { IfErr result (λ e. GoesOn (D.view disk) (D.view e.1)) }
{
    let _seen = seat.seen();
    open_as(alloc, disk, image, ceiling, ceilings, seat, since)
}

// The same, where the session is known to be one.
fn open_as<D: Disk>(
    alloc: Global,
    disk: D,
    image: &LogImage,
    ceiling: Pnode,
    ceilings: &[Record],
    seat: &VaultSeat,
    since: u64,
) -> Result<Keeper<D>, (KeepFault, D)>
    ghost story: { Story }
    requires story { story ≡ begun_with image.now.list.items (D.view disk).seen.store ceiling seat.now since }
    requires is_story { IsStory story }
    requires ceilings { ceilings.now ≡ ceilings_between (ceiling_of story.before) story.ceiling }
    requires in_range { All IsInRange ceilings.now }
    requires image { IsRead (D.view disk) image.now }
    requires since { since ≤ (D.view disk).calls }
    requires same { IsTrue (D.view disk).tells → (c : Image) → (D.view disk).left_since since c → c ≡ (D.view disk).seen }
    requires room { image.now.end ≤ 2 ^ 38 }
    requires size { frame_length ceilings.now ≤ ceilings_length }
    ensures kept { IfOk result (λ k. IsKeeper D.view (record { story = story; noted = [] }) k) }
    ensures durable { IfOk result (λ k. durable_of k ≡ 0) }
    ensures healthy { IfOk result (λ k. (D.view (disk_of k)).faults ≡ (D.view disk).faults) }
    ensures place { IfOk result (λ k. log_end (log_of k) ≡ image.now.end + frame_length ceilings.now) }
    ensures opened { IfOk result (λ k. log_opened (log_of k) ≡ (D.view (disk_of k)).faults) }
    ensures goes_on { IfOk result (λ k. GoesOn (D.view disk) (D.view (disk_of k))) }
    ensures begun { IfErr result (λ e. IsBegun story (D.view e.1)) }
    ensures failed { IfErr result (λ e. Failed (D.view disk).faults (D.view disk) (D.view e.1) e.0 ⊎ (e.0 ≡ KeepFault.NoMemory)) }
    ensures stopped { IfErr result (λ e. GoesOn (D.view disk) (D.view e.1)) }
{
    let _ = seat;
    let _ = since;
    let _ = ceiling;
    Keeper::open(alloc, disk, image, ceilings)
}

/// Appends the frames of the entries from the durable number up to those that the note has seen, and notes it.
pub(crate) fn advance<D: Disk>(
    keeper: &mut Keeper<D>,
    seat: &mut VaultSeat,
    opening: &Opening<D>,
    unwritten: &Unwritten,
    frames: &[Vec<u8>],
    upto: Note,
) -> Result<(), KeepFault>
    requires kept { IsVault D.view (valued D.view keeper.old seat.old opening.now unwritten.now) keeper.old }
    requires one { upto.book ≡ seat.old.book }
    requires later { durable seat.old.syncs ≤ length upto.seen }
    requires parts { (parts : List (List AnyRecord)) × AreParts (story_with (valued D.view keeper.old seat.old opening.now unwritten.now) upto.seen) (durable seat.old.syncs) (length upto.seen) parts × AreFrames parts frames.now × All (λ part. 0 < length part) parts }
    requires healthy { (D.view (disk_of keeper.old)).faults ≤ log_opened (log_of keeper.old) }
    requires spare { HasSpare 1 keeper.old }
    requires few { length upto.seen ≤ most_entries }
    ensures kept { IsVault D.view (valued D.view keeper.new seat.new opening.now unwritten.now) keeper.new }
    ensures done { OnOk result (seat.new ≡ record seat.old { seen = seat.new.seen; syncs = seat.old.syncs ++ flushed (D.view (disk_of keeper.new)).calls (length upto.seen) ∷ [] }) }
    ensures undone { OnErr result (seat.new ≡ record seat.old { seen = seat.new.seen }) }
    ensures met { HasMet (name role.Vault 0) seat.old.seen seat.old.syncs upto.seen upto.syncs seat.new.seen seat.old.syncs }
    ensures failed { IfErr result (Failed (log_opened (log_of keeper.old)) (D.view (disk_of keeper.old)) (D.view (disk_of keeper.new))) }
    ensures made { OnOk result (Made (4 * length frames.now) (D.view (disk_of keeper.old)) (D.view (disk_of keeper.new))) }
    ensures opened { log_opened (log_of keeper.new) ≡ log_opened (log_of keeper.old) }
    ensures place { log_end (log_of keeper.new) ≤ log_end (log_of keeper.old) + bytes_length frames.now }
    ensures goes_on { GoesOn (D.view (disk_of keeper.old)) (D.view (disk_of keeper.new)) }
{
    let _ = opening;
    let _ = unwritten;
    histories();
    let entries = upto.seen();
    seat.meet(upto);
    let _seen = seat.seen();
    let sync = keeper.append(frames, entries)?;
    seat.flushed(sync.calls, sync.entries);
    Ok(())
}

/// Takes the memory for what a vault keeps.
pub(crate) fn room<D: Disk>(alloc: Global, keeper: &mut Keeper<D>) -> Result<Pool, KeepFault>
    ensures kept { KeptStill D.view keeper.old keeper.new }
    ensures disk { disk_of keeper.new ≡ disk_of keeper.old }
    ensures log { log_of keeper.new ≡ log_of keeper.old }
    ensures durable { durable_of keeper.new ≡ durable_of keeper.old }
    ensures spare { OnOk result (HasSpare 1 keeper.new) }
    ensures pool { IfOk result (λ pool. pool ≡ lru_cache [] pool_capacity) }
{
    keeper.ready(1)?;
    Ok(Pool::new(alloc, POOL_CAPACITY)?)
}

// Whether there is nothing to write and nothing to sync.
fn is_idle(unsynced: bool, blocks: &[Block<'_>]) -> bool
    ensures idle { result ≡ true → (length blocks.now ≡ 0) × (unsynced ≡ false) }
    ensures busy { result ≡ false → length blocks.now ≡ 0 → unsynced ≡ false → ⊥ }
{
    blocks.is_empty() && !unsynced
}

// Writes blocks and syncs the store area. Where there is none, and nothing is unsynced, it makes no device call.
fn write<D: Disk>(
    keeper: &mut Keeper<D>,
    unsynced: bool,
    blocks: &[Block<'_>],
) -> Result<Synced, KeepFault>
    requires spare { HasSpare 1 keeper.old }
    requires ascending { IsAscending blocks.now }
    requires sized { AreSized blocks.now }
    ensures kept { OnOk result (KeptSaved D.view unsynced blocks.now keeper.old keeper.new) }
    ensures err { OnErr result (KeptUnsynced D.view blocks.now keeper.old keeper.new) }
    ensures lands { OnOk result (Lands D.view unsynced blocks.now keeper.old keeper.new) }
    ensures going { OnOk result (unsynced ≡ true → IsAtEnd (D.view (disk_of keeper.old)) → ⊥) }
    ensures sync { IfOk result (λ s. s ≡ record { calls = (D.view (disk_of keeper.new)).calls; entries = durable_of keeper.old }) }
    ensures durable { durable_of keeper.new ≡ durable_of keeper.old }
    ensures log { log_of keeper.new ≡ log_of keeper.old }
    ensures failed { IfErr result (Failed (log_opened (log_of keeper.old)) (D.view (disk_of keeper.old)) (D.view (disk_of keeper.new))) }
    ensures made { OnOk result (Made (sync_calls unsynced (length blocks.now)) (D.view (disk_of keeper.old)) (D.view (disk_of keeper.new))) }
    ensures idle { length blocks.now ≡ 0 → unsynced ≡ false → disk_of keeper.new ≡ disk_of keeper.old }
    ensures goes_on { GoesOn (D.view (disk_of keeper.old)) (D.view (disk_of keeper.new)) }
{
    if is_idle(unsynced, blocks) {
        return Ok(keeper.clean());
    }
    keeper.write(blocks)
}

// Writes what waits of the desk's file, syncs the store area, and notes it.
fn save<D: Disk>(
    keeper: &mut Keeper<D>,
    seat: &mut VaultSeat,
    opening: &Opening<D>,
    unwritten: &Unwritten,
    desk: &mut Desk,
    number: u32,
    blocks: &[Block<'_>],
) -> Result<Receipt, KeepFault>
    requires kept { IsVault D.view (valued D.view keeper.old seat.old opening.now unwritten.now) keeper.old }
    requires one { desk.old.book ≡ seat.old.book }
    requires number { IsFileNumber seat.old.book.session desk.old.seen desk.old.what number }
    requires dirty { (given : List (ℕ × List ℕ)) × AreDirty seat.old.book.session (take (durable seat.old.syncs) seat.old.seen) desk.old.syncs desk.old.what given
        × AreBlocks number (to_write unwritten.now.pool number given) blocks.now }
    requires healthy { (D.view (disk_of keeper.old)).faults ≤ log_opened (log_of keeper.old) }
    requires spare { HasSpare 1 keeper.old }
    ensures kept { OnOk result (IsVault D.view (valued D.view keeper.new seat.new opening.now (record { pool = without_file number unwritten.now.pool; unsynced = false })) keeper.new) }
    ensures lost { OnErr result (IsVault D.view (valued D.view keeper.new seat.new opening.now (record { pool = unwritten.now.pool; unsynced = true })) keeper.new) }
    ensures done { OnOk result (seat.new ≡ record seat.old { seen = desk.new.seen; syncs = seat.old.syncs ++ file_synced desk.old.what number (D.view (disk_of keeper.new)).calls (durable seat.old.syncs) ∷ [] }) }
    ensures undone { OnErr result (seat.new ≡ record seat.old { seen = desk.new.seen }) }
    ensures desk { desk.new ≡ record desk.old { seen = desk.new.seen; syncs = seat.new.syncs } }
    ensures met { HasMet (name role.Desk desk.old.what) desk.old.seen desk.old.syncs seat.old.seen seat.old.syncs desk.new.seen seat.old.syncs }
    ensures receipt { IfOk result (λ r. r ≡ record { calls = (D.view (disk_of keeper.new)).calls; entries = durable seat.old.syncs }) }
    ensures failed { IfErr result (Failed (log_opened (log_of keeper.old)) (D.view (disk_of keeper.old)) (D.view (disk_of keeper.new))) }
    ensures made { OnOk result (Made (sync_calls unwritten.now.unsynced (length blocks.now)) (D.view (disk_of keeper.old)) (D.view (disk_of keeper.new))) }
    ensures idle { length blocks.now ≡ 0 → unwritten.now.unsynced ≡ false → disk_of keeper.new ≡ disk_of keeper.old }
    ensures log { log_of keeper.new ≡ log_of keeper.old }
    ensures goes_on { GoesOn (D.view (disk_of keeper.old)) (D.view (disk_of keeper.new)) }
{
    let _ = opening;
    seat.meet_desk(desk);
    let _seen = seat.seen();
    let sync = write(keeper, unwritten.unsynced, blocks)?;
    seat.synced_file(desk, number, sync.calls, sync.entries);
    Ok(Receipt {
        calls: sync.calls,
        entries: sync.entries,
    })
}

/// Writes the given blocks of the desk's file and those of it that wait, by block, syncs the store area, and notes it. Where
/// there is none, and nothing is unsynced, it makes no device call.
pub(crate) fn save_file<D: Disk>(
    alloc: Global,
    keeper: &mut Keeper<D>,
    seat: &mut VaultSeat,
    opening: &Opening<D>,
    unwritten: &mut Unwritten,
    desk: &mut Desk,
    number: u32,
    given: &[(u32, Bytes)],
) -> Result<Receipt, KeepFault>
    requires kept { IsVault D.view (valued D.view keeper.old seat.old opening.now unwritten.old) keeper.old }
    requires one { desk.old.book ≡ seat.old.book }
    requires number { IsFileNumber seat.old.book.session desk.old.seen desk.old.what number }
    requires dirty { AreDirty seat.old.book.session (take (durable seat.old.syncs) seat.old.seen) desk.old.syncs desk.old.what given.now }
    requires healthy { (D.view (disk_of keeper.old)).faults ≤ log_opened (log_of keeper.old) }
    requires spare { HasSpare 1 keeper.old }
    ensures kept { IsVault D.view (valued D.view keeper.new seat.new opening.now unwritten.new) keeper.new }
    ensures done { OnOk result (seat.new ≡ record seat.old { seen = desk.new.seen; syncs = seat.old.syncs ++ file_synced desk.old.what number (D.view (disk_of keeper.new)).calls (durable seat.old.syncs) ∷ [] }) }
    ensures written { OnOk result ((unwritten.new.pool ≡ without_file number unwritten.old.pool) × (unwritten.new.unsynced ≡ false)) }
    ensures desk { OnOk result (desk.new ≡ record desk.old { seen = desk.new.seen; syncs = seat.new.syncs }) }
    ensures met { OnOk result (HasMet (name role.Desk desk.old.what) desk.old.seen desk.old.syncs seat.old.seen seat.old.syncs desk.new.seen seat.old.syncs) }
    ensures receipt { IfOk result (λ r. r ≡ record { calls = (D.view (disk_of keeper.new)).calls; entries = durable seat.old.syncs }) }
    ensures failed { (opened now : ℕ) → IsErrOf result (KeepFault.DiskFault opened now) → Failed (log_opened (log_of keeper.old)) (D.view (disk_of keeper.old)) (D.view (disk_of keeper.new)) (KeepFault.DiskFault opened now)
        × (seat.new ≡ record seat.old { seen = desk.new.seen }) × (unwritten.new.pool ≡ unwritten.old.pool) × (desk.new ≡ record desk.old { seen = desk.new.seen; syncs = seat.new.syncs })
        × HasMet (name role.Desk desk.old.what) desk.old.seen desk.old.syncs seat.old.seen seat.old.syncs desk.new.seen seat.old.syncs }
    ensures no_memory { IsErrOf result KeepFault.NoMemory → (seat.new ≡ seat.old) × (unwritten.new ≡ unwritten.old) × (desk.new ≡ desk.old) × (keeper.new ≡ keeper.old) }
    ensures only { (opened now : ℕ) → IsErrOf result (KeepFault.Broken opened now) → ⊥ }
    ensures made { OnOk result (Made (sync_calls unwritten.old.unsynced (length (to_write unwritten.old.pool number given.now))) (D.view (disk_of keeper.old)) (D.view (disk_of keeper.new))) }
    ensures idle { to_write unwritten.old.pool number given.now ≡ [] → unwritten.old.unsynced ≡ false → disk_of keeper.new ≡ disk_of keeper.old }
    ensures log { log_of keeper.new ≡ log_of keeper.old }
    ensures goes_on { GoesOn (D.view (disk_of keeper.old)) (D.view (disk_of keeper.new)) }
{
    let blocks = blocks_to_write(alloc, &unwritten.pool, number, given)?;
    let saved = save(keeper, seat, opening, unwritten, desk, number, &blocks);
    drop(blocks);
    match saved {
        Ok(receipt) => {
            clear_file(&mut unwritten.pool, number);
            unwritten.unsynced = false;
            Ok(receipt)
        }
        Err(fault) => {
            unwritten.unsynced = true;
            Err(fault)
        }
    }
}
