//! The keeper of a session's records and bytes.
use crate::append::append_frames;
use crate::begin::begin;
use crate::block::write_blocks;
use crate::fault::fault_of;
use crate::{Block, KeepFault};
use pass_entry::{Record, Synced};
use pass_log::{Log, LogImage};
use pass_outside::Disk;
use pass_range::write_range;
use std::alloc::Global;

/// Keeps a session on a disk: it alone writes there. It knows how many entries are durable, and each sync that came.
///
/// Whatever its calls answer, each crash since a sync leaves the entries that were durable then, and the ranges that it
/// covers.
#[derive(Drop)]
pub struct Keeper<D> {
    disk: D,
    log: Log,
    durable: u64,
    syncs: Vec<Synced>,
}

impl<D: Disk> Keeper<D> {
    ghost use Rattle.std.specs.Prelude.{◌≡◌, ◌⊎◌, ◌+◌, ◌*◌, ◌<◌, ◌≤◌, ◌^◌, ◌++◌, ◌∷◌, [], ℕ, length, List, Vec, slice_get, Some, OnOk, OnErr, Err, IsTrue, IfOk, IfErr};
    ghost use Rattle.std.specs.declared.alloc.Global.{Global as AnyGlobal};
    ghost use Rattle.pass_entry.specs.declared.record.Record.{Record as AnyRecord};
    ghost use Rattle.std.specs.List.{All};
    ghost use Rattle.pass_plain.specs.Ceilings.{ceilings_between};
    ghost use Rattle.pass_plain.specs.WellLogged.{ceiling_of};
    ghost use Rattle.pass_log.specs.Records.{frame_length};
    ghost use Rattle.pass_entry.specs.Ranges.{IsInRange};
    ghost use Rattle.pass_outside.specs.Areas.{Image};
    ghost use Rattle.pass_outside.specs.Moments.{IsAtEnd};
    ghost use Rattle.pass_log.specs.Log.{log_end, log_opened, IsSettled, IsFrameOf, LeavesStore};
    ghost use Rattle.pass_log.specs.LogImage.{IsRead};
    ghost use Rattle.pass_keep.specs.Kept.{Story, IsStory, IsUnwritten, IsBegun, ceilings_length};
    ghost use Rattle.pass_keep.specs.Dirty.{AreSized, IsAscending, Beside};
    ghost use Rattle.pass_entry.specs.Limits.{block_count};
    ghost use Rattle.pass_plain.specs.Records.{block_size};
    ghost use Rattle.pass_range.specs.Places.{place, Holds};
    ghost use Rattle.pass_keep.specs.Parts.{bytes_length};
    ghost use Rattle.pass_keep.specs.Keepers.{disk_of, log_of, durable_of, syncs_of, IsKeeper, HasSpare, TakesSpare, GoesOn, Made, Failed, KeptStill, KeptFlushed, KeptUnflushed, KeptSynced, KeptUnsynced, KeptClean};

    /// Begins a session on a disk of which that log image was read, with nothing written since the session's start, and
    /// appends the records that raise the ceiling for it as one frame. After a fault the disk is handed back.
    pub fn open(
        alloc: Global,
        disk: D,
        image: &LogImage,
        ceilings: &[Record],
    ) -> Result<Keeper<D>, (KeepFault, D)>
        ghost story: { Story }
        requires before { story.before ≡ image.now.list.items }
        requires ceilings { ceilings.now ≡ ceilings_between (ceiling_of story.before) story.ceiling }
        requires in_range { All IsInRange ceilings.now }
        requires image { IsRead (D.view disk) image.now }
        requires start { story.start ≤ (D.view disk).calls }
        requires since { IsUnwritten story (D.view disk) }
        requires room { image.now.end ≤ 2 ^ 38 }
        requires size { frame_length ceilings.now ≤ ceilings_length }
        requires story { IsStory story }

        ensures kept { IfOk result (λ k. IsKeeper D.view (record { story = story; noted = [] }) k) }
        ensures durable { IfOk result (λ k. durable_of k ≡ 0) }
        ensures healthy { IfOk result (λ k. (D.view (disk_of k)).faults ≡ (D.view disk).faults) }
        ensures place { IfOk result (λ k. log_end (log_of k) ≡ image.now.end + frame_length ceilings.now) }
        ensures opened { IfOk result (λ k. log_opened (log_of k) ≡ (D.view (disk_of k)).faults) }
        ensures goes_on { IfOk result (λ k. GoesOn (D.view disk) (D.view (disk_of k))) }
        // A crash at any moment since the start leaves what was there before, or the records from before and those that raise the ceiling.
        ensures begun { IfErr result (λ e. IsBegun story (D.view e.1)) }
        ensures failed { IfErr result (λ e. Failed (D.view disk).faults (D.view disk) (D.view e.1) e.0 ⊎ (e.0 ≡ KeepFault.NoMemory)) }
        ensures stopped { IfErr result (λ e. GoesOn (D.view disk) (D.view e.1)) }
    {
        let mut disk = disk;
        let opened = disk.faults();
        match begin(alloc, &mut disk, image, ceilings) {
            Ok(log) => Ok(Keeper {
                disk,
                log,
                durable: 0,
                syncs: Vec::new(alloc),
            }),
            Err(fault) => {
                let now = disk.faults();
                Err((fault_of(fault, opened, now), disk))
            }
        }
    }

    /// How many entries from the history's front are durable.
    pub fn durable(&self) -> u64
        ensures { result ≡ durable_of self.now }
    {
        self.durable
    }

    /// The syncs that came, in their order.
    pub fn syncs(&self) -> &[Synced]
        ensures { result.now ≡ syncs_of self.now }
    {
        &self.syncs
    }

    /// The disk, and the syncs that came.
    pub fn into_disk(self) -> (D, Vec<Synced>)
        ensures disk { result.0 ≡ disk_of self }
        ensures syncs { result.1.items ≡ syncs_of self }
    {
        (self.disk, self.syncs)
    }

    /// Takes the memory for so many syncs more, unless the disk had a fault since the log was opened.
    pub fn ready(&mut self, syncs: usize) -> Result<(), KeepFault>
        ensures kept { KeptStill D.view self.old self.new }
        ensures disk { disk_of self.new ≡ disk_of self.old }
        ensures log { log_of self.new ≡ log_of self.old }
        ensures durable { durable_of self.new ≡ durable_of self.old }
        ensures syncs { syncs_of self.new ≡ syncs_of self.old }
        ensures ok { OnOk result (HasSpare syncs self.new × ((D.view (disk_of self.old)).faults ≤ log_opened (log_of self.old))) }
        // Exactly where the disk had a fault since the log was opened.
        ensures broken { log_opened (log_of self.old) < (D.view (disk_of self.old)).faults
            → (result ≡ Err (KeepFault.Broken (log_opened (log_of self.old)) (D.view (disk_of self.old)).faults)) × (self.new ≡ self.old) }
        ensures err { IfErr result (λ e. (e ≡ KeepFault.NoMemory) ⊎ (log_opened (log_of self.old) < (D.view (disk_of self.old)).faults)) }
    {
        let opened = self.log.opened();
        let now = self.disk.faults();
        if now > opened {
            return Err(KeepFault::Broken { opened, now });
        }
        self.syncs.reserve(syncs)?;
        Ok(())
    }

    // The fault of a device call that failed.
    fn failed(&self) -> KeepFault
        ensures { result ≡ KeepFault.DiskFault (log_opened (log_of self.now)) (D.view (disk_of self.now)).faults }
    {
        KeepFault::DiskFault {
            opened: self.log.opened(),
            now: self.disk.faults(),
        }
    }

    // Notes a sync at this moment.
    fn note(&mut self) -> Synced
        requires { HasSpare 1 self.old }
        ensures spare { TakesSpare self.old self.new }
        ensures disk { disk_of self.new ≡ disk_of self.old }
        ensures log { log_of self.new ≡ log_of self.old }
        ensures durable { durable_of self.new ≡ durable_of self.old }
        ensures sync { result ≡ record { calls = (D.view (disk_of self.old)).calls; entries = durable_of self.old } }
        ensures syncs { syncs_of self.new ≡ syncs_of self.old ++ record { calls = (D.view (disk_of self.old)).calls; entries = durable_of self.old } ∷ [] }
        ensures now { (c : Image) → (D.view (disk_of self.old)).left_since (D.view (disk_of self.old)).calls c → (D.view (disk_of self.old)).may_leave c }
    {
        let calls = self.disk.calls();
        let entries = self.durable;
        let sync = Synced { calls, entries };
        let _pushed = self.syncs.push(sync);
        sync
    }

    /// Appends frames, four device calls each, after which so many entries are durable, and notes it. It takes no memory.
    pub fn append(&mut self, frames: &[Vec<u8>], upto: u64) -> Result<Synced, KeepFault>
        requires settled { IsSettled (log_of self.old) (D.view (disk_of self.old)) }
        requires healthy { (D.view (disk_of self.old)).faults ≤ log_opened (log_of self.old) }
        requires spare { HasSpare 1 self.old }
        requires frames { (i : ℕ) (frame : Vec ℕ AnyGlobal) → slice_get frames.now i ≡ Some frame → (batch : List AnyRecord) × IsFrameOf batch frame.items }
        requires room { log_end (log_of self.old) + bytes_length frames.now < 2 ^ 39 }
        ensures kept { OnOk result (KeptFlushed D.view frames.now upto self.old self.new) }
        ensures err { OnErr result (KeptUnflushed D.view frames.now upto self.old self.new) }
        ensures sync { IfOk result (λ s. s ≡ record { calls = (D.view (disk_of self.new)).calls; entries = upto }) }
        ensures durable { OnOk result (durable_of self.new ≡ upto) }
        ensures durable_before { OnErr result (durable_of self.new ≡ durable_of self.old) }
        ensures failed { IfErr result (Failed (log_opened (log_of self.old)) (D.view (disk_of self.old)) (D.view (disk_of self.new))) }
        ensures made { OnOk result (Made (4 * length frames.now) (D.view (disk_of self.old)) (D.view (disk_of self.new))) }
        ensures opened { log_opened (log_of self.new) ≡ log_opened (log_of self.old) }
        ensures place { log_end (log_of self.new) ≤ log_end (log_of self.old) + bytes_length frames.now }
        ensures store { LeavesStore (D.view (disk_of self.old)) (D.view (disk_of self.new)) }
        // A disk of which a count stands at its end takes no frame.
        ensures stands { IsAtEnd (D.view (disk_of self.old)) → log_of self.new ≡ log_of self.old }
        ensures spare { TakesSpare self.old self.new }
        ensures goes_on { GoesOn (D.view (disk_of self.old)) (D.view (disk_of self.new)) }
    {
        if append_frames(&mut self.log, &mut self.disk, frames).is_err() {
            return Err(self.failed());
        }
        self.durable = upto;
        Ok(self.note())
    }

    /// Writes blocks, one device call each, syncs the store area, and notes it. It takes no memory.
    pub fn write(&mut self, blocks: &[Block<'_>]) -> Result<Synced, KeepFault>
        requires spare { HasSpare 1 self.old }
        requires ascending { IsAscending blocks.now }
        requires sized { AreSized blocks.now }
        ensures kept { OnOk result (KeptSynced D.view blocks.now self.old self.new) }
        ensures err { OnErr result (KeptUnsynced D.view blocks.now self.old self.new) }
        ensures seen { OnOk result (IsTrue (D.view (disk_of self.old)).tells → Beside blocks.now (D.view (disk_of self.old)).seen (D.view (disk_of self.new)).seen) }
        // A disk of which a count stands at its end takes no sync.
        ensures going { OnOk result (IsAtEnd (D.view (disk_of self.old)) → ⊥) }
        ensures whole { OnOk result ((c : Image) → (D.view (disk_of self.new)).left_since (D.view (disk_of self.new)).calls c → c.store ≡ (D.view (disk_of self.new)).seen.store) }
        ensures sync { IfOk result (λ s. s ≡ record { calls = (D.view (disk_of self.new)).calls; entries = durable_of self.old }) }
        ensures durable { durable_of self.new ≡ durable_of self.old }
        ensures log { log_of self.new ≡ log_of self.old }
        ensures failed { IfErr result (Failed (log_opened (log_of self.old)) (D.view (disk_of self.old)) (D.view (disk_of self.new))) }
        ensures made { OnOk result (Made (length blocks.now + 1) (D.view (disk_of self.old)) (D.view (disk_of self.new))) }
        ensures spare { TakesSpare self.old self.new }
        ensures goes_on { GoesOn (D.view (disk_of self.old)) (D.view (disk_of self.new)) }
    {
        if write_blocks(&mut self.disk, blocks).is_err() {
            return Err(self.failed());
        }
        Ok(self.note())
    }

    /// Writes a block by one device call, without a sync. It takes no memory.
    pub fn put(&mut self, block: Block<'_>) -> Result<(), KeepFault>
        requires sized { (block.block < block_count) × (length block.bytes.now ≤ block_size) }
        ensures kept { KeptUnsynced D.view (block.entry ∷ []) self.old self.new }
        ensures held { OnOk result (IsTrue (D.view (disk_of self.old)).tells → Holds (place block.entry.number block.entry.block) block.entry.bytes.now (D.view (disk_of self.new)).seen.store) }
        ensures seen { OnOk result (IsTrue (D.view (disk_of self.old)).tells → Beside (block.entry ∷ []) (D.view (disk_of self.old)).seen (D.view (disk_of self.new)).seen) }
        ensures durable { durable_of self.new ≡ durable_of self.old }
        ensures log { log_of self.new ≡ log_of self.old }
        ensures failed { IfErr result (Failed (log_opened (log_of self.old)) (D.view (disk_of self.old)) (D.view (disk_of self.new))) }
        ensures made { OnOk result (Made 1 (D.view (disk_of self.old)) (D.view (disk_of self.new))) }
        ensures goes_on { GoesOn (D.view (disk_of self.old)) (D.view (disk_of self.new)) }
    {
        if write_range(&mut self.disk, block.number, block.block, block.bytes).is_err() {
            return Err(self.failed());
        }
        Ok(())
    }

    /// The count of the disk's calls.
    pub fn calls(&self) -> u64
        ensures { result ≡ (D.view (disk_of self.now)).calls }
    {
        self.disk.calls()
    }

    /// Notes a sync of files of which each crash leaves the bytes of the dirty blocks. It makes no device call and takes no
    /// memory.
    pub fn clean(&mut self) -> Synced
        requires spare { HasSpare 1 self.old }
        ensures kept { KeptClean D.view self.old self.new }
        ensures sync { result ≡ record { calls = (D.view (disk_of self.old)).calls; entries = durable_of self.old } }
        ensures disk { disk_of self.new ≡ disk_of self.old }
        ensures log { log_of self.new ≡ log_of self.old }
        ensures durable { durable_of self.new ≡ durable_of self.old }
        ensures spare { TakesSpare self.old self.new }
    {
        self.note()
    }
}
