//! The vault of a session.
ghost use Rattle.std.specs.Prelude.{◌≡◌, ℕ};

use crate::VaultFault;
use crate::frames::frames_of;
use crate::opening::Opening;
use crate::staging::{check, stage_file};
use crate::steps::{advance, opened, room, save_file};
use crate::unwritten::{Unwritten, has_file};
use pass_book::{Desk, Note, VaultSeat};
use pass_entry::{Bytes, Pnode, Record, Synced};
use pass_keep::{KeepFault, Keeper, stage_all};
use pass_log::{LogFault, LogImage};
use pass_outside::Disk;
use std::alloc::Global;
use std::marker::Model;
use std::snapshot::Snapshot;

/// What a sync has come to: the disk's count of calls as it returned, and how many entries were durable.
#[derive(Clone, Copy, PartialEq, Eq, Drop)]
pub struct Receipt {
    pub calls: u64,
    pub entries: u64,
}

/// Keeps a session's entries and the data of its files on a disk. Of what a crash leaves its type says all, whatever its
/// calls answered.
#[derive(Drop)]
pub struct Vault<D: Disk> {
    keeper: Keeper<D>,
    pub(crate) seat: VaultSeat,
    opening: Opening<D>,
    unwritten: Unwritten,
}

impl<D: Disk> Model for Vault<D> {
    ghost use Rattle.std.specs.Coded.{codes, coded_ℕ, coded_list};
    ghost use Rattle.lru.specs.LruCache.{lru_cache_code};
    ghost use Rattle.pass_pool.specs.contracts.pool.FileBlock as block_type;
    ghost use Rattle.pass_entry.specs.contracts.entry.Entry as entry_type;
    ghost use Rattle.pass_entry.specs.contracts.record.Record as record_type;
    ghost use Rattle.pass_plain.specs.contracts.start.Start as start_type;
    ghost use Rattle.pass_vault.specs.Vaulted.{Vaulted};
    ghost use Rattle.pass_vault.specs.Vaults.{valued, IsVault};

    ghost Value = { Vaulted D };

    ghost coded = { Prim.hlevel (codes, entry_type.the_row.coded, record_type.the_row.coded, start_type.the_row.coded, lru_cache_code block_type.the_row.coded (coded_list coded_ℕ)) };

    ghost view = { λ v. valued D.view v.keeper v.seat v.opening v.unwritten };

    ghost invariant = { λ v. IsVault D.view (valued D.view v.keeper v.seat v.opening v.unwritten) v.keeper };
}

impl<D: Disk> Vault<D> {
    ghost use Rattle.std.specs.Prelude.{◌≡◌, ◌⊎◌, ◌↔◌, ◌+◌, ◌*◌, ◌<◌, ◌≤◌, ◌^◌, ◌++◌, ◌∷◌, [], ℕ, List, length, take, map, true, false, IsTrue, OnOk, IfOk, IfErr, IsErrOf, Ok, Err};
    ghost use Rattle.std.specs.List.{All};
    ghost use Rattle.lru.specs.LruCache.{lru_cache};
    ghost use Rattle.pass_entry.specs.Ranges.{IsInRange};
    ghost use Rattle.pass_outside.specs.Areas.{Image};
    ghost use Rattle.pass_outside.specs.Moments.{IsAtEnd};
    ghost use Rattle.pass_log.specs.LogImage.{IsRead};
    ghost use Rattle.pass_log.specs.Log.{append_calls};
    ghost use Rattle.pass_log.specs.Records.{spellings, frame_length};
    ghost use Rattle.pass_range.specs.Lawful.{Tells};
    ghost use Rattle.pass_book.specs.declared.view.Role.TheVariants as role;
    ghost use Rattle.pass_book.specs.Names.{name};
    ghost use Rattle.pass_book.specs.Numbers.{IsFileNumber};
    ghost use Rattle.pass_plain.specs.Legal.{IsLegal};
    ghost use Rattle.pass_plain.specs.Sound.{IsSound};
    ghost use Rattle.pass_book.specs.Syncs.{called, durable as durable_in, AreNumbered};
    ghost use Rattle.pass_book.specs.Tokens.{HasMet};
    ghost use Rattle.pass_plain.specs.Ceilings.{ceilings_between};
    ghost use Rattle.pass_plain.specs.WellLogged.{ceiling_of};
    ghost use Rattle.pass_keep.specs.Kept.{IsBegun, AreParts, records_to, ceilings_length};
    ghost use Rattle.pass_keep.specs.Keepers.{GoesOn, Made};
    ghost use Rattle.pass_keep.specs.Parts.{lists_of, frames_length};
    ghost use Rattle.pass_vault.specs.Vaulted.{story_of, story_with, flushed, file_synced, file_staged, real_syncs, HasWaiting};
    ghost use Rattle.pass_vault.specs.Pooled.{pool_capacity, to_write, without_file, staged_all, pushed_all, sync_calls};
    ghost use Rattle.pass_clean.specs.Blocks.{AreDirty, IsRisingBy};
    ghost use Rattle.pass_vault.specs.Rooms.{most_entries};
    ghost use Rattle.pass_vault.specs.Vaults.{handed_of, begun_with};
    ghost use Rattle.pass_vault.specs.Batches.{parts_of};
    ghost use Rattle.pass_vault.specs.Blocks.{AreSomeDirty};

    /// Opens the vault of a session on a disk of which that image was read, and raises its ceiling for the session by one frame.
    /// `since` is a count of the disk's calls since which each crash leaves what the disk reads now. After a fault the seat is
    /// dropped, and the disk is handed back.
    pub fn open(
        alloc: Global,
        disk: D,
        image: &LogImage,
        ceiling: Pnode,
        ceilings: &[Record],
        seat: VaultSeat,
        since: u64,
    ) -> Result<Vault<D>, (LogFault, D)>
        requires fresh { seat.syncs ≡ [] }
        requires start { Tells image.now.list.items seat.book.session.start }
        requires ceilings { ceilings.now ≡ ceilings_between (ceiling_of image.now.list.items) ceiling }
        requires in_range { All IsInRange ceilings.now }
        requires image { IsRead (D.view disk) image.now }
        requires since { since ≤ (D.view disk).calls }
        requires same { IsTrue (D.view disk).tells → (c : Image) → (D.view disk).left_since since c → c ≡ (D.view disk).seen }
        requires room { image.now.end ≤ 2 ^ 38 }
        requires size { frame_length ceilings.now ≤ ceilings_length }
        ensures opened { IfOk result (λ v. v ≡ record {
          book = seat.book;
          seen = seat.seen;
          syncs = [];
          disk = v.disk;
          before = image.now.list.items;
          store = (D.view disk).seen.store;
          ceiling = ceiling;
          since = since;
          ready = (D.view v.disk).calls;
          opened = (D.view disk).faults;
          place = image.now.end + frame_length ceilings.now;
          pool = lru_cache [] pool_capacity;
          unsynced = false;
        }) }
        ensures healthy { IfOk result (λ v. (D.view v.disk).faults ≡ (D.view disk).faults) }
        ensures goes_on { IfOk result (λ v. GoesOn (D.view disk) (D.view v.disk)) }
        // A crash at any moment since then leaves what was there before, or the records from before and those that raise the ceiling.
        ensures begun { IfErr result (λ e. IsBegun (begun_with image.now.list.items (D.view disk).seen.store ceiling seat since) (D.view e.1)) }
        ensures failed { IfErr result (λ e. ((e.0 ≡ LogFault.DiskFault) × (((D.view disk).faults < (D.view e.1).faults) ⊎ IsAtEnd (D.view e.1))) ⊎ (e.0 ≡ LogFault.NoMemory)) }
        ensures stopped { IfErr result (λ e. GoesOn (D.view disk) (D.view e.1)) }
    {
        let first = Snapshot::of(&disk);
        let before = Snapshot::of(&image.list);
        let mut keeper = match opened(alloc, disk, image, ceiling, ceilings, &seat, since) {
            Ok(keeper) => keeper,
            Err((fault, disk)) => return Err((log_fault(fault), disk)),
        };
        let Ok(pool) = room(alloc, &mut keeper) else {
            let (disk, syncs) = keeper.into_disk();
            drop(syncs);
            return Err((LogFault::NoMemory, disk));
        };
        let mark = keeper.clean();
        let opening = Opening {
            disk: first,
            before,
            ceiling,
            since,
            ready: mark.calls,
        };
        Ok(Vault {
            keeper,
            seat,
            opening,
            unwritten: Unwritten {
                pool,
                unsynced: false,
            },
        })
    }

    /// How many entries from the history's front are durable.
    pub fn durable(&self) -> u64
        ensures durable { result ≡ durable_in self.now.syncs }
        ensures counted { durable_in (real_syncs self.now.syncs) ≡ durable_in self.now.syncs }
        ensures within { durable_in self.now.syncs ≤ length self.now.seen }
        ensures numbered { AreNumbered self.now.book.session self.now.seen self.now.syncs }
        ensures legal { IsLegal self.now.book.session self.now.seen }
        ensures sound { IsSound self.now.book.session }
    {
        let _seen = self.seat.seen();
        self.keeper.durable()
    }

    /// What the last sync came to. A staging is none.
    pub fn receipt(&self) -> Receipt
        requires { 0 < length (real_syncs self.now.syncs) }
        ensures { result ≡ record { calls = called (real_syncs self.now.syncs); entries = durable_in (real_syncs self.now.syncs) } }
    {
        let syncs = self.keeper.syncs();
        let last = syncs[syncs.len() - 1];
        Receipt {
            calls: last.calls,
            entries: last.entries,
        }
    }

    /// What the vault has seen, for others. It takes no memory.
    pub fn note(&mut self) -> Note
        ensures vault { self.new ≡ self.old }
        ensures note { result ≡ record { book = self.old.book; seen = self.old.seen; syncs = self.old.syncs } }
    {
        self.seat.note()
    }

    /// The vault sees the longer of both histories. It takes no memory.
    pub fn meet(&mut self, note: Note)
        requires { note.book ≡ self.old.book }
        ensures same { self.new ≡ record self.old { seen = self.new.seen } }
        ensures met { HasMet (name role.Vault 0) self.old.seen self.old.syncs note.seen note.syncs self.new.seen self.new.syncs }
        // Nobody knows of more durable entries than the vault.
        ensures durable { durable_in note.syncs ≤ durable_in self.old.syncs }
    {
        self.seat.meet(note);
        let _ = self.seat.seen();
    }

    /// Makes the entries that the note has seen durable. The batch has the records of those from the durable number on; it
    /// is appended to the log as one frame, and makes no device call where it is empty.
    ///
    /// After Broken and NoMemory the vault is as before; after DiskFault it has seen what the note had seen.
    pub fn flush(&mut self, alloc: Global, batch: &[Record], upto: Note) -> Result<(), VaultFault>
        requires one { upto.book ≡ self.old.book }
        requires later { durable_in self.old.syncs ≤ length upto.seen }
        requires batch { records_to (story_with self.old upto.seen) (length upto.seen) ≡ records_to (story_with self.old upto.seen) (durable_in self.old.syncs) ++ batch.now }
        requires in_range { All IsInRange batch.now }
        requires size { length (spellings batch.now) < 2 ^ 32 }
        requires few { length upto.seen ≤ most_entries }
        ensures done { OnOk result (self.new ≡ record self.old {
          seen = self.new.seen;
          disk = self.new.disk;
          place = self.new.place;
          syncs = self.old.syncs ++ flushed (D.view self.new.disk).calls (length upto.seen) ∷ [];
        }) }
        ensures met { OnOk result (HasMet (name role.Vault 0) self.old.seen self.old.syncs upto.seen upto.syncs self.new.seen self.old.syncs) }
        ensures failed { (opened now : ℕ) → IsErrOf result (KeepFault.DiskFault opened now) → (opened ≡ self.old.opened) × (now ≡ (D.view self.new.disk).faults)
            × (((D.view self.old.disk).faults < (D.view self.new.disk).faults) ⊎ IsAtEnd (D.view self.new.disk))
            × (self.new ≡ record self.old { seen = self.new.seen; disk = self.new.disk; place = self.new.place })
            × HasMet (name role.Vault 0) self.old.seen self.old.syncs upto.seen upto.syncs self.new.seen self.old.syncs }
        // Exactly where the disk had a fault since the vault was opened.
        ensures broken { self.old.opened < (D.view self.old.disk).faults → (result ≡ Err (KeepFault.Broken self.old.opened (D.view self.old.disk).faults)) × (self.new ≡ self.old) }
        ensures only_broken { (opened now : ℕ) → IsErrOf result (KeepFault.Broken opened now) → self.old.opened < (D.view self.old.disk).faults }
        ensures no_memory { IsErrOf result KeepFault.NoMemory → self.new ≡ self.old }
        ensures goes_on { GoesOn (D.view self.old.disk) (D.view self.new.disk) }
        ensures made { OnOk result (Made (append_calls * length (parts_of batch.now)) (D.view self.old.disk) (D.view self.new.disk)) }
        ensures place { self.new.place ≤ self.old.place + frame_length batch.now }
    {
        self.keeper.ready(1)?;
        let frames = frames_of(alloc, batch)?;
        advance(
            &mut self.keeper,
            &mut self.seat,
            &self.opening,
            &self.unwritten,
            &frames,
            upto,
        )
    }

    /// The same of a batch in parts, each the records of whole entries: one frame for each part. The memory for it is taken
    /// before the first device call.
    pub fn flush_parts(
        &mut self,
        alloc: Global,
        parts: &[Vec<Record>],
        upto: Note,
    ) -> Result<(), VaultFault>
        requires one { upto.book ≡ self.old.book }
        requires parts { AreParts (story_with self.old upto.seen) (durable_in self.old.syncs) (length upto.seen) (lists_of parts.now) }
        requires in_range { All (λ part. All IsInRange part.items) parts.now }
        requires size { All (λ part. length (spellings part.items) < 2 ^ 32) parts.now }
        requires some { All (λ part. 0 < length part.items) parts.now }
        requires few { length upto.seen ≤ most_entries }
        ensures done { OnOk result (self.new ≡ record self.old {
          seen = self.new.seen;
          disk = self.new.disk;
          place = self.new.place;
          syncs = self.old.syncs ++ flushed (D.view self.new.disk).calls (length upto.seen) ∷ [];
        }) }
        ensures met { OnOk result (HasMet (name role.Vault 0) self.old.seen self.old.syncs upto.seen upto.syncs self.new.seen self.old.syncs) }
        ensures failed { (opened now : ℕ) → IsErrOf result (KeepFault.DiskFault opened now) → (opened ≡ self.old.opened) × (now ≡ (D.view self.new.disk).faults)
            × (((D.view self.old.disk).faults < (D.view self.new.disk).faults) ⊎ IsAtEnd (D.view self.new.disk))
            × (self.new ≡ record self.old { seen = self.new.seen; disk = self.new.disk; place = self.new.place })
            × HasMet (name role.Vault 0) self.old.seen self.old.syncs upto.seen upto.syncs self.new.seen self.old.syncs }
        // Exactly where the disk had a fault since the vault was opened.
        ensures broken { self.old.opened < (D.view self.old.disk).faults → (result ≡ Err (KeepFault.Broken self.old.opened (D.view self.old.disk).faults)) × (self.new ≡ self.old) }
        ensures only_broken { (opened now : ℕ) → IsErrOf result (KeepFault.Broken opened now) → self.old.opened < (D.view self.old.disk).faults }
        ensures no_memory { IsErrOf result KeepFault.NoMemory → self.new ≡ self.old }
        ensures goes_on { GoesOn (D.view self.old.disk) (D.view self.new.disk) }
        ensures made { OnOk result (Made (append_calls * length parts.now) (D.view self.old.disk) (D.view self.new.disk)) }
        ensures place { self.new.place ≤ self.old.place + frames_length parts.now }
    {
        self.keeper.ready(1)?;
        let frames = stage_all(alloc, parts)?;
        advance(
            &mut self.keeper,
            &mut self.seat,
            &self.opening,
            &self.unwritten,
            &frames,
            upto,
        )
    }

    /// Makes the data of the desk's file durable, for as many entries as are durable. The blocks are those that are dirty
    /// after these, with their bytes then, by the syncs that the desk has seen. They and the blocks of the file that wait in
    /// memory are written, by block, and the store area is synced once; where there are none, and nothing was written since
    /// its last sync, no device call is made.
    ///
    /// After Ok and DiskFault the desk has the vault's history and list, after Broken and NoMemory nothing moved.
    pub fn sync_file(
        &mut self,
        alloc: Global,
        desk: &mut Desk,
        number: u32,
        blocks: &[(u32, Bytes)],
    ) -> Result<Receipt, VaultFault>
        requires one { desk.old.book ≡ self.old.book }
        requires number { IsFileNumber self.old.book.session desk.old.seen desk.old.what number }
        requires dirty { AreDirty self.old.book.session (take (durable_in self.old.syncs) self.old.seen) desk.old.syncs desk.old.what blocks.now }
        requires ascending { IsRisingBy blocks.now }
        ensures done { OnOk result (self.new ≡ record self.old {
          seen = desk.new.seen;
          disk = self.new.disk;
          pool = without_file number self.old.pool;
          unsynced = false;
          syncs = self.old.syncs ++ file_synced desk.old.what number (D.view self.new.disk).calls (durable_in self.old.syncs) ∷ [];
        }) }
        ensures receipt { IfOk result (λ r. r ≡ record { calls = (D.view self.new.disk).calls; entries = durable_in self.old.syncs }) }
        ensures desk { OnOk result (desk.new ≡ record desk.old { seen = desk.new.seen; syncs = self.new.syncs }) }
        ensures met { OnOk result (HasMet (name role.Desk desk.old.what) desk.old.seen desk.old.syncs self.old.seen self.old.syncs desk.new.seen self.old.syncs) }
        ensures failed { (opened now : ℕ) → IsErrOf result (KeepFault.DiskFault opened now) → (opened ≡ self.old.opened) × (now ≡ (D.view self.new.disk).faults)
            × (((D.view self.old.disk).faults < (D.view self.new.disk).faults) ⊎ IsAtEnd (D.view self.new.disk))
            × (self.new ≡ record self.old { seen = desk.new.seen; disk = self.new.disk; unsynced = self.new.unsynced })
            × (desk.new ≡ record desk.old { seen = desk.new.seen; syncs = self.new.syncs })
            × HasMet (name role.Desk desk.old.what) desk.old.seen desk.old.syncs self.old.seen self.old.syncs desk.new.seen self.old.syncs }
        // Exactly where the disk had a fault since the vault was opened.
        ensures broken { self.old.opened < (D.view self.old.disk).faults → (result ≡ Err (KeepFault.Broken self.old.opened (D.view self.old.disk).faults)) × (self.new ≡ self.old) × (desk.new ≡ desk.old) }
        ensures only_broken { (opened now : ℕ) → IsErrOf result (KeepFault.Broken opened now) → self.old.opened < (D.view self.old.disk).faults }
        ensures no_memory { IsErrOf result KeepFault.NoMemory → (self.new ≡ self.old) × (desk.new ≡ desk.old) }
        ensures made { OnOk result (Made (sync_calls self.old.unsynced (length (to_write self.old.pool number blocks.now))) (D.view self.old.disk) (D.view self.new.disk)) }
        ensures idle { to_write self.old.pool number blocks.now ≡ [] → self.old.unsynced ≡ false → self.new.disk ≡ self.old.disk }
        ensures goes_on { GoesOn (D.view self.old.disk) (D.view self.new.disk) }
    {
        self.keeper.ready(1)?;
        save_file(
            alloc,
            &mut self.keeper,
            &mut self.seat,
            &self.opening,
            &mut self.unwritten,
            desk,
            number,
            blocks,
        )
    }

    /// Lets dirty blocks of the desk's file wait in memory, to be written later. The blocks are some of those that are dirty
    /// after the durable entries, with their bytes then, by the syncs that the desk has seen. A block that leaves the full pool
    /// is written, without a sync.
    ///
    /// After Ok, DiskFault and NoMemory the desk has the vault's history and list, after Broken nothing moved. After DiskFault
    /// and NoMemory some of the blocks may wait.
    pub fn stage(
        &mut self,
        desk: &mut Desk,
        number: u32,
        blocks: &[(u32, Bytes)],
    ) -> Result<(), VaultFault>
        requires one { desk.old.book ≡ self.old.book }
        requires number { IsFileNumber self.old.book.session desk.old.seen desk.old.what number }
        requires dirty { AreSomeDirty self.old.book.session (take (durable_in self.old.syncs) self.old.seen) desk.old.syncs desk.old.what blocks.now }
        ensures done { OnOk result (self.new ≡ record self.old {
          seen = desk.new.seen;
          disk = self.new.disk;
          pool = staged_all self.old.pool number blocks.now;
          unsynced = self.new.unsynced;
          syncs = self.old.syncs ++ file_staged desk.old.what number (D.view self.new.disk).calls (durable_in self.old.syncs) blocks.now ∷ [];
        }) }
        ensures desk { OnOk result (desk.new ≡ record desk.old { seen = desk.new.seen; syncs = self.new.syncs }) }
        ensures met { OnOk result (HasMet (name role.Desk desk.old.what) desk.old.seen desk.old.syncs self.old.seen self.old.syncs desk.new.seen self.old.syncs) }
        ensures made { OnOk result (Made (length (pushed_all self.old.pool number blocks.now)) (D.view self.old.disk) (D.view self.new.disk)) }
        ensures unsynced { OnOk result ((self.old.unsynced ≡ true → self.new.unsynced ≡ true) × (pushed_all self.old.pool number blocks.now ≡ [] → self.new.unsynced ≡ self.old.unsynced)) }
        // A block that was written is unsynced until the next sync of a file's data.
        ensures wrote { OnOk result ((pushed_all self.old.pool number blocks.now ≡ [] → ⊥) → self.new.unsynced ≡ true) }
        ensures failed { (opened now : ℕ) → IsErrOf result (KeepFault.DiskFault opened now) → (opened ≡ self.old.opened) × (now ≡ (D.view self.new.disk).faults)
            × (((D.view self.old.disk).faults < (D.view self.new.disk).faults) ⊎ IsAtEnd (D.view self.new.disk))
            × (self.new ≡ record self.old { seen = desk.new.seen; disk = self.new.disk; pool = self.new.pool; unsynced = self.new.unsynced })
            × (desk.new ≡ record desk.old { seen = desk.new.seen; syncs = self.new.syncs })
            × HasMet (name role.Desk desk.old.what) desk.old.seen desk.old.syncs self.old.seen self.old.syncs desk.new.seen self.old.syncs }
        // Exactly where the disk had a fault since the vault was opened.
        ensures broken { self.old.opened < (D.view self.old.disk).faults → (result ≡ Err (KeepFault.Broken self.old.opened (D.view self.old.disk).faults)) × (self.new ≡ self.old) × (desk.new ≡ desk.old) }
        ensures only_broken { (opened now : ℕ) → IsErrOf result (KeepFault.Broken opened now) → self.old.opened < (D.view self.old.disk).faults }
        ensures no_memory { IsErrOf result KeepFault.NoMemory → ((D.view self.new.disk).faults ≡ (D.view self.old.disk).faults)
            × (self.new ≡ record self.old { seen = desk.new.seen; disk = self.new.disk; pool = self.new.pool; unsynced = self.new.unsynced })
            × (desk.new ≡ record desk.old { seen = desk.new.seen; syncs = self.new.syncs })
            × HasMet (name role.Desk desk.old.what) desk.old.seen desk.old.syncs self.old.seen self.old.syncs desk.new.seen self.old.syncs }
        ensures goes_on { GoesOn (D.view self.old.disk) (D.view self.new.disk) }
    {
        check(&mut self.keeper)?;
        stage_file(
            &mut self.keeper,
            &mut self.seat,
            &self.opening,
            &mut self.unwritten,
            desk,
            number,
            blocks,
        )
    }

    /// Whether a sync of the file of this number has something to do, though no block of it is dirty: some block of it waits in
    /// memory, or some block was written since the data area's last sync.
    pub fn waits(&self, number: u32) -> bool
        ensures { (result ≡ true) ↔ HasWaiting self.now number }
    {
        if self.unwritten.unsynced {
            return true;
        }
        has_file(&self.unwritten.pool, number)
    }

    /// Whether no block waits and none was written since the data area's last sync.
    pub fn is_written(&self) -> bool
        ensures { (result ≡ true) ↔ ((self.now.pool.entries ≡ []) × (self.now.unsynced ≡ false)) }
    {
        self.unwritten.pool.len() == 0 && !self.unwritten.unsynced
    }

    /// The disk, and the syncs that came. A staging is none.
    pub fn into_disk(self) -> (D, Vec<Synced>)
        ensures disk { result.0 ≡ self.disk }
        ensures syncs { result.1.items ≡ map handed_of (real_syncs self.syncs) }
    {
        let Vault { keeper, .. } = self;
        let (disk, mut syncs) = keeper.into_disk();
        // The first one is the opening's.
        syncs.remove(0);
        (disk, syncs)
    }
}

// The fault of a log for that of a keeper that was opened.
fn log_fault(fault: KeepFault) -> LogFault
    ensures disk { (opened now : ℕ) → fault ≡ KeepFault.DiskFault opened now → result ≡ LogFault.DiskFault }
    ensures memory { fault ≡ KeepFault.NoMemory → result ≡ LogFault.NoMemory }
{
    match fault {
        KeepFault::NoMemory => LogFault::NoMemory,
        _ => LogFault::DiskFault,
    }
}
