//! The vault, as it lies under its lock.
ghost use Rattle.std.specs.Prelude.{◌≡◌, ◌<◌, ◌≤◌, ◌^◌, ◌++◌, ◌∷◌, ◌↔◌, [], ℕ, false, true, None, Some, Ok, Err, IfOk, IfErr, IfSome, IsSome, OnOk, OnErr, length};
ghost use mathlib.Core.List.{IsPrefix};
ghost use Rattle.pass_plain.specs.Legal.{IsLegal};
ghost use Rattle.pass_plain.specs.Sessions.{opening_version};
ghost use Rattle.pass_plain.specs.Sound.{IsSound};
ghost use Rattle.pass_book.specs.Parting.{lists_of};
ghost use Rattle.pass_book.specs.Records.{AreParts};
ghost use Rattle.pass_book.specs.Syncs.{called, durable as durable_in, AreNumbered};
ghost use Rattle.pass_keep.specs.Keepers.{GoesOn};
ghost use Rattle.pass_vault.specs.Rooms.{most_entries};
ghost use Rattle.pass_vault.specs.Vaulted.{flushed, real_syncs};
ghost use Rattle.pass_safe.specs.Commits.{HasStaged, left_by_staging, saved_to, unsaved_to, unstaged_to};
ghost use Rattle.pass_safe.specs.Grounds.{HasGoneOn, ground_of};
ghost use Rattle.pass_safe.specs.Safes.{SafeView, IsFaultSince, IsLost, IsLostBy, Leaves, lost_in};
ghost use Rattle.pass_safe.specs.Settled.{HasUnwritten, IsClean, settled_to};
ghost use Rattle.pass_safe.specs.Syncings.{HasReceipt};
ghost use Rattle.pass_safe.specs.declared.fault.Lost.{Lost as AnyLost};
ghost use Rattle.pass_safe.specs.declared.fault.SafeFault.TheVariants.{DiskFault, NoMemory};

use crate::fault::{Lost, SafeFault, lost_by};
use crate::ground::Opening;
use crate::working::{flush_vault, join_file, save_file, settle_file, show_file, stage_file};
use pass_book::Note;
use pass_entry::Record;
use pass_file::FileDesk;
use pass_hold::Shelf;
use pass_outside::Disk;
use pass_vault::{Receipt, Vault};
use std::alloc::Global;
use std::marker::{Model, PhantomData};

/// The vault of a store. After a device call that failed it isn't asked again, and each call answers the counts of that fault.
#[derive(Drop)]
pub struct Safe<J: Opening, D: Disk> {
    vault: Vault<D>,
    lost: Option<Lost>,
    whose: PhantomData<J>,
}

impl<J: Opening, D: Disk> Model for Safe<J, D> {
    ghost use Rattle.std.specs.Coded.{codes, coded_ℕ, coded_list};
    ghost use Rattle.lru.specs.LruCache.{lru_cache_code};
    ghost use Rattle.pass_pool.specs.contracts.pool.FileBlock as block_type;
    ghost use Rattle.pass_entry.specs.contracts.entry.Entry as entry_type;
    ghost use Rattle.pass_entry.specs.contracts.record.Record as record_type;
    ghost use Rattle.pass_plain.specs.contracts.start.Start as start_type;
    ghost use Rattle.pass_safe.specs.Safes.{SafeView, IsSafe};

    ghost Value = { SafeView D };

    ghost coded = { Prim.hlevel (codes, entry_type.the_row.coded, record_type.the_row.coded, start_type.the_row.coded, lru_cache_code block_type.the_row.coded (coded_list coded_ℕ)) };

    ghost view = { λ s. record { vault = s.vault; lost = s.lost } };

    ghost invariant = { λ s. IsSafe J.book J.ground J.tells D.view s.vault s.lost };
}

impl<J: Opening, D: Disk> Safe<J, D> {
    /// Lays a vault into its lock, as it was opened.
    pub fn opened(vault: Vault<D>) -> Safe<J, D>
        requires book { vault.book ≡ J.book }
        requires ground { ground_of vault ≡ J.ground }
        requires gone_on { HasGoneOn J.tells J.ground.opened (D.view vault.disk) }
        requires fresh { (vault.seen ≡ []) × (vault.syncs ≡ []) }
        requires healthy { (D.view vault.disk).faults ≡ vault.opened }
        requires low { (object : ℕ) → opening_version J.book.session.start object ≤ 2 ^ 35 }
        ensures { result ≡ record { vault = vault; lost = None } }
    {
        Safe {
            vault,
            lost: None,
            whose: PhantomData,
        }
    }

    /// How many entries from the history's front are durable. It takes no memory.
    pub fn durable(&self) -> u64
        ensures durable { result ≡ durable_in self.now.vault.syncs }
        ensures within { durable_in self.now.vault.syncs ≤ length self.now.vault.seen }
        ensures whole { self.now.lost ≡ None → durable_in self.now.vault.syncs ≡ length self.now.vault.seen }
        ensures lost { (l : AnyLost) → self.now.lost ≡ Some l → IsLost (D.view self.now.vault.disk) self.now.vault.opened l }
        ensures numbered { AreNumbered J.book.session self.now.vault.seen self.now.vault.syncs }
        ensures legal { IsLegal J.book.session self.now.vault.seen }
        ensures sound { IsSound J.book.session }
        ensures few { length self.now.vault.seen ≤ most_entries }
        ensures counted { durable_in (real_syncs self.now.vault.syncs) ≡ durable_in self.now.vault.syncs }
        ensures book { self.now.vault.book ≡ J.book }
    {
        self.vault.durable()
    }

    #[tactic(auto, using(crate::proofs::Standing::since_of, crate::proofs::Standing::lost_since))]
    /// Whether no device call has failed: else the counts of the fault. It takes no memory.
    pub fn healthy(&self) -> Result<(), SafeFault>
        ensures healthy { OnOk result (self.now.lost ≡ None) }
        ensures lost { IfErr result (IsLostBy D.view self.now) }
        ensures since { IfErr result (IsFaultSince D.view J.ground.opened) }
    {
        match self.lost {
            Some(lost) => Err(lost.fault()),
            None => Ok(()),
        }
    }

    /// What the vault has seen, for others. It takes no memory.
    pub fn note(&mut self) -> Note
        ensures safe { self.new ≡ self.old }
        ensures note { result ≡ record { book = J.book; seen = self.old.vault.seen; syncs = self.old.vault.syncs } }
    {
        self.vault.note()
    }

    /// It learns that its durable number is at least that of a list that a note tells of, with no entry. It takes no memory.
    pub fn meet(&mut self, list: Note)
        requires book { list.book ≡ J.book }
        requires none { list.seen ≡ [] }
        ensures safe { self.new ≡ self.old }
        ensures durable { durable_in list.syncs ≤ durable_in self.old.vault.syncs }
    {
        self.vault.meet(list);
    }

    /// What the last sync came to that is no staging. It takes no memory.
    pub fn receipt(&self) -> Receipt
        requires { 0 < length (real_syncs self.now.vault.syncs) }
        ensures { result ≡ record { calls = called (real_syncs self.now.vault.syncs); entries = durable_in (real_syncs self.now.vault.syncs) } }
    {
        self.vault.receipt()
    }

    /// Whether no block of a file waits in the vault, and none was written since its last sync of data. It takes no memory.
    pub fn is_written(&self) -> bool
        ensures { (result ≡ true) ↔ ((self.now.vault.pool.entries ≡ []) × (self.now.vault.unsynced ≡ false)) }
    {
        self.vault.is_written()
    }

    #[tactic(auto, using(crate::proofs::Standing::since_of, crate::proofs::Standing::lost_since))]
    /// Makes the entries that a note has seen durable, whose maker had seen what the vault has. The parts are the records of
    /// those from the durable number on: one frame of the log for each. The memory is taken before the first device call.
    pub fn flush(
        &mut self,
        alloc: Global,
        parts: &[Vec<Record>],
        upto: Note,
    ) -> Result<(), SafeFault>
        requires one { upto.book ≡ J.book }
        requires begins { IsPrefix self.old.vault.seen upto.seen }
        requires legal { IsLegal J.book.session upto.seen }
        requires few { length upto.seen ≤ most_entries }
        requires parts { AreParts J.book.session upto.seen (durable_in self.old.vault.syncs) (lists_of parts.now) }
        ensures done { OnOk result (self.new.vault ≡ record self.old.vault {
          seen = upto.seen;
          disk = self.new.vault.disk;
          place = self.new.vault.place;
          syncs = self.old.vault.syncs ++ flushed (D.view self.new.vault.disk).calls (length upto.seen) ∷ [];
        }) }
        ensures undone { OnErr result (self.new.vault ≡ record self.old.vault { seen = self.new.vault.seen; disk = self.new.vault.disk; place = self.new.vault.place }) }
        ensures told { IsPrefix self.new.vault.seen upto.seen }
        ensures fault { self.old.lost ≡ None → self.new.lost ≡ lost_in result }
        ensures lost { (l : AnyLost) → self.old.lost ≡ Some l → (result ≡ Err (DiskFault l.opened l.found)) × (self.new ≡ self.old) }
        ensures failed { (opened found : ℕ) → result ≡ Err (DiskFault opened found) → IsLost (D.view self.new.vault.disk) self.old.vault.opened (record { opened = opened; found = found }) }
        ensures memory { result ≡ Err NoMemory → self.new ≡ self.old }
        ensures goes_on { GoesOn (D.view self.old.vault.disk) (D.view self.new.vault.disk) }
        ensures since { IfErr result (IsFaultSince D.view J.ground.opened) }
    {
        if let Some(lost) = self.lost {
            drop(upto);
            return Err(lost.fault());
        }
        let result = flush_vault::<J, D>(alloc, &mut self.vault, parts, upto);
        self.lost = lost_by(&result);
        result
    }

    #[tactic(auto, using(crate::proofs::Standing::since_of, crate::proofs::Standing::lost_since))]
    /// Writes the dirty blocks of a file and those of it that wait in the vault, and syncs the data area once; where there is none, and
    /// nothing is unsynced, no device call is made. File and vault have seen one history. Its file comes back.
    pub fn save(
        &mut self,
        alloc: Global,
        file: FileDesk<J>,
    ) -> (FileDesk<J>, Result<Receipt, SafeFault>)
        requires seen { file.seen ≡ self.old.vault.seen }
        ensures file { result.0 ≡ record file { syncs = result.0.syncs } }
        ensures done { IfOk result.1 (λ r. self.new.vault ≡ saved_to self.old.vault self.new.vault file.what file.number r) }
        ensures receipt { IfOk result.1 (λ r. r ≡ record { calls = (D.view self.new.vault.disk).calls; entries = length file.seen }) }
        ensures listed { OnOk result.1 (result.0.syncs ≡ self.new.vault.syncs) }
        ensures clean { OnOk result.1 (IsClean J.book.session self.new.vault.seen self.new.vault.syncs file.what) }
        ensures undone { OnErr result.1 (self.new.vault ≡ unsaved_to self.old.vault self.new.vault) }
        ensures fault { self.old.lost ≡ None → self.new.lost ≡ lost_in result.1 }
        ensures lost { (l : AnyLost) → self.old.lost ≡ Some l → (result.1 ≡ Err (DiskFault l.opened l.found)) × (self.new ≡ self.old) × (result.0 ≡ file) }
        ensures failed { (opened found : ℕ) → result.1 ≡ Err (DiskFault opened found) → IsLost (D.view self.new.vault.disk) self.old.vault.opened (record { opened = opened; found = found }) }
        ensures memory { result.1 ≡ Err NoMemory → (self.new ≡ self.old) × (result.0 ≡ file) }
        ensures goes_on { GoesOn (D.view self.old.vault.disk) (D.view self.new.vault.disk) }
        ensures since { IfErr result.1 (IsFaultSince D.view J.ground.opened) }
    {
        if let Some(lost) = self.lost {
            return (file, Err(lost.fault()));
        }
        let (file, result) = save_file::<J, D>(alloc, file, &mut self.vault);
        self.lost = lost_by(&result);
        (file, result)
    }

    #[tactic(auto, using(crate::proofs::Standing::since_of, crate::proofs::Standing::lost_since))]
    /// Does what `save` does with a file that has dirty blocks, or some that wait in the vault, and with any file where something is
    /// unsynced, and answers what that came to. Any other file is left alone: of it no sync is noted, and no device call is made.
    pub fn settle(
        &mut self,
        alloc: Global,
        file: FileDesk<J>,
    ) -> (FileDesk<J>, Result<Option<Receipt>, SafeFault>)
        requires seen { file.seen ≡ self.old.vault.seen }
        ensures file { result.0 ≡ record file { syncs = result.0.syncs } }
        ensures done { IfOk result.1 (λ r. self.new.vault ≡ settled_to self.old.vault self.new.vault file.what file.number r) }
        ensures receipt { IfOk result.1 (λ o. IfSome o (λ r. r ≡ record { calls = (D.view self.new.vault.disk).calls; entries = length file.seen })) }
        ensures synced { IfOk result.1 (λ o. IfSome o (HasReceipt self.new.vault)) }
        ensures idle { result.1 ≡ Ok None → (self.new ≡ self.old) × (result.0 ≡ file) }
        ensures dirty { IfOk result.1 (λ r. IsSome r ↔ HasUnwritten J.book.session file self.old.vault) }
        // By the vault's list, where it has the syncs that the file knows, as `join` tells.
        ensures clean { OnOk result.1 (IsPrefix file.syncs self.old.vault.syncs → IsClean J.book.session self.new.vault.seen self.new.vault.syncs file.what) }
        ensures undone { OnErr result.1 (self.new.vault ≡ unsaved_to self.old.vault self.new.vault) }
        ensures fault { self.old.lost ≡ None → self.new.lost ≡ lost_in result.1 }
        ensures lost { (l : AnyLost) → self.old.lost ≡ Some l → (result.1 ≡ Err (DiskFault l.opened l.found)) × (self.new ≡ self.old) × (result.0 ≡ file) }
        ensures failed { (opened found : ℕ) → result.1 ≡ Err (DiskFault opened found) → IsLost (D.view self.new.vault.disk) self.old.vault.opened (record { opened = opened; found = found }) }
        ensures memory { result.1 ≡ Err NoMemory → (self.new ≡ self.old) × (result.0 ≡ file) }
        ensures goes_on { GoesOn (D.view self.old.vault.disk) (D.view self.new.vault.disk) }
        ensures since { IfErr result.1 (IsFaultSince D.view J.ground.opened) }
    {
        if let Some(lost) = self.lost {
            return (file, Err(lost.fault()));
        }
        let (file, result) = settle_file::<J, D>(alloc, file, &mut self.vault);
        self.lost = lost_by(&result);
        (file, result)
    }

    #[tactic(auto, using(crate::proofs::Standing::since_of, crate::proofs::Standing::lost_since))]
    /// Puts so many dirty blocks of a file at most into the vault's pool, and answers their number; what the pool has no room for is
    /// written, without a sync. Of a file without any no staging is noted. File and vault have seen one history. Its file comes back.
    pub fn stage(
        &mut self,
        alloc: Global,
        file: FileDesk<J>,
        limit: u32,
    ) -> (FileDesk<J>, Result<u32, SafeFault>)
        requires seen { file.seen ≡ self.old.vault.seen }
        ensures file { result.0 ≡ record file { syncs = result.0.syncs } }
        ensures few { IfOk result.1 (λ n. n ≤ limit) }
        ensures done { IfOk result.1 (λ n. 0 < n → HasStaged J.book.session file self.old.vault self.new.vault n) }
        ensures idle { result.1 ≡ Ok 0 → (self.new ≡ self.old) × (result.0 ≡ file) }
        ensures undone { OnErr result.1 (self.new.vault ≡ unstaged_to self.old.vault self.new.vault) }
        ensures same { self.new.vault ≡ left_by_staging self.old.vault self.new.vault }
        ensures safe { Leaves D.view self.old self.new result.1 }
        ensures since { IfErr result.1 (IsFaultSince D.view J.ground.opened) }
    {
        if let Some(lost) = self.lost {
            return (file, Err(lost.fault()));
        }
        let (file, result) = stage_file::<J, D>(alloc, file, &mut self.vault, limit);
        self.lost = lost_by(&result);
        (file, result)
    }

    /// The file sees what the vault has seen, where all that it has seen is durable. It takes no memory, and no book.
    pub fn show(&mut self, file: FileDesk<J>) -> FileDesk<J>
        requires below { length file.seen ≤ durable_in self.old.vault.syncs }
        ensures safe { self.new ≡ self.old }
        ensures file { result ≡ record file { seen = self.old.vault.seen; syncs = result.syncs } }
        ensures begins { IsPrefix file.seen result.seen }
        ensures list { IsPrefix file.syncs self.old.vault.syncs → result.syncs ≡ self.old.vault.syncs }
    {
        show_file(file, &mut self.vault)
    }

    /// The file sees the whole history, at the end of a session, where the vault has seen it. It takes no memory.
    pub fn join(&mut self, file: FileDesk<J>, shelf: &mut Shelf<J>) -> FileDesk<J>
        requires whole { self.old.vault.seen ≡ shelf.old.history }
        ensures safe { self.new ≡ self.old }
        ensures shelf { shelf.new ≡ record shelf.old { syncs = shelf.new.syncs } }
        ensures file { result ≡ record file { seen = shelf.old.history; syncs = result.syncs } }
        ensures listed { IsPrefix result.syncs self.old.vault.syncs }
    {
        join_file(file, &mut self.vault, shelf)
    }

    /// The vault, at the end of a session.
    pub fn into_vault(self) -> Vault<D>
        ensures vault { result ≡ self.vault }
        ensures ground { ground_of result ≡ J.ground }
        ensures gone_on { HasGoneOn J.tells J.ground.opened (D.view result.disk) }
        ensures healthy { self.lost ≡ None → (D.view result.disk).faults ≡ result.opened }
    {
        self.vault
    }
}
