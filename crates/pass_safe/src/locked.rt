//! What a store does with its vault while that is locked. The book is locked while entries are copied, and free while the disk is at work.
ghost use Rattle.std.specs.Prelude.{◌≡◌, ℕ, ◌+◌, ◌<◌, ◌≤◌, List, IfOk, IfErr, IfSome, length};
ghost use Rattle.pass_entry.specs.declared.entry.Entry.{Entry as AnyEntry};
ghost use Rattle.pass_answer.specs.Lives.{HasMet};
ghost use Rattle.pass_safe.specs.Safes.{IsFaultSince};
ghost use Rattle.pass_safe.specs.Syncings.{HasKept, HasReceipt, IsCopy, IsFileSaved, IsSaved, IsSavedIn, KeepingView};

use crate::fault::SafeFault;
use crate::ground::Opening;
use crate::keeping::Keeping;
use crate::safe::Safe;
use crate::saving::{
    Copied, Saved, commit, commit_entries, copy, copy_all, copy_entries, flush_copied, is_durable,
    share, share_entries,
};
use crate::settling::{is_seen, settle_copied, settle_shared, stage_copied, stage_shared, told};
use pass_file::FileDesk;
use pass_hold::Shelf;
use pass_outside::Disk;
use pass_proc::Proc;
use pass_registry::RegistryDesk;
use pass_vault::Receipt;
use std::alloc::{AllocError, Global};
use std::sync::{Mutex, MutexGuard, Wait};

impl<J: Opening, D: Disk> Safe<J, D> {
    /// Copies what is not durable, in one hold of the book. The file sees the whole history.
    fn copy_file<R: Wait>(
        &mut self,
        rt: &R,
        book: &Mutex<Shelf<J>>,
        file: &mut FileDesk<J>,
    ) -> Result<Copied, AllocError>
        ensures same { self.new ≡ self.old }
        ensures what { file.new.what ≡ file.old.what }
        ensures grows { length file.old.seen ≤ length file.new.seen }
        ensures copied { IfOk result (λ c. IsCopy J.book self.old.vault c file.new.seen) }
    {
        let mut shelf = book.lock(rt);
        copy(self, file, &mut shelf)
    }

    #[tactic(auto, using(crate::proofs::Receipts::place_after, crate::proofs::Receipts::place_below))]
    /// Makes the entries durable that a sync of a file waits for, and the file's data.
    pub fn save_file<R: Wait>(
        &mut self,
        rt: &R,
        alloc: Global,
        book: &Mutex<Shelf<J>>,
        file: FileDesk<J>,
        keeping: &Keeping<J>,
    ) -> (FileDesk<J>, Result<Saved, SafeFault>)
        requires place { keeping.now.place + 1 ≡ length file.seen }
        ensures what { result.0.what ≡ file.what }
        ensures saved { IfOk result.1 (λ s. IsSaved J.book result.0.seen s) }
        ensures of_file { IfOk result.1 (λ s. IsFileSaved result.0.what result.0.number s) }
        ensures above { IfOk result.1 (λ s. keeping.now.place < s.receipt.entries) }
        ensures fault { IfErr result.1 (IsFaultSince D.view J.ground.opened) }
    {
        if is_durable(self, keeping) {
            return share(alloc, self, file);
        }
        let mut file = file;
        match self.copy_file(rt, book, &mut file) {
            Ok(copied) => commit(alloc, self, file, copied),
            Err(_) => (file, Err(SafeFault::NoMemory)),
        }
    }
}

impl<J: Opening, D: Disk> Safe<J, D> {
    #[tactic(auto, using(crate::proofs::Receipts::met_by))]
    /// Copies what is not durable, in one hold of the book. The process sees the whole history.
    fn copy_history<R: Wait>(
        &mut self,
        rt: &R,
        book: &Mutex<Shelf<J>>,
        proc: &mut Proc<J>,
    ) -> Result<Copied, AllocError>
        ensures same { self.new ≡ self.old }
        ensures met { HasMet J.book.session proc.old proc.new }
        ensures state { proc.new.state ≡ proc.old.state }
        ensures kept { (k : KeepingView) (what : ℕ) → HasKept J.book.session k proc.old what → HasKept J.book.session k proc.new what }
        ensures grows { length proc.old.seen ≤ length proc.new.seen }
        ensures copied { IfOk result (λ c. IsCopy J.book self.old.vault c proc.new.seen) }
    {
        let mut shelf = book.lock(rt);
        copy_entries(self, proc, &mut shelf)
    }

    #[tactic(auto, using(crate::proofs::Receipts::place_after))]
    /// Makes the entries durable that a sync of a pipe or an app object waits for. Where something is to be made durable its process sees
    /// the whole history.
    pub fn save_history<R: Wait>(
        &mut self,
        rt: &R,
        alloc: Global,
        book: &Mutex<Shelf<J>>,
        proc: &mut Proc<J>,
        keeping: &Keeping<J>,
    ) -> Result<Saved, SafeFault>
        requires place { keeping.now.place + 1 ≡ length proc.old.seen }
        ensures state { proc.new.state ≡ proc.old.state }
        ensures kept { (k : KeepingView) (what : ℕ) → HasKept J.book.session k proc.old what → HasKept J.book.session k proc.new what }
        ensures saved { IfOk result (λ s. (seen : List AnyEntry) × IsSaved J.book seen s) }
        ensures above { IfOk result (λ s. keeping.now.place < s.receipt.entries) }
        ensures fault { IfErr result (IsFaultSince D.view J.ground.opened) }
    {
        if is_durable(self, keeping) {
            return share_entries(self, keeping);
        }
        match self.copy_history(rt, book, proc) {
            Ok(copied) => commit_entries(alloc, self, proc, copied),
            Err(_) => Err(SafeFault::NoMemory),
        }
    }

    #[tactic(auto, using(crate::proofs::Receipts::whole_of))]
    /// Makes every entry durable that the process sees, which is the whole history.
    pub fn settle_history<R: Wait>(
        &mut self,
        rt: &R,
        alloc: Global,
        book: &Mutex<Shelf<J>>,
        proc: &mut Proc<J>,
    ) -> Result<Saved, SafeFault>
        ensures met { HasMet J.book.session proc.old proc.new }
        ensures saved { IfOk result (IsSavedIn J.book) }
        ensures whole { IfOk result (λ s. length proc.new.seen ≤ s.receipt.entries) }
        ensures fault { IfErr result (IsFaultSince D.view J.ground.opened) }
    {
        match self.copy_history(rt, book, proc) {
            Ok(copied) => commit_entries(alloc, self, proc, copied),
            Err(_) => Err(SafeFault::NoMemory),
        }
    }
}

impl<J: Opening, D: Disk> Safe<J, D> {
    /// Writes the changed blocks of a file, once its entries are durable.
    fn write_file<R: Wait>(
        &mut self,
        rt: &R,
        alloc: Global,
        book: &Mutex<Shelf<J>>,
        file: FileDesk<J>,
    ) -> (FileDesk<J>, Result<Option<Receipt>, SafeFault>)
        ensures what { result.0.what ≡ file.what }
        ensures synced { IfOk result.1 (λ o. IfSome o (HasReceipt self.new.vault)) }
        ensures fault { IfErr result.1 (IsFaultSince D.view J.ground.opened) }
    {
        let (file, seen) = is_seen(self, file);
        if seen {
            return settle_shared(alloc, self, file);
        }
        let mut file = file;
        match self.copy_file(rt, book, &mut file) {
            Ok(copied) => settle_copied(alloc, self, file, copied),
            Err(_) => (file, Err(SafeFault::NoMemory)),
        }
    }

    /// What settling came to, with what the vault has seen.
    fn told(
        &mut self,
        settled: Result<Option<Receipt>, SafeFault>,
    ) -> Result<Option<Saved>, SafeFault>
        requires synced { IfOk settled (λ o. IfSome o (HasReceipt self.old.vault)) }
        requires fault { IfErr settled (IsFaultSince D.view J.ground.opened) }
        ensures saved { IfOk result (λ o. IfSome o (IsSavedIn J.book)) }
        ensures fault { IfErr result (IsFaultSince D.view J.ground.opened) }
    {
        let Some(receipt) = settled? else {
            return Ok(None);
        };
        Ok(Some(told(self, receipt)))
    }

    /// Writes the changed blocks of a file, and tells what the vault has seen then.
    pub fn settle_file<R: Wait>(
        &mut self,
        rt: &R,
        alloc: Global,
        book: &Mutex<Shelf<J>>,
        file: FileDesk<J>,
    ) -> (FileDesk<J>, Result<Option<Saved>, SafeFault>)
        ensures what { result.0.what ≡ file.what }
        ensures saved { IfOk result.1 (λ o. IfSome o (IsSavedIn J.book)) }
        ensures fault { IfErr result.1 (IsFaultSince D.view J.ground.opened) }
    {
        let (file, settled) = self.write_file(rt, alloc, book, file);
        (file, self.told(settled))
    }
}

impl<J: Opening, D: Disk> Safe<J, D> {
    /// Copies what is not durable, in one hold of the book. The registry sees the whole history.
    fn copy_known<R: Wait>(
        &mut self,
        rt: &R,
        book: &Mutex<Shelf<J>>,
        registry: &mut RegistryDesk<J>,
    ) -> Result<Copied, AllocError>
        ensures same { self.new ≡ self.old }
        ensures copied { IfOk result (λ c. (seen : List AnyEntry) × IsCopy J.book self.old.vault c seen) }
    {
        let mut shelf = book.lock(rt);
        copy_all(self, registry, &mut shelf)
    }

    /// Makes every entry durable. Registry and book are free while the disk is at work.
    pub fn flush_history<R: Wait>(
        &mut self,
        rt: &R,
        alloc: Global,
        book: &Mutex<Shelf<J>>,
        registry: MutexGuard<'_, RegistryDesk<J>>,
    ) -> Result<Receipt, SafeFault>
        ensures receipt { IfOk result (λ r. r.calls ≡ (D.view self.new.vault.disk).calls) }
        ensures fault { IfErr result (IsFaultSince D.view J.ground.opened) }
    {
        let mut registry = registry;
        let copied = self.copy_known(rt, book, &mut registry);
        drop(registry);
        match copied {
            Ok(copied) => flush_copied(alloc, self, copied),
            Err(_) => Err(SafeFault::NoMemory),
        }
    }

    /// Lets so many changed blocks of a file at most wait in memory, once its entries are durable, and answers their number.
    pub fn stage_file<R: Wait>(
        &mut self,
        rt: &R,
        alloc: Global,
        book: &Mutex<Shelf<J>>,
        file: FileDesk<J>,
        limit: u32,
    ) -> (FileDesk<J>, Result<u32, SafeFault>)
        ensures what { result.0.what ≡ file.what }
        ensures few { IfOk result.1 (λ n. n ≤ limit) }
        ensures fault { IfErr result.1 (IsFaultSince D.view J.ground.opened) }
    {
        let (file, seen) = is_seen(self, file);
        if seen {
            return stage_shared(alloc, self, file, limit);
        }
        let mut file = file;
        match self.copy_file(rt, book, &mut file) {
            Ok(copied) => stage_copied(alloc, self, file, copied, limit),
            Err(_) => (file, Err(SafeFault::NoMemory)),
        }
    }
}
