//! The call `settle`, while the store's other calls go on.
ghost use Rattle.std.specs.Prelude.{◌≡◌, ◌≤◌, IfErr, IfOk, IfSome, length, ℕ};
ghost use Rattle.pass_safe.specs.Syncings.{IsSavedIn};
ghost use Rattle.pass_answer.specs.Syncs.{HasSynced};
ghost use Rattle.pass_safe.specs.Safes.{IsFaultSince};
ghost use Rattle.pass_kept.specs.Stops.{IsStopped};
ghost use Rattle.pass_kept.specs.Meetings.{HasLookedOn};
ghost use Rattle.pass_answer.specs.Lives.{HasMet};
ghost use Rattle.pass_kept.specs.Settlings.{HasSettled};
ghost use Rattle.pass_slots.specs.Slots.{Has};
ghost use Rattle.pass_slots.specs.declared.slot.Sought.TheVariants as sought;

use crate::answering::ended_by;
use crate::context::Context;
use pass_answer::CallEnd;
use pass_outside::{Disk, Gate};
use pass_proc::Proc;
use pass_safe::{Opening, Safe, SafeFault, Saved, look_told};
use pass_slots::{Locks, Slot};
use pass_vault::Receipt;
use std::alloc::Global;
use std::mem;
use std::sync::{Mutex, Wait};

impl<R: Wait, J: Opening, D: Disk, G: Gate> Context<'_, '_, R, J, D, G> {
    /// Writes the changed blocks of the file that lies in a slot, and lies there again then.
    fn settle_in(&self, slot: &mut Slot<J>) -> Result<Option<Saved>, SafeFault>
        ensures file { (what : ℕ) → Has slot.old sought.File what → Has slot.new sought.File what }
        ensures saved { IfOk result (λ o. IfSome o (IsSavedIn J.book)) }
        ensures fault { IfErr result (IsFaultSince D.view J.ground.opened) }
    {
        match mem::replace(slot, Slot::Empty) {
            Slot::File(file) => {
                let (file, settled) = self
                    .vault()
                    .settle_file(self.rt, self.alloc, &self.locks.book, file);
                slot.lay(Slot::File(file));
                settled
            }
            other => {
                slot.lay(other);
                Ok(None)
            }
        }
    }

    /// Writes the changed blocks of the file that lies in a lock. The answer is the later sync of the two: a later one never has fewer entries.
    fn settle_next(&self, lock: &Mutex<Slot<J>>, last: Saved) -> Result<Saved, SafeFault>
        requires saved { IsSavedIn J.book last }
        ensures saved { IfOk result (IsSavedIn J.book) }
        ensures more { IfOk result (λ s. last.receipt.entries ≤ s.receipt.entries) }
        ensures fault { IfErr result (IsFaultSince D.view J.ground.opened) }
    {
        let mut slot = lock.lock(self.rt);
        if let Some(file) = slot.file() {
            self.locks.gate.inside(file);
        }
        let Some(next) = self.settle_in(&mut slot)? else {
            return Ok(last);
        };
        if next.receipt.entries < last.receipt.entries {
            return Ok(last);
        }
        Ok(next)
    }

    /// Writes the changed blocks of each file, after a sync of entries. The answer is the last sync.
    fn settle_files(&self, saved: Saved) -> Result<Saved, SafeFault>
        requires saved { IsSavedIn J.book saved }
        ensures saved { IfOk result (IsSavedIn J.book) }
        ensures more { IfOk result (λ s. saved.receipt.entries ≤ s.receipt.entries) }
        ensures fault { IfErr result (IsFaultSince D.view J.ground.opened) }
    {
        let mut last = saved;
        for lock in self.locks.slots.iter() {
            last = self.settle_next(lock, last)?;
        }
        Ok(last)
    }

    #[tactic(auto, using(crate::proofs::Receipts::synced_told, crate::proofs::Receipts::met_by))]
    /// The process sees what the vault had seen with a sync, and then the whole history.
    fn tell(&self, proc: &mut Proc<J>, saved: Saved) -> Receipt
        requires saved { IsSavedIn J.book saved }
        ensures met { HasMet J.book.session proc.old proc.new }
        ensures receipt { result ≡ saved.receipt }
        ensures synced { HasSynced result.calls result.entries proc.new.syncs }
    {
        let Saved { receipt, told } = saved;
        look_told(proc, &mut self.book(), told);
        receipt
    }

    #[tactic(auto, using(crate::proofs::Receipts::looked_once, crate::proofs::Receipts::looked_again, crate::proofs::Receipts::settled_with, crate::proofs::Receipts::whole_still))]
    /// Makes the entries durable, and then the changed blocks of each file, and tells the process.
    fn settle_all(&self, proc: &mut Proc<J>) -> Result<Receipt, SafeFault>
        ensures looked { HasLookedOn J.book.session proc.old proc.new }
        ensures settled { IfOk result (HasSettled proc.old proc.new) }
        ensures fault { IfErr result (IsFaultSince D.view J.ground.opened) }
    {
        let entries = self
            .vault()
            .settle_history(self.rt, self.alloc, &self.locks.book, proc)?;
        let saved = self.settle_files(entries)?;
        Ok(self.tell(proc, saved))
    }
}

#[tactic(auto, using(crate::proofs::Causes::stopped_by))]
/// Makes every entry durable that was made before, and writes each changed block, by ascending numbers of the files. Other calls
/// go on meanwhile. It is asked by a process, which sees the last sync that it made; the answer has that one's numbers. No program here
/// makes this call: a run trickles while it goes on, and is settled by `finish`.
pub fn settle<R: Wait, J: Opening, D: Disk, G: Gate>(
    locks: &Locks<'_, J, G>,
    vault: &Mutex<Safe<J, D>>,
    rt: &R,
    alloc: Global,
    proc: &mut Proc<J>,
) -> Result<Receipt, CallEnd>
    ensures looked { HasLookedOn J.book.session proc.old proc.new }
    ensures settled { IfOk result (HasSettled proc.old proc.new) }
    ensures stopped { IfErr result (IsStopped D.view J.ground.opened) }
{
    let context = Context {
        locks,
        vault,
        rt,
        alloc,
    };
    match context.settle_all(proc) {
        Ok(receipt) => Ok(receipt),
        Err(fault) => Err(ended_by(fault)),
    }
}
