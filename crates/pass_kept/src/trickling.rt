//! The call `trickle`, while the store's other calls go on.
ghost use Rattle.std.specs.Prelude.{◌≡◌, ◌≤◌, IfErr, IfOk, ℕ};
ghost use Rattle.pass_safe.specs.Safes.{IsFaultSince};
ghost use Rattle.pass_kept.specs.Stops.{IsStopped};
ghost use Rattle.pass_slots.specs.Slots.{Has};
ghost use Rattle.pass_slots.specs.declared.slot.Sought.TheVariants as sought;

use crate::answering::ended_by;
use crate::context::Context;
use pass_answer::CallEnd;
use pass_entry::Pnode;
use pass_outside::{Disk, Gate};
use pass_safe::{Opening, Safe, SafeFault};
use pass_slots::{Locks, Slot};
use std::alloc::Global;
use std::collections::BTreeSet;
use std::mem;
use std::sync::{Mutex, Wait};

impl<R: Wait, J: Opening, D: Disk, G: Gate> Context<'_, '_, R, J, D, G> {
    /// Lets changed blocks of the file that lies in a slot wait in memory. It lies there again then.
    fn stage_in(&self, slot: &mut Slot<J>, limit: u32) -> Result<u32, SafeFault>
        ensures file { (what : ℕ) → Has slot.old sought.File what → Has slot.new sought.File what }
        ensures few { IfOk result (λ n. n ≤ limit) }
        ensures fault { IfErr result (IsFaultSince D.view J.ground.opened) }
    {
        match mem::replace(slot, Slot::Empty) {
            Slot::File(file) => {
                let (file, staged) = self
                    .vault()
                    .stage_file(self.rt, self.alloc, &self.locks.book, file, limit);
                slot.lay(Slot::File(file));
                staged
            }
            other => {
                slot.lay(other);
                Ok(0)
            }
        }
    }

    /// Lets changed blocks of a file wait in memory.
    fn stage_object(&self, file: Pnode, limit: u32) -> Result<u32, SafeFault>
        ensures few { IfOk result (λ n. n ≤ limit) }
        ensures fault { IfErr result (IsFaultSince D.view J.ground.opened) }
    {
        let Some(lock) = self.locks.slot(file) else {
            return Ok(0);
        };
        let mut slot = lock.lock(self.rt);
        self.stage_in(&mut slot, limit)
    }

    /// Lets changed blocks of these files wait in memory, until they are so many in all. It takes those from the list that have no more.
    fn stage_listed(&self, files: &mut BTreeSet<Pnode>, limit: u32) -> Result<u32, SafeFault>
        ensures few { IfOk result (λ n. n ≤ limit) }
        ensures fault { IfErr result (IsFaultSince D.view J.ground.opened) }
    {
        let mut staged = 0;
        while let Some(file) = files.pop_first() {
            staged += self.stage_object(file, limit - staged)?;
            if staged == limit {
                return match files.insert(file) {
                    Ok(_) => Ok(staged),
                    Err(_) => Err(SafeFault::NoMemory),
                };
            }
        }
        Ok(staged)
    }

    /// Makes the entries durable, and then lets changed blocks wait, by ascending numbers of the files, until they are so many in all.
    /// Registry and book are free while the disk is at work.
    fn stage_all(&self, limit: u32) -> Result<u32, SafeFault>
        ensures few { IfOk result (λ n. n ≤ limit) }
        ensures fault { IfErr result (IsFaultSince D.view J.ground.opened) }
    {
        let registry = self.locks.registry.lock(self.rt);
        self.vault()
            .flush_history(self.rt, self.alloc, &self.locks.book, registry)?;
        let mut files = self.locks.take_changed(self.rt, self.alloc);
        let staged = self.stage_listed(&mut files, limit);
        let kept = self.locks.keep_changed(self.rt, files);
        // A fault of the disk is told before want of memory for the list.
        let count = staged?;
        kept?;
        Ok(count)
    }
}

#[tactic(auto, using(crate::proofs::Causes::stopped_by))]
/// Makes the entries so far durable, and lets so many changed blocks at most wait in memory, by ascending numbers of the files, each
/// once its file's later entries are durable too; what memory has no room for is written. It answers their number, and makes no entry.
/// Other calls go on meanwhile.
pub fn trickle<R: Wait, J: Opening, D: Disk, G: Gate>(
    locks: &Locks<'_, J, G>,
    vault: &Mutex<Safe<J, D>>,
    rt: &R,
    alloc: Global,
    limit: u32,
) -> Result<u32, CallEnd>
    ensures few { IfOk result (λ n. n ≤ limit) }
    ensures stopped { IfErr result (IsStopped D.view J.ground.opened) }
{
    let context = Context {
        locks,
        vault,
        rt,
        alloc,
    };
    match context.stage_all(limit) {
        Ok(count) => Ok(count),
        Err(fault) => Err(ended_by(fault)),
    }
}
