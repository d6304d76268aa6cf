//! The call `pass_sync`. While the disk is at work the book is free; the object's lock and the vault's are held.
ghost use Rattle.std.specs.Prelude.{◌≡◌, ◌<◌, None, Some, IfErr, false};
ghost use Rattle.std.specs.FinMap as finite_map;
ghost use Rattle.pass_entry.specs.declared.entry.Ask.TheVariants as ask;
ghost use Rattle.pass_entry.specs.declared.objects.Descriptor.{Descriptor as AnyDescriptor};
ghost use Rattle.pass_plain.specs.Processes.{is_file, refusal};
ghost use Rattle.pass_answer.specs.Syncs.{SyncAnswers};
ghost use Rattle.pass_kept.specs.Stops.{HasCause};
ghost use Rattle.pass_slots.specs.Slots.{HasObject};

use crate::context::Context;
use pass_answer::{CallEnd, Moved};
use pass_entry::{Ask, Descriptor};
use pass_file::FileDesk;
use pass_flow::Versioned;
use pass_outside::{Disk, Gate};
use pass_proc::Proc;
use pass_safe::{Opening, Safe, keep, kept, kept_entries, left, refused_sync};
use pass_slots::{Locks, Slot, asked};
use std::alloc::Global;
use std::mem;
use std::sync::{Mutex, Wait};

impl<R: Wait, J: Opening, D: Disk, G: Gate> Context<'_, '_, R, J, D, G> {
    #[tactic(auto, using(crate::proofs::Savings::same_sync, crate::proofs::Savings::kept_of, crate::proofs::Causes::uncaused, crate::proofs::Causes::risen_of, crate::proofs::Causes::caused))]
    /// A sync of a file.
    fn sync_file(
        &self,
        proc: &mut Proc<J>,
        fd: u8,
        file: FileDesk<J>,
    ) -> (FileDesk<J>, Result<Moved, CallEnd>)
        requires fd { fd < 64 }
        requires free { refusal proc.old.state (ask.Held fd) ≡ None }
        requires object { (d : AnyDescriptor) → finite_map.get proc.old.state.descriptors fd ≡ Some d → file.what ≡ d.pnode }
        ensures what { result.0.what ≡ file.what }
        ensures call { SyncAnswers J.book.session J.places proc.old proc.new fd result.1 }
        ensures fault { IfErr result.1 (HasCause D.view J.ground.opened) }
    {
        let mut file = file;
        let begun = keep(self.alloc, &mut file, &mut self.book(), proc, fd);
        let keeping = match begun {
            Ok(keeping) => keeping,
            Err(end) => return (file, Err(end)),
        };
        let (file, saved) = self
            .vault()
            .save_file(self.rt, self.alloc, &self.locks.book, file, &keeping);
        let answer = match saved {
            Ok(saved) => Ok(kept(self.alloc, &file, &mut self.book(), proc, &keeping, saved)),
            Err(fault) => Err(left(proc, &keeping, fault)),
        };
        (file, answer)
    }

    #[tactic(auto, using(crate::proofs::Savings::same_sync, crate::proofs::Savings::kept_of, crate::proofs::Savings::still_held, crate::proofs::Causes::uncaused, crate::proofs::Causes::risen_of, crate::proofs::Causes::caused))]
    /// A sync of a pipe or an app object, which have no data.
    fn sync_other<V: Versioned<J>>(
        &self,
        proc: &mut Proc<J>,
        fd: u8,
        d: &Descriptor,
        object: &mut V,
    ) -> Result<Moved, CallEnd>
        requires fd { fd < 64 }
        requires free { refusal proc.old.state (ask.Held fd) ≡ None }
        requires held { finite_map.get proc.old.state.descriptors fd ≡ Some d.now }
        requires no_file { is_file d.now ≡ false }
        requires object { (V.object object.old).what ≡ d.now.pnode }
        ensures what { (V.object object.new).what ≡ d.now.pnode }
        ensures call { SyncAnswers J.book.session J.places proc.old proc.new fd result }
        ensures fault { IfErr result (HasCause D.view J.ground.opened) }
    {
        let keeping = keep(self.alloc, object, &mut self.book(), proc, fd)?;
        let saved = self
            .vault()
            .save_history(self.rt, self.alloc, &self.locks.book, proc, &keeping);
        match saved {
            Ok(saved) => Ok(kept_entries(self.alloc, d, &mut self.book(), proc, &keeping, saved)),
            Err(fault) => Err(left(proc, &keeping, fault)),
        }
    }

    #[tactic(auto, using(crate::proofs::Savings::pipe_alone, crate::proofs::Savings::app_alone))]
    /// A sync of the object that lies in a slot, and lies there again then.
    fn sync_in(
        &self,
        proc: &mut Proc<J>,
        fd: u8,
        d: &Descriptor,
        slot: &mut Slot<J>,
    ) -> Result<Moved, CallEnd>
        requires fd { fd < 64 }
        requires free { refusal proc.old.state (ask.Held fd) ≡ None }
        requires held { finite_map.get proc.old.state.descriptors fd ≡ Some d.now }
        requires object { HasObject slot.old d.now }
        ensures object { HasObject slot.new d.now }
        ensures call { SyncAnswers J.book.session J.places proc.old proc.new fd result }
        ensures fault { IfErr result (HasCause D.view J.ground.opened) }
    {
        match slot {
            Slot::Pipe(pipe) => self.sync_other(proc, fd, d, pipe),
            Slot::App(app) => self.sync_other(proc, fd, d, app),
            _ => match mem::replace(slot, Slot::Empty) {
                Slot::File(file) => {
                    let (file, answer) = self.sync_file(proc, fd, file);
                    slot.lay(Slot::File(file));
                    answer
                }
                _ => unreachable!(),
            },
        }
    }
}

#[tactic(auto, using(crate::proofs::Causes::uncaused))]
/// Makes what was entered so far durable, and for a file its data. It answers how many entries are durable then, and how many calls the
/// disk had had.
pub fn pass_sync<R: Wait, J: Opening, D: Disk, G: Gate>(
    locks: &Locks<'_, J, G>,
    vault: &Mutex<Safe<J, D>>,
    rt: &R,
    alloc: Global,
    proc: &mut Proc<J>,
    fd: u8,
) -> Result<Moved, CallEnd>
    requires fd { fd < 64 }
    ensures call { SyncAnswers J.book.session J.places proc.old proc.new fd result }
    ensures fault { IfErr result (HasCause D.view J.ground.opened) }
{
    let context = Context {
        locks,
        vault,
        rt,
        alloc,
    };
    let d = match asked(proc, fd, &Ask::Held { fd }) {
        Ok(d) => d,
        Err(fault) => return Err(refused_sync(alloc, &mut context.book(), proc, fd, fault)),
    };
    let mut slot = locks.object(rt, alloc, &d);
    locks.gate.inside(d.pnode);
    context.sync_in(proc, fd, &d, &mut slot)
}
