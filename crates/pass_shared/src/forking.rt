//! The call `fork`.
ghost use Rattle.std.specs.Prelude.{◌≡◌, None, Some, Ok, IfOk, slice_get};
ghost use Rattle.pass_answer.specs.Answers.{Answers};
ghost use Rattle.pass_answer.specs.declared.answer.Moved.TheVariants as moved;
ghost use Rattle.pass_plain.specs.declared.request.Request.TheVariants as requests;
ghost use Rattle.pass_proc.specs.Procs.{IsCallerOf, ProcView, proc_with};
ghost use Rattle.pass_lives.specs.Forks.{IsForking};
ghost use Rattle.pass_answer.specs.Lives.{IsChild};
ghost use Rattle.pass_answer.specs.Lives.{forked};
ghost use Rattle.pass_slots.specs.Slots.{Has};
ghost use Rattle.pass_slots.specs.declared.slot.Sought.TheVariants as sought;

use crate::call::Call;
use pass_answer::CallEnd;
use pass_entry::Descriptor;
use pass_hold::{Caller, Whose};
use pass_lives::{Forking, begin_fork, end_fork, join};
use pass_outside::Gate;
use pass_proc::{Proc, ProcessDesk};
use pass_slots::{Locks, REGISTRY, Slot, Sought};
use std::alloc::Global;
use std::mem;
use std::sync::Wait;

impl<R: Wait, J: Whose, G: Gate> Call<'_, '_, R, J, G> {
    /// The child of a fork joins the next pipe, under its lock.
    fn join_next(
        &self,
        caller: &mut Caller<J>,
        process: &ProcessDesk<J>,
        number: u64,
        forking: &mut Forking<J>,
        d: &Descriptor,
    )
        requires forking { IsForking J.book.session number process.now caller.old forking.old }
        requires next { slice_get forking.old.rest 0 ≡ Some d.now }
        ensures forking { IsForking J.book.session number process.now caller.new forking.new }
        ensures same { (forking.new.before ≡ forking.old.before) × (forking.new.child ≡ forking.old.child) }
    {
        let alloc = self.alloc;
        let mut slot = self.locks.hold(self.rt, alloc, d.pnode, Sought::Pipe);
        self.locks.gate.inside(d.pnode);
        let mut shelf = self.locks.book.lock(self.rt);
        match &mut *slot {
            Slot::Pipe(pipe) => join(alloc, pipe, &mut shelf, caller, process, number, forking, d),
            _ => unreachable!(),
        }
    }

    /// The child of a fork joins the pipes that its parent holds, each under its lock.
    fn join_all(
        &self,
        caller: &mut Caller<J>,
        process: &ProcessDesk<J>,
        number: u64,
        forking: Forking<J>,
    ) -> Forking<J>
        requires forking { IsForking J.book.session number process.now caller.old forking }
        ensures forking { IsForking J.book.session number process.now caller.new result }
        ensures same { (result.before ≡ forking.before) × (result.child ≡ forking.child) }
        ensures joined { slice_get result.rest 0 ≡ None }
    {
        let mut forking = forking;
        for _ in self.rt.forever() {
            let Some(d) = forking.next(process) else {
                return forking;
            };
            self.join_next(caller, process, number, &mut forking, &d);
        }
        unreachable!()
    }

    /// The child of a fork begins by the desk that lies in its slot. From then on its right to end lies there.
    fn bear_in(
        &self,
        slot: &mut Slot<J>,
        caller: &mut Caller<J>,
        process: &ProcessDesk<J>,
        number: u64,
        forking: Forking<J>,
    ) -> Proc<J>
        requires blank { Has slot.old sought.Blank forking.child }
        requires forking { IsForking J.book.session number process.now caller.old forking }
        requires joined { slice_get forking.rest 0 ≡ None }
        ensures call { (old : ProcView) → old.who ≡ process.now.who → old.seen ≡ forking.before → Answers J.book.session J.places old (proc_with process.now number caller.new None) requests.Fork (Ok moved.Done) }
        ensures parent { IsCallerOf J.book.session process.now number caller.new }
        ensures child { IsChild (proc_with process.now number caller.new None) result }
    {
        let alloc = self.alloc;
        let mut shelf = self.locks.book.lock(self.rt);
        match mem::replace(slot, Slot::Empty) {
            Slot::Blank(blank) => {
                let desk = blank.into_desk();
                let (born, living) = end_fork(
                    alloc, &mut shelf, caller, process, number, forking, desk,
                );
                slot.lay(Slot::Living(living));
                born
            }
            _ => unreachable!(),
        }
    }

    /// Ends a fork: the child begins, and from then on lies in its lock.
    fn bear(
        &self,
        caller: &mut Caller<J>,
        process: &ProcessDesk<J>,
        number: u64,
        forking: Forking<J>,
    ) -> Proc<J>
        requires forking { IsForking J.book.session number process.now caller.old forking }
        ensures call { (old : ProcView) → old.who ≡ process.now.who → old.seen ≡ forking.before → Answers J.book.session J.places old (proc_with process.now number caller.new None) requests.Fork (Ok moved.Done) }
        ensures parent { IsCallerOf J.book.session process.now number caller.new }
        ensures child { IsChild (proc_with process.now number caller.new None) result }
    {
        let forking = self.join_all(caller, process, number, forking);
        let child = forking.child();
        let mut slot = self.locks.hold(self.rt, self.alloc, child, Sought::Blank);
        self.locks.gate.inside(child);
        self.bear_in(&mut slot, caller, process, number, forking)
    }
}

/// Makes a child of a process, which holds open what its parent does.
pub fn fork<R: Wait, J: Whose, G: Gate>(
    locks: &Locks<'_, J, G>,
    rt: &R,
    alloc: Global,
    proc: &mut Proc<J>,
) -> Result<Proc<J>, CallEnd>
    ensures call { Answers J.book.session J.places proc.old proc.new requests.Fork (forked result) }
    ensures child { IfOk result (λ child. IsChild proc.new child) }
{
    let begun = {
        let mut registry = locks.registry.lock(rt);
        locks.gate.inside(REGISTRY);
        let mut shelf = locks.book.lock(rt);
        begin_fork(
            alloc,
            &mut registry,
            &mut shelf,
            &mut proc.caller,
            &mut proc.process,
            &mut proc.number,
            &mut proc.way,
        )
    };
    match begun {
        Ok(forking) => {
            let call = Call { locks, rt, alloc };
            let number = proc.number;
            Ok(call.bear(&mut proc.caller, &proc.process, number, forking))
        }
        Err(end) => Err(end),
    }
}
