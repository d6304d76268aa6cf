//! The calls `wait_child` and `await_child`.
ghost use Rattle.std.specs.Prelude.{IsErrOf};
ghost use Rattle.pass_plain.specs.declared.request.Request.TheVariants as requests;
ghost use Rattle.pass_answer.specs.Answers.{Answers};
ghost use Rattle.pass_answer.specs.Ready.{IsReadyIfFull};
ghost use Rattle.pass_answer.specs.declared.answer.CallEnd.TheVariants as ends;
ghost use Rattle.pass_lives.specs.Waits.{request_of};

use crate::call::Call;
use pass_answer::{CallEnd, Moved, refused};
use pass_entry::{Ask, Pnode};
use pass_hold::Whose;
use pass_lives::{ChildWait, wait_ended, wait_living};
use pass_outside::Gate;
use pass_proc::Proc;
use pass_slots::{Locks, Slot, Sought};
use std::alloc::Global;
use std::sync::Wait;

impl<R: Wait, J: Whose, G: Gate> Call<'_, '_, R, J, G> {
    /// Lets a child go that has ended, of which the process waits no more. It takes no memory.
    fn wait_for(&self, proc: &mut Proc<J>, child: Pnode, wait: ChildWait) -> Result<Moved, CallEnd>
        ensures call { Answers J.book.session J.places proc.old proc.new (request_of wait child) result }
        ensures ready { IsReadyIfFull J.book.session proc.old proc.new (request_of wait child) result }
        ensures memory { ¬ IsErrOf result ends.NoMemory }
    {
        let alloc = self.alloc;
        let ask = Ask::Child { pnode: child };
        if let Err(fault) = proc.deny(&ask) {
            let mut shelf = self.locks.book.lock(self.rt);
            return Err(refused(alloc, &mut shelf, proc, wait.call(), ask, fault));
        }
        let mut slot = self.locks.hold(self.rt, alloc, child, Sought::Process);
        self.locks.gate.inside(child);
        let mut shelf = self.locks.book.lock(self.rt);
        match &mut *slot {
            Slot::Ended(ended) => wait_ended(alloc, ended, &mut shelf, proc, child, wait),
            Slot::Living(living) => Err(wait_living(living, &mut shelf, proc, child)),
            _ => unreachable!(),
        }
    }
}

/// Takes from a child that has ended, of which the process waits no more. It takes no memory.
pub fn wait_child<R: Wait, J: Whose, G: Gate>(
    locks: &Locks<'_, J, G>,
    rt: &R,
    alloc: Global,
    proc: &mut Proc<J>,
    child: Pnode,
) -> Result<Moved, CallEnd>
    ensures call { Answers J.book.session J.places proc.old proc.new (requests.WaitChild child) result }
    ensures ready { IsReadyIfFull J.book.session proc.old proc.new (requests.WaitChild child) result }
    ensures memory { ¬ IsErrOf result ends.NoMemory }
{
    Call { locks, rt, alloc }.wait_for(proc, child, ChildWait::Taking)
}

/// Lets a child go that has ended, and takes nothing from it. It takes no memory.
pub fn await_child<R: Wait, J: Whose, G: Gate>(
    locks: &Locks<'_, J, G>,
    rt: &R,
    alloc: Global,
    proc: &mut Proc<J>,
    child: Pnode,
) -> Result<Moved, CallEnd>
    ensures call { Answers J.book.session J.places proc.old proc.new (requests.Await child) result }
    ensures ready { IsReadyIfFull J.book.session proc.old proc.new (requests.Await child) result }
    ensures memory { ¬ IsErrOf result ends.NoMemory }
{
    Call { locks, rt, alloc }.wait_for(proc, child, ChildWait::Quiet)
}
