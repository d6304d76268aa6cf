//! The call `exit`.
ghost use Rattle.std.specs.Prelude.{◌≡◌, ℕ, List, None, Some, slice_get};
ghost use Rattle.pass_entry.specs.declared.entry.Entry.{Entry as AnyEntry};
ghost use Rattle.pass_answer.specs.Lives.{HasExited};
ghost use Rattle.pass_slots.specs.Slots.{Has, KeepsEnded};
ghost use Rattle.pass_slots.specs.declared.slot.Sought.TheVariants as sought;

use crate::call::Call;
use pass_entry::Descriptor;
use pass_hold::{Shelf, Whose};
use pass_lives::{Exiting, begin_exit, end_exit, leave};
use pass_outside::Gate;
use pass_proc::{Proc, Trail};
use pass_slots::{Locks, Slot, Sought};
use std::alloc::Global;
use std::mem;
use std::sync::Wait;

/// Ends a process whose right to end lies in a slot. From then on the process lies there.
fn end_in<J: Whose>(
    alloc: Global,
    slot: &mut Slot<J>,
    shelf: &mut Shelf<J>,
    exiting: Exiting<J>,
) -> (u64, Trail<J>)
    requires living { Has slot.old sought.Living exiting.before.who }
    requires left { slice_get exiting.rest 0 ≡ None }
    ensures call { HasExited J.book.session exiting.before result.1.seen result.0 }
    ensures who { result.1.who ≡ exiting.before.who }
    ensures ended { KeepsEnded slot.new exiting.before.who }
{
    match mem::replace(slot, Slot::Empty) {
        Slot::Living(living) => {
            let (place, ended, trail) = end_exit(alloc, shelf, exiting, living);
            slot.lay(Slot::Ended(ended));
            (place, trail)
        }
        _ => unreachable!(),
    }
}

impl<R: Wait, J: Whose, G: Gate> Call<'_, '_, R, J, G> {
    /// Leaves the next pipe of a process that exits, under its lock.
    fn leave_next(&self, exiting: &mut Exiting<J>, d: &Descriptor)
        requires next { slice_get exiting.old.rest 0 ≡ Some d.now }
        ensures before { exiting.new.before ≡ exiting.old.before }
    {
        let mut slot = self.locks.hold(self.rt, self.alloc, d.pnode, Sought::Pipe);
        self.locks.gate.inside(d.pnode);
        let mut shelf = self.locks.book.lock(self.rt);
        match &mut *slot {
            Slot::Pipe(pipe) => leave(self.alloc, pipe, &mut shelf, exiting, d),
            _ => unreachable!(),
        }
    }

    /// Leaves the pipes of a process that exits, each under its lock.
    fn leave_all(&self, exiting: Exiting<J>) -> Exiting<J>
        ensures before { result.before ≡ exiting.before }
        ensures left { slice_get result.rest 0 ≡ None }
    {
        let mut exiting = exiting;
        for _ in self.rt.forever() {
            let Some(d) = exiting.next() else {
                return exiting;
            };
            self.leave_next(&mut exiting, &d);
        }
        unreachable!()
    }

    /// Ends a process. The answer is the place of its last entry, and what it had seen then. It takes no memory.
    fn end_process(&self, proc: Proc<J>) -> (u64, Trail<J>)
        ensures call { HasExited J.book.session proc result.1.seen result.0 }
        ensures who { result.1.who ≡ proc.who }
    {
        let who = proc.pnode();
        let exiting = self.leave_all(begin_exit(proc));
        let mut slot = self.locks.hold(self.rt, self.alloc, who, Sought::Living);
        self.locks.gate.inside(who);
        let mut shelf = self.locks.book.lock(self.rt);
        end_in(self.alloc, &mut slot, &mut shelf, exiting)
    }
}

/// Ends a process, which gives up all its descriptors, and answers the place of its last entry. It is not refused: its places were
/// claimed as it was made. It takes no memory. No program here makes this call: a run keeps what a process had seen, by `retire`.
pub fn exit<R: Wait, J: Whose, G: Gate>(
    locks: &Locks<'_, J, G>,
    rt: &R,
    alloc: Global,
    proc: Proc<J>,
) -> u64
    ensures { (seen : List AnyEntry) × HasExited J.book.session proc seen result }
{
    let (place, trail) = Call { locks, rt, alloc }.end_process(proc);
    drop(trail);
    place
}

/// Ends a process as `exit` does, and answers what it had seen then.
pub fn retire<R: Wait, J: Whose, G: Gate>(
    locks: &Locks<'_, J, G>,
    rt: &R,
    alloc: Global,
    proc: Proc<J>,
) -> Trail<J>
    ensures call { (place : ℕ) × HasExited J.book.session proc result.seen place }
    ensures who { result.who ≡ proc.who }
{
    let (_place, trail) = Call { locks, rt, alloc }.end_process(proc);
    trail
}
