//! The calls `wait_child` and `await_child`.
ghost use Rattle.std.specs.Prelude.{◌≡◌, ℕ, None, Err, IsErrOf};
ghost use Rattle.pass_entry.specs.declared.entry.Ask.TheVariants as ask;
ghost use Rattle.pass_plain.specs.Calls.{name_of};
ghost use Rattle.pass_plain.specs.Processes.{refusal};
ghost use Rattle.pass_answer.specs.Answers.{Answers};
ghost use Rattle.pass_answer.specs.Ready.{IsReadyIfFull};
ghost use Rattle.pass_answer.specs.declared.answer.CallEnd.TheVariants as ends;
ghost use Rattle.pass_lives.specs.Waits.{request_of};
ghost use Rattle.pass_lives.specs.declared.waiting.ChildWait.{ChildWait as AnyWait};

use pass_answer::{CallEnd, Moved};
use pass_entry::{CallName, Pnode};
use pass_hold::{Shelf, Whose};
use pass_proc::{Ended, Living, Proc};
use std::alloc::Global;

/// How a process waits for a child.
#[derive(Clone, Copy, Drop)]
pub enum ChildWait {
    /// By `wait_child`: it takes from the child.
    Taking,
    /// By `await_child`: no data flows.
    Quiet,
}

impl ChildWait {
    /// The call by which a process waits so.
    pub fn call(self) -> CallName
        ensures { (child : ℕ) → result ≡ name_of (request_of self child) }
    {
        match self {
            ChildWait::Taking => CallName::WaitChild,
            ChildWait::Quiet => CallName::Await,
        }
    }
}

/// Lets a child go that has ended, of which the process waits no more. It takes no memory.
pub fn wait_ended<J: Whose>(
    alloc: Global,
    ended: &mut Ended<J>,
    shelf: &mut Shelf<J>,
    proc: &mut Proc<J>,
    child: Pnode,
    wait: ChildWait,
) -> Result<Moved, CallEnd>
    requires child { ended.old.who ≡ child }
    requires free { refusal proc.old.state (ask.Child child) ≡ None }
    ensures call { Answers J.book.session J.places proc.old proc.new (request_of wait child) result }
    ensures ready { IsReadyIfFull J.book.session proc.old proc.new (request_of wait child) result }
    ensures memory { ¬ IsErrOf result ends.NoMemory }
    ensures who { ended.new.who ≡ ended.old.who }
{
    if let Err(full) = proc.caller.room(shelf, 3) {
        // The child has ended in all that the process sees.
        ended.look(shelf);
        return Err(CallEnd::from(full));
    }
    let number = proc.number + 1;
    let who = proc.process.pnode();
    let caller = &mut proc.caller;
    proc.number = number;
    proc.way = None;
    match wait {
        ChildWait::Taking => {
            let (out, source) = ended.reap(alloc, shelf, caller, who, number);
            proc.process
                .gather(alloc, shelf, caller, number, out, child, &source);
            Ok(Moved::Done)
        }
        ChildWait::Quiet => {
            ended.show_end(alloc, shelf, caller, who, number);
            proc.process.release(alloc, shelf, caller, number, child);
            Ok(Moved::Done)
        }
    }
}

/// Looks for a child that has not ended, as its right to end shows: the answer to either wait is Again. It makes no entry and takes no memory.
pub fn wait_living<J: Whose>(
    living: &mut Living<J>,
    shelf: &mut Shelf<J>,
    proc: &mut Proc<J>,
    child: Pnode,
) -> CallEnd
    requires child { living.old.who ≡ child }
    requires free { refusal proc.old.state (ask.Child child) ≡ None }
    ensures call { (wait : AnyWait) → Answers J.book.session J.places proc.old proc.new (request_of wait child) (Err result) }
    ensures again { result ≡ ends.Again }
    ensures who { living.new.who ≡ living.old.who }
{
    proc.caller.look(shelf);
    living.meet(shelf.note());
    let _ = child;
    CallEnd::Again
}
