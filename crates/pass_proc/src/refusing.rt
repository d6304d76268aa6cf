//! A call that its process refuses.
ghost use Rattle.std.specs.Prelude.{◌≡◌, ◌+◌, ◌-◌, ◌<◌, ◌≤◌, ◌^◌, Some, None, true, IfErr, OnOk, length};
ghost use Rattle.pass_entry.specs.declared.entry.Reply.TheVariants as answer;
ghost use Rattle.pass_plain.specs.declared.request.Request.{Request};
ghost use Rattle.pass_plain.specs.Calls.{name_of, ask_of, is_within};
ghost use Rattle.pass_plain.specs.Processes.{refusal};
ghost use Rattle.pass_hold.specs.Callings.{IsIdle};
ghost use Rattle.pass_hold.specs.Places.{HasRoom};
ghost use Rattle.pass_proc.specs.CallEnds.{Asks, HasReplied, HasTooFew};

use crate::desk::ProcessDesk;
use crate::proc::Proc;
use pass_book::Full;
use pass_entry::{Ask, CallFault, CallName};
use pass_hold::{Caller, Shelf, Whose};
use std::alloc::Global;

/// The one step of a call that is refused.
fn refuse_step<J: Whose>(
    alloc: Global,
    shelf: &mut Shelf<J>,
    caller: &mut Caller<J>,
    process: &mut ProcessDesk<J>,
    number: u64,
    call: CallName,
    ask: Ask,
    fault: CallFault,
)
    requires places { HasRoom shelf.old caller.old.held 3 }
    requires who { caller.old.who ≡ process.old.who }
    requires refused { refusal process.old.state ask ≡ Some fault }
    requires idle { IsIdle J.book.session caller.old.seen process.old.who (number - 1) process.old.state }
    requires number { 0 < number }
    requires some { Asks call ask }
    ensures call { (r : Request) → name_of r ≡ call → ask_of r ≡ Some ask → is_within r ≡ true → HasReplied J.book.session process.old.who caller.old.seen caller.new.seen r (answer.Fault fault) }
    ensures idle { IsIdle J.book.session caller.new.seen process.new.who number process.new.state }
    ensures same { (process.new.who ≡ process.old.who) × (process.new.state ≡ process.old.state) × (caller.new.who ≡ caller.old.who) }
    ensures looks { (caller.new.looks ≡ caller.old.looks + 1) × (caller.new.looked ≡ length caller.new.seen) }
    ensures own { caller.new.own ≡ caller.old.own }
    ensures few { length caller.new.seen ≤ 2 ^ 32 }
{
    process.deny(alloc, shelf, caller, number, call, ask, fault);
}

/// Refuses a call: its one entry is the refusal, with the fault. Where too few places are left for a call, it makes no entry.
pub fn refuse<J: Whose>(
    alloc: Global,
    shelf: &mut Shelf<J>,
    proc: &mut Proc<J>,
    call: CallName,
    ask: Ask,
    fault: CallFault,
) -> Result<(), Full>
    requires refused { refusal proc.old.state ask ≡ Some fault }
    requires some { Asks call ask }
    ensures call { OnOk result ((r : Request) → name_of r ≡ call → ask_of r ≡ Some ask → is_within r ≡ true → HasReplied J.book.session proc.old.who proc.old.seen proc.new.seen r (answer.Fault fault)) }
    ensures counted { OnOk result ((proc.new.number ≡ proc.old.number + 1) × (proc.new.way ≡ None)) }
    ensures full { IfErr result (λ f. HasTooFew J.book.session J.places proc.old.who proc.old.seen proc.new.seen 3 f × (proc.new.number ≡ proc.old.number) × (proc.new.way ≡ proc.old.way)) }
    ensures looks { (proc.new.looks ≡ proc.old.looks + 1) × (proc.new.looked ≡ length proc.new.seen) }
    ensures same { (proc.new.who ≡ proc.old.who) × (proc.new.state ≡ proc.old.state) }
{
    if let Err(full) = proc.caller.room(shelf, 3) {
        return Err(full);
    }
    let number = proc.number + 1;
    refuse_step(
        alloc,
        shelf,
        &mut proc.caller,
        &mut proc.process,
        number,
        call,
        ask,
        fault,
    );
    proc.number = number;
    proc.way = None;
    Ok(())
}
