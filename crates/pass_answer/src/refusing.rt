//! A call that its process refuses.
ghost use Rattle.std.specs.Prelude.{◌≡◌, Some, true, false, Err};
ghost use Rattle.pass_plain.specs.declared.request.Request.{Request};
ghost use Rattle.pass_plain.specs.Calls.{name_of, ask_of, is_within};
ghost use Rattle.pass_plain.specs.Places.{need_of};
ghost use Rattle.pass_plain.specs.Processes.{refusal};
ghost use Rattle.pass_proc.specs.CallEnds.{Asks};
ghost use Rattle.pass_answer.specs.Answers.{Answers, resumes};
ghost use Rattle.pass_answer.specs.declared.answer.CallEnd.TheVariants as ends;

use crate::answer::CallEnd;
use pass_entry::{Ask, CallFault, CallName};
use pass_hold::{Shelf, Whose};
use pass_proc::{Proc, refuse};
use std::alloc::Global;

/// Refuses a call whose process has this fault for what the call asks of it: its one entry is the refusal. It takes no memory.
pub fn refused<J: Whose>(
    alloc: Global,
    shelf: &mut Shelf<J>,
    proc: &mut Proc<J>,
    call: CallName,
    ask: Ask,
    fault: CallFault,
) -> CallEnd
    requires refused { refusal proc.old.state ask ≡ Some fault }
    requires some { Asks call ask }
    requires need { need_of call ≡ 3 }
    ensures call { (r : Request) → name_of r ≡ call → ask_of r ≡ Some ask → is_within r ≡ true → resumes proc.old.way r ≡ false → Answers J.book.session J.places proc.old proc.new r (Err result) }
    ensures memory { ¬ (result ≡ ends.NoMemory) }
{
    match refuse(alloc, shelf, proc, call, ask, fault) {
        Ok(()) => CallEnd::from(fault),
        Err(full) => CallEnd::from(full),
    }
}
