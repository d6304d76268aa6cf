//! How a call begins that makes entries.
ghost use Rattle.std.specs.Prelude.{◌≡◌, ◌+◌, Err, IfErr, IfOk, OnErr, OnOk, false};
ghost use Rattle.pass_plain.specs.declared.request.Request.{Request};
ghost use Rattle.pass_plain.specs.Calls.{name_of};
ghost use Rattle.pass_plain.specs.Places.{call_places, need_of};
ghost use Rattle.pass_hold.specs.Places.{HasRoom};
ghost use Rattle.pass_answer.specs.Answers.{Answers, resumes};
ghost use Rattle.pass_answer.specs.declared.answer.CallEnd.TheVariants as ends;
ghost use Rattle.pass_calls.specs.Beginnings.{TellsOfPlaces};

use pass_answer::CallEnd;
use pass_hold::{Shelf, Whose};
use pass_proc::Proc;

/// Sees to it that there are places for a call of three entries, and gives the call its number. Where fewer are left the process
/// has looked at the whole history, and the call is over.
///
/// The places are counted by what the process has seen: `Caller::held` says that its caller holds as many.
pub(crate) fn begin<J: Whose>(shelf: &mut Shelf<J>, proc: &mut Proc<J>) -> Result<u64, CallEnd>
    ensures number { IfOk result (λ n. n ≡ proc.old.number + 1) }
    ensures same { OnOk result (proc.new ≡ proc.old) }
    ensures places { OnOk result (HasRoom shelf.new (call_places proc.old.seen proc.old.who) 3) }
    ensures full { (r : Request) → need_of (name_of r) ≡ 3 → resumes proc.old.way r ≡ false → IfErr result (λ end. Answers J.book.session J.places proc.old proc.new r (Err end)) }
    ensures only { IfErr result (λ end. TellsOfPlaces end) }
    ensures memory { IfErr result (λ end. ¬ (end ≡ ends.NoMemory)) }
    ensures whole { OnErr result (proc.new.seen ≡ shelf.new.history) }
{
    let _ = proc.caller.held();
    if let Err(full) = proc.caller.room(shelf, 3) {
        return Err(CallEnd::from(full));
    }
    Ok(proc.number + 1)
}
