//! The call `pass_freeze`.
ghost use Rattle.std.specs.Prelude.{◌≡◌, ◌<◌, None, Some, IsErrOf};
ghost use Rattle.std.specs.FinMap as finite_map;
ghost use Rattle.pass_entry.specs.declared.entry.Ask.TheVariants as ask;
ghost use Rattle.pass_entry.specs.declared.objects.Descriptor.{Descriptor as AnyDescriptor};
ghost use Rattle.pass_plain.specs.declared.request.Request.TheVariants as requests;
ghost use Rattle.pass_plain.specs.Processes.{refusal};
ghost use Rattle.pass_answer.specs.Answers.{Answers};
ghost use Rattle.pass_answer.specs.declared.answer.CallEnd.TheVariants as ends;

use crate::beginning::begin;
use pass_answer::{CallEnd, Moved};
use pass_flow::{Versioned, acts};
use pass_hold::{Shelf, Whose};
use pass_proc::Proc;
use std::alloc::Global;

/// Begins a new version of a held file, pipe or app object, and answers it. It takes no memory.
pub fn freeze<J: Whose, V: Versioned<J>>(
    alloc: Global,
    object: &mut V,
    shelf: &mut Shelf<J>,
    proc: &mut Proc<J>,
    fd: u8,
) -> Result<Moved, CallEnd>
    requires fd { fd < 64 }
    requires free { refusal proc.old.state (ask.Held fd) ≡ None }
    requires object { (d : AnyDescriptor) → finite_map.get proc.old.state.descriptors fd ≡ Some d → (V.object object.old).what ≡ d.pnode }
    ensures call { Answers J.book.session J.places proc.old proc.new (requests.FreezeObj fd) result }
    ensures memory { ¬ IsErrOf result ends.NoMemory }
    ensures what { (V.object object.new).what ≡ (V.object object.old).what }
{
    let number = begin(shelf, proc)?;
    let who = proc.process.pnode();
    let _ = proc.caller.held();
    let frozen = acts::freeze(object, alloc, shelf, &mut proc.caller, who, number);
    proc.number = number;
    proc.way = None;
    Ok(Moved::Frozen(frozen.1))
}
