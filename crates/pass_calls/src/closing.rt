//! The call `close_fd`.
ghost use Rattle.std.specs.Prelude.{◌≡◌, ◌<◌, None, Some, false, true, IsErrOf};
ghost use Rattle.std.specs.FinMap as finite_map;
ghost use Rattle.pass_entry.specs.declared.entry.Ask.TheVariants as ask;
ghost use Rattle.pass_entry.specs.declared.objects.Descriptor.{Descriptor as AnyDescriptor};
ghost use Rattle.pass_plain.specs.Calls.{end_of as end_for};
ghost use Rattle.pass_plain.specs.declared.request.Request.TheVariants as requests;
ghost use Rattle.pass_plain.specs.Processes.{is_pipe, refusal};
ghost use Rattle.pass_answer.specs.Answers.{Answers};
ghost use Rattle.pass_answer.specs.declared.answer.CallEnd.TheVariants as ends;

use crate::beginning::begin;
use pass_answer::{CallEnd, Moved, refused};
use pass_entry::{Ask, CallName, End, Mode};
use pass_hold::{Shelf, Whose};
use pass_pipe::PipeDesk;
use pass_proc::Proc;
use std::alloc::Global;

/// Gives up a descriptor of a file or of an app object, or is refused where there is none. It takes no memory.
pub fn close<J: Whose>(
    alloc: Global,
    shelf: &mut Shelf<J>,
    proc: &mut Proc<J>,
    fd: u8,
) -> Result<Moved, CallEnd>
    requires fd { fd < 64 }
    requires object { (d : AnyDescriptor) → finite_map.get proc.old.state.descriptors fd ≡ Some d → is_pipe d ≡ false }
    ensures call { Answers J.book.session J.places proc.old proc.new (requests.CloseFd fd) result }
    ensures memory { ¬ IsErrOf result ends.NoMemory }
{
    let ask = Ask::Held { fd };
    if let Err(fault) = proc.deny(&ask) {
        return Err(refused(alloc, shelf, proc, CallName::CloseFd, ask, fault));
    }
    let number = begin(shelf, proc)?;
    let _ = proc.caller.held();
    proc.process
        .detach(alloc, shelf, &mut proc.caller, number, fd, 0);
    proc.number = number;
    proc.way = None;
    Ok(Moved::Done)
}

/// The end of a pipe that a descriptor of this mode holds.
fn end_of(mode: Mode) -> End
    ensures { result ≡ end_for mode }
{
    match mode {
        Mode::Write => End::Writer,
        _ => End::Reader,
    }
}

/// Gives up a descriptor of a pipe, which is held and which its process does not refuse. It takes no memory.
pub fn close_pipe<J: Whose>(
    alloc: Global,
    shelf: &mut Shelf<J>,
    proc: &mut Proc<J>,
    pipe: &mut PipeDesk<J>,
    fd: u8,
) -> Result<Moved, CallEnd>
    requires fd { fd < 64 }
    requires free { refusal proc.old.state (ask.Held fd) ≡ None }
    requires object { (d : AnyDescriptor) → finite_map.get proc.old.state.descriptors fd ≡ Some d → (is_pipe d ≡ true) × (pipe.old.what ≡ d.pnode) }
    ensures call { Answers J.book.session J.places proc.old proc.new (requests.CloseFd fd) result }
    ensures memory { ¬ IsErrOf result ends.NoMemory }
    ensures what { pipe.new.what ≡ pipe.old.what }
{
    let number = begin(shelf, proc)?;
    let who = proc.process.pnode();
    let _ = proc.caller.held();
    let caller = &mut proc.caller;
    let descriptor = proc.process.detach(alloc, shelf, caller, number, fd, 2);
    let end = end_of(descriptor.mode);
    pipe.leave(alloc, shelf, caller, who, number, end);
    proc.number = number;
    proc.way = None;
    Ok(Moved::Done)
}
