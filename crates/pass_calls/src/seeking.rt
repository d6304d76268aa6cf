//! The call `seek`.
ghost use Rattle.std.specs.Prelude.{◌<◌, IsErrOf};
ghost use Rattle.pass_plain.specs.declared.request.Request.TheVariants as requests;
ghost use Rattle.pass_answer.specs.Answers.{Answers};
ghost use Rattle.pass_answer.specs.declared.answer.CallEnd.TheVariants as ends;

use crate::beginning::begin;
use pass_answer::{CallEnd, Moved, refused};
use pass_entry::{Ask, CallName};
use pass_hold::{Shelf, Whose};
use pass_proc::Proc;
use std::alloc::Global;

/// Sets the offset of a descriptor of a file. It takes no memory.
pub fn seek<J: Whose>(
    alloc: Global,
    shelf: &mut Shelf<J>,
    proc: &mut Proc<J>,
    fd: u8,
    at: u64,
) -> Result<Moved, CallEnd>
    requires fd { fd < 64 }
    ensures call { Answers J.book.session J.places proc.old proc.new (requests.Seek fd at) result }
    ensures memory { ¬ IsErrOf result ends.NoMemory }
{
    let ask = Ask::ToSeek { fd, at };
    if let Err(fault) = proc.deny(&ask) {
        return Err(refused(alloc, shelf, proc, CallName::Seek, ask, fault));
    }
    let number = begin(shelf, proc)?;
    let _ = proc.caller.held();
    proc.process
        .seek(alloc, shelf, &mut proc.caller, number, fd, at);
    proc.number = number;
    proc.way = None;
    Ok(Moved::Done)
}
