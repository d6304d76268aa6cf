//! The call `pass_read`, of a pipe.
ghost use Rattle.std.specs.Prelude.{◌≡◌, ◌<◌, ◌≤◌, None, Some, true};
ghost use Rattle.std.specs.FinMap as finite_map;
ghost use Rattle.pass_entry.specs.Limits.{transfer_limit};
ghost use Rattle.pass_entry.specs.declared.entry.Ask.TheVariants as ask;
ghost use Rattle.pass_entry.specs.declared.objects.Descriptor.{Descriptor as AnyDescriptor};
ghost use Rattle.pass_plain.specs.declared.request.Request.TheVariants as requests;
ghost use Rattle.pass_plain.specs.Processes.{refusal, is_pipe};
ghost use Rattle.pass_answer.specs.Answers.{Answers};
ghost use Rattle.pass_answer.specs.Ready.{IsReadyIfFull};

use crate::beginning::begin;
use pass_answer::{CallEnd, Moved};
use pass_hold::{Shelf, Whose};
use pass_pipe::PipeDesk;
use pass_proc::Proc;
use std::alloc::Global;

/// Reads the oldest bytes of a pipe, at most so many. It answers Again where the pipe is empty and has a writer, also where too few
/// places are left.
pub fn read_pipe<J: Whose>(
    alloc: Global,
    pipe: &mut PipeDesk<J>,
    shelf: &mut Shelf<J>,
    proc: &mut Proc<J>,
    fd: u8,
    len: u32,
) -> Result<Moved, CallEnd>
    requires fd { fd < 64 }
    requires len { (1 ≤ len) × (len ≤ transfer_limit) }
    requires free { refusal proc.old.state (ask.ToRead fd) ≡ None }
    requires object { (d : AnyDescriptor) → finite_map.get proc.old.state.descriptors fd ≡ Some d → (is_pipe d ≡ true) × (pipe.old.what ≡ d.pnode) }
    ensures call { Answers J.book.session J.places proc.old proc.new (requests.Read fd len) result }
    ensures ready { IsReadyIfFull J.book.session proc.old proc.new (requests.Read fd len) result }
    ensures what { pipe.new.what ≡ pipe.old.what }
{
    let Some(bytes) = pipe.first(alloc, len)? else {
        pipe.look(shelf, &mut proc.caller);
        return Err(CallEnd::Again);
    };
    let read = bytes.clone()?;
    let number = match begin(shelf, proc) {
        Ok(number) => number,
        Err(full) => {
            let caller = &mut proc.caller;
            // What the pipe gives, it gives in all that the process sees.
            pipe.look(shelf, caller);
            return Err(full);
        }
    };
    proc.process.reserve()?;
    let count = read.as_bytes().len() as u32;
    let who = proc.process.pnode();
    let _ = proc.caller.held();
    let caller = &mut proc.caller;
    let (out, from) = pipe.take(alloc, shelf, caller, who, number, len, bytes);
    proc.process
        .gain(alloc, shelf, caller, number, out, fd, read, &from);
    proc.number = number;
    proc.way = None;
    Ok(Moved::Read { len: count, from })
}
