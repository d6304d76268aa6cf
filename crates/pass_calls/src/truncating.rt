//! The call `truncate`.
ghost use Rattle.std.specs.Prelude.{◌≡◌, ◌<◌, ◌≤◌, IfOk, IsErrOf, OnOk, None, Some};
ghost use Rattle.std.specs.FinMap as finite_map;
ghost use Rattle.pass_entry.specs.Limits.{file_limit};
ghost use Rattle.pass_entry.specs.declared.entry.Act.TheVariants as act;
ghost use Rattle.pass_entry.specs.declared.entry.Ask.TheVariants as ask;
ghost use Rattle.pass_entry.specs.declared.objects.Descriptor.{Descriptor as AnyDescriptor};
ghost use Rattle.pass_plain.specs.declared.request.Request.TheVariants as requests;
ghost use Rattle.pass_plain.specs.Processes.{refusal};
ghost use Rattle.pass_file.specs.Desks.{change_records};
ghost use Rattle.pass_answer.specs.Answers.{Answers};
ghost use Rattle.pass_answer.specs.declared.answer.CallEnd.TheVariants as ends;

use crate::beginning::begin;
use pass_answer::{CallEnd, Moved};
use pass_entry::{CallName, Record};
use pass_file::FileDesk;
use pass_hold::{Shelf, Whose};
use pass_proc::Proc;
use std::alloc::{AllocError, Global};

/// Makes ready that a held file gets a size: takes the memory of that, and makes the records that its entry has behind those of the
/// file's version.
pub fn ready_cut<J: Whose>(
    alloc: Global,
    file: &mut FileDesk<J>,
    size: u64,
) -> Result<Vec<Record>, AllocError>
    requires { size ≤ file_limit }
    ensures room { OnOk result ((size ≤ file.new.room) × (1 ≤ file.new.spare)) }
    ensures list { IfOk result (λ list. list.items ≡ change_records J.book.session file.new.seen file.new.what (act.Cut 0 size)) }
    ensures same { file.new ≡ record file.old { spare = file.new.spare; room = file.new.room } }
{
    file.reserve(size)?;
    file.cut_records(alloc, size)
}

/// Gives a held file a size, which was made ready: it loses what lies behind it, or has zeros up to it. It takes no memory.
pub fn truncate<J: Whose>(
    alloc: Global,
    file: &mut FileDesk<J>,
    shelf: &mut Shelf<J>,
    proc: &mut Proc<J>,
    fd: u8,
    size: u64,
    list: Vec<Record>,
) -> Result<Moved, CallEnd>
    requires fd { fd < 64 }
    requires free { refusal proc.old.state (ask.ToCut fd size) ≡ None }
    requires object { (d : AnyDescriptor) → finite_map.get proc.old.state.descriptors fd ≡ Some d → file.old.what ≡ d.pnode }
    requires room { (size ≤ file.old.room) × (1 ≤ file.old.spare) }
    requires list { list.items ≡ change_records J.book.session file.old.seen file.old.what (act.Cut 0 size) }
    ensures call { Answers J.book.session J.places proc.old proc.new (requests.Truncate fd size) result }
    ensures memory { ¬ IsErrOf result ends.NoMemory }
    ensures what { file.new.what ≡ file.old.what }
{
    let number = begin(shelf, proc)?;
    let who = proc.process.pnode();
    let _ = proc.caller.held();
    let caller = &mut proc.caller;
    let (out, source) = proc
        .process
        .show(alloc, shelf, caller, number, CallName::Truncate, fd, 0);
    file.cut(shelf, caller, who, number, list, out, &source, size);
    proc.number = number;
    proc.way = None;
    Ok(Moved::Done)
}
