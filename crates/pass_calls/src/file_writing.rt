//! The call `pass_write`, on a file.
ghost use Rattle.std.specs.Prelude.{◌≡◌, ◌+◌, ◌<◌, ◌≤◌, IfOk, IsErrOf, None, Some, false, true, length};
ghost use Rattle.std.specs.FinMap as finite_map;
ghost use Rattle.pass_entry.specs.declared.entry.Act.TheVariants as act;
ghost use Rattle.pass_entry.specs.declared.entry.Ask.TheVariants as ask;
ghost use Rattle.pass_entry.specs.declared.objects.Descriptor.{Descriptor as AnyDescriptor};
ghost use Rattle.pass_plain.specs.declared.request.Request.TheVariants as requests;
ghost use Rattle.pass_plain.specs.Processes.{is_file, refusal};
ghost use Rattle.pass_file.specs.Desks.{change_records};
ghost use Rattle.pass_proc.specs.Procs.{is_way};
ghost use Rattle.pass_answer.specs.Answers.{Answers};
ghost use Rattle.pass_answer.specs.declared.answer.CallEnd.TheVariants as ends;

use crate::beginning::begin;
use crate::held::held;
use pass_answer::{CallEnd, Moved};
use pass_entry::{Bytes, CallName, Descriptor, Record};
use pass_file::FileDesk;
use pass_hold::{Shelf, Whose};
use pass_proc::Proc;
use std::alloc::{AllocError, Global};

/// What a write to a file needs: it hangs on the file and the process alone, so nobody holds the book for it.
#[derive(Drop)]
pub struct ReadyWrite {
    /// The descriptor by which the process writes.
    pub d: Descriptor,
    /// The records that the entry on the file has behind those of its version.
    pub list: Vec<Record>,
    pub bytes: Bytes,
}

/// Makes ready a write to a held file at the offset of its descriptor: takes its memory, and makes its records.
pub fn ready_write<J: Whose>(
    alloc: Global,
    file: &mut FileDesk<J>,
    proc: &Proc<J>,
    fd: u8,
    bytes: &Bytes,
) -> Result<ReadyWrite, AllocError>
    requires free { refusal proc.now.state (ask.ToWrite fd (length bytes.now)) ≡ None }
    requires object { (d : AnyDescriptor) → finite_map.get proc.now.state.descriptors fd ≡ Some d → is_file d ≡ true }
    ensures descriptor { IfOk result (λ r. finite_map.get proc.now.state.descriptors fd ≡ Some r.d) }
    ensures room { IfOk result (λ r. (r.d.offset + length r.bytes ≤ file.new.room) × (1 ≤ file.new.spare)) }
    ensures list { IfOk result (λ r. r.list.items ≡ change_records J.book.session file.new.seen file.new.what (act.Put 0 r.d.offset r.bytes)) }
    ensures bytes { IfOk result (λ r. r.bytes ≡ bytes.now) }
    ensures same { file.new ≡ record file.old { spare = file.new.spare; room = file.new.room } }
{
    let d = held(proc, fd);
    file.reserve(d.offset + bytes.as_bytes().len() as u64)?;
    let bytes = bytes.clone()?;
    let list = file.put_records(alloc, d.offset, &bytes)?;
    Ok(ReadyWrite { d, list, bytes })
}

/// Writes bytes that were made ready to a held file at the offset of its descriptor, which rises by their number. It takes no memory.
pub fn write_file<J: Whose>(
    alloc: Global,
    file: &mut FileDesk<J>,
    shelf: &mut Shelf<J>,
    proc: &mut Proc<J>,
    fd: u8,
    ready: ReadyWrite,
) -> Result<Moved, CallEnd>
    requires fd { fd < 64 }
    requires free { refusal proc.old.state (ask.ToWrite fd (length ready.bytes)) ≡ None }
    requires object { (d : AnyDescriptor) → finite_map.get proc.old.state.descriptors fd ≡ Some d → (is_file d ≡ true) × (file.old.what ≡ d.pnode) }
    requires new { is_way proc.old.way fd ready.bytes ≡ false }
    requires descriptor { finite_map.get proc.old.state.descriptors fd ≡ Some ready.d }
    requires room { (ready.d.offset + length ready.bytes ≤ file.old.room) × (1 ≤ file.old.spare) }
    requires list { ready.list.items ≡ change_records J.book.session file.old.seen file.old.what (act.Put 0 ready.d.offset ready.bytes) }
    ensures call { Answers J.book.session J.places proc.old proc.new (requests.Write fd ready.bytes) result }
    ensures memory { ¬ IsErrOf result ends.NoMemory }
    ensures what { file.new.what ≡ file.old.what }
{
    let number = begin(shelf, proc)?;
    let ReadyWrite { d, list, bytes } = ready;
    let len = bytes.as_bytes().len() as u32;
    let who = proc.process.pnode();
    let _ = proc.caller.held();
    let caller = &mut proc.caller;
    let (out, source) = proc
        .process
        .show(alloc, shelf, caller, number, CallName::Write, fd, len);
    let to = file.put(
        shelf, caller, who, number, list, out, &source, d.offset, bytes,
    );
    proc.number = number;
    proc.way = None;
    Ok(Moved::Wrote { len, to })
}
