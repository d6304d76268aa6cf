//! The call `pass_read`, on a file.
ghost use Rattle.std.specs.Prelude.{◌≡◌, ◌<◌, ◌≤◌, IfOk, None, Some, drop, take, true};
ghost use Rattle.std.specs.FinMap as finite_map;
ghost use Rattle.pass_entry.specs.Limits.{transfer_limit};
ghost use Rattle.pass_entry.specs.declared.entry.Ask.TheVariants as ask;
ghost use Rattle.pass_entry.specs.declared.objects.Descriptor.{Descriptor as AnyDescriptor};
ghost use Rattle.pass_plain.specs.declared.request.Request.TheVariants as requests;
ghost use Rattle.pass_plain.specs.Files.{file_after};
ghost use Rattle.pass_plain.specs.Processes.{is_file, refusal};
ghost use Rattle.pass_answer.specs.Answers.{Answers};

use crate::beginning::begin;
use crate::held::held;
use pass_answer::{CallEnd, Moved};
use pass_entry::{Bytes, Descriptor};
use pass_file::FileDesk;
use pass_hold::{Shelf, Whose};
use pass_proc::Proc;
use std::alloc::{AllocError, Global};

/// What a read of a file needs: it hangs on the file and the process alone, so nobody holds the book for it.
#[derive(Drop)]
pub struct ReadyRead {
    /// The descriptor by which the process reads.
    pub d: Descriptor,
    /// What is read, for the history.
    pub bytes: Bytes,
    /// The same for the process.
    pub copy: Bytes,
}

/// Makes ready a read of at most so many bytes from a held file at the offset of its descriptor: takes the memory of both copies.
/// It refuses only where that is wanting.
pub fn ready_read<J: Whose>(
    alloc: Global,
    file: &FileDesk<J>,
    proc: &Proc<J>,
    fd: u8,
    len: u32,
) -> Result<ReadyRead, AllocError>
    requires len { len ≤ transfer_limit }
    requires free { refusal proc.now.state (ask.ToRead fd) ≡ None }
    ensures descriptor { IfOk result (λ r. finite_map.get proc.now.state.descriptors fd ≡ Some r.d) }
    ensures bytes { IfOk result (λ r. r.bytes ≡ take len (drop r.d.offset (file_after J.book.session file.now.seen file.now.what))) }
    ensures copy { IfOk result (λ r. r.copy ≡ r.bytes) }
{
    let d = held(proc, fd);
    let bytes = file.read(alloc, d.offset, len)?;
    let copy = bytes.clone()?;
    Ok(ReadyRead { d, bytes, copy })
}

/// Reads bytes that were made ready from a held file, at most so many, at the offset of its descriptor, which rises by their
/// number. They are then the process's last read ones: none at the end of the file.
pub fn read_file<J: Whose>(
    alloc: Global,
    file: &mut FileDesk<J>,
    shelf: &mut Shelf<J>,
    proc: &mut Proc<J>,
    fd: u8,
    len: u32,
    ready: ReadyRead,
) -> Result<Moved, CallEnd>
    requires fd { fd < 64 }
    requires len { (1 ≤ len) × (len ≤ transfer_limit) }
    requires free { refusal proc.old.state (ask.ToRead fd) ≡ None }
    requires object { (d : AnyDescriptor) → finite_map.get proc.old.state.descriptors fd ≡ Some d → (is_file d ≡ true) × (file.old.what ≡ d.pnode) }
    requires descriptor { finite_map.get proc.old.state.descriptors fd ≡ Some ready.d }
    requires bytes { ready.bytes ≡ take len (drop ready.d.offset (file_after J.book.session file.old.seen file.old.what)) }
    requires copy { ready.copy ≡ ready.bytes }
    ensures call { Answers J.book.session J.places proc.old proc.new (requests.Read fd len) result }
    ensures what { file.new.what ≡ file.old.what }
{
    let number = begin(shelf, proc)?;
    proc.process.reserve()?;
    let ReadyRead { d, bytes, copy } = ready;
    let count = bytes.as_bytes().len() as u32;
    let who = proc.process.pnode();
    let _ = proc.caller.held();
    let caller = &mut proc.caller;
    let (out, from) = file.give(alloc, shelf, caller, who, number, d.offset, len, bytes);
    proc.process
        .gain(alloc, shelf, caller, number, out, fd, copy, &from);
    proc.number = number;
    proc.way = None;
    Ok(Moved::Read { len: count, from })
}
