//! The calls on what a process holds open.
ghost use Rattle.std.specs.Prelude.{◌<◌, ◌≤◌, IsErrOf};
ghost use Rattle.pass_entry.specs.Limits.{transfer_limit};
ghost use Rattle.pass_plain.specs.declared.request.Request.TheVariants as requests;
ghost use Rattle.pass_answer.specs.Answers.{Answers};
ghost use Rattle.pass_answer.specs.declared.answer.CallEnd.TheVariants as ends;
ghost use Rattle.pass_answer.specs.Ready.{IsReadyIfFull};

use pass_answer::{CallEnd, Moved, refused};
use pass_entry::{Ask, Bytes, CallName};
use pass_flow::Versioned;
use pass_hold::Whose;
use pass_outside::Gate;
use pass_proc::Proc;
use pass_slots::{Locks, Slot, asked, held_pipe, see_way};
use std::alloc::Global;
use std::sync::Wait;

/// Gives up a descriptor. It takes no memory.
pub fn close_fd<R: Wait, J: Whose, G: Gate>(
    locks: &Locks<'_, J, G>,
    rt: &R,
    alloc: Global,
    proc: &mut Proc<J>,
    fd: u8,
) -> Result<Moved, CallEnd>
    requires fd { fd < 64 }
    ensures call { Answers J.book.session J.places proc.old proc.new (requests.CloseFd fd) result }
    ensures memory { ¬ IsErrOf result ends.NoMemory }
{
    match held_pipe(proc, fd) {
        Some(d) => {
            let mut slot = locks.object(rt, alloc, &d);
            locks.gate.inside(d.pnode);
            let mut shelf = locks.book.lock(rt);
            match &mut *slot {
                Slot::Pipe(pipe) => pass_calls::close_pipe(alloc, &mut shelf, proc, pipe, fd),
                _ => unreachable!(),
            }
        }
        None => {
            let mut shelf = locks.book.lock(rt);
            pass_calls::close(alloc, &mut shelf, proc, fd)
        }
    }
}

/// Sets the offset of a descriptor of a file. It takes no memory.
pub fn seek<R: Wait, J: Whose, G: Gate>(
    locks: &Locks<'_, J, G>,
    rt: &R,
    alloc: Global,
    proc: &mut Proc<J>,
    fd: u8,
    at: u64,
) -> Result<Moved, CallEnd>
    requires fd { fd < 64 }
    ensures call { Answers J.book.session J.places proc.old proc.new (requests.Seek fd at) result }
    ensures memory { ¬ IsErrOf result ends.NoMemory }
{
    let mut shelf = locks.book.lock(rt);
    pass_calls::seek(alloc, &mut shelf, proc, fd, at)
}

/// Reads at most so many bytes, which are then the process's last read ones. Those of a file are copied before the book is held,
/// and once the read is allowed. A pipe for which it has to wait is told before too few places are.
pub fn pass_read<R: Wait, J: Whose, G: Gate>(
    locks: &Locks<'_, J, G>,
    rt: &R,
    alloc: Global,
    proc: &mut Proc<J>,
    fd: u8,
    len: u32,
) -> Result<Moved, CallEnd>
    requires fd { fd < 64 }
    requires len { (1 ≤ len) × (len ≤ transfer_limit) }
    ensures call { Answers J.book.session J.places proc.old proc.new (requests.Read fd len) result }
    ensures ready { IsReadyIfFull J.book.session proc.old proc.new (requests.Read fd len) result }
{
    let ask = Ask::ToRead { fd };
    let d = match asked(proc, fd, &ask) {
        Ok(d) => d,
        Err(fault) => {
            let mut shelf = locks.book.lock(rt);
            return Err(refused(alloc, &mut shelf, proc, CallName::Read, ask, fault));
        }
    };
    let mut slot = locks.object(rt, alloc, &d);
    locks.gate.inside(d.pnode);
    match &mut *slot {
        Slot::File(file) => {
            let ready = pass_calls::ready_read(alloc, file, proc, fd, len)?;
            let mut shelf = locks.book.lock(rt);
            pass_calls::read_file(alloc, file, &mut shelf, proc, fd, len, ready)
        }
        Slot::Pipe(pipe) => {
            let mut shelf = locks.book.lock(rt);
            pass_calls::read_pipe(alloc, pipe, &mut shelf, proc, fd, len)
        }
        _ => unreachable!(),
    }
}

/// Writes all these bytes. What a file's change makes of records is made before the book is held.
pub fn pass_write<R: Wait, J: Whose, G: Gate>(
    locks: &Locks<'_, J, G>,
    rt: &R,
    alloc: Global,
    proc: &mut Proc<J>,
    fd: u8,
    bytes: &Bytes,
) -> Result<Moved, CallEnd>
    requires fd { fd < 64 }
    ensures call { Answers J.book.session J.places proc.old proc.new (requests.Write fd bytes.now) result }
{
    see_way(proc, fd, bytes);
    let len = bytes.as_bytes().len() as u32;
    let ask = Ask::ToWrite { fd, len };
    let d = match asked(proc, fd, &ask) {
        Ok(d) => d,
        Err(fault) => {
            let mut shelf = locks.book.lock(rt);
            return Err(refused(alloc, &mut shelf, proc, CallName::Write, ask, fault));
        }
    };
    let mut slot = locks.object(rt, alloc, &d);
    locks.gate.inside(d.pnode);
    match &mut *slot {
        Slot::File(file) => {
            locks.note_changed(rt, file.what());
            let ready = pass_calls::ready_write(alloc, file, proc, fd, bytes)?;
            let mut shelf = locks.book.lock(rt);
            pass_calls::write_file(alloc, file, &mut shelf, proc, fd, ready)
        }
        Slot::Pipe(pipe) => {
            let mut shelf = locks.book.lock(rt);
            pass_calls::write_pipe(alloc, pipe, &mut shelf, proc, fd, bytes)
        }
        _ => unreachable!(),
    }
}

/// Sets the size of a file. What its change makes of records is made before the book is held.
pub fn truncate<R: Wait, J: Whose, G: Gate>(
    locks: &Locks<'_, J, G>,
    rt: &R,
    alloc: Global,
    proc: &mut Proc<J>,
    fd: u8,
    size: u64,
) -> Result<Moved, CallEnd>
    requires fd { fd < 64 }
    ensures call { Answers J.book.session J.places proc.old proc.new (requests.Truncate fd size) result }
{
    let ask = Ask::ToCut { fd, size };
    let d = match asked(proc, fd, &ask) {
        Ok(d) => d,
        Err(fault) => {
            let mut shelf = locks.book.lock(rt);
            return Err(refused(alloc, &mut shelf, proc, CallName::Truncate, ask, fault));
        }
    };
    let mut slot = locks.object(rt, alloc, &d);
    locks.gate.inside(d.pnode);
    match &mut *slot {
        Slot::File(file) => {
            locks.note_changed(rt, file.what());
            let list = pass_calls::ready_cut(alloc, file, size)?;
            let mut shelf = locks.book.lock(rt);
            pass_calls::truncate(alloc, file, &mut shelf, proc, fd, size, list)
        }
        _ => unreachable!(),
    }
}
