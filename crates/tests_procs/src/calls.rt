//! A store's calls, with letters for names and for bytes.
ghost use Rattle.std.specs.Prelude.{◌≡◌, ◌≤◌, ◌<◌, true, IfOk};
ghost use Rattle.pass_entry.specs.Texts.{is_name};

use pass_answer::{CallEnd, Moved};
use pass_entry::{Bytes, CallFault, Text};
use pass_outside::{Disk, Gate};
use pass_proc::{Proc, Trail};
use pass_safe::Opening;
use pass_store::Store;
use std::alloc::Global;
use std::sync::Wait;
use std::test::*;

/// A call of a process, or a look at it. A name is one letter; what is written is one letter so many times.
#[derive(Clone, Copy)]
pub enum Call {
    Creat(u8, u8),
    Read(u8, u32),
    Write(u8, u8, usize),
    Pipe(u8, u8),
    Fork,
    MakeObject(u8),
    Freeze(u8),
    Sync(u8),
    /// Makes all durable that stands.
    Settle,
    /// Puts so many changed blocks aside at most.
    Trickle(u32),
    /// Meets the process at this place.
    Meet(usize),
    /// Ends, and the process at this place meets what it had seen.
    Retire(usize),
    /// How many calls it has begun.
    Number,
    /// How many entries it has seen.
    Seen,
}

/// What a call answers, or a look shows. Nodes are a number and a version.
#[derive(Clone, Copy, PartialEq, Eq)]
pub enum Answer {
    Made(u64),
    Read(u32, u64, u64),
    Wrote(u32, u64, u64),
    /// So many calls of the device, and entries.
    Synced(u64, u64),
    Refused(CallFault),
    Again,
    Full(u32, u32),
    Number(u64),
    /// Nothing that a call answers here.
    Other,
}

/// The processes of a session in the order in which they began. Those that have ended are gone.
pub type Procs<J> = Vec<Option<Proc<J>>>;

fn went(moved: &Moved) -> Answer {
    match moved {
        Moved::Made(pnode) => Answer::Made(pnode.0),
        Moved::Read { len, from } => Answer::Read(*len, from.pnode.0, from.version),
        Moved::Wrote { len, to } => Answer::Wrote(*len, to.pnode.0, to.version),
        Moved::Synced { calls, entries } => Answer::Synced(*calls, *entries),
        Moved::Done | Moved::Frozen(_) => Answer::Other,
    }
}

fn ended(end: &CallEnd) -> Answer {
    match end {
        CallEnd::Fault(fault) => Answer::Refused(*fault),
        CallEnd::Again => Answer::Again,
        CallEnd::Full { left, need } => Answer::Full(*left, *need),
        CallEnd::DiskFault { .. } | CallEnd::NoMemory => Answer::Other,
    }
}

fn told(answer: Result<Moved, CallEnd>) -> Answer {
    match answer {
        Ok(moved) => went(&moved),
        Err(end) => ended(&end),
    }
}

/// A number that a descriptor can have.
fn low(fd: u8) -> u8
    ensures { result < 64 }
{
    fd % 64
}

/// How many bytes one call can read.
fn few(len: u32) -> u32
    ensures { (1 ≤ result) × (result ≤ 4096) }
{
    len.clamp(1, 4_096)
}

fn name_of(alloc: Global, letter: u8) -> Result<Text, Fail>
    ensures { IfOk result (λ name. is_name name ≡ true) }
{
    match Text::name(alloc, &[letter]) {
        Ok(name) => Ok(name),
        Err(_) => Err(Fail::new("no name")),
    }
}

fn write<J: Opening, D: Disk, G: Gate, R: Wait>(
    rt: &R,
    alloc: Global,
    store: &Store<'_, J, D, G>,
    proc: &mut Proc<J>,
    fd: u8,
    letter: u8,
    count: usize,
) -> Result<Answer, Fail> {
    let letters = vec![in alloc; letter; count]?;
    let Ok(bytes) = Bytes::of(alloc, &letters) else {
        return Err(Fail::new("the bytes are too many"));
    };
    Ok(told(pass_shared::pass_write(&store.locks, rt, alloc, proc, low(fd), &bytes)))
}

/// A call on what the process holds, or by which it holds something, or a look at it.
fn on_held<J: Opening, D: Disk, G: Gate, R: Wait>(
    rt: &R,
    alloc: Global,
    store: &Store<'_, J, D, G>,
    proc: &mut Proc<J>,
    call: Call,
) -> Answer {
    match call {
        Call::Read(fd, len) => told(pass_shared::pass_read(
            &store.locks,
            rt,
            alloc,
            proc,
            low(fd),
            few(len),
        )),
        Call::Pipe(reader, writer) => told(pass_shared::pipe(
            &store.locks,
            rt,
            alloc,
            proc,
            low(reader),
            low(writer),
        )),
        Call::MakeObject(fd) => told(pass_shared::pass_mkobj(
            &store.locks,
            rt,
            alloc,
            proc,
            low(fd),
        )),
        Call::Freeze(fd) => told(pass_shared::pass_freeze(&store.locks, rt, alloc, proc, low(fd))),
        Call::Sync(fd) => told(pass_kept::pass_sync(
            &store.locks,
            &store.vault,
            rt,
            alloc,
            proc,
            low(fd),
        )),
        Call::Number => Answer::Number(proc.number()),
        Call::Seen => Answer::Number(proc.seen()),
        Call::Settle => match pass_kept::settle(&store.locks, &store.vault, rt, alloc, proc) {
            Ok(receipt) => Answer::Synced(receipt.calls, receipt.entries),
            Err(end) => ended(&end),
        },
        Call::Trickle(limit) => match pass_kept::trickle(
            &store.locks,
            &store.vault,
            rt,
            alloc,
            limit,
        ) {
            Ok(count) => Answer::Number(u64::from(count)),
            Err(end) => ended(&end),
        },
        _ => Answer::Other,
    }
}

/// What a call of a process answers.
fn on_process<J: Opening, D: Disk, G: Gate, R: Wait>(
    rt: &R,
    alloc: Global,
    store: &Store<'_, J, D, G>,
    proc: &mut Proc<J>,
    call: Call,
) -> Result<Answer, Fail> {
    match call {
        Call::Creat(fd, name) => {
            let name = name_of(alloc, name)?;
            Ok(told(pass_shared::creat(&store.locks, rt, alloc, proc, low(fd), &name)))
        }
        Call::Write(fd, letter, count) => write(rt, alloc, store, proc, fd, letter, count),
        _ => Ok(on_held(rt, alloc, store, proc, call)),
    }
}

/// A fork, whose child is then the last of the processes.
fn fork<J: Opening, D: Disk, G: Gate, R: Wait>(
    rt: &R,
    alloc: Global,
    store: &Store<'_, J, D, G>,
    procs: &mut Procs<J>,
    who: usize,
) -> Result<Answer, Fail> {
    let Some(Some(parent)) = procs.get_mut(who) else {
        return Ok(Answer::Other);
    };
    match pass_shared::fork(&store.locks, rt, alloc, parent) {
        Ok(child) => {
            let made = Answer::Made(child.pnode().0);
            procs.push(Some(child))?;
            Ok(made)
        }
        Err(end) => Ok(ended(&end)),
    }
}

/// Another process meets the one at this place. The answer is how many entries that one has seen then.
fn met<J: Opening, D: Disk, G: Gate, R: Wait>(
    rt: &R,
    store: &Store<'_, J, D, G>,
    procs: &mut Procs<J>,
    who: usize,
    other: &mut Proc<J>,
) -> Answer {
    let Some(Some(proc)) = procs.get_mut(who) else {
        return Answer::Other;
    };
    pass_shared::meet(&store.locks, rt, other, proc);
    Answer::Number(proc.seen())
}

/// The process at this place meets what an ended one had seen. The answer is how many entries it has seen then.
fn met_ended<J: Opening, D: Disk, G: Gate, R: Wait>(
    rt: &R,
    store: &Store<'_, J, D, G>,
    procs: &mut Procs<J>,
    who: usize,
    trail: &mut Trail<J>,
) -> Answer {
    let Some(Some(proc)) = procs.get_mut(who) else {
        return Answer::Other;
    };
    pass_shared::meet_ended(&store.locks, rt, proc, trail);
    Answer::Number(proc.seen())
}

/// A process that lives makes a call, and lives on.
fn lives<J: Opening, D: Disk, G: Gate, R: Wait>(
    rt: &R,
    alloc: Global,
    store: &Store<'_, J, D, G>,
    procs: &mut Procs<J>,
    proc: &mut Proc<J>,
    call: Call,
) -> Result<Answer, Fail> {
    match call {
        Call::Meet(other) => Ok(met(rt, store, procs, other, proc)),
        _ => on_process(rt, alloc, store, proc, call),
    }
}

/// Takes out the process at this place.
fn taken<J: Opening>(procs: &mut Procs<J>, who: usize) -> Option<Proc<J>> {
    procs.get_mut(who)?.take()
}

/// Lays a process back at its place.
fn lay<J: Opening>(procs: &mut Procs<J>, who: usize, proc: Proc<J>) {
    if let Some(slot) = procs.get_mut(who) {
        *slot = Some(proc);
    }
}

/// What a call answers of the process at this place.
pub fn called<J: Opening, D: Disk, G: Gate, R: Wait>(
    rt: &R,
    alloc: Global,
    store: &Store<'_, J, D, G>,
    procs: &mut Procs<J>,
    who: usize,
    call: Call,
) -> Result<Answer, Fail> {
    if let Call::Fork = call {
        return fork(rt, alloc, store, procs, who);
    }
    let Some(mut proc) = taken(procs, who) else {
        return Ok(Answer::Other);
    };
    match call {
        Call::Retire(other) => {
            let mut trail = pass_shared::retire(&store.locks, rt, alloc, proc);
            Ok(met_ended(rt, store, procs, other, &mut trail))
        }
        _ => {
            let answer = lives(rt, alloc, store, procs, &mut proc, call)?;
            lay(procs, who, proc);
            Ok(answer)
        }
    }
}
