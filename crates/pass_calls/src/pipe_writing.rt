//! The call `pass_write`, to a pipe: with too little room it makes its first entry and is under way.
ghost use Rattle.std.specs.Prelude.{Err, IfErr, IsErrOf, OnOk, ◌≡◌, ◌<◌, ◌≤◌, ◌^◌, List, [], ◌∷◌, None, Some, ℕ, true, false, is_some, length, take};
ghost use Rattle.std.specs.FinMap as finite_map;
ghost use mathlib.Core.List.{IsPrefix};
ghost use Rattle.pass_entry.specs.declared.entry.Ask.TheVariants as ask;
ghost use Rattle.pass_entry.specs.declared.entry.Entry.{Entry as AnyEntry};
ghost use Rattle.pass_entry.specs.declared.objects.Descriptor.{Descriptor as AnyDescriptor};
ghost use Rattle.pass_plain.specs.declared.request.Request.TheVariants as requests;
ghost use Rattle.pass_plain.specs.Pipes.{pipe_after};
ghost use Rattle.pass_plain.specs.Processes.{Process as AnyProcess, refusal, is_pipe};
ghost use Rattle.pass_plain.specs.Replies.{pushed};
ghost use Rattle.pass_hold.specs.Callings.{IsGoing, IsIdle};
ghost use Rattle.pass_proc.specs.Procs.{is_way};
ghost use Rattle.pass_proc.specs.UnderWay.{IsUnderWay, show_entry};
ghost use Rattle.pass_answer.specs.Answers.{Answers, Stepped};
ghost use Rattle.pass_answer.specs.declared.answer.CallEnd.TheVariants as ends;
ghost use Rattle.pass_calls.specs.Writes.{HasBegun};

use crate::beginning::begin;
use crate::held::held;
use pass_answer::{CallEnd, Moved};
use pass_entry::{Bytes, CallFault, CallName};
use pass_flow::Versioned;
use pass_hold::{Caller, Shelf, Whose};
use pass_pipe::PipeDesk;
use pass_proc::{Proc, ProcessDesk, Way};
use std::alloc::Global;

/// The first step of a write to a pipe, which is under way then.
fn begin_write<J: Whose>(
    alloc: Global,
    shelf: &mut Shelf<J>,
    proc: &mut Proc<J>,
    fd: u8,
    bytes: Bytes,
) -> Result<(), CallEnd>
    requires fd { fd < 64 }
    requires new { is_way proc.old.way fd bytes ≡ false }
    requires free { refusal proc.old.state (ask.ToWrite fd (length bytes)) ≡ None }
    requires pipe { (d : AnyDescriptor) → finite_map.get proc.old.state.descriptors fd ≡ Some d → is_pipe d ≡ true }
    ensures begun { OnOk result (HasBegun J.book.session proc.old proc.new fd bytes) }
    ensures full { IfErr result (λ end. Answers J.book.session J.places proc.old proc.new (requests.Write fd bytes) (Err end)) }
{
    let to = held(proc, fd);
    let number = begin(shelf, proc)?;
    let len = bytes.as_bytes().len() as u32;
    let _ = proc.caller.held();
    let caller = &mut proc.caller;
    let (out, source) = proc
        .process
        .show(alloc, shelf, caller, number, CallName::Write, fd, len);
    proc.number = number;
    proc.way = Some(Way {
        fd,
        bytes,
        to,
        out,
        source,
    });
    Ok(())
}

/// The last step of a write to a pipe that is under way and doesn't have to wait.
fn push_step<J: Whose>(
    alloc: Global,
    pipe: &mut PipeDesk<J>,
    shelf: &mut Shelf<J>,
    caller: &mut Caller<J>,
    process: &ProcessDesk<J>,
    number: u64,
    way: Way,
) -> Result<Moved, CallFault>
    requires under { IsUnderWay J.book.session process.now.who number (take way.out caller.old.seen) caller.old.seen process.now.state way }
    requires places { 0 < caller.old.held }
    requires who { caller.old.who ≡ process.now.who }
    requires ready { ¬ (pushed (pipe_after pipe.old.seen pipe.old.what) (length way.bytes) ≡ None) }
    requires spare { 1 ≤ pipe.old.spare }
    requires object { pipe.old.what ≡ way.to.pnode }
    ensures call { (before : List AnyEntry) (p : AnyProcess) → IsGoing J.book.session before caller.old.seen process.now.who number (requests.Write way.fd way.bytes) p ((way.out, show_entry process.now.who number way) ∷ []) process.now.state → Stepped J.book.session process.now.who before caller.new.seen process.now.state (requests.Write way.fd way.bytes) result }
    ensures grows { IsPrefix caller.old.seen caller.new.seen }
    ensures idle { IsIdle J.book.session caller.new.seen process.now.who number process.now.state }
    ensures who { caller.new.who ≡ caller.old.who }
    ensures own { caller.new.own ≡ caller.old.own }
    ensures what { pipe.new.what ≡ pipe.old.what }
    ensures few { length caller.new.seen ≤ 2 ^ 32 }
{
    let Way {
        bytes,
        out,
        source,
        ..
    } = way;
    let len = bytes.as_bytes().len() as u32;
    let who = process.pnode();
    match pipe.push(alloc, shelf, caller, who, number, out, &source, bytes) {
        Ok(pushed) => Ok(Moved::Wrote { len, to: pushed.1 }),
        Err(fault) => Err(fault),
    }
}

/// A write to a pipe that goes on: its first entry stands, and the places that it holds are enough.
fn go_on<J: Whose>(
    alloc: Global,
    pipe: &mut PipeDesk<J>,
    shelf: &mut Shelf<J>,
    proc: &mut Proc<J>,
) -> Result<Moved, CallEnd>
    requires way { is_some proc.old.way ≡ true }
    requires spare { 1 ≤ pipe.old.spare }
    requires object { (fd : ℕ) (bytes : List ℕ) → is_way proc.old.way fd bytes ≡ true → (d : AnyDescriptor) → finite_map.get proc.old.state.descriptors fd ≡ Some d → pipe.old.what ≡ d.pnode }
    ensures call { (fd : ℕ) (bytes : List ℕ) → is_way proc.old.way fd bytes ≡ true → Answers J.book.session J.places proc.old proc.new (requests.Write fd bytes) result }
    ensures memory { ¬ IsErrOf result ends.NoMemory }
    ensures what { pipe.new.what ≡ pipe.old.what }
{
    let _ = proc.caller.held();
    let Some(held) = proc.way.take() else {
        unreachable!()
    };
    if pipe.is_full_for(held.bytes.as_bytes().len() as u32) {
        pipe.look(shelf, &mut proc.caller);
        proc.way = Some(held);
        return Err(CallEnd::Again);
    }
    let number = proc.number;
    match push_step(
        alloc,
        pipe,
        shelf,
        &mut proc.caller,
        &proc.process,
        number,
        held,
    ) {
        Ok(moved) => Ok(moved),
        Err(fault) => Err(CallEnd::from(fault)),
    }
}

/// Writes bytes to a pipe, all of them or none. Where there is a reader and too little room it answers Again, and is under way: the
/// same write by the same process goes on with it, and any other call of the process that makes an entry leaves it.
pub fn write_pipe<J: Whose>(
    alloc: Global,
    pipe: &mut PipeDesk<J>,
    shelf: &mut Shelf<J>,
    proc: &mut Proc<J>,
    fd: u8,
    bytes: &Bytes,
) -> Result<Moved, CallEnd>
    requires fd { fd < 64 }
    requires free { refusal proc.old.state (ask.ToWrite fd (length bytes.now)) ≡ None }
    requires object { (d : AnyDescriptor) → finite_map.get proc.old.state.descriptors fd ≡ Some d → (is_pipe d ≡ true) × (pipe.old.what ≡ d.pnode) }
    ensures call { Answers J.book.session J.places proc.old proc.new (requests.Write fd bytes.now) result }
    ensures what { pipe.new.what ≡ pipe.old.what }
{
    pipe.reserve_source()?;
    if proc.goes_on(fd, bytes) {
        return go_on(alloc, pipe, shelf, proc);
    }
    let copy = bytes.clone()?;
    begin_write(alloc, shelf, proc, fd, copy)?;
    go_on(alloc, pipe, shelf, proc)
}
