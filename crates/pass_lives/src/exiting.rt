//! The call `exit`.
ghost use Rattle.std.specs.Prelude.{◌≡◌, ◌<◌, None, Some, drop, length, slice_get};
ghost use Rattle.pass_answer.specs.Lives.{HasExited};

use crate::pipes::{after_pipe, end_of, next_pipe};
use pass_entry::Descriptor;
use pass_hold::{Caller, Shelf, Whose};
use pass_pipe::PipeDesk;
use pass_proc::{Ended, Living, Proc, ProcessDesk, Trail};
use std::alloc::Global;
use std::marker::Model;
use std::snapshot::Snapshot;

/// A process that exits. It makes no other call any more, and holds the places for what is left of this one.
#[derive(Drop)]
pub struct Exiting<J: Whose> {
    before: Snapshot<Proc<J>>,
    process: ProcessDesk<J>,
    caller: Caller<J>,
    number: u64,
    fd: u8,
}

impl<J: Whose> Model for Exiting<J> {
    ghost use Rattle.std.specs.Prelude.{◌≤◌};
    ghost use Rattle.std.specs.Coded.{codes, coded_ℕ};
    ghost use Rattle.std.specs.Ordering.{nat_cmp};
    ghost use Rattle.std.specs.FinMap as finite_map;
    ghost use Rattle.std.specs.FinSet as finite_set;
    ghost use Rattle.pass_entry.specs.contracts.entry.Entry as entry_type;
    ghost use Rattle.pass_entry.specs.contracts.objects.Descriptor as descriptor_type;
    ghost use Rattle.pass_lives.specs.Exits.{ExitingView, IsExiting};
    ghost use Rattle.pass_lives.specs.Pipes.{pipes_from};

    ghost Value = { ExitingView };

    ghost coded = { Prim.hlevel (codes, entry_type.the_row.coded, descriptor_type.the_row.coded, finite_map.code {R = nat_cmp} coded_ℕ descriptor_type.the_row.coded, finite_set.code {R = nat_cmp} coded_ℕ) };

    ghost view = { λ e. record { before = e.before.value; rest = pipes_from e.process.state.descriptors e.fd } };

    ghost invariant = { λ e. IsExiting J.book.session e.before.value e.number e.process e.caller (pipes_from e.process.state.descriptors e.fd) × (e.fd ≤ 64) };
}

/// Begins the exit of a process. It makes no entry yet.
pub fn begin_exit<J: Whose>(proc: Proc<J>) -> Exiting<J>
    ensures { result.before ≡ proc }
{
    let before = Snapshot::of(&proc);
    let Proc {
        process,
        caller,
        number,
        way: _,
    } = proc;
    Exiting {
        before,
        process,
        caller,
        number: number + 1,
        fd: 0,
    }
}

impl<J: Whose> Exiting<J> {
    /// The pipe that it leaves next.
    pub fn next(&self) -> Option<Descriptor>
        ensures { result ≡ slice_get self.now.rest 0 }
    {
        next_pipe(&self.process, self.fd)
    }
}

/// Leaves the next pipe.
pub fn leave<J: Whose>(
    alloc: Global,
    pipe: &mut PipeDesk<J>,
    shelf: &mut Shelf<J>,
    exiting: &mut Exiting<J>,
    d: &Descriptor,
)
    requires next { slice_get exiting.old.rest 0 ≡ Some d.now }
    requires pipe { pipe.old.what ≡ d.now.pnode }
    ensures same { exiting.new ≡ record exiting.old { rest = drop 1 exiting.old.rest } }
    ensures fewer { length exiting.new.rest < length exiting.old.rest }
    ensures what { pipe.new.what ≡ pipe.old.what }
{
    let rest = after_pipe(&exiting.process, exiting.fd);
    let who = exiting.process.pnode();
    let number = exiting.number;
    let caller = &mut exiting.caller;
    pipe.leave_by_exit(alloc, shelf, caller, who, number, end_of(d.mode));
    exiting.fd = rest;
}

/// Ends the process once it has left its pipes, and answers the place of its last entry, what lies in its slot from then on, and what it had
/// seen.
pub fn end_exit<J: Whose>(
    alloc: Global,
    shelf: &mut Shelf<J>,
    exiting: Exiting<J>,
    living: Living<J>,
) -> (u64, Ended<J>, Trail<J>)
    requires left { slice_get exiting.rest 0 ≡ None }
    requires living { living.who ≡ exiting.before.who }
    ensures call { HasExited J.book.session exiting.before result.2.seen result.0 }
    ensures trail { result.2.who ≡ exiting.before.who }
    ensures ended { (result.1.who ≡ exiting.before.who) × (result.1.seen ≡ result.2.seen) }
{
    let Exiting {
        before: _,
        process,
        caller,
        number,
        fd: _,
    } = exiting;
    process.finish(alloc, shelf, caller, living, number)
}
