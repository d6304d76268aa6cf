//! The call `fork`.
ghost use Rattle.std.specs.Prelude.{◌≡◌, ◌<◌, ◌≤◌, [], false, None, Some, Ok, Err, IfErr, IfOk, OnErr, OnOk, drop, length, slice_get, vec_capacity};
ghost use Rattle.std.specs.FinSet as finite_set;
ghost use Rattle.pass_entry.specs.declared.objects.Kind.TheVariants as kinds;
ghost use Rattle.pass_plain.specs.declared.request.Request.TheVariants as requests;
ghost use Rattle.pass_plain.specs.Sessions.{is_opened};
ghost use Rattle.pass_book.specs.Openings.{new_desk};
ghost use Rattle.pass_hold.specs.Callings.{made_by};
ghost use Rattle.pass_proc.specs.Procs.{IsCallerOf, ProcView, proc_with};
ghost use Rattle.pass_registry.specs.Desks.{IsMade};
ghost use Rattle.pass_answer.specs.Answers.{Answers};
ghost use Rattle.pass_answer.specs.declared.answer.Moved.TheVariants as moved;
ghost use Rattle.pass_lives.specs.Forks.{IsBetween, IsForking};
ghost use Rattle.pass_answer.specs.Lives.{IsChild};

use crate::pipes::{after_pipe, end_of, next_pipe};
use pass_answer::CallEnd;
use pass_book::Desk;
use pass_entry::{CallName, Descriptor, Kind, Node, Pnode, Record};
use pass_hold::{Caller, Shelf, Whose};
use pass_pipe::PipeDesk;
use pass_proc::{ChildRoom, Living, Proc, ProcessDesk, Way};
use pass_registry::RegistryDesk;
use std::alloc::{AllocError, Global};
use std::marker::Model;
use std::snapshot::Snapshot;

/// A fork whose child has its number: the memory for the child, and where its process was used as the source.
#[derive(Drop)]
pub struct Forking<J: Whose> {
    before: Snapshot<Caller<J>>,
    child: Pnode,
    room: ChildRoom,
    out: u64,
    source: Node,
    fd: u8,
}

impl<J: Whose> Model for Forking<J> {
    ghost use Rattle.std.specs.Prelude.{◌≡◌, ◌≤◌};
    ghost use Rattle.std.specs.Coded.{codes, coded_ℕ};
    ghost use Rattle.std.specs.Ordering.{nat_cmp};
    ghost use Rattle.std.specs.FinMap as finite_map;
    ghost use Rattle.pass_entry.specs.contracts.entry.Entry as entry_type;
    ghost use Rattle.pass_entry.specs.contracts.objects.Descriptor as descriptor_type;
    ghost use Rattle.pass_entry.specs.contracts.objects.Node as node_type;
    ghost use Rattle.pass_lives.specs.Forks.{ForkingView};
    ghost use Rattle.pass_lives.specs.Pipes.{pipes_from};

    ghost Value = { ForkingView };

    ghost coded = { Prim.hlevel (codes, entry_type.the_row.coded, descriptor_type.the_row.coded, node_type.the_row.coded, finite_map.code {R = nat_cmp} coded_ℕ descriptor_type.the_row.coded) };

    ghost view = { λ f. record { before = f.before.value.seen; child = f.room.child; descriptors = f.room.descriptors; rest = pipes_from f.room.descriptors f.fd; out = f.out; source = f.source } };

    ghost invariant = { λ f. (f.fd ≤ 64) × (f.child ≡ f.room.child) };
}

/// The memory that a fork takes before its first entry, but for the parent's own.
#[derive(Drop)]
struct ForkRoom {
    child: ChildRoom,
    list: Vec<Record>,
}

/// Takes the memory of a fork for a child of this number.
fn fork_room<J: Whose>(
    alloc: Global,
    child: Pnode,
    process: &mut ProcessDesk<J>,
) -> Result<ForkRoom, AllocError>
    ensures child { IfOk result (λ r. r.child ≡ record { child = child; descriptors = process.old.state.descriptors }) }
    ensures list { IfOk result (λ r. (r.list.items ≡ []) × (1 ≤ vec_capacity r.list)) }
    ensures room { OnOk result (1 ≤ process.new.room) }
    ensures source { OnOk result (finite_set.len process.new.state.children < process.new.spare) }
    ensures same { process.new ≡ record process.old { lineage = process.new.lineage; spare = process.new.spare; room = process.new.room } }
    ensures err { OnErr result (process.new ≡ process.old) }
{
    let list = Vec::with_capacity(alloc, 1)?;
    let child = ChildRoom::of(alloc, child, process.descriptors())?;
    process.reserve()?;
    Ok(ForkRoom { child, list })
}

/// Begins a fork of a process that stands between two calls, by its parts: takes all memory that the fork needs and sees to its places, then the
/// child gets its number from the registry, and the process is marked as its source. The process's parts are in the fork from then on, and are
/// those of a process between two calls again after [`end_fork`].
pub fn begin_fork<J: Whose>(
    alloc: Global,
    registry: &mut RegistryDesk<J>,
    shelf: &mut Shelf<J>,
    caller: &mut Caller<J>,
    process: &mut ProcessDesk<J>,
    number: &mut u64,
    way: &mut Option<Way>,
) -> Result<Forking<J>, CallEnd>
    requires proc { IsBetween J.book.session process.old number.old caller.old way.old }
    ensures forking { IfOk result (λ k. IsForking J.book.session number.new process.new caller.new k) }
    ensures before { IfOk result (λ k. k.before ≡ caller.old.seen) }
    ensures way { OnOk result (way.new ≡ None) }
    ensures made { IfOk result (λ k. IsMade J.book.session registry.old.seen registry.new.seen k.child kinds.Process) }
    ensures who { process.new.who ≡ process.old.who }
    ensures proc { OnErr result (IsBetween J.book.session process.new number.new caller.new way.new) }
    ensures call { IfErr result (λ e. Answers J.book.session J.places (proc_with process.old number.old caller.old way.old) (proc_with process.new number.new caller.new way.new) requests.Fork (Err e)) }
{
    let child = registry.next();
    let room = fork_room(alloc, child, process)?;
    if let Err(full) = caller.room(shelf, 132) {
        return Err(CallEnd::from(full));
    }
    let before = Snapshot::of(&*caller);
    let ForkRoom { child: room, list } = room;
    let who = process.pnode();
    let call = CallName::Fork;
    *number += 1;
    *way = None;
    match registry.mint(shelf, caller, who, *number, call, Kind::Process, list, 131) {
        Err(fault) => Err(CallEnd::from(fault)),
        Ok(child) => {
            let (out, source) = process.spawn(alloc, shelf, caller, *number, child);
            Ok(Forking {
                before,
                child,
                room,
                out,
                source,
                fd: 0,
            })
        }
    }
}

impl<J: Whose> Forking<J> {
    /// The child's number.
    pub fn child(&self) -> Pnode
        ensures { result ≡ self.now.child }
    {
        self.child
    }

    /// The pipe of its process that the child joins next.
    pub fn next(&self, process: &ProcessDesk<J>) -> Option<Descriptor>
        requires { process.now.state.descriptors ≡ self.now.descriptors }
        ensures { result ≡ slice_get self.now.rest 0 }
    {
        next_pipe(process, self.fd)
    }

    /// The next pipe is joined.
    fn pass(&mut self, process: &ProcessDesk<J>)
        requires { process.now.state.descriptors ≡ self.old.descriptors }
        ensures { self.new ≡ record self.old { rest = drop 1 self.old.rest } }
    {
        self.fd = after_pipe(process, self.fd);
    }
}

/// The child joins the next pipe.
pub fn join<J: Whose>(
    alloc: Global,
    pipe: &mut PipeDesk<J>,
    shelf: &mut Shelf<J>,
    caller: &mut Caller<J>,
    process: &ProcessDesk<J>,
    number: u64,
    forking: &mut Forking<J>,
    d: &Descriptor,
)
    requires forking { IsForking J.book.session number process.now caller.old forking.old }
    requires next { slice_get forking.old.rest 0 ≡ Some d.now }
    requires pipe { pipe.old.what ≡ d.now.pnode }
    ensures forking { IsForking J.book.session number process.now caller.new forking.new }
    ensures same { forking.new ≡ record forking.old { rest = drop 1 forking.old.rest } }
    ensures fewer { length forking.new.rest < length forking.old.rest }
    ensures what { pipe.new.what ≡ pipe.old.what }
{
    let who = process.pnode();
    let keep = caller.held() - 1;
    pipe.join(alloc, shelf, caller, who, number, end_of(d.mode), keep);
    forking.pass(process);
}

/// A process that has made no call has made no entry.
fn untouched<J: Whose>(child: &Proc<J>)
    requires { child.now.number ≡ 0 }
    ensures { made_by child.now.who child.now.seen ≡ [] }
{
    let _ = &child.number;
}

/// Ends a fork once the child has joined all pipes: the child begins, by the blank desk of its number. What lies in the child's slot from then on
/// comes with it.
pub fn end_fork<J: Whose>(
    alloc: Global,
    shelf: &mut Shelf<J>,
    caller: &mut Caller<J>,
    process: &ProcessDesk<J>,
    number: u64,
    forking: Forking<J>,
    desk: Desk,
) -> (Proc<J>, Living<J>)
    requires forking { IsForking J.book.session number process.now caller.old forking }
    requires joined { slice_get forking.rest 0 ≡ None }
    requires desk { desk ≡ new_desk J.book forking.child }
    requires new { is_opened J.book.session.start forking.child ≡ false }
    ensures call { (old : ProcView) → old.who ≡ process.now.who → old.seen ≡ forking.before → Answers J.book.session J.places old (proc_with process.now number caller.new None) requests.Fork (Ok moved.Done) }
    ensures parent { IsCallerOf J.book.session process.now number caller.new }
    ensures child { IsChild (proc_with process.now number caller.new None) result.0 }
    ensures living { result.1.who ≡ result.0.who }
{
    let Forking {
        before: _,
        child: _,
        room,
        out,
        source,
        fd: _,
    } = forking;
    let who = process.pnode();
    let _ = caller.held();
    let pair = Proc::born(alloc, shelf, caller, room, desk, who, number, out, &source);
    untouched(&pair.0);
    pair
}
