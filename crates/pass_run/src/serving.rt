//! A store as the run of a trace asks it.
ghost use Rattle.std.specs.Prelude.{◌≡◌, ◌≤◌, ◌+◌};
ghost use Rattle.pass_trace.specs.TraceLines.{plain_trace, write_of};
ghost use Rattle.pass_replay.specs.Lines.{IsLineCall};
ghost use Rattle.pass_progress.specs.Calls.{AnswersAny, request_with};
ghost use Rattle.pass_walk.specs.Lefts.{HasRoomFor};
ghost use Rattle.pass_walk.specs.Runs.{IsRanBy};
ghost use Rattle.pass_order.specs.Replayed.{IsReplayedBy};
ghost use Rattle.pass_run.specs.Orders.{IsOrder};

use crate::order::Order;
use pass_answer::{CallEnd, Moved};
use pass_entry::{Bytes, Pnode};
use pass_order::run as in_order;
use pass_outside::{Disk, Gate};
use pass_proc::{Proc, Trail};
use pass_progress::Calls;
use pass_safe::Opening;
use pass_store::Store;
use pass_trace::{Command, Payload};
use pass_turns::run as in_passes;
use pass_walk::{Plan, Ran};
use std::alloc::Global;
use std::sync::Wait;
use std::thread::Threads;

/// How many changed blocks are put aside at once, to be written later.
const ASIDE: u32 = 1024;

/// From how many entries on, of those that aren't durable, a trickle is worth its frame. The first one always is.
const ENOUGH: u64 = 1024;

/// A store, with what its calls wait by and take memory from.
#[derive_where(Clone, Copy)]
pub(crate) struct Served<'a, 'g, R, J: Opening, D: Disk, G: Gate> {
    pub rt: &'a R,
    pub alloc: Global,
    pub store: &'a Store<'g, J, D, G>,
}

impl<'a, 'g, R: Wait, J: Opening, D: Disk, G: Gate> Served<'a, 'g, R, J, D, G> {
    /// How many entries were made.
    fn entered(&self) -> u64 {
        let mut shelf = self.store.locks.book.lock(self.rt);
        let note = shelf.note();
        note.seen()
    }

    /// How many of them are durable.
    fn durable(&self) -> u64 {
        let safe = self.store.vault.lock(self.rt);
        safe.durable()
    }

    /// Makes the write of a line. Of what the process read last it writes a copy.
    fn write(&self, proc: &mut Proc<J>, fd: u8, payload: &Payload) -> Result<Moved, CallEnd>
        requires { IsLineCall (write_of fd payload.now) }
        ensures { AnswersAny J.book.session J.places proc.old proc.new (request_with 0 proc.old (write_of fd payload.now)) result }
    {
        match payload {
            Payload::Given(bytes) => pass_shared::pass_write(
                &self.store.locks,
                self.rt,
                self.alloc,
                proc,
                fd,
                bytes,
            ),
            Payload::Last => {
                let Ok(bytes) = Bytes::of(self.alloc, proc.last()) else {
                    return Err(CallEnd::NoMemory);
                };
                pass_shared::pass_write(&self.store.locks, self.rt, self.alloc, proc, fd, &bytes)
            }
        }
    }
}

impl<'a, 'g, R: Wait, J: Opening, D: Disk, G: Gate> Calls<J> for Served<'a, 'g, R, J, D, G> {
    fn at_line(&self, process: u32, line: u32) {
        let store = self.store;
        store.locks.gate.enter(process, line);
    }

    fn call(&self, proc: &mut Proc<J>, command: &Command, waited: Pnode) -> Result<Moved, CallEnd> {
        let store = self.store;
        let locks = &store.locks;
        let rt = self.rt;
        let alloc = self.alloc;
        match command {
            Command::Creat { fd, name } => pass_shared::creat(locks, rt, alloc, proc, *fd, name),
            Command::Open { fd, name, mode } => pass_shared::open_name(
                locks, rt, alloc, proc, *fd, name, *mode,
            ),
            Command::Close { fd } => pass_shared::close_fd(locks, rt, alloc, proc, *fd),
            Command::Read { fd, len } => pass_shared::pass_read(locks, rt, alloc, proc, *fd, *len),
            Command::Write { fd, payload } => self.write(proc, *fd, payload),
            Command::Seek { fd, off } => pass_shared::seek(locks, rt, alloc, proc, *fd, *off),
            Command::Truncate { fd, size } => pass_shared::truncate(
                locks, rt, alloc, proc, *fd, *size,
            ),
            Command::Pipe { reader, writer } => pass_shared::pipe(
                locks, rt, alloc, proc, *reader, *writer,
            ),
            Command::Fork { .. } => unreachable!(),
            Command::Exec { name, args } => pass_shared::exec(locks, rt, alloc, proc, name, args),
            Command::Wait { .. } => pass_shared::wait_child(locks, rt, alloc, proc, waited),
            Command::Await { .. } => pass_shared::await_child(locks, rt, alloc, proc, waited),
            Command::Rename { from, to } => pass_shared::rename(locks, rt, alloc, proc, from, to),
            Command::Unlink { name } => pass_shared::unlink(locks, rt, alloc, proc, name),
            Command::MkObj { fd } => pass_shared::pass_mkobj(locks, rt, alloc, proc, *fd),
            Command::Revive { fd, pnode } => {
                pass_shared::pass_reviveobj(locks, rt, alloc, proc, *fd, Pnode(*pnode))
            }
            Command::Freeze { fd } => pass_shared::pass_freeze(locks, rt, alloc, proc, *fd),
            Command::Disclose { target, source } => {
                pass_shared::disclose(locks, rt, alloc, proc, *target, *source)
            }
            Command::Tag { fd, attr, value } => pass_shared::tag(
                locks, rt, alloc, proc, *fd, attr, value,
            ),
            Command::Sync { fd } => pass_kept::pass_sync(locks, &store.vault, rt, alloc, proc, *fd),
        }
    }

    fn fork(&self, proc: &mut Proc<J>) -> Result<Proc<J>, CallEnd> {
        pass_shared::fork(&self.store.locks, self.rt, self.alloc, proc)
    }

    fn retire(&self, proc: &mut Option<Proc<J>>) -> Option<Trail<J>> {
        match proc.take() {
            Some(held) => Some(pass_shared::retire(&self.store.locks, self.rt, self.alloc, held)),
            None => None,
        }
    }

    fn meet(&self, first: &mut Proc<J>, second: &mut Proc<J>) {
        pass_shared::meet(&self.store.locks, self.rt, first, second);
    }

    fn meet_ended(&self, proc: &mut Proc<J>, trail: &mut Trail<J>) {
        pass_shared::meet_ended(&self.store.locks, self.rt, proc, trail);
    }

    fn trickle(&self) -> Result<(), CallEnd> {
        let durable = self.durable();
        if durable > 0 && self.entered().saturating_sub(durable) < ENOUGH {
            return Ok(());
        }
        match pass_kept::trickle(
            &self.store.locks,
            &self.store.vault,
            self.rt,
            self.alloc,
            ASIDE,
        ) {
            Ok(_) => Ok(()),
            Err(end) => Err(end),
        }
    }
}

/// Runs a trace over a store that has just begun.
pub(crate) fn serve<R: Threads + Wait + Sync, J: Opening + Send, D: Disk + Send, G: Gate + Sync>(
    served: &Served<'_, '_, R, J, D, G>,
    first: Proc<J>,
    plan: &Plan<'_>,
    room: Vec<Trail<J>>,
    order: Order,
) -> Ran<J>
    requires order { IsOrder order }
    requires first { (first.who ≡ J.book.session.start.ceiling + 1) × (first.number ≡ 0) }
    requires room { HasRoomFor (plain_trace plan.now) room }
    ensures ran { IsRanBy J.book.session J.places (plain_trace plan.now) result.trails.items result.last }
    ensures replayed { order ≡ Order.Lines → IsReplayedBy J.book.session (plain_trace plan.now) result.trails.items }
{
    let rt = served.rt;
    let alloc = served.alloc;
    match order {
        Order::Passes { workers } => in_passes(rt, alloc, served, first, plan, room, workers),
        Order::Lines => in_order(rt, alloc, served, first, plan, room),
    }
}
