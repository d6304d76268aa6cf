//! The run of a trace in the order of its lines.
ghost use Rattle.std.specs.Prelude.{◌≡◌, ◌≤◌, ◌<◌, ◌+◌, ◌∷◌, [], IfSome, vec_capacity};
ghost use Rattle.pass_proc.specs.Ends.{trail_of_proc};
ghost use Rattle.pass_order.specs.Queues.{GoesOnOrEnds, HasFailedUnseen, IsPlayed, IsSet, room_in};
ghost use Rattle.pass_order.specs.Replayed.{IsReplayedBy};
ghost use Rattle.pass_trace.specs.TraceLines.{plain_trace};
ghost use Rattle.pass_walk.specs.Lefts.{HasRoomFor};
ghost use Rattle.pass_walk.specs.Runs.{IsRanBy};

use crate::queue::{Queue, Tried};
use crate::standing::{FIRST_EXIT, rank_at};
use pass_hold::Whose;
use pass_proc::{Proc, Trail};
use pass_progress::laws::lives;
use pass_progress::{Calls, between};
use pass_replay::laws::tries;
use pass_walk::{Cause, Children, Ground, Last, Living, Plan, Ran};
use std::alloc::Global;
use std::sync::Wait;

/// The number of the first process in a trace.
const FIRST: u32 = 1;

/// Behind so many calls that made entries these are made durable where they are many, and changed blocks are put aside.
const TRICKLE: u32 = 512;

/// Makes the calls of a trace in the order of its lines, as far as they are ready, over a store that has just begun. `room` comes of the plan.
/// Where memory or the disk fails the answer says so, and has the trails all the same.
pub fn run<R: Wait, J: Whose, S: Calls<J>>(
    rt: &R,
    alloc: Global,
    calls: &S,
    first: Proc<J>,
    plan: &Plan<'_>,
    room: Vec<Trail<J>>,
) -> Ran<J>
    requires first { (first.who ≡ J.book.session.start.ceiling + 1) × (first.number ≡ 0) }
    requires room { HasRoomFor (plain_trace plan.now) room }
    ensures ran { IsRanBy J.book.session J.places (plain_trace plan.now) result.trails.items result.last }
    ensures replayed { IsReplayedBy J.book.session (plain_trace plan.now) result.trails.items }
{
    let ground = Ground { alloc, calls, plan };
    let ran = perform(rt, &ground, first, room);
    let Ground {
        alloc: _,
        calls: _,
        plan: _,
    } = ground;
    ran
}

/// Makes the calls, and gives up what all processes had seen.
fn perform<'a, R: Wait, J: Whose, S: Calls<J>>(
    rt: &R,
    ground: &Ground<'a, S>,
    first: Proc<J>,
    room: Vec<Trail<J>>,
) -> Ran<J>
    requires first { (first.who ≡ J.book.session.start.ceiling + 1) × (first.number ≡ 0) }
    requires room { HasRoomFor (plain_trace ground.now.plan.now) room }
    ensures ran { IsRanBy J.book.session J.places (plain_trace ground.now.plan.now) result.trails.items result.last }
    ensures replayed { IsReplayedBy J.book.session (plain_trace ground.now.plan.now) result.trails.items }
{
    lives();
    tries();
    ground.plan.ordered();
    between(&first);
    let line = ground.plan.first(FIRST);
    let most = ground.plan.left(FIRST, line);
    let children = Children::new(ground.alloc);
    let Ok(mut queue) = Queue::with_room(ground.alloc, most as usize) else {
        return unmade(first, room);
    };
    let living = Living {
        process: FIRST,
        line,
        children,
        proc: first,
    };
    queue.add(living, rank_at(line, FIRST_EXIT));
    let last = make_calls(rt, ground, &mut queue);
    Ran {
        trails: queue.into_trails(room),
        last,
    }
}

/// No call was made, for want of memory.
fn unmade<J: Whose>(first: Proc<J>, room: Vec<Trail<J>>) -> Ran<J>
    requires room { (room.items ≡ []) × (1 ≤ vec_capacity room) }
    ensures trails { result.trails.items ≡ trail_of_proc first ∷ [] }
    ensures last { result.last ≡ Last.Failed Cause.NoMemory }
{
    let mut trails = room;
    trails.push_reserved(first.set_aside());
    Ran {
        trails,
        last: Last::Failed(Cause::NoMemory),
    }
}

/// Makes calls until none is ready.
fn make_calls<'a, R: Wait, J: Whose, S: Calls<J>>(
    rt: &R,
    ground: &Ground<'a, S>,
    queue: &mut Queue<J>,
) -> Last
    requires { IsSet J.book.session (plain_trace ground.now.plan.now) queue.old }
    ensures played { IsPlayed J.book.session J.places (plain_trace ground.now.plan.now) queue.new.walkers.items result }
    ensures room { room_in (plain_trace ground.now.plan.now) queue.new.walkers.items ≤ room_in (plain_trace ground.now.plan.now) queue.old.walkers.items }
{
    let mut made = 0;
    for _ in rt.forever() {
        if let Some(last) = go_on(ground, queue, &mut made) {
            return last;
        }
    }
    unreachable!()
}

/// Tries one call, and says how the run ends, if it does. So many were made since blocks were put aside.
fn go_on<'a, J: Whose, S: Calls<J>>(
    ground: &Ground<'a, S>,
    queue: &mut Queue<J>,
    made: &mut u32,
) -> Option<Last>
    requires set { IsSet J.book.session (plain_trace ground.now.plan.now) queue.old }
    requires few { made.old < 512 }
    ensures goes { GoesOnOrEnds J.book.session J.places (plain_trace ground.now.plan.now) result queue.new }
    ensures room { room_in (plain_trace ground.now.plan.now) queue.new.walkers.items ≤ room_in (plain_trace ground.now.plan.now) queue.old.walkers.items }
    ensures few { made.new < 512 }
{
    match queue.try_next(ground) {
        Tried::Nothing => {
            if queue.have_ended() {
                return Some(Last::Done);
            }
            if queue.are_still() {
                return Some(Last::Stuck);
            }
            queue.begin_again();
            None
        }
        Tried::Waits => None,
        Tried::Failed(cause) => Some(Last::Failed(cause)),
        Tried::Made => trickled(ground, made),
    }
}

/// Counts one more call that was made, and puts blocks aside behind so many of them. Where that fails, how the run ends.
fn trickled<'a, J: Whose, S: Calls<J>>(ground: &Ground<'a, S>, made: &mut u32) -> Option<Last>
    requires { made.old < 512 }
    ensures few { made.new < 512 }
    ensures fails { IfSome result HasFailedUnseen }
{
    *made += 1;
    if *made < TRICKLE {
        return None;
    }
    *made = 0;
    match ground.trickle::<J>() {
        Some(cause) => Some(Last::Failed(cause)),
        None => None,
    }
}
