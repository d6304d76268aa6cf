//! The run of a trace over a store.
ghost use Rattle.std.specs.Prelude.{◌≡◌, ◌≤◌, ◌+◌, [], ◌∷◌, vec_capacity};
ghost use Rattle.pass_trace.specs.TraceLines.{plain_trace};
ghost use Rattle.pass_proc.specs.Ends.{trail_of_proc};
ghost use Rattle.pass_walk.specs.Lefts.{HasRoomFor};
ghost use Rattle.pass_turns.specs.Performed.{IsPerformed};
ghost use Rattle.pass_walk.specs.Runs.{IsRanBy};

use crate::crew::Crew;
use crate::passes::passes;
use crate::task::Turner;
use pass_hold::Whose;
use pass_proc::{Proc, Trail};
use pass_progress::laws::lives;
use pass_progress::{Calls, between};
use pass_walk::{Cause, Children, Ground, Last, Living, Plan, Ran};
use std::alloc::Global;
use std::sync::Wait;
use std::thread::Threads;

/// The number of the first process in a trace.
const FIRST: u32 = 1;

/// Runs a trace over a store that has just begun, by so many workers, from its first process on. `room` comes of the plan. Where memory or
/// the disk fails the answer says so, and has the trails all the same.
pub fn run<R: Threads + Wait + Sync, J: Whose + Send, S: Calls<J> + Sync>(
    rt: &R,
    alloc: Global,
    calls: &S,
    first: Proc<J>,
    plan: &Plan<'_>,
    room: Vec<Trail<J>>,
    workers: u32,
) -> Ran<J>
    requires workers { (1 ≤ workers) × (workers ≤ 64) }
    requires first { (first.who ≡ J.book.session.start.ceiling + 1) × (first.number ≡ 0) }
    requires room { HasRoomFor (plain_trace plan.now) room }
    ensures { IsRanBy J.book.session J.places (plain_trace plan.now) result.trails.items result.last }
{
    let ground = Ground { alloc, calls, plan };
    let ran = perform(rt, &ground, first, room, workers);
    let Ground {
        alloc: _,
        calls: _,
        plan: _,
    } = ground;
    ran
}

/// Makes passes, and gives up what all processes had seen.
fn perform<'a, R: Threads + Wait + Sync, J: Whose + Send, S: Calls<J> + Sync>(
    rt: &R,
    ground: &'a Ground<'a, S>,
    first: Proc<J>,
    room: Vec<Trail<J>>,
    workers: u32,
) -> Ran<J>
    requires workers { (1 ≤ workers) × (workers ≤ 64) }
    requires first { (first.who ≡ J.book.session.start.ceiling + 1) × (first.number ≡ 0) }
    requires room { HasRoomFor (plain_trace ground.now.plan.now) room }
    ensures { IsPerformed J.book.session J.places ground.now.plan.now result.trails.items result.last }
{
    lives();
    ground.plan.ordered();
    between(&first);
    let Ok(mut tasks) = Vec::with_capacity(ground.alloc, 1) else {
        return unmade(first, room);
    };
    let living = Living {
        process: FIRST,
        line: ground.plan.first(FIRST),
        children: Children::new(ground.alloc),
        proc: first,
    };
    tasks.push_reserved(Turner::new(ground, living));
    let crew = Crew::new(ground.alloc, tasks);
    let (crew, last) = passes(rt, ground, crew, workers);
    Ran {
        trails: crew.into_trails(room),
        last,
    }
}

/// No pass was made, for want of memory.
fn unmade<J: Whose>(first: Proc<J>, room: Vec<Trail<J>>) -> Ran<J>
    requires room { (room.items ≡ []) × (1 ≤ vec_capacity room) }
    ensures trails { result.trails.items ≡ trail_of_proc first ∷ [] }
    ensures last { result.last ≡ Last.Failed Cause.NoMemory }
{
    let mut trails = room;
    trails.push_reserved(first.set_aside());
    Ran {
        trails,
        last: Last::Failed(Cause::NoMemory),
    }
}
