//! Passes over the processes of a run.
ghost use Rattle.std.specs.Prelude.{◌≡◌, ◌≤◌, ℕ, All, IfSome, List, sum_by};
ghost use Rattle.pass_trace.specs.declared.trace.TraceLine.{TraceLine as AnyLine};
ghost use Rattle.pass_walk.specs.Causes.{IsSeen};
ghost use Rattle.pass_turns.specs.Tasks.{task_room};
ghost use Rattle.pass_turns.specs.Turners.{AreAllStill, AreTasks, HasLeftFor};

use crate::crew::Crew;
use pass_hold::Whose;
use pass_progress::Calls;
use pass_sched::PassEnd;
use pass_walk::{Cause, Ground, Last};
use std::sync::Wait;
use std::thread::Threads;

/// Makes passes until all have ended or one was left. Where none moves, the first living process meets those that have ended, and the next
/// pass is made by one worker; where none moves in that one either, and all living ones have seen as much, none can. Behind each pass in
/// which some moved those that have ended are put aside, and the entries that wait are made durable where they are many, with changed
/// blocks kept for later; where that fails, no further pass is made.
pub(crate) fn passes<'a, R: Threads + Wait + Sync, J: Whose + Send, S: Calls<J> + Sync>(
    rt: &R,
    ground: &'a Ground<'a, S>,
    mut crew: Crew<'a, J, S>,
    workers: u32,
) -> (Crew<'a, J, S>, Last)
    requires workers { (1 ≤ workers) × (workers ≤ 64) }
    ensures tasks { (lines : List AnyLine) (first : ℕ) → AreTasks lines first crew.entry → AreTasks lines first result.0 }
    ensures room { sum_by task_room result.0 ≤ sum_by task_room crew.entry }
    ensures done { result.1 ≡ Last.Done → All (λ t. t.left ≡ 0) result.0 }
    ensures stuck { result.1 ≡ Last.Stuck → AreAllStill J.book.session result.0 }
    ensures failed { (cause : Cause) → result.1 ≡ Last.Failed cause → IsSeen cause → HasLeftFor result.0 cause }
{
    let mut now = workers;
    let mut alone = false;
    for _ in rt.forever() {
        let (after, end) = crew.pass(rt, ground.alloc, now);
        crew = after;
        match end {
            PassEnd::AllEnded => return (crew, Last::Done),
            PassEnd::OneFailed => {
                let cause = crew.cause();
                return (crew, Last::Failed(cause));
            }
            PassEnd::NoMemory => return (crew, Last::Failed(Cause::NoMemory)),
            PassEnd::GoOn => {
                if let Some(cause) = go_on(ground, &mut crew) {
                    return (crew, Last::Failed(cause));
                }
                now = workers;
                alone = false;
            }
            PassEnd::AllWaiting => {
                if alone && crew.are_still() {
                    return (crew, Last::Stuck);
                }
                crew = crew.meet_ended();
                now = 1;
                alone = true;
            }
        }
    }
    unreachable!()
}

/// What is done behind a pass in which some moved. Where it fails, why.
fn go_on<'a, J: Whose, S: Calls<J>>(
    ground: &Ground<'a, S>,
    crew: &mut Crew<'a, J, S>,
) -> Option<Cause>
    ensures tasks { (lines : List AnyLine) (first : ℕ) → AreTasks lines first crew.old → AreTasks lines first crew.new }
    ensures room { sum_by task_room crew.new ≡ sum_by task_room crew.old }
    ensures unseen { IfSome result (λ cause. IsSeen cause → ⊥) }
{
    if crew.put_aside().is_err() {
        return Some(Cause::NoMemory);
    }
    ground.trickle::<J>()
}
