//! Tasks that take turns, and workers that make passes over them.
//!
//! `run_all` makes one pass. Each task that was given or born is in the answer, in ascending order (`ascending`). Each given task
//! with something left was turned until it waited, ended or failed (`pass`). The end is the first of its four that applies. Want of
//! memory leaves the tasks as they were (`untouched`). In which order tasks take their turns is said by no clause.
#![tactic(auto)]

mod alone;
mod job;
mod outcome;
mod pass;
mod play;
mod ranked;
mod room;
mod spread;
mod task;
#[cfg(test)]
mod tests;

ghost use Rattle.std.specs.Prelude.{◌≡◌, ◌≢◌, ◌≤◌, List, IsPermutation, nat_eq};
ghost use Rattle.std.specs.List.Sorted.{IsNonDecreasingBy};
ghost use Rattle.pass_sched.specs.Passes.{Run, IsPass, end_of};

use alone::pass_alone;
pub use pass::{PassEnd, Passed};
use spread::pass_spread;
use std::alloc::Global;
use std::sync::Wait;
use std::thread::Threads;
pub use task::{Task, Turn};

/// Makes one pass over all tasks. Each living task takes turns until it waits, ends or fails.
///
/// With one worker the pass is made on the caller's thread, the task of the least order first, and a child whose order is above its
/// parent's takes part in it. With more, each worker has its share of the living tasks, and children take part from the next pass on.
/// Room for all children is taken before the first turn, and `NoMemory` comes only there.
pub fn run_all<R: Threads + Wait + Sync, T: Task + Send>(
    rt: &R,
    alloc: Global,
    tasks: Vec<T>,
    workers: u32,
) -> Passed<T>
    requires { (1 ≤ workers) × (workers ≤ 64) }

    // The answer is in ascending order. Without memory it has the given tasks as they were.
    ensures ascending { IsNonDecreasingBy T.order result.tasks.items }
    ensures untouched { result.end ≡ PassEnd.NoMemory → IsPermutation tasks.items result.tasks.items }

    // Else each given task had its part, none that was given or born is lost, and the end is the first of the four that applies.
    ensures pass { result.end ≢ PassEnd.NoMemory → (runs : List (Run T)) × IsPass T.Task (nat_eq workers 1) tasks.items runs result.tasks.items × (result.end ≡ end_of T.Task runs result.tasks.items) }
{
    if workers == 1 {
        pass_alone(alloc, tasks)
    } else {
        pass_spread(rt, alloc, tasks, workers as usize)
    }
}
