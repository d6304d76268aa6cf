//! The answer of a pass.
ghost use Rattle.std.specs.Prelude.{◌≡◌, IsPermutation};
ghost use Rattle.std.specs.List.{list_all};
ghost use Rattle.std.specs.List.Sorted.{IsNonDecreasingBy};
ghost use Rattle.pass_sched.specs.Passes.{has_ended, end_by};

use crate::outcome::Outcome;
use crate::task::Task;

/// How a pass ended: the first of these that applies, in the order of `NoMemory`, `OneFailed`, `AllEnded`, `AllWaiting`, `GoOn`.
#[derive(Clone, Copy, PartialEq, Eq)]
pub enum PassEnd {
    /// No step is left.
    AllEnded,
    /// No turn moved.
    AllWaiting,
    /// A turn moved, and steps are left.
    GoOn,
    /// A turn failed.
    OneFailed,
    /// There was no memory to begin with, and no turn was taken.
    NoMemory,
}

/// The tasks after a pass, in ascending order, and how it ended.
#[derive(Drop)]
pub struct Passed<T> {
    pub tasks: Vec<T>,
    pub end: PassEnd,
}

/// The tasks in ascending order, in place.
pub fn in_order<T: Task>(mut tasks: Vec<T>) -> Vec<T>
    ensures same { IsPermutation tasks.items result.items }
    ensures ascending { IsNonDecreasingBy T.order result.items }
{
    tasks.sort_unstable_by_key(|task| task.order());
    tasks
}

/// The answer of a pass that was made.
pub fn answer<T: Task>(tasks: Vec<T>, outcome: Outcome) -> Passed<T>
    ensures same { IsPermutation tasks.items result.tasks.items }
    ensures ascending { IsNonDecreasingBy T.order result.tasks.items }
    ensures end { result.end ≡ end_by outcome.failed (list_all (has_ended T.Task) result.tasks.items) outcome.moved }
{
    let tasks = in_order(tasks);
    let end = outcome.end(tasks.as_slice());
    Passed { tasks, end }
}

/// The answer where there was no memory to begin with.
pub fn refused<T: Task>(tasks: Vec<T>) -> Passed<T>
    ensures same { IsPermutation tasks.items result.tasks.items }
    ensures ascending { IsNonDecreasingBy T.order result.tasks.items }
    ensures end { result.end ≡ PassEnd.NoMemory }
{
    Passed {
        tasks: in_order(tasks),
        end: PassEnd::NoMemory,
    }
}
