//! What the turns of a pass have answered so far.
ghost use Rattle.std.specs.Prelude.{◌≡◌, ◌||◌, nat_lt, false};
ghost use Rattle.std.specs.List.{list_all};
ghost use Rattle.pass_sched.specs.Passes.{is_failed, has_ended, end_by};

use crate::pass::PassEnd;
use crate::task::{Task, Turn};

/// Whether a turn failed, and whether one moved.
#[derive(Clone, Copy)]
pub struct Outcome {
    pub failed: bool,
    pub moved: bool,
}

impl Outcome {
    pub fn new() -> Outcome
        ensures { result ≡ record { failed = false; moved = false } }
    {
        Outcome {
            failed: false,
            moved: false,
        }
    }

    /// Counts a task that took its turns, and had so many steps left before them.
    pub fn note<T: Task>(&mut self, had: u64, task: &T)
        ensures failed { self.new.failed ≡ (is_failed (T.last task.now) || self.old.failed) }
        ensures moved { self.new.moved ≡ (nat_lt (T.left task.now) had || self.old.moved) }
    {
        self.failed = is_failure(task.last()) || self.failed;
        self.moved = task.left() < had || self.moved;
    }

    /// How a pass ends that leaves these tasks.
    pub fn end<T: Task>(&self, tasks: &[T]) -> PassEnd
        ensures { result ≡ end_by self.now.failed (list_all (has_ended T.Task) tasks.now) self.now.moved }
    {
        if self.failed {
            PassEnd::OneFailed
        } else if all_ended(tasks) {
            PassEnd::AllEnded
        } else if self.moved {
            PassEnd::GoOn
        } else {
            PassEnd::AllWaiting
        }
    }
}

fn all_ended<T: Task>(tasks: &[T]) -> bool
    ensures { result ≡ list_all (has_ended T.Task) tasks.now }
{
    tasks.iter().all(|task| task.left() == 0)
}

fn is_failure(last: Option<Turn>) -> bool
    ensures { result ≡ is_failed last }
{
    match last {
        Some(Turn::Failed) => true,
        _ => false,
    }
}
