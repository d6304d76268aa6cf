//! A living task on its way through a pass of several workers.
ghost use Rattle.std.specs.Prelude.{◌≡◌};
ghost use Rattle.pass_sched.specs.Jobs.{IsFit, IsDone};

use crate::play::play;
use crate::task::Task;
use std::snapshot::Snapshot;

/// A task with room for its children, what it was before its turns and how many steps it had.
#[derive(Drop)]
pub struct Job<T> {
    pub was: Snapshot<T>,
    pub had: u64,
    pub task: T,
    pub born: Vec<T>,
}

/// Turns the task until it waits, ends or fails.
pub fn play_job<T: Task>(job: &mut Job<T>)
    requires { IsFit T.Task job.old }
    ensures was { job.new.was ≡ job.old.was }
    ensures done { IsDone T.Task job.new }
{
    play(&mut job.task, &mut job.born);
}
