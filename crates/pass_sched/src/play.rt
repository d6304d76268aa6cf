//! A task's part in a pass.
ghost use Rattle.std.specs.Prelude.{◌≡◌, ◌+◌, ◌≤◌, ◌<◌, ◌++◌, List, vec_len, vec_capacity};
ghost use Rattle.pass_sched.specs.Passes.{RunsOut};

use crate::task::{Task, Turn};

/// Turns a task until it waits, ends or fails.
pub fn play<T: Task>(task: &mut T, born: &mut Vec<T>)
    requires { vec_len born.old + T.left task.old ≤ vec_capacity born.old }
    ensures run { (kids : List T) × (born.new.items ≡ born.old.items ++ kids) × RunsOut T.Task task.old kids task.new }
    ensures room { vec_capacity born.old ≤ vec_capacity born.new }
{
    while let Turn::Moved = task.turn(born) {}
}
