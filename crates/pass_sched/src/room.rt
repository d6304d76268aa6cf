//! How much room a pass takes before its first turn.
ghost use Rattle.std.specs.Prelude.{◌≡◌, sum_by, IfSome};
ghost use Rattle.pass_sched.specs.Passes.{room_of};

use crate::task::Task;

/// How many tasks can come of these. `None` where they are more than can be counted.
pub fn room_for<T: Task>(tasks: &[T]) -> Option<usize>
    ensures { IfSome result (λ room. room ≡ sum_by (room_of T.Task) tasks.now) }
{
    let mut room = 0usize;
    for task in tasks {
        room = room.checked_add((task.left() as usize).max(1))?;
    }
    Some(room)
}
