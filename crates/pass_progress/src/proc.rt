//! What a process between two calls tells of itself.
ghost use Rattle.pass_progress.specs.Progress.{IsBetween};

use pass_hold::Whose;
use pass_proc::Proc;

/// What holds of a process whenever none of its calls is running: what the laws ask of it before a call and after it.
pub fn between<J: Whose>(proc: &Proc<J>)
    ensures { IsBetween J.book.session proc.now }
{
    let _number = proc.number;
}
