//! The calls of lines, by what they make of their process's history.
ghost use Rattle.std.specs.Prelude.{◌≢◌, ℕ};
ghost use Rattle.pass_plain.specs.Traces.{fork_as};
ghost use Rattle.pass_trace.specs.TraceLines.{call_of};
ghost use Rattle.pass_replay.specs.Lines.{IsLineCall};
ghost use Rattle.pass_plain.specs.declared.request.Request.TheVariants as requests;
ghost use Rattle.pass_progress.specs.Calls.{request_with};
ghost use Rattle.pass_progress.specs.Progress.{MayGoOn, Progresses};
ghost use Rattle.pass_walk.specs.Calls.{Forks};

use crate::ground::Ground;
use pass_answer::{CallEnd, Moved};
use pass_entry::Pnode;
use pass_hold::Whose;
use pass_proc::Proc;
use pass_progress::laws::{calls, lives, standing};
use pass_progress::{Calls, between};
use pass_trace::Command;

impl<'a, S> Ground<'a, S> {
    /// Makes the call of a line that is no fork, for a process that may make it. `waited` is the child that it waits for.
    pub(crate) fn make<J: Whose>(
        &self,
        proc: &mut Proc<J>,
        command: &Command,
        waited: Pnode,
    ) -> Result<Moved, CallEnd>
    where
        S: Calls<J>,
        requires call { IsLineCall (call_of command.now) }
        requires other { (child : ℕ) → call_of command.now ≢ fork_as child }
        requires goes { MayGoOn proc.old (request_with waited proc.old (call_of command.now)) }
        ensures { Progresses J.book.session J.places proc.old proc.new (request_with waited proc.old (call_of command.now)) result }
    {
        calls();
        standing();
        between(proc);
        let end = self.calls.call(proc, command, waited);
        between(proc);
        end
    }

    /// Makes a fork for a process that may make it.
    pub(crate) fn fork<J: Whose>(&self, proc: &mut Proc<J>) -> Result<Proc<J>, CallEnd>
    where
        S: Calls<J>,
        requires { MayGoOn proc.old requests.Fork }
        ensures { Forks J.book.session J.places proc.old proc.new result }
    {
        calls();
        standing();
        lives();
        between(proc);
        let forked = self.calls.fork(proc);
        between(proc);
        match forked {
            Ok(child) => {
                between(&child);
                Ok(child)
            }
            Err(end) => Err(end),
        }
    }
}
