//! What all processes of a run share.
ghost use Rattle.std.specs.Prelude.{◌≡◌, ℕ, IfSome};
ghost use Rattle.pass_answer.specs.Lives.{HasExited};
ghost use Rattle.pass_walk.specs.Causes.{IsSeen};

use crate::ends::Cause;
use crate::plan::Plan;
use pass_answer::CallEnd;
use pass_hold::Whose;
use pass_proc::{Proc, Trail};
use pass_progress::Calls;
use std::alloc::Global;

/// A store's calls, and the plan of the trace that is run over it.
pub struct Ground<'a, S> {
    pub alloc: Global,
    pub calls: &'a S,
    pub plan: &'a Plan<'a>,
}

impl<'a, S> Ground<'a, S> {
    /// Makes the entries so far durable where many wait, and then puts changed blocks aside. Where that fails, why.
    pub fn trickle<J: Whose>(&self) -> Option<Cause>
    where
        S: Calls<J>,
        ensures { IfSome result (λ cause. IsSeen cause → ⊥) }
    {
        match self.calls.trickle() {
            Ok(()) => None,
            Err(CallEnd::DiskFault { opened, now }) => Some(Cause::DiskFault { opened, now }),
            Err(_) => Some(Cause::NoMemory),
        }
    }

    /// Makes the exit of a process, and answers what is left of it.
    pub fn retire<J: Whose>(&self, proc: Proc<J>) -> Trail<J>
    where
        S: Calls<J>,
        ensures call { (place : ℕ) × HasExited J.book.session proc result.seen place }
        ensures who { result.who ≡ proc.who }
    {
        let mut held = Some(proc);
        match self.calls.retire(&mut held) {
            Some(trail) => trail,
            None => unreachable!(),
        }
    }
}
