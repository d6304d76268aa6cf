//! What a run asks of a store.
use pass_answer::{CallEnd, Moved};
use pass_entry::Pnode;
use pass_hold::Whose;
use pass_proc::{Proc, Trail};
use pass_trace::Command;

/// What a run asks of a store that threads share. Each call is made for a process that one thread drives, and may wait for a lock.
pub trait Calls<J: Whose> {
    ghost use Rattle.std.specs.Prelude.{◌≡◌, ◌≢◌, ℕ, IfOk, Some};
    ghost use mathlib.Core.List.{IsPrefix};
    ghost use Rattle.pass_plain.specs.declared.request.Request.TheVariants as requests;
    ghost use Rattle.pass_plain.specs.Lawful.{AgreeBy};
    ghost use Rattle.pass_plain.specs.Traces.{fork_as};
    ghost use Rattle.pass_trace.specs.TraceLines.{call_of};
    ghost use Rattle.pass_replay.specs.Lines.{IsLineCall};
    ghost use Rattle.pass_answer.specs.Answers.{Answers};
    ghost use Rattle.pass_answer.specs.Lives.{HasMet, IsChild, forked};
    ghost use Rattle.pass_progress.specs.Calls.{AnswersAny, IsGone, request_with};
    ghost use Rattle.pass_proc.specs.Procs.{ProcView};

    /// A line of a process is about to be made. Nothing is locked.
    fn at_line(&self, process: u32, line: u32);

    /// Makes the call of a line that is no fork. `waited` is the child that it waits for.
    fn call(&self, proc: &mut Proc<J>, command: &Command, waited: Pnode) -> Result<Moved, CallEnd>
        requires call { IsLineCall (call_of command.now) }
        requires other { (child : ℕ) → call_of command.now ≢ fork_as child }
        ensures { AnswersAny J.book.session J.places proc.old proc.new (request_with waited proc.old (call_of command.now)) result };

    /// Makes a fork, and answers the child.
    fn fork(&self, proc: &mut Proc<J>) -> Result<Proc<J>, CallEnd>
        ensures call { Answers J.book.session J.places proc.old proc.new requests.Fork (forked result) }
        ensures child { IfOk result (λ c. IsChild proc.new c) };

    /// Makes the exit of the process that it takes out, and answers what is left of it. It takes no memory.
    fn retire(&self, proc: &mut Option<Proc<J>>) -> Option<Trail<J>>
        ensures { (p : ProcView) → proc.old ≡ Some p → IsGone J.book.session p result };

    /// Two processes come to one history, which begins with what each had seen. It takes no memory.
    fn meet(&self, first: &mut Proc<J>, second: &mut Proc<J>)
        ensures one { second.new.seen ≡ first.new.seen }
        ensures first { HasMet J.book.session first.old first.new }
        ensures second { HasMet J.book.session second.old second.new };

    /// A process and what another one had seen that works no more come to one history, which begins with what each had seen. It takes no
    /// memory.
    fn meet_ended(&self, proc: &mut Proc<J>, trail: &mut Trail<J>)
        ensures one { trail.new.seen ≡ proc.new.seen }
        ensures proc { HasMet J.book.session proc.old proc.new }
        ensures trail { (trail.new.who ≡ trail.old.who) × IsPrefix trail.old.seen trail.new.seen × AgreeBy trail.old.who trail.old.seen trail.new.seen };

    /// Makes the entries so far durable where many wait, and then puts changed blocks aside, while other calls go on.
    fn trickle(&self) -> Result<(), CallEnd>;
}
