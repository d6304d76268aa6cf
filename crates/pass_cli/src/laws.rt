//! What follows from the answer of a run. Its function carries a law in its contract and does nothing.
ghost use Rattle.std.specs.Prelude.{◌≡◌, ◌≢◌, ◌++◌, None, IsTrue};
ghost use Rattle.pass_outside.specs.Moments.{IsAtEnd};
ghost use Rattle.pass_status.specs.declared.status.Status.{Status as AnyStatus};
ghost use Rattle.pass_trace.specs.declared.limits.Scale.{Scale};
ghost use Rattle.pass_run.specs.Stored.{session_fault, IsEnd};
ghost use Rattle.pass_ask.specs.Answers.{SinkSeen};
ghost use Rattle.pass_cli.specs.Answers.{Outcome, SourceSeen, IsTraced, IsAnswer};

use pass_outside::Disk;
use pass_status::Status;

/// Where a trace was read, no device call failed, the store opens and the sink takes what it is given, a run comes to its end and its
/// whole report is written.
pub fn complete<D: Disk>()
    ensures { (scale : Scale) (source : SourceSeen) (sink : SinkSeen) (old new : D) (out : Outcome) (answered : AnyStatus) (a : IsAnswer D.view scale source sink old new out answered)
        → IsTraced scale a.bytes source.before source.after → (D.view new).faults ≡ (D.view old).faults → ¬ IsAtEnd (D.view new) → session_fault a.by.log ≡ None → answered ≢ Status.WriteFault
        → IsEnd answered × (IsTrue sink.tells → sink.after ≡ sink.before ++ a.report) }
{}
