//! What holds of a log that is followed, and of questions that come together. Each function carries a law in its contract and does
//! nothing.
ghost use Rattle.std.specs.Prelude.{Option};
ghost use Rattle.pass_ask.specs.Answers.{IsNoDiskFault, SinkSeen};
ghost use Rattle.pass_ask.specs.Asked.{IsAsked};
ghost use Rattle.pass_ask.specs.Laws.{SentLaw};
ghost use Rattle.pass_ask.specs.Questions.{IsAnswerText};
ghost use Rattle.pass_ask.specs.declared.words.Question.{Question};
ghost use Rattle.pass_status.specs.declared.status.Status.{Status};

use pass_outside::Disk;

/// A follower that had nothing, and took all that a store sends of its log, has that log.
pub fn sent()
    ensures { SentLaw }
{}

/// What a question alone writes, where no device call fails, is what a line is answered that asks it.
pub fn answered_alone<D: Disk>()
    ensures { (asked : Option Question) (old new : D) (sink : SinkSeen) (answered : Status) (a : IsAsked asked (D.view old) (D.view new) sink answered)
        → IsNoDiskFault a.judged → IsAnswerText asked (D.view old) a.bytes a.text }
{}
