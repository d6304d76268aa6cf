//! What holds of every run of a drawn trace. Each function carries laws in its contract and does nothing.
ghost use Rattle.pass_drawn.specs.Lawful.{NeverStuckLaw, AnsweredLaw, WroteLaw, TextLaw};

/// Such a run never gets stuck: none of its processes waits for another but the first one, and that waits for those that can go on.
pub fn ends()
    ensures never { NeverStuckLaw }
{}

/// How many calls are answered in such a run.
pub fn counts()
    ensures answered { AnsweredLaw }
{}

/// What such a run writes on a store without files, and the text that tells it: both are known before it runs.
pub fn writes()
    ensures wrote { WroteLaw }
    ensures text { TextLaw }
{}
