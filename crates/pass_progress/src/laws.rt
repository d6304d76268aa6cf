//! What holds of every call of a process for whoever runs a trace. Each function carries laws in its contract and does nothing.
ghost use Rattle.pass_progress.specs.Progress.{BirthLaw, ChildlessLaw, ExitLaw, LastReadLaw, LookedLaw, NewbornLaw, NumberLaw, ProgressLaw, UnderWayLaw};
ghost use Rattle.pass_progress.specs.Syncs.{SyncLaw};

/// What an answer makes of the history.
pub fn calls()
    ensures progress { ProgressLaw }
    ensures sync { SyncLaw }
{}

/// How a process stands between two calls.
pub fn standing()
    ensures under_way { UnderWayLaw }
    ensures last_read { LastReadLaw }
    ensures looked { LookedLaw }
    ensures number { NumberLaw }
{}

/// How a process bears children, begins and ends.
pub fn lives()
    ensures birth { BirthLaw }
    ensures childless { ChildlessLaw }
    ensures newborn { NewbornLaw }
    ensures exit { ExitLaw }
{}
