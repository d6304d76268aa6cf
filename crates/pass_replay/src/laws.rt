//! What holds of the history of a run. Each function carries laws in its contract and does nothing.
ghost use Rattle.pass_replay.specs.Orders.{AgreeLaw, EndLaw, InLineOrderLaw, OneReplayLaw, StillLaw};
ghost use Rattle.pass_replay.specs.Replays.{RunLaw, DoneLaw, StuckLaw, ForkLaw, PlacesLaw};
ghost use Rattle.pass_replay.specs.Starts.{RoomLaw, BegunLaw};
ghost use Rattle.pass_replay.specs.Tries.{TriesLaw};

/// What each process has seen and made by itself makes the whole history a run of the trace; and it says how the run has ended.
pub fn runs()
    ensures run { RunLaw }
    ensures done { DoneLaw }
    ensures stuck { StuckLaw }
{}

/// What no run of a trace meets: a fork that is refused, and a call that finds too few places.
pub fn rooms()
    ensures forks { ForkLaw }
    ensures places { PlacesLaw }
{}

/// A session has room for the objects of its trace, and the processes that have begun stay begun.
pub fn starts()
    ensures room { RoomLaw }
    ensures begun { BegunLaw }
{}

/// Two beginnings of the replay of a trace agree, so it has one whole replay at most; none is due exactly where no process can move.
pub fn orders()
    ensures agree { AgreeLaw }
    ensures one { OneReplayLaw }
    ensures in_line { InLineOrderLaw }
    ensures still { StillLaw }
    ensures done { EndLaw }
{}

/// The first call of the text that is ready, tried before all behind it, makes a replay.
pub fn tries()
    ensures { TriesLaw }
{}
