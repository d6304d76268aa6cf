//! What holds of a stream, however it comes, and of a log with a bad frame. Each function carries a law in its contract and does nothing.
ghost use Rattle.pass_standby.specs.Laws.{CutsLaw, BadLaw, GrowsLaw, LoggedLaw, BadLogLaw, WholeLaw, AllLaw};

/// What has come is the same however the bytes are cut into pieces.
pub fn cuts()
    ensures { CutsLaw }
{}

/// Behind a bad frame nothing counts.
pub fn bad_frames()
    ensures { BadLaw }
{}

/// Of what has come nothing goes: the records of more bytes begin with those from before.
pub fn growing()
    ensures { GrowsLaw }
{}

/// The records stay well logged, so that a store opens with them.
pub fn well_logged()
    ensures { LoggedLaw }
{}

/// A standby opens on no log with a bad frame: it doesn't hold well logged records.
pub fn bad_log()
    ensures { BadLogLaw }
{}

/// A frame that stands in a log is taken whole.
pub fn whole_frames()
    ensures { WholeLaw }
{}

/// Whoever took all that a log has to send, has the log.
pub fn all_bytes()
    ensures { AllLaw }
{}
