//! What holds of every image that a crash leaves of a session. Each function carries laws in its contract and does nothing.
ghost use Rattle.pass_session.specs.Lawful.{CeilingLaw};

/// An image with the records of some of a session's entries has the session's ceiling, so that the next session gives none of
/// its numbers again.
pub fn ceilings()
    ensures { CeilingLaw }
{}
