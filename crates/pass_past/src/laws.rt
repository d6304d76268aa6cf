//! Laws of the versions of sessions.
ghost use Rattle.pass_past.specs.Laws.{AgreeingLaw, SameToldLaw};

/// The versions of a session agree: of a file they never fall, and one that is listed twice has one content.
pub fn agreeing()
    ensures { AgreeingLaw }
{}

/// Two starts of which one list of records tells, with the bytes of one store area, allow the same histories.
pub fn same_told()
    ensures { SameToldLaw }
{}
