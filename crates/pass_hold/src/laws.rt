//! What holds of every call of a process at work. Each function carries laws in its contract and does nothing.
ghost use Rattle.pass_hold.specs.Goings.{StillLaw, LookLaw, AddLaw, AnsweredLaw, UnansweredLaw, LeftLaw};

/// A call goes on by looks and by its steps.
pub fn calls()
    ensures still { StillLaw }
    ensures look { LookLaw }
    ensures add { AddLaw }
{}

/// How a call stands that was made, and one that was not.
pub fn answers()
    ensures made { AnsweredLaw }
    ensures unmade { UnansweredLaw }
{}

/// The places of a call that is left.
pub fn places()
    ensures { LeftLaw }
{}
