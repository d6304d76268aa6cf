//! That no number of a store leaves its range, and that the log of a session stays short. Each function carries laws in its
//! contract and does nothing.
ghost use Rattle.pass_graph.specs.Bounds.{CeilingLengthLaw, VersionLengthLaw, CeilingRoomLaw, VersionRoomLaw};

/// The ceiling and the versions that a well logged list says rise with its length, so that a list of at most 2^38 bytes
/// leaves numbers below 2^48 for one more session.
pub fn lists()
    ensures ceiling { CeilingLengthLaw }
    ensures versions { VersionLengthLaw }
    ensures ceiling_room { CeilingRoomLaw }
    ensures version_room { VersionRoomLaw }
{}
