//! How a run ends.
use pass_hold::Whose;
use pass_proc::Trail;

/// Why a run stopped before its processes could go no further.
#[derive(Clone, Copy, PartialEq, Eq)]
pub enum Cause {
    /// Memory was refused.
    NoMemory,
    /// A device call failed: the disk's count of faults as it was opened, and then.
    DiskFault { opened: u64, now: u64 },
    /// A call needed more places than were left.
    TooFewPlaces,
    /// A fork was refused.
    Refused,
}

/// How a run ended.
#[derive(Clone, Copy, PartialEq, Eq)]
pub enum Last {
    /// Each process has made its exit.
    Done,
    /// Some process lives, and none can move.
    Stuck,
    Failed(Cause),
}

/// What each process had seen as the run ended, and how it ended.
#[derive(Drop)]
pub struct Ran<J: Whose> {
    pub trails: Vec<Trail<J>>,
    pub last: Last,
}
