//! Why a call on a standby gives no answer.
ghost use Rattle.std.specs.Prelude.{◌≡◌};
ghost use Rattle.pass_standby.specs.declared.fault.StandbyFault.TheVariants as faults;

use pass_outside::Failed;
use std::alloc::{AllocError, AllocFailed};

/// The faults of a standby. Places are in bytes of the log.
#[derive(Clone, Copy, PartialEq, Eq, Drop)]
pub enum StandbyFault {
    /// A device call failed.
    DiskFault,
    /// The frame at this place of the disk's own log is the first that is broken, or whose bytes aren't whole records, or that
    /// has a record with a flaw; or the log is longer than the place.
    BadLog { at: u64 },
    /// The frame of the stream at this place may not stand there.
    BadStream { at: u64 },
    /// A call before answered `DiskFault` or `BadStream` at this place: nothing more is taken.
    Closed { at: u64 },
    /// Memory was refused. Nothing more is taken.
    NoMemory,
}

impl From<Failed> for StandbyFault {
    ghost from_gives = { λ _ e. e ≡ faults.DiskFault };

    fn from(_failed: Failed) -> StandbyFault {
        StandbyFault::DiskFault
    }
}

impl From<AllocError> for StandbyFault {
    ghost from_gives = { λ _ e. e ≡ faults.NoMemory };

    fn from(_error: AllocError) -> StandbyFault {
        StandbyFault::NoMemory
    }
}

impl<T: Drop> From<AllocFailed<T>> for StandbyFault {
    ghost from_gives = { λ _ e. e ≡ faults.NoMemory };

    fn from(_error: AllocFailed<T>) -> StandbyFault {
        StandbyFault::NoMemory
    }
}
