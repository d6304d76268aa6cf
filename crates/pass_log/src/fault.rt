//! Why a call on the log gives no answer.
ghost use Rattle.std.specs.Prelude.{◌≡◌};
ghost use Rattle.pass_log.specs.declared.fault.LogFault.TheVariants.{DiskFault, NoMemory};

use pass_outside::Failed;
use pass_record::RecordFault;
use std::alloc::{AllocError, AllocFailed};

/// The faults of opening, reading and appending.
#[derive(Clone, Copy, PartialEq, Eq, Drop)]
pub enum LogFault {
    /// A device call failed.
    DiskFault,
    /// The disk has more faults, `now`, than when the log was `opened`: nothing more is written.
    Broken { opened: u64, now: u64 },
    /// Behind the open gate at this place, in bytes, no whole frame and next gate stand; or the area is longer
    /// than the place.
    BadFrame { at: u64 },
    /// The record that would have this number, from 0, isn't one.
    BadRecord { place: u64, fault: RecordFault },
    /// Memory was refused.
    NoMemory,
}

impl From<Failed> for LogFault {
    ghost from_gives = { λ _ e. e ≡ DiskFault };

    fn from(_failed: Failed) -> LogFault {
        LogFault::DiskFault
    }
}

impl From<AllocError> for LogFault {
    ghost from_gives = { λ _ e. e ≡ NoMemory };

    fn from(_error: AllocError) -> LogFault {
        LogFault::NoMemory
    }
}

impl<T: Drop> From<AllocFailed<T>> for LogFault {
    ghost from_gives = { λ _ e. e ≡ NoMemory };

    fn from(_error: AllocFailed<T>) -> LogFault {
        LogFault::NoMemory
    }
}
