//! Why a call on a keeper gives no answer.
ghost use Rattle.std.specs.Prelude.{◌≡◌};
ghost use Rattle.pass_keep.specs.declared.fault.KeepFault.TheVariants.{NoMemory};

use pass_log::LogFault;
use std::alloc::{AllocError, AllocFailed};

/// The faults of keeping.
#[derive(Clone, Copy, PartialEq, Eq, Drop)]
pub enum KeepFault {
    /// A device call failed: the disk's count of faults when the log was `opened`, and `now`, as the call returns.
    DiskFault { opened: u64, now: u64 },
    /// The disk has more faults, `now`, than when the log was `opened`: nothing more is written.
    Broken { opened: u64, now: u64 },
    /// Memory was refused.
    NoMemory,
}

impl From<AllocError> for KeepFault {
    ghost from_gives = { λ _ e. e ≡ NoMemory };

    fn from(_error: AllocError) -> KeepFault {
        KeepFault::NoMemory
    }
}

impl<T: Drop> From<AllocFailed<T>> for KeepFault {
    ghost from_gives = { λ _ e. e ≡ NoMemory };

    fn from(_error: AllocFailed<T>) -> KeepFault {
        KeepFault::NoMemory
    }
}

/// The fault of a call on the log, with the disk's counts of faults when it was opened and now.
pub fn fault_of(fault: LogFault, opened: u64, now: u64) -> KeepFault
    ensures disk { fault ≡ LogFault.DiskFault → result ≡ KeepFault.DiskFault opened now }
    ensures memory { fault ≡ LogFault.NoMemory → result ≡ KeepFault.NoMemory }
{
    match fault {
        LogFault::NoMemory => KeepFault::NoMemory,
        _ => KeepFault::DiskFault { opened, now },
    }
}
