//! Why the ranges of a table couldn't be compared.
ghost use Rattle.std.specs.Prelude.{◌≡◌};
ghost use Rattle.pass_range.specs.declared.fault.RangeFault.TheVariants.{DiskFault, NoMemory};

use pass_outside::Failed;
use std::alloc::{AllocError, AllocFailed};

/// The faults of comparing.
#[derive(Clone, Copy, PartialEq, Eq, Drop)]
pub enum RangeFault {
    /// A device call failed.
    DiskFault,
    /// Memory was refused.
    NoMemory,
}

impl From<Failed> for RangeFault {
    ghost from_gives = { λ _ e. e ≡ DiskFault };

    fn from(_failed: Failed) -> RangeFault {
        RangeFault::DiskFault
    }
}

impl From<AllocError> for RangeFault {
    ghost from_gives = { λ _ e. e ≡ NoMemory };

    fn from(_error: AllocError) -> RangeFault {
        RangeFault::NoMemory
    }
}

impl<T: Drop> From<AllocFailed<T>> for RangeFault {
    ghost from_gives = { λ _ e. e ≡ NoMemory };

    fn from(_error: AllocFailed<T>) -> RangeFault {
        RangeFault::NoMemory
    }
}
