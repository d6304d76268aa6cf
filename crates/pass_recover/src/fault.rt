//! Why a store doesn't open.
ghost use Rattle.std.specs.Prelude.{◌≡◌};
ghost use Rattle.pass_recover.specs.declared.fault.OpenFault.TheVariants as faults;

use pass_entry::FlawReason;
use pass_graph::CheckFault;
use pass_outside::Failed;
use pass_record::RecordFault;
use std::alloc::{AllocError, AllocFailed};

/// The faults of opening. Frames are judged before records, records before flaws.
#[derive(Clone, Copy, PartialEq, Eq, Drop)]
pub enum OpenFault {
    /// A device call failed.
    DiskFault,
    /// Behind the open gate at this place of the log area, in bytes, no whole frame and next gate stand; or the area is
    /// longer than the place.
    BadFrame { at: u64 },
    /// The record that would have this number, from 0, isn't one.
    BadRecord { place: u64, fault: RecordFault },
    /// The record with this number may not stand there.
    Flaw { place: u64, reason: FlawReason },
    /// Memory was refused.
    NoMemory,
}

impl From<Failed> for OpenFault {
    ghost from_gives = { λ _ e. e ≡ faults.DiskFault };

    fn from(_failed: Failed) -> OpenFault {
        OpenFault::DiskFault
    }
}

impl From<AllocError> for OpenFault {
    ghost from_gives = { λ _ e. e ≡ faults.NoMemory };

    fn from(_error: AllocError) -> OpenFault {
        OpenFault::NoMemory
    }
}

impl<T: Drop> From<AllocFailed<T>> for OpenFault {
    ghost from_gives = { λ _ e. e ≡ faults.NoMemory };

    fn from(_error: AllocFailed<T>) -> OpenFault {
        OpenFault::NoMemory
    }
}

impl From<CheckFault> for OpenFault {
    ghost use Rattle.pass_recover.specs.Faults.{of_check};

    ghost from_gives = { λ fault e. e ≡ of_check fault };

    fn from(fault: CheckFault) -> OpenFault {
        match fault {
            CheckFault::Flaw { place, reason } => OpenFault::Flaw { place, reason },
            CheckFault::NoMemory => OpenFault::NoMemory,
        }
    }
}
