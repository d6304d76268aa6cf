//! Why a call on an archive gives no answer.
ghost use Rattle.std.specs.Prelude.{◌≡◌};
ghost use Rattle.pass_leaf.specs.declared.fault.OldFault.TheVariants as faults;

use pass_outside::Failed;
use std::alloc::{AllocError, AllocFailed};

/// The faults of opening an archive, of keeping versions, and of asking for their content.
#[derive(Clone, Copy, PartialEq, Eq, Drop)]
pub enum OldFault {
    /// A device call failed.
    DiskFault,
    /// The disk has more faults, `now`, than when the archive was `opened`: nothing more is written.
    Broken { opened: u64, now: u64 },
    /// The frame at this place, in bytes, is the first that is broken or holds no leaf that may stand there; or the area is longer
    /// than the place; or the next leaf's frame has no room behind the place, where the archive ends.
    BadFrame { at: u64 },
    /// No leaf has the node.
    NoVersion,
    /// Memory was refused.
    NoMemory,
}

impl From<Failed> for OldFault {
    ghost from_gives = { λ _ e. e ≡ faults.DiskFault };

    fn from(_failed: Failed) -> OldFault {
        OldFault::DiskFault
    }
}

impl From<AllocError> for OldFault {
    ghost from_gives = { λ _ e. e ≡ faults.NoMemory };

    fn from(_error: AllocError) -> OldFault {
        OldFault::NoMemory
    }
}

impl<T: Drop> From<AllocFailed<T>> for OldFault {
    ghost from_gives = { λ _ e. e ≡ faults.NoMemory };

    fn from(_error: AllocFailed<T>) -> OldFault {
        OldFault::NoMemory
    }
}
