//! Why a vault under its lock gives no answer.
ghost use Rattle.std.specs.Prelude.{◌≡◌, ℕ, Some, None, Err};
ghost use Rattle.pass_keep.specs.declared.fault.KeepFault.TheVariants as kept;
ghost use Rattle.pass_safe.specs.declared.fault.SafeFault.TheVariants.{DiskFault, NoMemory};
ghost use Rattle.pass_safe.specs.Safes.{lost_in};

use pass_vault::VaultFault;
use std::alloc::AllocError;

/// Two counts of a disk's faults: the one as the vault was opened, and the one found after a device call that failed.
#[derive(Clone, Copy, Drop)]
pub struct Lost {
    pub opened: u64,
    pub found: u64,
}

/// The faults of making durable.
#[derive(Clone, Copy, Drop)]
pub enum SafeFault {
    /// A device call failed, in this call or in an earlier one.
    DiskFault { opened: u64, now: u64 },
    /// Memory was refused.
    NoMemory,
}

impl From<AllocError> for SafeFault {
    ghost from_gives = { λ _ e. e ≡ NoMemory };

    fn from(_error: AllocError) -> SafeFault {
        SafeFault::NoMemory
    }
}

impl Lost {
    /// The answer from then on.
    pub(crate) fn fault(&self) -> SafeFault
        ensures { result ≡ DiskFault self.now.opened self.now.found }
    {
        SafeFault::DiskFault {
            opened: self.opened,
            now: self.found,
        }
    }
}

/// The fault of a vault.
pub(crate) fn fault_of(fault: VaultFault) -> SafeFault
    ensures disk { (opened now : ℕ) → fault ≡ kept.DiskFault opened now → result ≡ DiskFault opened now }
    ensures broken { (opened now : ℕ) → fault ≡ kept.Broken opened now → result ≡ DiskFault opened now }
    ensures memory { fault ≡ kept.NoMemory → result ≡ NoMemory }
{
    match fault {
        VaultFault::DiskFault { opened, now } => SafeFault::DiskFault { opened, now },
        VaultFault::Broken { opened, now } => SafeFault::DiskFault { opened, now },
        VaultFault::NoMemory => SafeFault::NoMemory,
    }
}

/// What is lost by a call.
pub(crate) fn lost_by<T>(answer: &Result<T, SafeFault>) -> Option<Lost>
    ensures { result ≡ lost_in answer.now }
{
    match answer {
        Err(SafeFault::DiskFault { opened, now }) => Some(Lost {
            opened: *opened,
            found: *now,
        }),
        _ => None,
    }
}
