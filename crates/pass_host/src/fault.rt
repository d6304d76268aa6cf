//! Why a folder can't be opened.
ghost use Rattle.std.specs.Prelude.{◌≡◌, IfErr, IfOk};
ghost use Rattle.std.specs.IoError.{error_kind};
ghost use Rattle.pass_host.specs.declared.fault.HostFault.TheVariants.{NoMemory};
ghost use Rattle.pass_host.specs.HostFault.{IsFaultOf, IsLockFaultOf, cause_of};

use std::alloc::AllocError;
use std::fs::TryLockError;
use std::io;

/// What of a folder can't be opened.
#[derive(Clone, Copy, PartialEq, Eq)]
pub enum Part {
    Folder,
    Log,
    Data,
    /// The file by which a folder is known as a store's.
    Mark,
    /// A copy of a file that no store wrote.
    Copy,
}

/// Why it can't.
#[derive(Clone, Copy, PartialEq, Eq)]
pub enum Cause {
    Missing,
    NotFolder,
    NotFile,
    Denied,
    /// Someone else has the folder open.
    InUse,
    ReadOnly,
    Full,
    Other,
}

/// The folder or one of its files can't be opened, or memory was refused.
#[derive(Clone, Copy, PartialEq, Eq, Drop)]
pub enum HostFault {
    Failed { part: Part, cause: Cause },
    NoMemory,
}

impl From<AllocError> for HostFault {
    ghost from_gives = { λ _ e. e ≡ NoMemory };

    fn from(_error: AllocError) -> HostFault {
        HostFault::NoMemory
    }
}

// The cause that an error of the system is.
fn cause_of(kind: io::ErrorKind) -> Cause
    ensures { result ≡ cause_of kind }
{
    match kind {
        io::ErrorKind::NotFound => Cause::Missing,
        io::ErrorKind::NotADirectory => Cause::NotFolder,
        io::ErrorKind::IsADirectory => Cause::NotFile,
        io::ErrorKind::PermissionDenied => Cause::Denied,
        io::ErrorKind::ReadOnlyFilesystem => Cause::ReadOnly,
        io::ErrorKind::StorageFull | io::ErrorKind::QuotaExceeded | io::ErrorKind::FileTooLarge =>
            Cause::Full,
        _ => Cause::Other,
    }
}

/// The fault of a part.
pub fn fault_of(part: Part, error: &io::Error) -> HostFault
    ensures { IsFaultOf part (error_kind error.now) result }
{
    match error.kind() {
        io::ErrorKind::OutOfMemory => HostFault::NoMemory,
        _ => HostFault::Failed {
            part,
            cause: cause_of(error.kind()),
        },
    }
}

/// What was done, or the fault of a part.
pub fn at<T>(part: Part, done: io::Result<T>) -> Result<T, HostFault>
    ensures ok { IfOk result (λ x. done ≡ Ok x) }
    ensures err { IfErr result (λ fault. IfErr done (λ error. IsFaultOf part (error_kind error) fault)) }
{
    match done {
        Ok(value) => Ok(value),
        Err(error) => Err(fault_of(part, &error)),
    }
}

/// The fault of a lock. Whoever holds the folder is no want of memory.
pub fn lock_fault(error: TryLockError) -> HostFault
    ensures { IsLockFaultOf error result }
{
    match error {
        TryLockError::WouldBlock => HostFault::Failed {
            part: Part::Log,
            cause: Cause::InUse,
        },
        TryLockError::Error(error) => fault_of(Part::Log, &error),
    }
}
