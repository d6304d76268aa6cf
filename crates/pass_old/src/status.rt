//! How a run of the program ended.
ghost use Rattle.std.specs.Prelude.{◌≡◌, IfOk, string_bytes};
ghost use Rattle.pass_old.specs.Statuses.{number_of_old, old_text, status_of_archive};

use pass_entry::Node;
use pass_leaf::OldFault;
use pass_status::Status;
use std::alloc::{AllocError, Global};

/// How a run of the program ended.
#[derive(Clone, Copy, PartialEq, Eq)]
pub enum OldStatus {
    /// As a run of a trace ends, or as a question is answered.
    Same(Status),
    /// No leaf of the archive has the node.
    NoVersion(Node),
    /// The archive has a bad frame at this place, in bytes; or it is full, and ends there.
    BadArchive { at: u64 },
    /// A call of the archive's disk failed.
    ArchiveFault,
    /// What was run isn't what the store tells: nothing was kept.
    Unlike,
    /// A tar was written of what is kept: some versions aren't, of which this is the first.
    Lacks(Node),
    /// The fresh archive has a version already.
    NotFresh,
    /// The fresh archive has a bad frame at this place, in bytes; or it is full, and ends there.
    BadFresh { at: u64 },
    /// A call of the fresh archive's disk failed.
    FreshFault,
}

impl OldStatus {
    ghost use Rattle.std.specs.Prelude.{◌≡◌, IfOk, string_bytes};
    ghost use Rattle.pass_old.specs.Statuses.{number_of_old, old_text};

    /// The program's exit status.
    pub fn number(&self) -> u8
        ensures { result ≡ number_of_old self.now }
    {
        match self {
            OldStatus::Same(status) => status.number(),
            OldStatus::NoVersion(_) | OldStatus::Lacks(_) => 15,
            OldStatus::BadArchive { .. } => 16,
            OldStatus::ArchiveFault => 20,
            OldStatus::Unlike => 22,
            OldStatus::NotFresh => 23,
            OldStatus::BadFresh { .. } => 24,
            OldStatus::FreshFault => 25,
        }
    }

    /// The text of a status that stands on no answer; nothing for the others.
    pub fn text(&self, alloc: Global) -> Result<String, AllocError>
        ensures { IfOk result (λ text. string_bytes text ≡ old_text self.now) }
    {
        match self {
            OldStatus::Same(status) => status.text(alloc),
            OldStatus::NoVersion(node) => format!(in alloc; "fault version {node}\n"),
            OldStatus::BadArchive { at } => format!(in alloc; "fault archive {at}\n"),
            OldStatus::ArchiveFault => String::from_str(alloc, "fault archive\n"),
            OldStatus::Unlike => String::from_str(alloc, "fault unlike\n"),
            OldStatus::Lacks(_) => Ok(String::new(alloc)),
            OldStatus::NotFresh => String::from_str(alloc, "fault used\n"),
            OldStatus::BadFresh { at } => format!(in alloc; "fault fresh {at}\n"),
            OldStatus::FreshFault => String::from_str(alloc, "fault fresh\n"),
        }
    }
}

/// The status of a fault of an archive, where a node was asked for.
pub(crate) fn archive_status(fault: OldFault, node: Node) -> OldStatus
    ensures { result ≡ status_of_archive fault node }
{
    match fault {
        OldFault::DiskFault | OldFault::Broken { .. } => OldStatus::ArchiveFault,
        OldFault::BadFrame { at } => OldStatus::BadArchive { at },
        OldFault::NoVersion => OldStatus::NoVersion(node),
        OldFault::NoMemory => OldStatus::Same(Status::NoMemory),
    }
}
