//! Questions to an archive.
ghost use Rattle.std.specs.Prelude.{◌≡◌, ◌≢◌, [], IfOk, string_bytes};
ghost use Rattle.pass_entry.specs.declared.objects.Node.{Node as AnyNode};
ghost use Rattle.pass_outside.specs.Moments.{IsDeviceWork};
ghost use Rattle.pass_recover.specs.Later.{IsLeftAlone};
ghost use Rattle.pass_old.specs.Questions.{IsDifferenceText, IsToldAs, IsJudgedBy};
ghost use Rattle.pass_old.specs.Statuses.{status_of_archive};

use crate::diffing::{differences, range_text};
use crate::listing::version_text;
use crate::status::{OldStatus, archive_status};
use crate::words::OldQuestion;
use pass_entry::{Node, Pnode};
use pass_leaf::{Leaves, OldFault, read_leaves};
use pass_outside::Disk;
use pass_status::Status;
use std::alloc::{AllocError, Global};

/// What is to be answered: a status, and the text of one that is done.
#[derive(Drop)]
pub(crate) struct OldJudged {
    pub(crate) status: OldStatus,
    pub(crate) text: Vec<u8>,
}

/// A status without a text of its own.
pub(crate) fn refused(alloc: Global, status: OldStatus) -> OldJudged
    ensures status { result.status ≡ status }
    ensures text { result.text.items ≡ [] }
{
    OldJudged {
        status,
        text: Vec::new(alloc),
    }
}

/// What is done, with its text.
pub(crate) fn done(text: Vec<u8>) -> OldJudged
    ensures status { result.status ≡ OldStatus.Same Status.Done }
    ensures text { result.text.items ≡ text.items }
{
    OldJudged {
        status: OldStatus::Same(Status::Done),
        text,
    }
}

// The bytes of a version.
fn cat(alloc: Global, leaves: &Leaves, node: &Node) -> OldJudged
    ensures { IsToldAs leaves.now (OldQuestion.Cat node.now) result.status result.text.items }
{
    match leaves.bytes_of(alloc, *node) {
        Ok(bytes) => done(bytes),
        Err(fault) => refused(alloc, archive_status(fault, *node)),
    }
}

// The versions of a file.
fn versions(alloc: Global, leaves: &Leaves, file: Pnode) -> OldJudged
    ensures { IsToldAs leaves.now (OldQuestion.Versions file) result.status result.text.items }
{
    match version_text(alloc, leaves.list(), file) {
        Ok(text) => done(text.into_bytes()),
        Err(AllocError) => refused(alloc, OldStatus::Same(Status::NoMemory)),
    }
}

// The lines of the ranges in which two contents differ.
fn difference_text(alloc: Global, before: &[u8], after: &[u8]) -> Result<String, AllocError>
    ensures { IfOk result (λ text. IsDifferenceText before.now after.now (string_bytes text)) }
{
    let ranges = differences(alloc, before, after)?;
    range_text(alloc, &ranges)
}

// Where two versions differ.
fn diff(alloc: Global, leaves: &Leaves, from: &Node, to: &Node) -> OldJudged
    ensures { IsToldAs leaves.now (OldQuestion.Diff from.now to.now) result.status result.text.items }
{
    let before = match leaves.bytes_of(alloc, *from) {
        Ok(bytes) => bytes,
        Err(fault) => return refused(alloc, archive_status(fault, *from)),
    };
    let after = match leaves.bytes_of(alloc, *to) {
        Ok(bytes) => bytes,
        Err(fault) => return refused(alloc, archive_status(fault, *to)),
    };
    match difference_text(alloc, &before, &after) {
        Ok(text) => done(text.into_bytes()),
        Err(AllocError) => refused(alloc, OldStatus::Same(Status::NoMemory)),
    }
}

// What the leaves of an archive answer.
fn told_by(alloc: Global, leaves: &Leaves, question: OldQuestion) -> OldJudged
    ensures { IsToldAs leaves.now question result.status result.text.items }
{
    match question {
        OldQuestion::Cat(node) => cat(alloc, leaves, &node),
        OldQuestion::Versions(file) => versions(alloc, leaves, file),
        OldQuestion::Diff { from, to } => diff(alloc, leaves, &from, &to),
    }
}

/// What an archive answers. Nothing is written to it.
pub(crate) fn judge_question<A: Disk>(
    alloc: Global,
    question: OldQuestion,
    archive: &mut A,
) -> OldJudged
    ensures judged { IsJudgedBy (A.view archive.old) question result.text.items result.status }
    ensures work { IsDeviceWork (A.view archive.old) (A.view archive.new) (result.status ≡ OldStatus.ArchiveFault) }
    ensures alone { IsLeftAlone (A.view archive.old) (A.view archive.new) }
    ensures reads { result.status ≢ OldStatus.ArchiveFault → (A.view archive.new).seen ≡ (A.view archive.old).seen }
    ensures no_write { result.status ≢ OldStatus.Same Status.WriteFault }
    ensures like { result.status ≢ OldStatus.Unlike }
{
    match read_leaves(alloc, archive) {
        Ok(leaves) => told_by(alloc, &leaves, question),
        Err(fault) => refused(alloc, unread(fault)),
    }
}

/// The status of a fault of an archive where no node was asked for.
pub(crate) fn unread(fault: OldFault) -> OldStatus
    requires { fault ≢ OldFault.NoVersion }
    ensures status { (node : AnyNode) → result ≡ status_of_archive fault node }
    ensures no_write { result ≢ OldStatus.Same Status.WriteFault }
{
    match fault {
        OldFault::DiskFault | OldFault::Broken { .. } => OldStatus::ArchiveFault,
        OldFault::BadFrame { at } => OldStatus::BadArchive { at },
        OldFault::NoMemory => OldStatus::Same(Status::NoMemory),
        OldFault::NoVersion => unreachable!(),
    }
}
