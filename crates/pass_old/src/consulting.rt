//! Questions to an archive and a store's log.
ghost use Rattle.std.specs.Prelude.{◌≡◌, ◌≢◌, true, IfOk, string_bytes, flat_map};
ghost use Rattle.pass_outside.specs.Moments.{IsDeviceWork};
ghost use Rattle.pass_recover.specs.Later.{IsLater, IsLeftAlone};
ghost use Rattle.pass_files.specs.Spelling.{no_node};
ghost use Rattle.pass_leaf.specs.Contents.{AreLeaves};
ghost use Rattle.pass_audit.specs.Audits.{all_judged, audit_text as audit_text_of};
ghost use Rattle.pass_old.specs.Consults.{IsConsulted, IsJudgedByLog, IsToldBothAs, is_same};
ghost use Rattle.pass_old.specs.Listings.{version_lines};

use crate::listing::version_text;
use crate::questions::{OldJudged, done, refused, unread};
use crate::status::OldStatus;
use crate::words::LogQuestion;
use pass_ask::open_index;
use pass_audit::{audit, audit_text};
use pass_entry::{Node, Pnode, Text};
use pass_leaf::{Leaf, Leaves, read_leaves};
use pass_outside::Disk;
use pass_status::{Status, opening_status};
use pass_waldo::Index;
use std::alloc::{AllocError, Global};

// The lines of the versions of these files.
fn files_text(alloc: Global, leaves: &[Leaf], files: &[Pnode]) -> Result<String, AllocError>
    requires { AreLeaves leaves.now }
    ensures { IfOk result (λ text. string_bytes text ≡ flat_map (version_lines leaves.now) files.now) }
{
    let mut text = String::new(alloc);
    for file in files {
        let lines = version_text(alloc, leaves, *file)?;
        text.push_str(&lines)?;
    }
    Ok(text)
}

// What is answered where no file ever had a name.
fn nameless(alloc: Global) -> OldJudged
    ensures { result.status ≡ OldStatus.Same (Status.NoObject no_node) }
{
    let nothing = Node {
        pnode: Pnode(0),
        version: 0,
    };
    refused(alloc, OldStatus::Same(Status::NoObject(nothing)))
}

// The versions of the files that ever had the name.
fn named(alloc: Global, index: &Index, leaves: &Leaves, name: &Text) -> OldJudged
    ensures { IsToldBothAs (LogQuestion.Named name.now) result.status result.text.items index.now leaves.now }
{
    let files = index.by_name(name);
    if files.is_empty() {
        return nameless(alloc);
    }
    match files_text(alloc, leaves.list(), files) {
        Ok(text) => done(text.into_bytes()),
        Err(AllocError) => refused(alloc, OldStatus::Same(Status::NoMemory)),
    }
}

// Each leaf, judged by the records.
fn check_text(alloc: Global, index: &Index, leaves: &Leaves) -> Result<String, AllocError>
    ensures { IfOk result (λ text. string_bytes text ≡ audit_text_of (all_judged index.now leaves.now)) }
{
    let judged = audit(alloc, index.records(), leaves)?;
    audit_text(alloc, &judged)
}

// Whether the records bear the leaves out.
fn check(alloc: Global, index: &Index, leaves: &Leaves) -> OldJudged
    ensures { IsToldBothAs LogQuestion.Check result.status result.text.items index.now leaves.now }
{
    match check_text(alloc, index, leaves) {
        Ok(text) => done(text.into_bytes()),
        Err(AllocError) => refused(alloc, OldStatus::Same(Status::NoMemory)),
    }
}

// What the records and the leaves answer.
fn told_by_both(alloc: Global, index: &Index, leaves: &Leaves, question: &LogQuestion) -> OldJudged
    ensures { IsToldBothAs question.now result.status result.text.items index.now leaves.now }
{
    match question {
        LogQuestion::Named(name) => named(alloc, index, leaves, name),
        LogQuestion::Check => check(alloc, index, leaves),
    }
}

// What the log of a store answers beside leaves that were read.
fn judge_log<D: Disk>(
    alloc: Global,
    question: &LogQuestion,
    leaves: &Leaves,
    disk: &mut D,
) -> OldJudged
    ensures judged { IsJudgedByLog (D.view disk.old) (D.view disk.new) leaves.now (IsToldBothAs question.now result.status result.text.items) result.status }
    ensures alone { IsLeftAlone (D.view disk.old) (D.view disk.new) }
    ensures later { IsLater (D.view disk.old) (D.view disk.new) }
    ensures own { is_same result.status ≡ true }
    ensures no_write { result.status ≢ OldStatus.Same Status.WriteFault }
{
    let opened = disk.faults();
    match open_index(alloc, disk) {
        Ok(index) => told_by_both(alloc, &index, leaves, question),
        Err(fault) => {
            let status = opening_status(fault, opened, disk.faults());
            refused(alloc, OldStatus::Same(status))
        }
    }
}

/// What an archive and a store's log answer. The archive is read first. Nothing is written to either.
pub(crate) fn consult<D: Disk, A: Disk>(
    alloc: Global,
    question: &LogQuestion,
    disk: &mut D,
    archive: &mut A,
) -> OldJudged
    ensures judged { IsConsulted D.view (A.view archive.old) disk.old disk.new (IsToldBothAs question.now result.status result.text.items) result.status }
    ensures work { IsDeviceWork (A.view archive.old) (A.view archive.new) (result.status ≡ OldStatus.ArchiveFault) }
    ensures alone { IsLeftAlone (A.view archive.old) (A.view archive.new) }
    ensures reads { result.status ≢ OldStatus.ArchiveFault → (A.view archive.new).seen ≡ (A.view archive.old).seen }
    ensures store_alone { IsLeftAlone (D.view disk.old) (D.view disk.new) }
    ensures store_later { IsLater (D.view disk.old) (D.view disk.new) }
    ensures no_write { result.status ≢ OldStatus.Same Status.WriteFault }
    ensures like { result.status ≢ OldStatus.Unlike }
{
    match read_leaves(alloc, archive) {
        Ok(leaves) => judge_log(alloc, question, &leaves, disk),
        Err(fault) => refused(alloc, unread(fault)),
    }
}
