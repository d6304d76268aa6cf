//! The tar of what a node came from.
ghost use Rattle.std.specs.Prelude.{◌≡◌, ◌≢◌, ◌↔◌, [], ℕ, List, IsTrue};
ghost use Rattle.pass_entry.specs.declared.objects.Node.{Node as AnyNode};
ghost use Rattle.pass_outside.specs.Faults.{HasRisen};
ghost use Rattle.pass_recover.specs.Later.{IsLater, IsLeftAlone};
ghost use Rattle.pass_old.specs.declared.status.OldStatus.{OldStatus as AnyStatus};
ghost use Rattle.pass_old.specs.Answers.{IsWritten};
ghost use Rattle.pass_old.specs.Consults.{IsJudgedByLog};
ghost use Rattle.pass_old.specs.Tars.{IsTarAnswer, IsTarJudged, IsTarOfNode, IsTarTold, tar_status};

use crate::questions::unread;
use crate::status::OldStatus;
use crate::writing::write_old;
use pass_ask::open_index;
use pass_entry::Node;
use pass_files::{Spelled, node_meant};
use pass_inputs::{TarFault, write_tar};
use pass_leaf::{Leaves, read_leaves};
use pass_outside::{Disk, Sink};
use pass_status::{Status, opening_status};
use pass_waldo::Index;
use std::alloc::Global;

/// How the writing of a tar ended, and the versions that it lacks.
#[derive(Drop)]
pub(crate) struct Tarred {
    pub(crate) status: OldStatus,
    pub(crate) lacking: Vec<Node>,
}

// An end of which nothing more is written.
fn ended(alloc: Global, status: OldStatus) -> Tarred
    ensures status { result.status ≡ status }
    ensures lacking { result.lacking.items ≡ [] }
{
    Tarred {
        status,
        lacking: Vec::new(alloc),
    }
}

// Writes a refusal.
fn refuse<K: Sink>(alloc: Global, sink: &mut K, judged: OldStatus) -> Tarred
    requires { judged ≢ OldStatus.Same Status.WriteFault }
    ensures written { result.status ≢ OldStatus.Same Status.NoMemory
        → IsWritten (record { tells = K.tells; before = K.taken sink.old; after = K.taken sink.new }) judged result.status [] }
    ensures fault { result.status ≢ OldStatus.Same Status.NoMemory → (result.status ≡ OldStatus.Same Status.WriteFault ↔ HasRisen (K.fault_count sink.old) (K.fault_count sink.new)) }
    ensures unwritten { result.status ≡ OldStatus.Same Status.NoMemory → sink.new ≡ sink.old }
    ensures unlike { result.status ≡ OldStatus.Unlike → judged ≡ OldStatus.Unlike }
    ensures lacking { result.lacking.items ≡ [] }
{
    let status = write_old(alloc, sink, judged, &[]);
    ended(alloc, status)
}

// The status of a tar that lacks these versions.
fn status_of(lacking: &[Node]) -> OldStatus
    ensures { result ≡ tar_status lacking.now }
{
    match lacking.first() {
        Some(node) => OldStatus::Lacks(*node),
        None => OldStatus::Same(Status::Done),
    }
}

// Writes the tar of the node, by these records and leaves.
fn write_versions<K: Sink>(
    alloc: Global,
    index: &Index,
    leaves: &Leaves,
    node: Node,
    sink: &mut K,
) -> Tarred
    ensures answer { result.status ≢ OldStatus.Same Status.NoMemory
        → IsTarAnswer (λ (tar : List ℕ) (lacks : List AnyNode) (judged : AnyStatus). IsTarOfNode node tar lacks judged index.now leaves.now)
        (record { tells = K.tells; before = K.taken sink.old; after = K.taken sink.new }) result.status result.lacking.items }
    ensures fault { result.status ≢ OldStatus.Same Status.NoMemory → (result.status ≡ OldStatus.Same Status.WriteFault ↔ HasRisen (K.fault_count sink.old) (K.fault_count sink.new)) }
    ensures unwritten { result.status ≡ OldStatus.Same Status.NoMemory → sink.new ≡ sink.old }
    ensures like { result.status ≢ OldStatus.Unlike }
    ensures lacking { ((n : AnyNode) → result.status ≢ OldStatus.Lacks n) → result.lacking.items ≡ [] }
{
    match write_tar(alloc, index, leaves, node, sink) {
        Ok(lacking) => {
            let status = status_of(&lacking);
            Tarred { status, lacking }
        }
        Err(TarFault::NoObject(absent)) => {
            refuse(alloc, sink, OldStatus::Same(Status::NoObject(absent)))
        }
        Err(TarFault::WriteFault) => ended(alloc, OldStatus::Same(Status::WriteFault)),
        Err(TarFault::NoMemory) => ended(alloc, OldStatus::Same(Status::NoMemory)),
    }
}

// Writes the tar of the node, by the log of a store and leaves that were read.
fn write_by_log<K: Sink, D: Disk>(
    alloc: Global,
    leaves: &Leaves,
    node: &Spelled,
    sink: &mut K,
    disk: &mut D,
) -> Tarred
    ensures answer { result.status ≢ OldStatus.Same Status.NoMemory
        → IsTarAnswer (λ (tar : List ℕ) (lacks : List AnyNode) (judged : AnyStatus). IsJudgedByLog (D.view disk.old) (D.view disk.new) leaves.now (IsTarTold node.now tar lacks judged) judged)
        (record { tells = K.tells; before = K.taken sink.old; after = K.taken sink.new }) result.status result.lacking.items }
    ensures alone { IsLeftAlone (D.view disk.old) (D.view disk.new) }
    ensures later { IsLater (D.view disk.old) (D.view disk.new) }
    ensures fault { result.status ≢ OldStatus.Same Status.NoMemory → (result.status ≡ OldStatus.Same Status.WriteFault ↔ HasRisen (K.fault_count sink.old) (K.fault_count sink.new)) }
    ensures unwritten { result.status ≡ OldStatus.Same Status.NoMemory → sink.new ≡ sink.old }
    ensures like { result.status ≢ OldStatus.Unlike }
    ensures lacking { ((n : AnyNode) → result.status ≢ OldStatus.Lacks n) → result.lacking.items ≡ [] }
{
    let opened = disk.faults();
    match open_index(alloc, disk) {
        Ok(index) => write_versions(alloc, &index, leaves, node_meant(&index, node), sink),
        Err(fault) => {
            let status = opening_status(fault, opened, disk.faults());
            refuse(alloc, sink, OldStatus::Same(status))
        }
    }
}

/// Writes the tar of what a node came from: each version of a file among the node and all that it came from, with its bytes in the
/// archive. The archive is read first. Nothing is written to either disk.
pub(crate) fn tar<K: Sink, D: Disk, A: Disk>(
    alloc: Global,
    node: &Spelled,
    sink: &mut K,
    disk: &mut D,
    archive: &mut A,
) -> Tarred
    ensures answer { result.status ≢ OldStatus.Same Status.NoMemory
        → IsTarAnswer (IsTarJudged D.view A.view disk.old disk.new archive.old archive.new node.now)
        (record { tells = K.tells; before = K.taken sink.old; after = K.taken sink.new }) result.status result.lacking.items }
    ensures alone { IsLeftAlone (A.view archive.old) (A.view archive.new) }
    ensures later { IsLater (A.view archive.old) (A.view archive.new) }
    ensures store_alone { IsLeftAlone (D.view disk.old) (D.view disk.new) }
    ensures store_later { IsLater (D.view disk.old) (D.view disk.new) }
    ensures fault { result.status ≢ OldStatus.Same Status.NoMemory → (result.status ≡ OldStatus.Same Status.WriteFault ↔ HasRisen (K.fault_count sink.old) (K.fault_count sink.new)) }
    ensures unwritten { result.status ≡ OldStatus.Same Status.NoMemory → sink.new ≡ sink.old }
    ensures like { result.status ≢ OldStatus.Unlike }
    ensures lacking { ((n : AnyNode) → result.status ≢ OldStatus.Lacks n) → result.lacking.items ≡ [] }
{
    match read_leaves(alloc, archive) {
        Ok(leaves) => write_by_log(alloc, &leaves, node, sink, disk),
        Err(fault) => refuse(alloc, sink, unread(fault)),
    }
}
