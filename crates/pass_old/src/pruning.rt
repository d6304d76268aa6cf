//! Puts the chosen versions of an archive into a fresh one.
ghost use Rattle.std.specs.Prelude.{◌≡◌, ◌≢◌, ◌⊎◌, ◌↔◌, ◌&&◌, List, [], Some, None, IfOk, codes, filter_map, map, option_copied, option_map, string_bytes};
ghost use Rattle.pass_entry.specs.declared.objects.Node.{Node as AnyNode};
ghost use Rattle.pass_outside.specs.Faults.{HasRisen};
ghost use Rattle.pass_outside.specs.Moments.{IsDeviceWork};
ghost use Rattle.pass_recover.specs.Later.{IsLater, IsLeftAlone};
ghost use Rattle.pass_trace.specs.Words.{is_text};
ghost use Rattle.pass_ask.specs.Numbers.{node_in as node_of_word};
ghost use Rattle.pass_prune.specs.Choices.{IsFirstLacking};
ghost use Rattle.pass_old.specs.Answers.{IsWritten};
ghost use Rattle.pass_old.specs.Prunes.{are_nodes as are_nodes_of, folder_of, kept_line, prune_of, status_of_fresh, status_of_prune, IsPrunedAs, IsPrunedByLog, IsPruning, IsPruneAnswer, IsWholePruning};

use crate::questions::unread;
use crate::status::OldStatus;
use crate::writing::write_old;
use pass_ask::{node_in, open_index};
use pass_entry::Node;
use pass_leaf::{Leaves, OldFault, read_leaves};
use pass_outside::{Disk, Sink};
use pass_prune::{PruneFault, Pruned, prune};
use pass_status::{Status, opening_status};
use pass_waldo::Index;
use std::alloc::{AllocError, Global};
use std::fmt::Write;

/// How a call ended, and its disks.
#[derive(Drop)]
pub struct PruneEnded<D, A, F> {
    pub status: OldStatus,
    pub disk: D,
    pub archive: A,
    pub fresh: F,
}

// What is to be answered, and the fresh archive's disk.
#[derive(Drop)]
struct PruneJudged<F> {
    status: OldStatus,
    text: Vec<u8>,
    fresh: F,
}

// Each of the words is a node.
fn are_nodes(words: &[String]) -> bool
    ensures { result ≡ are_nodes_of (map string_bytes words.now) }
{
    words.iter().all(|word| node_in(word.as_bytes()).is_some())
}

// The nodes of words that are nodes.
fn nodes_in(alloc: Global, words: &[String]) -> Result<Vec<Node>, AllocError>
    ensures { IfOk result (λ nodes. nodes.items ≡ filter_map node_of_word (map string_bytes words.now)) }
{
    words
        .iter()
        .filter_map(|word| node_in(word.as_bytes()))
        .collect(alloc)
}

// The words ask for a fresh archive, where these stand behind its folder.
fn asks(name: &String, nodes: &[String]) -> bool
    ensures { result ≡ (is_text (string_bytes name.now) (codes "prune") && are_nodes_of (map string_bytes nodes.now)) }
{
    name.as_bytes() == b"prune".as_slice() && are_nodes(nodes)
}

/// The folder of the fresh archive, where the words ask for one: a program opens it to write, and the others to read.
pub fn third_folder(words: &[String]) -> Option<&String>
    ensures { option_map string_bytes (option_copied result) ≡ folder_of (map string_bytes words.now) }
{
    match words {
        [] => None,
        [_] => None,
        [name, folder, nodes @ ..] => {
            if asks(name, nodes) {
                Some(folder)
            } else {
                None
            }
        }
    }
}

// The nodes that the words name, where they ask for a fresh archive.
fn read_prune(alloc: Global, words: &[String]) -> Result<Option<Vec<Node>>, AllocError>
    ensures { IfOk result (λ named. option_map (λ n. n.items) named ≡ prune_of (map string_bytes words.now)) }
{
    match words {
        [] => Ok(None),
        [_] => Ok(None),
        [name, _, nodes @ ..] => {
            if asks(name, nodes) {
                Ok(Some(nodes_in(alloc, nodes)?))
            } else {
                Ok(None)
            }
        }
    }
}

// The status of a fault of the fresh archive. One that keeps versions has no other faults.
fn fresh_status(fault: OldFault) -> OldStatus
    ensures { result ≡ status_of_fresh fault }
{
    match fault {
        OldFault::BadFrame { at } => OldStatus::BadFresh { at },
        OldFault::NoMemory => OldStatus::Same(Status::NoMemory),
        OldFault::DiskFault | OldFault::Broken { .. } | OldFault::NoVersion => {
            OldStatus::FreshFault
        }
    }
}

fn prune_status(fault: PruneFault) -> OldStatus
    ensures { result ≡ status_of_prune fault }
{
    match fault {
        PruneFault::NoObject(node) => OldStatus::Same(Status::NoObject(node)),
        PruneFault::NotFresh => OldStatus::NotFresh,
        PruneFault::Fresh(fault) => fresh_status(fault),
        PruneFault::NoMemory => OldStatus::Same(Status::NoMemory),
    }
}

// A status without a text of its own.
fn refused<F>(alloc: Global, status: OldStatus, fresh: F) -> PruneJudged<F>
    ensures status { result.status ≡ status }
    ensures fresh { result.fresh ≡ fresh }
{
    PruneJudged {
        status,
        text: Vec::new(alloc),
        fresh,
    }
}

// How many versions the fresh archive has, and how many the other one.
fn kept_text(alloc: Global, kept: u64, all: usize) -> Result<String, AllocError>
    ensures { IfOk result (λ text. string_bytes text ≡ kept_line kept all) }
{
    let mut text = String::new(alloc);
    writeln!(text, "kept {kept} of {all} versions")?;
    Ok(text)
}

// A fresh archive that is whole, and its line.
fn whole<F>(alloc: Global, kept: u64, all: usize, fresh: F) -> PruneJudged<F>
    ensures judged { ((result.status ≡ OldStatus.Same Status.Done) × (result.text.items ≡ kept_line kept all)) ⊎ (result.status ≡ OldStatus.Same Status.NoMemory) }
    ensures fresh { result.fresh ≡ fresh }
{
    match kept_text(alloc, kept, all) {
        Ok(text) => PruneJudged {
            status: OldStatus::Same(Status::Done),
            text: text.into_bytes(),
            fresh,
        },
        Err(AllocError) => refused(alloc, OldStatus::Same(Status::NoMemory), fresh),
    }
}

// Puts the chosen versions into the fresh archive.
fn prune_onto<F: Disk>(
    alloc: Global,
    index: &Index,
    leaves: &Leaves,
    named: &[Node],
    fresh: F,
) -> PruneJudged<F>
    ensures told { IsPrunedAs F.view index.now named.now leaves.now fresh result.fresh result.status result.text.items }
    ensures absent { (node : AnyNode) → IsFirstLacking index.now named.now node → result.status ≡ OldStatus.Same (Status.NoObject node) }
    ensures work { IsDeviceWork (F.view fresh) (F.view result.fresh) (result.status ≡ OldStatus.FreshFault) }
{
    let Pruned { result, fresh } = prune(alloc, index, leaves, named, fresh);
    match result {
        Ok(kept) => whole(alloc, kept, leaves.list().len(), fresh),
        Err(fault) => refused(alloc, prune_status(fault), fresh),
    }
}

// The same, by the log of a store.
fn prune_by_log<D: Disk, F: Disk>(
    alloc: Global,
    named: &[Node],
    leaves: &Leaves,
    disk: &mut D,
    fresh: F,
) -> PruneJudged<F>
    ensures by { IsPrunedByLog F.view (D.view disk.old) (D.view disk.new) named.now leaves.now fresh result.fresh result.text.items result.status }
    ensures work { IsDeviceWork (F.view fresh) (F.view result.fresh) (result.status ≡ OldStatus.FreshFault) }
    ensures alone { IsLeftAlone (D.view disk.old) (D.view disk.new) }
    ensures later { IsLater (D.view disk.old) (D.view disk.new) }
    ensures no_archive { result.status ≢ OldStatus.ArchiveFault }
{
    let opened = disk.faults();
    match open_index(alloc, disk) {
        Ok(index) => prune_onto(alloc, &index, leaves, named, fresh),
        Err(fault) => {
            let status = opening_status(fault, opened, disk.faults());
            refused(alloc, OldStatus::Same(status), fresh)
        }
    }
}

// The same of an archive, which is read first. Nothing is written to it, nor to the store.
fn judge_prune<D: Disk, A: Disk, F: Disk>(
    alloc: Global,
    named: &[Node],
    disk: &mut D,
    archive: &mut A,
    fresh: F,
) -> PruneJudged<F>
    ensures by { IsPruning D.view F.view (A.view archive.old) disk.old disk.new named.now fresh result.fresh result.text.items result.status }
    ensures work { IsDeviceWork (A.view archive.old) (A.view archive.new) (result.status ≡ OldStatus.ArchiveFault) }
    ensures reads { result.status ≢ OldStatus.ArchiveFault → (A.view archive.new).seen ≡ (A.view archive.old).seen }
    ensures fresh_work { IsDeviceWork (F.view fresh) (F.view result.fresh) (result.status ≡ OldStatus.FreshFault) }
    ensures alone { IsLeftAlone (A.view archive.old) (A.view archive.new) }
    ensures store_alone { IsLeftAlone (D.view disk.old) (D.view disk.new) }
    ensures store_later { IsLater (D.view disk.old) (D.view disk.new) }
{
    match read_leaves(alloc, archive) {
        Ok(leaves) => prune_by_log(alloc, named, &leaves, disk, fresh),
        Err(fault) => refused(alloc, unread(fault), fresh),
    }
}

// The same, and writes what was judged.
fn prune_named<K: Sink, D: Disk, A: Disk, F: Disk>(
    alloc: Global,
    named: &[Node],
    sink: &mut K,
    disk: D,
    archive: A,
    fresh: F,
) -> PruneEnded<D, A, F>
    ensures pruned { IsPruneAnswer D.view A.view F.view disk result.disk archive result.archive fresh result.fresh named.now
        (record { tells = K.tells; before = K.taken sink.old; after = K.taken sink.new }) result.status }
    ensures alone { IsLeftAlone (A.view archive) (A.view result.archive) }
    ensures store_alone { IsLeftAlone (D.view disk) (D.view result.disk) }
    ensures later { IsLater (D.view disk) (D.view result.disk) }
    ensures write_fault { result.status ≢ OldStatus.Same Status.NoMemory → (result.status ≡ OldStatus.Same Status.WriteFault
        ↔ HasRisen (K.fault_count sink.old) (K.fault_count sink.new)) }
    ensures untaken { result.status ≡ OldStatus.Same Status.NoMemory → sink.new ≡ sink.old }
{
    let mut disk = disk;
    let mut archive = archive;
    let PruneJudged {
        status: judged,
        text,
        fresh,
    } = judge_prune(alloc, named, &mut disk, &mut archive, fresh);
    PruneEnded {
        status: write_old(alloc, sink, judged, &text),
        disk,
        archive,
        fresh,
    }
}

/// Puts the chosen versions of an archive into a fresh one, and writes how many they are. `words` are the program's words after the two
/// folders; the folder of the fresh archive is among them (`third_folder`).
pub fn prune_main<K: Sink, D: Disk, A: Disk, F: Disk>(
    alloc: Global,
    words: &[String],
    sink: &mut K,
    disk: D,
    archive: A,
    fresh: F,
) -> PruneEnded<D, A, F>
    ensures bad_words { prune_of (map string_bytes words.now) ≡ None → result.status ≢ OldStatus.Same Status.NoMemory
        → IsWritten (record { tells = K.tells; before = K.taken sink.old; after = K.taken sink.new }) (OldStatus.Same Status.BadWords) result.status [] }
    // It is judged by the archive, the store's log, the nodes and then the fresh archive; and this is what it leaves there.
    ensures pruned { (named : List AnyNode) → prune_of (map string_bytes words.now) ≡ Some named
        → IsPruneAnswer D.view A.view F.view disk result.disk archive result.archive fresh result.fresh named
        (record { tells = K.tells; before = K.taken sink.old; after = K.taken sink.new }) result.status }
    // One that is done has put each chosen version into the fresh archive, with its bytes, and no other.
    ensures done { (named : List AnyNode) → prune_of (map string_bytes words.now) ≡ Some named → result.status ≡ OldStatus.Same Status.Done
        → IsWholePruning D.view A.view F.view disk archive fresh result.fresh named }
    // Neither the store nor the archive is written to.
    ensures alone { IsLeftAlone (D.view disk) (D.view result.disk) × IsLeftAlone (A.view archive) (A.view result.archive) }
    ensures untouched { prune_of (map string_bytes words.now) ≡ None → (result.disk ≡ disk) × (result.archive ≡ archive) × (result.fresh ≡ fresh) }
    // What the disks tell stays, and their counts never fall.
    ensures later { IsLater (D.view disk) (D.view result.disk) }
    ensures archive_later { IsLater (A.view archive) (A.view result.archive) }
    ensures fresh_later { IsLater (F.view fresh) (F.view result.fresh) }
    ensures write_fault { result.status ≢ OldStatus.Same Status.NoMemory → (result.status ≡ OldStatus.Same Status.WriteFault
        ↔ HasRisen (K.fault_count sink.old) (K.fault_count sink.new)) }
    ensures untaken { result.status ≡ OldStatus.Same Status.NoMemory → sink.new ≡ sink.old }
    // A call of an archive's disk failed exactly where that is answered, unless the sink failed, too.
    ensures archive_fault { result.status ≢ OldStatus.Same Status.NoMemory → result.status ≢ OldStatus.Same Status.WriteFault
        → IsDeviceWork (A.view archive) (A.view result.archive) (result.status ≡ OldStatus.ArchiveFault) }
    ensures fresh_fault { result.status ≢ OldStatus.Same Status.NoMemory → result.status ≢ OldStatus.Same Status.WriteFault
        → IsDeviceWork (F.view fresh) (F.view result.fresh) (result.status ≡ OldStatus.FreshFault) }
    // Only words that ask for no fresh archive are refused as words.
    ensures refused_words { result.status ≡ OldStatus.Same Status.BadWords → prune_of (map string_bytes words.now) ≡ None }
{
    let named = match read_prune(alloc, words) {
        Ok(named) => named,
        Err(AllocError) => {
            return PruneEnded {
                status: OldStatus::Same(Status::NoMemory),
                disk,
                archive,
                fresh,
            };
        }
    };
    match named {
        Some(named) => prune_named(alloc, &named, sink, disk, archive, fresh),
        None => PruneEnded {
            status: write_old(alloc, sink, OldStatus::Same(Status::BadWords), &[]),
            disk,
            archive,
            fresh,
        },
    }
}
