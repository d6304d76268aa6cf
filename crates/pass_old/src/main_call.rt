//! The call that the program makes.
ghost use Rattle.std.specs.Prelude.{ℕ, ◌≤◌, ◌≡◌, ◌≢◌, ◌⊎◌, ◌↔◌, List, [], Some, None, IsTrue, map, string_bytes};
ghost use Rattle.pass_entry.specs.declared.objects.Node.{Node as AnyNode};
ghost use Rattle.pass_files.specs.declared.spelled.Spelled.{Spelled as AnySpelled};
ghost use Rattle.pass_outside.specs.Faults.{HasRisen};
ghost use Rattle.pass_outside.specs.Moments.{IsDeviceWork};
ghost use Rattle.pass_plain.specs.declared.start.Start.{Start as AnyStart};
ghost use Rattle.pass_recover.specs.Later.{IsLater, IsLeftAlone};
ghost use Rattle.pass_trace.specs.declared.limits.Scale.TheVariants.{Usual};
ghost use Rattle.pass_cli.specs.Answers.{OfBytes, IsReadInTime};
ghost use Rattle.pass_old.specs.declared.words.OldQuestion.{OldQuestion as AnyQuestion};
ghost use Rattle.pass_old.specs.declared.words.LogQuestion.{LogQuestion as AnyLogQuestion};
ghost use Rattle.pass_old.specs.Answers.{IsWritten, IsRunAnswer, IsQuestionAnswer, IsConsultAnswer, IsUnrun};
ghost use Rattle.pass_old.specs.Runs.{HasAll, HasNothing, IsStoredStart};
ghost use Rattle.pass_old.specs.Tars.{IsTarAnswer, IsTarJudged};
ghost use Rattle.pass_old.specs.Words.{command_of};

use crate::consulting::consult;
use crate::questions::{OldJudged, judge_question};
use crate::running::{OldRun, judge_run};
use crate::status::OldStatus;
use crate::tarring::{Tarred, tar};
use crate::words::{LogQuestion, OldCommand, OldQuestion, read_words};
use crate::writing::write_old;
use pass_entry::{Entry, Node};
use pass_files::Spelled;
use pass_outside::{Disk, Gate, Sink, Source};
use pass_past::laws::same_told;
use pass_plain::Start;
use pass_run::empty_start;
use pass_status::Status;
use std::alloc::{AllocError, Global};
use std::sync::Wait;
use std::thread::Threads;

/// How a call ended: the versions that a tar lacks, the history that was run and the start that its opening gave, and both disks.
#[derive(Drop)]
pub struct OldEnded<D, A> {
    pub status: OldStatus,
    pub lacking: Vec<Node>,
    pub history: Vec<Entry>,
    /// Its files lack their bytes.
    pub start: Start,
    pub disk: D,
    pub archive: A,
}

/// Runs the trace of the source, keeps the versions of its files in the archive and writes the report to the sink; or answers a question
/// to the archive, or to the archive and the store's log, or writes a tar. `words` are the program's words after the two folders.
pub fn old_main<
    R: Threads + Wait + Sync,
    S: Source,
    K: Sink,
    D: Disk + Send,
    A: Disk,
    G: Gate + Sync,
>(
    rt: &R,
    alloc: Global,
    words: &[String],
    source: &mut S,
    sink: &mut K,
    disk: D,
    archive: A,
    gate: &G,
) -> OldEnded<D, A>
    ensures bad_words { command_of (map string_bytes words.now) ≡ None → result.status ≢ OldStatus.Same Status.NoMemory
        → IsWritten (record { tells = K.tells; before = K.taken sink.old; after = K.taken sink.new }) (OldStatus.Same Status.BadWords) result.status [] }
    // A run is judged by the source, its bytes, the archive's opening, the store's, and the run; and this is what it leaves of both disks.
    ensures run { (workers : ℕ) → command_of (map string_bytes words.now) ≡ Some (OldCommand.Run workers)
        → OfBytes S.tells (S.left source.old) (λ bytes. IsRunAnswer D.view A.view bytes (S.fault_count source.old) (S.fault_count source.new)
        (record { tells = K.tells; before = K.taken sink.old; after = K.taken sink.new }) disk result.disk archive result.archive result.start result.history.items result.status) }
    // One that is done or stuck has kept each version of its files that the archive hadn't.
    ensures kept { (workers : ℕ) → command_of (map string_bytes words.now) ≡ Some (OldCommand.Run workers)
        → (result.status ≡ OldStatus.Same Status.Done) ⊎ (result.status ≡ OldStatus.Same Status.Stuck)
        → (start : AnyStart) × IsStoredStart (D.view disk) start × HasAll A.view archive result.archive start result.history.items }
    // Over a disk that tells what it reads, what was run is what the store told.
    ensures like { result.status ≡ OldStatus.Unlike → IsTrue (D.view disk).tells → ⊥ }
    ensures stops { IsTrue S.tells → (workers : ℕ) → command_of (map string_bytes words.now) ≡ Some (OldCommand.Run workers) → result.status ≢ OldStatus.Same Status.NoMemory
        → ¬ HasRisen (S.fault_count source.old) (S.fault_count source.new) → IsReadInTime Usual (S.left source.old) (S.left source.new) }
    // A question is answered by the archive, or by the archive and the store's log.
    ensures asked { (question : AnyQuestion) → command_of (map string_bytes words.now) ≡ Some (OldCommand.Ask question) → result.status ≢ OldStatus.Same Status.NoMemory
        → IsQuestionAnswer (A.view archive) (A.view result.archive) question (record { tells = K.tells; before = K.taken sink.old; after = K.taken sink.new }) result.status }
    ensures consulted { (question : AnyLogQuestion) → command_of (map string_bytes words.now) ≡ Some (OldCommand.Consult question) → result.status ≢ OldStatus.Same Status.NoMemory
        → IsConsultAnswer D.view A.view disk result.disk archive result.archive question (record { tells = K.tells; before = K.taken sink.old; after = K.taken sink.new }) result.status }
    // A tar is written by the archive and the store's log.
    ensures tarred { (node : AnySpelled) → command_of (map string_bytes words.now) ≡ Some (OldCommand.Tar node) → result.status ≢ OldStatus.Same Status.NoMemory
        → IsTarAnswer (IsTarJudged D.view A.view disk result.disk archive result.archive node)
        (record { tells = K.tells; before = K.taken sink.old; after = K.taken sink.new }) result.status result.lacking.items }
    // Versions that lack are handed out with that status alone.
    ensures lacking { ((node : AnyNode) → result.status ≢ OldStatus.Lacks node) → result.lacking.items ≡ [] }
    // Without a run no entry is made, nothing is written to a disk, and the source isn't touched.
    ensures unrun { ((workers : ℕ) → command_of (map string_bytes words.now) ≢ Some (OldCommand.Run workers))
        → IsUnrun (D.view disk) (D.view result.disk) (A.view archive) (A.view result.archive) result.start result.history.items × (source.new ≡ source.old) }
    ensures archive_alone { (question : AnyQuestion) → command_of (map string_bytes words.now) ≡ Some (OldCommand.Ask question) → result.disk ≡ disk }
    ensures untouched { command_of (map string_bytes words.now) ≡ None → (result.disk ≡ disk) × (result.archive ≡ archive) }
    // What the disks tell stays, and their counts never fall.
    ensures later { IsLater (D.view disk) (D.view result.disk) }
    ensures archive_later { IsLater (A.view archive) (A.view result.archive) }
    ensures write_fault { result.status ≢ OldStatus.Same Status.NoMemory → (result.status ≡ OldStatus.Same Status.WriteFault
        ↔ HasRisen (K.fault_count sink.old) (K.fault_count sink.new)) }
    ensures untaken { result.status ≡ OldStatus.Same Status.NoMemory → sink.new ≡ sink.old }
    // A call of the archive's disk failed exactly where that is answered, unless the sink failed, too.
    ensures archive_fault { result.status ≢ OldStatus.Same Status.NoMemory → result.status ≢ OldStatus.Same Status.WriteFault
        → IsDeviceWork (A.view archive) (A.view result.archive) (result.status ≡ OldStatus.ArchiveFault) }
    // Only words that name no command are refused as words.
    ensures refused_words { result.status ≡ OldStatus.Same Status.BadWords → command_of (map string_bytes words.now) ≡ None }
{
    same_told();
    let command = match read_words(alloc, words) {
        Ok(command) => command,
        Err(AllocError) => {
            return unrun(alloc, OldStatus::Same(Status::NoMemory), disk, archive);
        }
    };
    match command {
        Some(OldCommand::Run { workers }) => {
            run_words(rt, alloc, workers, source, sink, disk, archive, gate)
        }
        Some(OldCommand::Ask(question)) => ask_words(alloc, question, sink, disk, archive),
        Some(OldCommand::Consult(question)) => {
            consult_words(alloc, &question, sink, disk, archive)
        }
        Some(OldCommand::Tar(node)) => tar_words(alloc, &node, sink, disk, archive),
        None => {
            let status = write_old(alloc, sink, OldStatus::Same(Status::BadWords), &[]);
            unrun(alloc, status, disk, archive)
        }
    }
}

// Runs the trace of the source.
fn run_words<R: Threads + Wait + Sync, S: Source, K: Sink, D: Disk + Send, A: Disk, G: Gate + Sync>(
    rt: &R,
    alloc: Global,
    workers: u32,
    source: &mut S,
    sink: &mut K,
    disk: D,
    archive: A,
    gate: &G,
) -> OldEnded<D, A>
    requires { (1 ≤ workers) × (workers ≤ 64) }
    ensures run { OfBytes S.tells (S.left source.old) (λ bytes. IsRunAnswer D.view A.view bytes (S.fault_count source.old) (S.fault_count source.new)
        (record { tells = K.tells; before = K.taken sink.old; after = K.taken sink.new }) disk result.disk archive result.archive result.start result.history.items result.status) }
    ensures later { IsLater (D.view disk) (D.view result.disk) }
    ensures archive_later { IsLater (A.view archive) (A.view result.archive) }
    ensures stops { IsTrue S.tells → result.status ≢ OldStatus.Same Status.NoMemory → ¬ HasRisen (S.fault_count source.old) (S.fault_count source.new)
        → IsReadInTime Usual (S.left source.old) (S.left source.new) }
    ensures write_fault { result.status ≢ OldStatus.Same Status.NoMemory → (result.status ≡ OldStatus.Same Status.WriteFault
        ↔ HasRisen (K.fault_count sink.old) (K.fault_count sink.new)) }
    ensures untaken { result.status ≡ OldStatus.Same Status.NoMemory → sink.new ≡ sink.old }
    ensures lacking { result.lacking.items ≡ [] }
{
    let OldRun {
        status: judged,
        report,
        history,
        start,
        disk,
        archive,
    } = judge_run(rt, alloc, workers, source, disk, archive, gate);
    OldEnded {
        status: write_old(alloc, sink, judged, &report),
        lacking: Vec::new(alloc),
        history,
        start,
        disk,
        archive,
    }
}

// Answers a question to the archive.
fn ask_words<K: Sink, D, A: Disk>(
    alloc: Global,
    question: OldQuestion,
    sink: &mut K,
    disk: D,
    archive: A,
) -> OldEnded<D, A>
    ensures asked { result.status ≢ OldStatus.Same Status.NoMemory
        → IsQuestionAnswer (A.view archive) (A.view result.archive) question (record { tells = K.tells; before = K.taken sink.old; after = K.taken sink.new }) result.status }
    ensures like { result.status ≢ OldStatus.Unlike }
    ensures lacking { result.lacking.items ≡ [] }
    ensures nothing { HasNothing result.start result.history.items }
    ensures disk { result.disk ≡ disk }
    ensures alone { IsLeftAlone (A.view archive) (A.view result.archive) }
    ensures archive_later { IsLater (A.view archive) (A.view result.archive) }
    ensures write_fault { result.status ≢ OldStatus.Same Status.NoMemory → (result.status ≡ OldStatus.Same Status.WriteFault
        ↔ HasRisen (K.fault_count sink.old) (K.fault_count sink.new)) }
    ensures untaken { result.status ≡ OldStatus.Same Status.NoMemory → sink.new ≡ sink.old }
{
    let mut archive = archive;
    let OldJudged {
        status: judged,
        text,
    } = judge_question(alloc, question, &mut archive);
    let status = write_old(alloc, sink, judged, &text);
    unrun(alloc, status, disk, archive)
}

// Answers a question to the archive and the store's log.
fn consult_words<K: Sink, D: Disk, A: Disk>(
    alloc: Global,
    question: &LogQuestion,
    sink: &mut K,
    disk: D,
    archive: A,
) -> OldEnded<D, A>
    ensures consulted { result.status ≢ OldStatus.Same Status.NoMemory
        → IsConsultAnswer D.view A.view disk result.disk archive result.archive question.now (record { tells = K.tells; before = K.taken sink.old; after = K.taken sink.new }) result.status }
    ensures like { result.status ≢ OldStatus.Unlike }
    ensures lacking { result.lacking.items ≡ [] }
    ensures nothing { HasNothing result.start result.history.items }
    ensures alone { IsLeftAlone (A.view archive) (A.view result.archive) }
    ensures store_alone { IsLeftAlone (D.view disk) (D.view result.disk) }
    ensures later { IsLater (D.view disk) (D.view result.disk) }
    ensures archive_later { IsLater (A.view archive) (A.view result.archive) }
    ensures write_fault { result.status ≢ OldStatus.Same Status.NoMemory → (result.status ≡ OldStatus.Same Status.WriteFault
        ↔ HasRisen (K.fault_count sink.old) (K.fault_count sink.new)) }
    ensures untaken { result.status ≡ OldStatus.Same Status.NoMemory → sink.new ≡ sink.old }
{
    let mut disk = disk;
    let mut archive = archive;
    let OldJudged {
        status: judged,
        text,
    } = consult(alloc, question, &mut disk, &mut archive);
    let status = write_old(alloc, sink, judged, &text);
    unrun(alloc, status, disk, archive)
}

// Writes the tar of what a node came from.
fn tar_words<K: Sink, D: Disk, A: Disk>(
    alloc: Global,
    node: &Spelled,
    sink: &mut K,
    disk: D,
    archive: A,
) -> OldEnded<D, A>
    ensures tarred { result.status ≢ OldStatus.Same Status.NoMemory
        → IsTarAnswer (IsTarJudged D.view A.view disk result.disk archive result.archive node.now)
        (record { tells = K.tells; before = K.taken sink.old; after = K.taken sink.new }) result.status result.lacking.items }
    ensures like { result.status ≢ OldStatus.Unlike }
    ensures lacking { ((n : AnyNode) → result.status ≢ OldStatus.Lacks n) → result.lacking.items ≡ [] }
    ensures nothing { HasNothing result.start result.history.items }
    ensures alone { IsLeftAlone (A.view archive) (A.view result.archive) }
    ensures store_alone { IsLeftAlone (D.view disk) (D.view result.disk) }
    ensures later { IsLater (D.view disk) (D.view result.disk) }
    ensures archive_later { IsLater (A.view archive) (A.view result.archive) }
    ensures write_fault { result.status ≢ OldStatus.Same Status.NoMemory → (result.status ≡ OldStatus.Same Status.WriteFault
        ↔ HasRisen (K.fault_count sink.old) (K.fault_count sink.new)) }
    ensures untaken { result.status ≡ OldStatus.Same Status.NoMemory → sink.new ≡ sink.old }
{
    let mut disk = disk;
    let mut archive = archive;
    let Tarred { status, lacking } = tar(alloc, node, sink, &mut disk, &mut archive);
    OldEnded {
        status,
        lacking,
        history: Vec::new(alloc),
        start: empty_start(alloc),
        disk,
        archive,
    }
}

// The end of a call that ran no trace, and wrote no tar.
fn unrun<D, A>(alloc: Global, status: OldStatus, disk: D, archive: A) -> OldEnded<D, A>
    ensures status { result.status ≡ status }
    ensures lacking { result.lacking.items ≡ [] }
    ensures nothing { HasNothing result.start result.history.items }
    ensures disk { result.disk ≡ disk }
    ensures archive { result.archive ≡ archive }
{
    OldEnded {
        status,
        lacking: Vec::new(alloc),
        history: Vec::new(alloc),
        start: empty_start(alloc),
        disk,
        archive,
    }
}
