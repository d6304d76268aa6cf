//! The call that the program makes.
ghost use Rattle.std.specs.Prelude.{ℕ, Bool, ◌≡◌, ◌≢◌, ◌↔◌, ◌⊎◌, ◌≤◌, Err, IsTrue, Some, map, string_bytes};
ghost use Rattle.pass_outside.specs.Faults.{HasRisen};
ghost use Rattle.pass_run.specs.Orders.{IsOrder};
ghost use Rattle.pass_run.specs.Stored.{IsBackedBy, IsLater, IsLeftAlone};
ghost use Rattle.pass_cli.specs.Answers.{OfBytes, IsReadInTime, IsAnswer, IsNothing, IsUnrecorded, IsRecorded, IsReplayed, outcome_of};
ghost use Rattle.pass_ask.specs.Asked.{IsAsked, IsPut, IsQuestionRead, asked_in};
ghost use Rattle.pass_ask.specs.Follows.{IsFollowAnswer, IsFollowedOn, OfRead};
ghost use Rattle.pass_cli.specs.Drawn.{IsGenAnswer, drawn_bytes};
ghost use Rattle.pass_ask.specs.Questions.{AreAsked, AreCut};
ghost use Rattle.pass_trace.specs.declared.limits.Scale.TheVariants.{Long};
ghost use Rattle.pass_trace.specs.Limits.{most_lines};
ghost use Rattle.pass_ask.specs.Words.{scale_of, asks_lines, drawn_of, is_follow, is_gen, is_replay, is_run, lines_asked, question_of};

use crate::drawing::judge_drawn;
use crate::verdict::judge;
use pass_ask::{
    Asked, Command, Followed, Question, ask_for, ask_lines, follow, read_words, write_answer,
};
use pass_entry::{Entry, Record, Synced};
use pass_outside::{Disk, Gate, Sink, Source};
use pass_plain::Start;
use pass_run::{Order, RunEnd, empty_start};
use pass_status::Status;
use pass_trace::Scale;
use std::alloc::Global;
use std::sync::Wait;
use std::thread::Threads;

/// How a run ended: the history that it recorded, the syncs of the store, the records and the start that
/// its opening gave, and the disk.
#[derive(Drop)]
pub struct Ended<D> {
    pub status: Status,
    pub history: Vec<Entry>,
    pub syncs: Vec<Synced>,
    pub list: Vec<Record>,
    /// Its files lack their bytes.
    pub start: Start,
    pub disk: D,
}

/// Runs the trace of the source and writes the report to the sink, follows the log that the source gives, or answers the words
/// of another command. `words` are the program's words after the folder.
pub fn pass_main<R: Threads + Wait + Sync, S: Source, K: Sink, D: Disk + Send, G: Gate + Sync>(
    rt: &R,
    alloc: Global,
    words: &[String],
    source: &mut S,
    sink: &mut K,
    disk: D,
    gate: &G,
) -> Ended<D>
    ensures run { IsTrue (is_run (map string_bytes words.now)) → result.status ≢ Status.NoMemory → IsAnswer D.view (scale_of (map string_bytes words.now))
        (record { tells = S.tells; left = S.left source.old; before = S.fault_count source.old; after = S.fault_count source.new })
        (record { tells = K.tells; before = K.taken sink.old; after = K.taken sink.new }) disk result.disk (outcome_of result) result.status }
    // What a run hands out, also where memory was refused, and what a crash leaves of it: since the opening, and since each sync, with the
    // data of the file that was synced.
    ensures recorded { IsTrue (is_run (map string_bytes words.now)) → OfBytes S.tells (S.left source.old)
        (λ bytes. IsUnrecorded (D.view disk) (D.view result.disk) bytes (outcome_of result) ⊎ IsRecorded (D.view disk) (D.view result.disk) bytes (outcome_of result)) }
    // A replay's history is the one in which each call is made where its line stands, or as soon behind it as it is ready; where the run has come
    // to its end, all of it.
    ensures replayed { IsTrue (is_replay (map string_bytes words.now)) → OfBytes S.tells (S.left source.old) (λ bytes. IsReplayed (D.view disk) bytes (outcome_of result) result.status) }
    // Each sync of which the history tells is among the syncs: it has the entry by which its call began, and none from its own place on.
    ensures backed { IsBackedBy result.history.items result.syncs.items }
    // A standby ends as what came of the stream, and leaves on the disk whole frames of it.
    ensures follow { IsTrue (is_follow (map string_bytes words.now)) → result.status ≢ Status.NoMemory
        → IsFollowAnswer S.tells (S.left source.old) (S.left source.new) (S.fault_count source.old) (S.fault_count source.new)
        (record { tells = K.tells; before = K.taken sink.old; after = K.taken sink.new }) (D.view disk) (D.view result.disk) result.status }
    ensures followed { IsTrue (is_follow (map string_bytes words.now)) → OfRead S.tells (S.left source.old) (S.left source.new) (D.view disk)
        (λ log bytes. IsFollowedOn log bytes (D.view disk) (D.view result.disk)) }
    // A drawn trace is run as its text would be, and its four lines are written.
    ensures drawn { (number lines : ℕ) → drawn_of (map string_bytes words.now) ≡ Some (number, lines) → result.status ≢ Status.NoMemory → IsGenAnswer D.view number lines
        (record { tells = K.tells; before = K.taken sink.old; after = K.taken sink.new }) disk result.disk (outcome_of result) result.status }
    ensures drawn_recorded { (number lines : ℕ) → drawn_of (map string_bytes words.now) ≡ Some (number, lines)
        → IsUnrecorded (D.view disk) (D.view result.disk) (drawn_bytes number lines) (outcome_of result) ⊎ IsRecorded (D.view disk) (D.view result.disk) (drawn_bytes number lines) (outcome_of result) }
    // Questions that come as lines are answered in their order, each as it would be alone.
    ensures questions { (json : Bool) → lines_asked (map string_bytes words.now) ≡ Some json → result.status ≢ Status.NoMemory
        → AreAsked json S.tells (S.left source.old) (S.left source.new) (S.fault_count source.old) (S.fault_count source.new) (D.view disk) (D.view result.disk)
        (record { tells = K.tells; before = K.taken sink.old; after = K.taken sink.new }) result.status }
    ensures cut { (json : Bool) → lines_asked (map string_bytes words.now) ≡ Some json → result.status ≡ Status.NoMemory
        → AreCut json S.tells (S.left source.old) (D.view disk) (record { tells = K.tells; before = K.taken sink.old; after = K.taken sink.new }) }
    // Every other command is answered as by `ask`, and records nothing.
    ensures asked { ¬ IsTrue (is_run (map string_bytes words.now)) → ¬ IsTrue (is_follow (map string_bytes words.now)) → ¬ IsTrue (is_gen (map string_bytes words.now)) → ¬ IsTrue (asks_lines (map string_bytes words.now)) → result.status ≢ Status.NoMemory → IsAsked (question_of (map string_bytes words.now)) (D.view disk) (D.view result.disk)
        (record { tells = K.tells; before = K.taken sink.old; after = K.taken sink.new }) result.status }
    ensures unrecorded { ¬ IsTrue (is_run (map string_bytes words.now)) → ¬ IsTrue (is_gen (map string_bytes words.now)) → IsNothing (outcome_of result) }
    ensures alone { ¬ IsTrue (is_run (map string_bytes words.now)) → ¬ IsTrue (is_follow (map string_bytes words.now)) → ¬ IsTrue (is_gen (map string_bytes words.now)) → IsLeftAlone (D.view disk) (D.view result.disk) }
    ensures unopened { ¬ IsTrue (is_run (map string_bytes words.now)) → ¬ IsTrue (is_follow (map string_bytes words.now)) → ¬ IsTrue (is_gen (map string_bytes words.now)) → ¬ IsTrue (asks_lines (map string_bytes words.now)) → ¬ IsPut (question_of (map string_bytes words.now)) → result.disk ≡ disk }
    // What the disk tells stays, and its counts never fall.
    ensures later { IsLater (D.view disk) (D.view result.disk) }
    ensures write_fault { result.status ≢ Status.NoMemory → (result.status ≡ Status.WriteFault
        ↔ HasRisen (K.fault_count sink.old) (K.fault_count sink.new)) }
    // Where memory was refused, the sink didn't fail, and only answers to many questions may have begun.
    ensures unfailed { result.status ≡ Status.NoMemory → K.fault_count sink.new ≡ K.fault_count sink.old }
    ensures untaken { ¬ IsTrue (asks_lines (map string_bytes words.now)) → result.status ≡ Status.NoMemory → sink.new ≡ sink.old }
    // Only a run, a standby and questions that come as lines read the source.
    ensures unread { ¬ IsTrue (is_run (map string_bytes words.now)) → ¬ IsTrue (is_follow (map string_bytes words.now)) → ¬ IsTrue (asks_lines (map string_bytes words.now)) → source.new ≡ source.old }
    // The source is read to its end, or to where its bytes are seen to be too long for a trace.
    ensures stops { IsTrue S.tells → IsTrue (is_run (map string_bytes words.now)) → result.status ≢ Status.NoMemory → ¬ HasRisen (S.fault_count source.old) (S.fault_count source.new)
        → IsReadInTime (scale_of (map string_bytes words.now)) (S.left source.old) (S.left source.new) }
{
    match read_words(alloc, words) {
        Ok(Command::Run { scale, workers }) => run_words(
            rt,
            alloc,
            scale,
            Order::Passes { workers },
            source,
            sink,
            disk,
            gate,
        ),
        Ok(Command::Replay { scale }) => {
            run_words(rt, alloc, scale, Order::Lines, source, sink, disk, gate)
        }
        Ok(
            Command::Gen {
                workers,
                number,
                lines,
            },
        ) => gen_words(rt, alloc, workers, number, lines, sink, disk, gate),
        Ok(Command::Ask(question)) => answered(alloc, Ok(question), sink, disk),
        Ok(Command::Questions { json }) => lines_words(alloc, json, source, sink, disk),
        Ok(Command::Follow) => follow_words(rt, alloc, source, sink, disk),
        Err(status) => answered(alloc, Err(status), sink, disk),
    }
}

// Runs the trace of the source.
fn run_words<R: Threads + Wait + Sync, S: Source, K: Sink, D: Disk + Send, G: Gate + Sync>(
    rt: &R,
    alloc: Global,
    scale: Scale,
    order: Order,
    source: &mut S,
    sink: &mut K,
    disk: D,
    gate: &G,
) -> Ended<D>
    requires { IsOrder order }
    ensures replayed { order ≡ Order.Lines → OfBytes S.tells (S.left source.old) (λ bytes. IsReplayed (D.view disk) bytes (outcome_of result) result.status) }
    ensures run { result.status ≢ Status.NoMemory → IsAnswer D.view scale
        (record { tells = S.tells; left = S.left source.old; before = S.fault_count source.old; after = S.fault_count source.new })
        (record { tells = K.tells; before = K.taken sink.old; after = K.taken sink.new }) disk result.disk (outcome_of result) result.status }
    ensures recorded { OfBytes S.tells (S.left source.old)
        (λ bytes. IsUnrecorded (D.view disk) (D.view result.disk) bytes (outcome_of result) ⊎ IsRecorded (D.view disk) (D.view result.disk) bytes (outcome_of result)) }
    ensures backed { IsBackedBy result.history.items result.syncs.items }
    ensures later { IsLater (D.view disk) (D.view result.disk) }
    ensures write_fault { result.status ≢ Status.NoMemory → (result.status ≡ Status.WriteFault
        ↔ HasRisen (K.fault_count sink.old) (K.fault_count sink.new)) }
    ensures untaken { result.status ≡ Status.NoMemory → sink.new ≡ sink.old }
    ensures stops { IsTrue S.tells → result.status ≢ Status.NoMemory → ¬ HasRisen (S.fault_count source.old) (S.fault_count source.new)
        → IsReadInTime scale (S.left source.old) (S.left source.new) }
{
    let RunEnd {
        status,
        history,
        syncs,
        list,
        start,
        report,
        disk,
    } = judge(rt, alloc, scale, order, source, disk, gate);
    Ended {
        status: write_answer(alloc, sink, status, &report),
        history,
        syncs,
        list,
        start,
        disk,
    }
}

// Runs the trace that the number draws.
fn gen_words<R: Threads + Wait + Sync, K: Sink, D: Disk + Send, G: Gate + Sync>(
    rt: &R,
    alloc: Global,
    workers: u32,
    number: u64,
    lines: u32,
    sink: &mut K,
    disk: D,
    gate: &G,
) -> Ended<D>
    requires workers { (1 ≤ workers) × (workers ≤ 64) }
    requires lines { (15 ≤ lines) × (lines ≤ most_lines Long) }
    ensures drawn { result.status ≢ Status.NoMemory → IsGenAnswer D.view number lines
        (record { tells = K.tells; before = K.taken sink.old; after = K.taken sink.new }) disk result.disk (outcome_of result) result.status }
    ensures recorded { IsUnrecorded (D.view disk) (D.view result.disk) (drawn_bytes number lines) (outcome_of result)
        ⊎ IsRecorded (D.view disk) (D.view result.disk) (drawn_bytes number lines) (outcome_of result) }
    ensures backed { IsBackedBy result.history.items result.syncs.items }
    ensures later { IsLater (D.view disk) (D.view result.disk) }
    ensures write_fault { result.status ≢ Status.NoMemory → (result.status ≡ Status.WriteFault
        ↔ HasRisen (K.fault_count sink.old) (K.fault_count sink.new)) }
    ensures untaken { result.status ≡ Status.NoMemory → sink.new ≡ sink.old }
{
    let RunEnd {
        status: judged,
        history,
        syncs,
        list,
        start,
        report: text,
        disk,
    } = judge_drawn(rt, alloc, workers, number, lines, disk, gate);
    Ended {
        status: write_answer(alloc, sink, judged, &text),
        history,
        syncs,
        list,
        start,
        disk,
    }
}

// Follows the log that the source gives.
fn follow_words<R: Wait, S: Source, K: Sink, D: Disk>(
    rt: &R,
    alloc: Global,
    source: &mut S,
    sink: &mut K,
    disk: D,
) -> Ended<D>
    ensures answer { result.status ≢ Status.NoMemory
        → IsFollowAnswer S.tells (S.left source.old) (S.left source.new) (S.fault_count source.old) (S.fault_count source.new)
        (record { tells = K.tells; before = K.taken sink.old; after = K.taken sink.new }) (D.view disk) (D.view result.disk) result.status }
    ensures on_disk { OfRead S.tells (S.left source.old) (S.left source.new) (D.view disk) (λ log bytes. IsFollowedOn log bytes (D.view disk) (D.view result.disk)) }
    ensures nothing { IsNothing (outcome_of result) }
    ensures backed { IsBackedBy result.history.items result.syncs.items }
    ensures later { IsLater (D.view disk) (D.view result.disk) }
    ensures write_fault { result.status ≢ Status.NoMemory → (result.status ≡ Status.WriteFault
        ↔ HasRisen (K.fault_count sink.old) (K.fault_count sink.new)) }
    ensures untaken { result.status ≡ Status.NoMemory → sink.new ≡ sink.old }
{
    let Followed { judged, disk } = follow(rt, alloc, source, disk);
    let status = write_answer(alloc, sink, judged.status, &judged.text);
    asked(alloc, Asked { status, disk })
}

// Answers the questions that the source gives.
fn lines_words<S: Source, K: Sink, D: Disk>(
    alloc: Global,
    json: bool,
    source: &mut S,
    sink: &mut K,
    disk: D,
) -> Ended<D>
    ensures answer { result.status ≢ Status.NoMemory → AreAsked json S.tells (S.left source.old) (S.left source.new) (S.fault_count source.old) (S.fault_count source.new)
        (D.view disk) (D.view result.disk) (record { tells = K.tells; before = K.taken sink.old; after = K.taken sink.new }) result.status }
    ensures starved { result.status ≡ Status.NoMemory → AreCut json S.tells (S.left source.old) (D.view disk) (record { tells = K.tells; before = K.taken sink.old; after = K.taken sink.new }) }
    ensures write_fault { result.status ≢ Status.NoMemory → (result.status ≡ Status.WriteFault
        ↔ HasRisen (K.fault_count sink.old) (K.fault_count sink.new)) }
    ensures unfailed { result.status ≡ Status.NoMemory → K.fault_count sink.new ≡ K.fault_count sink.old }
    ensures nothing { IsNothing (outcome_of result) }
    ensures backed { IsBackedBy result.history.items result.syncs.items }
    ensures alone { IsLeftAlone (D.view disk) (D.view result.disk) }
    ensures later { IsLater (D.view disk) (D.view result.disk) }
{
    asked(alloc, ask_lines(alloc, json, source, sink, disk))
}

// Answers what was read, where that is a question or no command.
fn answered<K: Sink, D: Disk>(
    alloc: Global,
    question: Result<Question, Status>,
    sink: &mut K,
    disk: D,
) -> Ended<D>
    requires { IsQuestionRead question }
    ensures answer { result.status ≢ Status.NoMemory → IsAsked (asked_in question) (D.view disk) (D.view result.disk)
        (record { tells = K.tells; before = K.taken sink.old; after = K.taken sink.new }) result.status }
    ensures write_fault { result.status ≢ Status.NoMemory → (result.status ≡ Status.WriteFault
        ↔ HasRisen (K.fault_count sink.old) (K.fault_count sink.new)) }
    ensures starved { question ≡ Err Status.NoMemory → result.status ≡ Status.NoMemory }
    ensures untaken { result.status ≡ Status.NoMemory → sink.new ≡ sink.old }
    ensures unopened { ¬ IsPut (asked_in question) → result.disk ≡ disk }
    ensures nothing { IsNothing (outcome_of result) }
    ensures backed { IsBackedBy result.history.items result.syncs.items }
    ensures alone { IsLeftAlone (D.view disk) (D.view result.disk) }
    ensures later { IsLater (D.view disk) (D.view result.disk) }
{
    asked(alloc, ask_for(alloc, question, sink, disk))
}

// The end of a command that runs no trace.
fn asked<D>(alloc: Global, asked: Asked<D>) -> Ended<D>
    ensures status { result.status ≡ asked.status }
    ensures disk { result.disk ≡ asked.disk }
    ensures nothing { IsNothing (outcome_of result) }
    ensures backed { IsBackedBy result.history.items result.syncs.items }
{
    let Asked { status, disk } = asked;
    Ended {
        status,
        history: Vec::new(alloc),
        syncs: Vec::new(alloc),
        list: Vec::new(alloc),
        start: empty_start(alloc),
        disk,
    }
}
