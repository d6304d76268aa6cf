//! The commands that run no trace.
ghost use Rattle.std.specs.Prelude.{◌≡◌, ◌≢◌, ◌↔◌, ◌⊎◌, ℕ, List, Err, IsSomeAnd, IsTrue, Some, map, string_bytes};
ghost use Rattle.pass_outside.specs.Faults.{HasRisen};
ghost use Rattle.pass_recover.specs.Faults.{LogHas};
ghost use Rattle.pass_recover.specs.Later.{IsLater, IsLeftAlone};
ghost use Rattle.pass_ask.specs.Answers.{is_reported};
ghost use Rattle.pass_ask.specs.Asked.{IsAsked, IsAskJudged, IsAnswerTo, IsPut, IsQuestionRead, asked_in};
ghost use Rattle.pass_ask.specs.Checks.{check_text};
ghost use Rattle.pass_ask.specs.Words.{Reads, command_of, question_in, question_of};
ghost use Rattle.pass_ask.specs.declared.words.Question.{Question};

use crate::graph::graph_answer;
use crate::judged::{Judged, refused, told};
use crate::listing::check_answer;
use crate::matching::judge_match;
use crate::opening::{open_index, survey};
use crate::sending::judge_send;
use crate::words::{Command, GraphQuestion, Question, read_words};
use crate::writing::write_answer;
use pass_entry::Record;
use pass_outside::{Disk, Sink};
use pass_range::Range;
use pass_status::{Status, opening_status};
use std::alloc::{AllocError, Global};

/// How a command ended, and the disk.
#[derive(Drop)]
pub struct Asked<D> {
    pub status: Status,
    pub disk: D,
}

/// Answers a question about the store, which writes nothing to its disk. `words` are the program's
/// words after the folder; those that run a trace or follow a log, and any that are no command's, are bad ones.
pub fn ask<K: Sink, D: Disk>(alloc: Global, words: &[String], sink: &mut K, disk: D) -> Asked<D>
    ensures answer { result.status ≢ Status.NoMemory → IsAsked (question_of (map string_bytes words.now)) (D.view disk) (D.view result.disk)
        (record { tells = K.tells; before = K.taken sink.old; after = K.taken sink.new }) result.status }
    ensures write_fault { result.status ≢ Status.NoMemory → (result.status ≡ Status.WriteFault
        ↔ HasRisen (K.fault_count sink.old) (K.fault_count sink.new)) }
    ensures unwritten { result.status ≡ Status.NoMemory → sink.new ≡ sink.old }
    ensures unopened { ¬ IsPut (question_of (map string_bytes words.now)) → result.disk ≡ disk }
    // Nothing is written to the disk.
    ensures alone { IsLeftAlone (D.view disk) (D.view result.disk) }
    ensures later { IsLater (D.view disk) (D.view result.disk) }
{
    let question = question_in(read_words(alloc, words));
    ask_for(alloc, question, sink, disk)
}

/// The question of a command; that of a run, of a drawn one, of a standby or of many questions is none.
pub(crate) fn question_in(command: Result<Command, Status>) -> Result<Question, Status>
    ensures question { (words : List (List ℕ)) → Reads command (command_of words) → Reads result (question_of words) }
{
    match command {
        Ok(Command::Ask(question)) => Ok(question),
        Ok(
            Command::Run { .. }
            | Command::Replay { .. }
            | Command::Gen { .. }
            | Command::Questions { .. }
            | Command::Follow,
        ) => Err(Status::BadWords),
        Err(status) => Err(status),
    }
}

/// Answers what was read: a question, or a status that refuses the words.
pub fn ask_for<K: Sink, D: Disk>(
    alloc: Global,
    question: Result<Question, Status>,
    sink: &mut K,
    disk: D,
) -> Asked<D>
    requires { IsQuestionRead question }
    ensures answer { result.status ≢ Status.NoMemory → IsAsked (asked_in question) (D.view disk) (D.view result.disk)
        (record { tells = K.tells; before = K.taken sink.old; after = K.taken sink.new }) result.status }
    ensures write_fault { result.status ≢ Status.NoMemory → (result.status ≡ Status.WriteFault
        ↔ HasRisen (K.fault_count sink.old) (K.fault_count sink.new)) }
    ensures starved { question ≡ Err Status.NoMemory → result.status ≡ Status.NoMemory }
    ensures unwritten { result.status ≡ Status.NoMemory → sink.new ≡ sink.old }
    ensures unopened { ¬ IsPut (asked_in question) → result.disk ≡ disk }
    ensures alone { IsLeftAlone (D.view disk) (D.view result.disk) }
    ensures later { IsLater (D.view disk) (D.view result.disk) }
{
    let mut disk = disk;
    let judged = judge_words(alloc, question, &mut disk);
    Asked {
        status: write_answer(alloc, sink, judged.status, &judged.text),
        disk,
    }
}

// Judges the words, and then the store, where they ask for it.
fn judge_words<D: Disk>(alloc: Global, question: Result<Question, Status>, disk: &mut D) -> Judged
    requires { IsQuestionRead question }
    ensures judged { result.status ≢ Status.NoMemory → LogHas (D.view disk.old)
        (λ bytes. IsAskJudged (asked_in question) (D.view disk.old) (D.view disk.new) bytes result.status
        × (result.status ≡ Status.Done → IsSomeAnd (asked_in question) (λ q. IsAnswerTo q (D.view disk.old) bytes result.text.items))) }
    ensures starved { question ≡ Err Status.NoMemory → result.status ≡ Status.NoMemory }
    ensures reported { IsTrue (is_reported result.status) → result.status ≡ Status.Done }
    ensures unwritten { result.status ≢ Status.WriteFault }
    ensures unopened { ¬ IsPut (asked_in question) → disk.new ≡ disk.old }
    ensures alone { IsLeftAlone (D.view disk.old) (D.view disk.new) }
    ensures later { IsLater (D.view disk.old) (D.view disk.new) }
{
    match question {
        Ok(Question::Check) => judge_store(alloc, disk),
        Ok(Question::Graph(question)) => judge_graph(alloc, &question, disk),
        Ok(Question::Match { from, text, form }) => judge_match(alloc, from, &text, form, disk),
        Ok(Question::Send(from)) => judge_send(alloc, from, disk),
        Err(status) => refused(alloc, status),
    }
}

// Opens the store, and judges what it has.
fn judge_store<D: Disk>(alloc: Global, disk: &mut D) -> Judged
    ensures judged { result.status ≢ Status.NoMemory → LogHas (D.view disk.old)
        (λ bytes. IsAskJudged (Some Question.Check) (D.view disk.old) (D.view disk.new) bytes result.status
        × (result.status ≡ Status.Done → IsAnswerTo Question.Check (D.view disk.old) bytes result.text.items)) }
    ensures reported { IsTrue (is_reported result.status) → result.status ≡ Status.Done }
    ensures unwritten { result.status ≢ Status.WriteFault }
    ensures alone { IsLeftAlone (D.view disk.old) (D.view disk.new) }
    ensures later { IsLater (D.view disk.old) (D.view disk.new) }
{
    let opened = disk.faults();
    match survey(alloc, disk) {
        Ok(found) => judge_survey(alloc, &found.list, &found.unmatched),
        Err(fault) => refused(alloc, opening_status(fault, opened, disk.faults())),
    }
}

// What is said of a store that opened.
fn judge_survey(alloc: Global, list: &[Record], unmatched: &[Range]) -> Judged
    ensures { ((result.status ≡ Status.Done) × (result.text.items ≡ check_text list.now unmatched.now)) ⊎ (result.status ≡ Status.NoMemory) }
{
    match check_answer(alloc, list, unmatched) {
        Ok(text) => Judged {
            status: Status::Done,
            text: text.into_bytes(),
        },
        Err(AllocError) => refused(alloc, Status::NoMemory),
    }
}

// Opens the log, and judges what is asked of its graph.
fn judge_graph<D: Disk>(alloc: Global, question: &GraphQuestion, disk: &mut D) -> Judged
    ensures judged { result.status ≢ Status.NoMemory → LogHas (D.view disk.old)
        (λ bytes. IsAskJudged (Some (Question.Graph question.now)) (D.view disk.old) (D.view disk.new) bytes result.status
        × (result.status ≡ Status.Done → IsAnswerTo (Question.Graph question.now) (D.view disk.old) bytes result.text.items)) }
    ensures reported { IsTrue (is_reported result.status) → result.status ≡ Status.Done }
    ensures unwritten { result.status ≢ Status.WriteFault }
    ensures alone { IsLeftAlone (D.view disk.old) (D.view disk.new) }
    ensures later { IsLater (D.view disk.old) (D.view disk.new) }
{
    let opened = disk.faults();
    match open_index(alloc, disk) {
        Ok(index) => told(alloc, graph_answer(alloc, &index, question)),
        Err(fault) => refused(alloc, opening_status(fault, opened, disk.faults())),
    }
}
