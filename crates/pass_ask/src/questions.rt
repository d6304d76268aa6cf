//! Questions that a source gives, each a line, over one index.
ghost use Rattle.std.specs.Prelude.{◌≡◌, ◌≢◌, ◌↔◌, ◌<◌, ◌++◌, ◌∷◌, ◌==◌, ℕ, [], false, IfOk, IsErrOf, IsTrue, OnOk, length, map, string_bytes};
ghost use Rattle.std.specs.List.{position};
ghost use Rattle.pass_outside.specs.Faults.{HasRisen, HasStayed};
ghost use Rattle.pass_recover.specs.Later.{IsLater, IsLeftAlone};
ghost use Rattle.pass_trace.specs.Lines.{lines_of, words_of};
ghost use Rattle.pass_ask.specs.Answers.{text_with};
ghost use Rattle.pass_ask.specs.Questions.{AreAsked, AreCut, AreGiven, AreStarved, Counts, HaveCome, IsTakenOf, IsTold, IsToldOver, line_question, line_words, stop_status, words_before, words_with};
ghost use Rattle.pass_ask.specs.Words.{Reads, question_of};
ghost use Rattle.pass_ask.specs.declared.words.Question.{Question};

use crate::asking::{Asked, question_in};
use crate::graph::graph_answer;
use crate::judged::{Judged, refused, told};
use crate::matching::match_answer;
use crate::opening::open_index;
use crate::words::{Question, read_words};
use crate::writing::write_answer;
use pass_outside::{Disk, Sink, Source};
use pass_status::{ReadEnd, Status, opening_status};
use pass_waldo::Index;
use std::alloc::{AllocError, Global};

/// How many bytes are asked of the source at once.
const PIECE: usize = 4096;

/// Why not all lines were answered.
#[derive(Clone, Copy, PartialEq, Eq, Drop)]
pub enum Stop {
    /// The sink failed.
    WriteFault,
    NoMemory,
}

/// Reads questions to the end of the source, each a line, and answers them in their order over one index of the store, to
/// whose disk it writes nothing. Each answer is written as soon as it is found.
pub fn ask_lines<S: Source, K: Sink, D: Disk>(
    alloc: Global,
    json: bool,
    source: &mut S,
    sink: &mut K,
    disk: D,
) -> Asked<D>
    ensures answer { result.status ≢ Status.NoMemory → AreAsked json S.tells (S.left source.old) (S.left source.new) (S.fault_count source.old) (S.fault_count source.new)
        (D.view disk) (D.view result.disk) (record { tells = K.tells; before = K.taken sink.old; after = K.taken sink.new }) result.status }
    ensures starved { result.status ≡ Status.NoMemory → AreCut json S.tells (S.left source.old) (D.view disk) (record { tells = K.tells; before = K.taken sink.old; after = K.taken sink.new }) }
    ensures write_fault { result.status ≢ Status.NoMemory → (result.status ≡ Status.WriteFault
        ↔ HasRisen (K.fault_count sink.old) (K.fault_count sink.new)) }
    ensures unfailed { result.status ≡ Status.NoMemory → K.fault_count sink.new ≡ K.fault_count sink.old }
    // Nothing is written to the disk.
    ensures alone { IsLeftAlone (D.view disk) (D.view result.disk) }
    ensures later { IsLater (D.view disk) (D.view result.disk) }
{
    let mut disk = disk;
    Asked {
        status: answer_source(alloc, json, source, sink, &mut disk),
        disk,
    }
}

// Reads the lines of a source, and answers them.
fn answer_source<S: Source, K: Sink, D: Disk>(
    alloc: Global,
    json: bool,
    source: &mut S,
    sink: &mut K,
    disk: &mut D,
) -> Status
    ensures answer { result ≢ Status.NoMemory → AreAsked json S.tells (S.left source.old) (S.left source.new) (S.fault_count source.old) (S.fault_count source.new)
        (D.view disk.old) (D.view disk.new) (record { tells = K.tells; before = K.taken sink.old; after = K.taken sink.new }) result }
    ensures starved { result ≡ Status.NoMemory → AreCut json S.tells (S.left source.old) (D.view disk.old) (record { tells = K.tells; before = K.taken sink.old; after = K.taken sink.new }) }
    ensures write_fault { result ≢ Status.NoMemory → (result ≡ Status.WriteFault ↔ HasRisen (K.fault_count sink.old) (K.fault_count sink.new)) }
    ensures unfailed { result ≡ Status.NoMemory → K.fault_count sink.new ≡ K.fault_count sink.old }
    ensures alone { IsLeftAlone (D.view disk.old) (D.view disk.new) }
    ensures later { IsLater (D.view disk.old) (D.view disk.new) }
{
    match read_all(alloc, source) {
        Ok(text) => answer_text(alloc, json, &text, sink, disk),
        Err(ReadEnd::ReadFault) => write_answer(alloc, sink, Status::ReadFault, &[]),
        Err(ReadEnd::NoMemory) => Status::NoMemory,
    }
}

// Reading

// The bytes that a source has left, read to their end.
fn read_all<S: Source>(alloc: Global, source: &mut S) -> Result<Vec<u8>, ReadEnd>
    ensures whole { IfOk result (λ text. IsTrue S.tells → (S.left source.old ≡ text.items) × (S.left source.new ≡ [])) }
    ensures fault { IsErrOf result ReadEnd.ReadFault ↔ HasRisen (S.fault_count source.old) (S.fault_count source.new) }
{
    let mut text = Vec::new(alloc);
    let mut more = read_piece(source, &mut text)?;
    'pieces: for _ in 0..u64::MAX {
        if !more {
            return Ok(text);
        }
        more = read_piece(source, &mut text)?;
    }
    Err(ReadEnd::NoMemory)
}

// Puts the next piece of a source behind what was read, and answers whether there was one.
fn read_piece<S: Source>(source: &mut S, text: &mut Vec<u8>) -> Result<bool, ReadEnd>
    ensures moved { OnOk result (IsTrue S.tells → text.old.items ++ S.left source.old ≡ text.new.items ++ S.left source.new) }
    ensures end { IfOk result (λ more. more ≡ false → IsTrue S.tells → S.left source.new ≡ []) }
    ensures stays { OnOk result (HasStayed (S.fault_count source.old) (S.fault_count source.new)) }
    ensures fault { IsErrOf result ReadEnd.ReadFault ↔ HasRisen (S.fault_count source.old) (S.fault_count source.new) }
{
    let mut piece = [0u8; PIECE];
    let count = source.read(&mut piece)?;
    text.extend_from_slice(&piece[..count])?;
    Ok(count > 0)
}

fn line_end(bytes: &[u8]) -> Option<usize>
    ensures { result ≡ position (λ b. b == 10) bytes.now }
{
    bytes.iter().position(|byte| *byte == b'\n')
}

// The first line, and the bytes behind its end.
fn first_line(bytes: &[u8]) -> (&[u8], &[u8])
    requires { 0 < length bytes.now }
    ensures lines { lines_of bytes.now ≡ result.0.now ∷ lines_of result.1.now }
    ensures shorter { length result.1.now < length bytes.now }
{
    match line_end(bytes) {
        Some(end) => (&bytes[..end], &bytes[end + 1..]),
        None => (bytes, &[]),
    }
}

fn words_of(alloc: Global, line: &[u8]) -> Result<Vec<&[u8]>, AllocError>
    ensures { IfOk result (λ words. map (λ w. w.now) words.items ≡ words_of line.now) }
{
    line.split(|byte| *byte == b' ').collect(alloc)
}

// The words as the program would be given them.
fn given_words(alloc: Global, json: bool, words: &[&[u8]]) -> Result<Vec<String>, AllocError>
    ensures { IfOk result (λ given. map string_bytes given.items ≡ words_with json (map (λ w. w.now) words.now)) }
{
    let mut given = words_before(alloc, json)?;
    for word in words {
        let text = String::from_utf8_lossy(alloc, word)?;
        given.push(text)?;
    }
    Ok(given)
}

// What stands before the words of each line.
fn words_before(alloc: Global, json: bool) -> Result<Vec<String>, AllocError>
    ensures { IfOk result (λ given. map string_bytes given.items ≡ words_before json) }
{
    let mut given = Vec::new(alloc);
    if json {
        given.push(String::from_str(alloc, "--json")?)?;
    }
    Ok(given)
}

fn line_words(alloc: Global, json: bool, line: &[u8]) -> Result<Vec<String>, AllocError>
    ensures { IfOk result (λ words. map string_bytes words.items ≡ line_words json line.now) }
{
    let words = words_of(alloc, line)?;
    given_words(alloc, json, &words)
}

// What the words of a line ask.
fn asked_by(alloc: Global, json: bool, line: &[u8]) -> Result<Question, Status>
    ensures { Reads result (question_of (line_words json line.now)) }
{
    match line_words(alloc, json, line) {
        Ok(words) => question_in(read_words(alloc, &words)),
        Err(AllocError) => Err(Status::NoMemory),
    }
}

// Answering

// Answers the lines of a text over the log of the store.
fn answer_text<K: Sink, D: Disk>(
    alloc: Global,
    json: bool,
    text: &[u8],
    sink: &mut K,
    disk: &mut D,
) -> Status
    ensures answer { result ≢ Status.NoMemory → (before after : ℕ) → ¬ HasRisen before after → AreGiven json (lines_of text.now) before after (D.view disk.old) (D.view disk.new)
        (record { tells = K.tells; before = K.taken sink.old; after = K.taken sink.new }) result }
    ensures starved { result ≡ Status.NoMemory → AreStarved json (lines_of text.now) (D.view disk.old) (record { tells = K.tells; before = K.taken sink.old; after = K.taken sink.new }) }
    ensures fault { result ≢ Status.NoMemory → (result ≡ Status.WriteFault ↔ HasRisen (K.fault_count sink.old) (K.fault_count sink.new)) }
    ensures unfailed { result ≡ Status.NoMemory → K.fault_count sink.new ≡ K.fault_count sink.old }
    ensures alone { IsLeftAlone (D.view disk.old) (D.view disk.new) }
    ensures later { IsLater (D.view disk.old) (D.view disk.new) }
{
    let opened = disk.faults();
    match open_index(alloc, disk) {
        Ok(index) => stop_status(answer_lines(alloc, &index, json, text, sink)),
        Err(fault) => write_answer(
            alloc,
            sink,
            opening_status(fault, opened, disk.faults()),
            &[],
        ),
    }
}

fn stop_status(answered: Result<(), Stop>) -> Status
    ensures { result ≡ stop_status answered }
{
    match answered {
        Ok(()) => Status::Done,
        Err(Stop::WriteFault) => Status::WriteFault,
        Err(Stop::NoMemory) => Status::NoMemory,
    }
}

// Answers the lines of a text in their order. A sink that fails is seen also where there is none.
fn answer_lines<K: Sink>(
    alloc: Global,
    index: &Index,
    json: bool,
    text: &[u8],
    sink: &mut K,
) -> Result<(), Stop>
    ensures come { HaveCome json index.now (lines_of text.now) K.tells (K.taken sink.old) (K.taken sink.new) result }
    ensures faults { Counts (K.fault_count sink.old) (K.fault_count sink.new) result }
{
    let mut rest = text;
    if let Err(stop) = write_told(alloc, sink, Status::Done, &[]) {
        return Err(stop);
    }
    while !rest.is_empty() {
        let (line, after) = first_line(rest);
        if let Err(stop) = answer_line(alloc, index, json, line, sink) {
            return Err(stop);
        }
        rest = after;
    }
    Ok(())
}

// Answers a line.
fn answer_line<K: Sink>(
    alloc: Global,
    index: &Index,
    json: bool,
    line: &[u8],
    sink: &mut K,
) -> Result<(), Stop>
    ensures told { IsTakenOf (IsTold index.now (line_question json line.now)) K.tells (K.taken sink.old) (K.taken sink.new) result }
    ensures faults { Counts (K.fault_count sink.old) (K.fault_count sink.new) result }
{
    let judged = judge_line(alloc, index, json, line);
    write_told(alloc, sink, judged.status, &judged.text)
}

// Writes what was judged of a line.
fn write_told<K: Sink>(
    alloc: Global,
    sink: &mut K,
    judged: Status,
    answer: &[u8],
) -> Result<(), Stop>
    requires { judged ≢ Status.WriteFault }
    ensures takes { IsTakenOf (λ text. (judged ≢ Status.NoMemory) × (text ≡ text_with judged answer.now)) K.tells (K.taken sink.old) (K.taken sink.new) result }
    ensures faults { Counts (K.fault_count sink.old) (K.fault_count sink.new) result }
{
    match write_answer(alloc, sink, judged, answer) {
        Status::WriteFault => Err(Stop::WriteFault),
        Status::NoMemory => Err(Stop::NoMemory),
        _ => Ok(()),
    }
}

// Judges what a line asks.
fn judge_line(alloc: Global, index: &Index, json: bool, line: &[u8]) -> Judged
    ensures over { IsToldOver index.now (line_question json line.now) result.status result.text.items }
    ensures unwritten { result.status ≢ Status.WriteFault }
{
    match asked_by(alloc, json, line) {
        Ok(Question::Graph(question)) => told(alloc, graph_answer(alloc, index, &question)),
        Ok(Question::Match { from, text, form }) => match_answer(alloc, index, from, &text, form),
        Ok(Question::Check) => refused(alloc, Status::BadWords),
        Ok(Question::Send(_from)) => refused(alloc, Status::BadWords),
        Err(status) => refused(alloc, status),
    }
}
