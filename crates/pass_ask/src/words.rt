//! The commands of the program, and how its words name them.
ghost use Rattle.std.specs.Prelude.{◌≡◌, ◌≢◌, ◌⊎◌, ◌≤◌, Option, IfOk, IfSome, map, option_map, string_bytes};
ghost use Rattle.clap.specs.Words.{found_of, kind_of, rows_of};
ghost use Rattle.pass_ask.specs.Words.{Reads, HasWorkers, alone_in, command_by, command_found, command_in, replay_in, scale_by, command_of, flags_in, form_of, gen_in, gen_of, graph_in, match_in, match_of, is_set, path_on, query_in, query_on, name_in, recipe_in, run_in, send_in, last_place, taken, told_found, told_in, workers_in, writes};
ghost use Rattle.pass_trace.specs.Limits.{most_lines};
ghost use Rattle.pass_ask.specs.Numbers.{node_in, number_in, seed_in};
ghost use Rattle.pass_query.specs.declared.question.Query.{Query};
ghost use Rattle.pass_ask.specs.declared.words.GraphQuestion.{GraphQuestion};
ghost use Rattle.pass_ask.specs.declared.words.Question.{Question};
ghost use Rattle.pass_ask.specs.declared.words.Command.TheVariants.{Ask};

use crate::line::command_line;
use crate::numbers::{node_in, number_in, seed_in};
use crate::pattern_text::PatternText;
use crate::store_name::StoreName;
use crate::telling::{Flags, inquiry_in, tells};
use clap::error::ErrorKind;
use clap::{ArgMatches, Error};
use pass_entry::{Node, Text, TextFault};
use pass_files::{Inquiry, Spelled};
use pass_query::{Form, Query};
use pass_status::Status;
use pass_trace::Scale;
use pass_view::Table;
use std::alloc::{AllocError, Global};

/// How many workers take the turns where the words don't say it.
const WORKERS: u32 = 4;

/// How many workers may take turns.
const MOST_WORKERS: u64 = 64;

/// The fewest lines of a trace that is drawn.
const LEAST_LINES: u64 = 15;

/// The greatest number of 19 digits: no longer one is read.
const LAST_PLACE: u64 = 9_999_999_999_999_999_999;

/// A question to the graph of the log.
#[derive(Drop)]
pub enum GraphQuestion {
    /// What came from what, or which files had a name.
    Lineage {
        query: Query,
        form: Form,
    },
    /// By which steps the node can be made again.
    Recipe(Node),
    /// How the whole graph looks, or what a node came from with that node; no word of passd asks for it.
    View {
        form: pass_view::Form,
        node: Option<Spelled>,
    },
    /// The whole graph as one of its tables, for a store of this name; no word of passd asks for it.
    Csv {
        table: Table,
        store: StoreName,
    },
    /// The same as a lineage, with names, and which files a node came from or went into.
    Told {
        inquiry: Inquiry,
        form: Form,
    },
}

/// A question about the store, which is answered without writing to it.
#[derive(Drop)]
pub enum Question {
    /// What the store has, and which data differ from what was recorded.
    Check,
    /// What its graph answers.
    Graph(GraphQuestion),
    /// To which nodes paths of a shape lead; the pattern isn't judged yet.
    Match {
        from: Node,
        text: PatternText,
        form: Form,
    },
    /// The bytes of its log from this place on, which may be none of its frames.
    Send(u64),
}

/// What the program's words ask for.
#[derive(Drop)]
pub enum Command {
    /// To run the trace of the source, of this scale.
    Run {
        scale: Scale,
        workers: u32,
    },
    /// To run the trace of the source, of this scale, in the order of its lines.
    Replay {
        scale: Scale,
    },
    /// To run the trace that a number draws, with so many lines.
    Gen {
        workers: u32,
        number: u64,
        lines: u32,
    },
    /// To answer a question.
    Ask(Question),
    /// To answer the questions of the source, each a line; each with `--json` where that is given.
    Questions {
        json: bool,
    },
    /// To keep what comes of another store's log.
    Follow,
}

/// Whether the words run a trace or follow a log, for which the store is opened alone and to be written. All others leave it as it is.
pub fn writes(alloc: Global, words: &[String]) -> Result<bool, AllocError>
    ensures { IfOk result (λ alone. alone ≡ writes (map string_bytes words.now)) }
{
    match read_words(alloc, words) {
        Ok(Command::Ask(_) | Command::Questions { .. }) => Ok(false),
        Ok(Command::Run { .. } | Command::Replay { .. } | Command::Gen { .. } | Command::Follow) =>
            Ok(true),
        Err(Status::BadWords) => Ok(false),
        Err(_) => Err(AllocError),
    }
}

/// The command of the words behind the folder. A fault is `BadWords`, or want of memory.
pub fn read_words(alloc: Global, words: &[String]) -> Result<Command, Status>
    ensures command { Reads result (command_of (map string_bytes words.now)) }
    ensures workers { IfOk result HasWorkers }
{
    let Ok(line) = command_line(alloc) else {
        return Err(Status::NoMemory);
    };
    match line.try_get_matches_from(words) {
        Ok(matches) => taken(alloc, &matches),
        Err(error) => Err(status_of(&error)),
    }
}

// The status of words that the command line doesn't take.
fn status_of(error: &Error) -> Status
    ensures only { (result ≡ Status.NoMemory) ⊎ (result ≡ Status.BadWords) }
    ensures memory { kind_of error.now ≡ ErrorKind.OutOfMemory → result ≡ Status.NoMemory }
    ensures bad { kind_of error.now ≢ ErrorKind.OutOfMemory → result ≡ Status.BadWords }
{
    match error.kind() {
        ErrorKind::OutOfMemory => Status::NoMemory,
        _ => Status::BadWords,
    }
}

// The command of what the command line found, which may ask about names.
fn taken(alloc: Global, matches: &ArgMatches<'_>) -> Result<Command, Status>
    ensures command { Reads result (taken (rows_of (found_of matches.now))) }
    ensures workers { IfOk result HasWorkers }
{
    let Some(name) = matches.get_str("command") else {
        return Err(Status::BadWords);
    };
    if tells(flags_in(matches), name.as_bytes()) {
        return told_found(alloc, matches, name.as_bytes());
    }
    command_found(alloc, matches)
}

// The flags of questions about names.
fn flags_in(matches: &ArgMatches<'_>) -> Flags
    ensures { result ≡ flags_in (rows_of (found_of matches.now)) }
{
    Flags {
        names: is_set(matches.get_str("names")),
        flows: is_set(matches.get_str("data")),
        plain: is_set(matches.get_str("plain")),
    }
}

// The question about names that the command line found.
fn told_found(alloc: Global, matches: &ArgMatches<'_>, name: &[u8]) -> Result<Command, Status>
    ensures command { Reads result (told_found (rows_of (found_of matches.now)) name.now) }
    ensures workers { IfOk result HasWorkers }
{
    let replay = is_set(matches.get_str("replay"));
    let long = is_set(matches.get_str("long"));
    let json = is_set(matches.get_str("json"));
    let workers = matches.get_str("workers");
    let flags = flags_in(matches);
    match matches.get_strs("word") {
        Some(words) => told_in(alloc, replay, long, json, workers, flags, name, words),
        None => told_in(alloc, replay, long, json, workers, flags, name, &[]),
    }
}

fn told_in(
    alloc: Global,
    replay: bool,
    long: bool,
    json: bool,
    workers: Option<&str>,
    flags: Flags,
    name: &[u8],
    words: &[&str],
) -> Result<Command, Status>
    ensures command { Reads result (told_in replay long json (option_map (λ w. w.now) workers.entry) flags name.now (map (λ w. w.now) words.now)) }
    ensures workers { IfOk result HasWorkers }
{
    if replay || long || workers.is_some() {
        return Err(Status::BadWords);
    }
    match inquiry_in(alloc, flags, name, words) {
        Ok(inquiry) => Ok(Command::Ask(Question::Graph(GraphQuestion::Told {
            inquiry,
            form: form_of(json),
        }))),
        Err(status) => Err(status),
    }
}

// The command of what the command line found.
fn command_found(alloc: Global, matches: &ArgMatches<'_>) -> Result<Command, Status>
    ensures command { Reads result (command_found (rows_of (found_of matches.now))) }
    ensures workers { IfOk result HasWorkers }
{
    let Some(name) = matches.get_str("command") else {
        return Err(Status::BadWords);
    };
    let replay = is_set(matches.get_str("replay"));
    let long = is_set(matches.get_str("long"));
    let json = is_set(matches.get_str("json"));
    let workers = matches.get_str("workers");
    match matches.get_strs("word") {
        Some(words) => command_by(alloc, replay, long, json, workers, name.as_bytes(), words),
        None => command_by(alloc, replay, long, json, workers, name.as_bytes(), &[]),
    }
}

// A flag that was given has the value true.
fn is_set(value: Option<&str>) -> bool
    ensures { result ≡ is_set (option_map (λ s. s.now) value.entry) }
{
    match value {
        Some(text) => text.as_bytes() == b"true".as_slice(),
        None => false,
    }
}

// The command by what was given.
fn command_by(
    alloc: Global,
    replay: bool,
    long: bool,
    json: bool,
    workers: Option<&str>,
    name: &[u8],
    words: &[&str],
) -> Result<Command, Status>
    ensures command { Reads result (command_by replay long json (option_map (λ w. w.now) workers.entry) name.now (map (λ w. w.now) words.now)) }
    ensures workers { IfOk result HasWorkers }
{
    if replay {
        return or_bad(replay_in(scale_by(long), json, workers, name, words));
    }
    command_in(alloc, long, json, workers, name, words)
}

// How large a trace is, by whether `--long` is given.
fn scale_by(long: bool) -> Scale
    ensures { result ≡ scale_by long }
{
    if long { Scale::Long } else { Scale::Usual }
}

// The run in the order of the lines, with which nothing else goes but `--long`.
fn replay_in(
    scale: Scale,
    json: bool,
    workers: Option<&str>,
    name: &[u8],
    words: &[&str],
) -> Option<Command>
    ensures command { result ≡ replay_in scale json (option_map (λ w. w.now) workers.entry) name.now (map (λ w. w.now) words.now) }
    ensures workers { IfSome result HasWorkers }
{
    if name != b"run".as_slice() {
        return None;
    }
    alone_in(Command::Replay { scale }, json, workers, words)
}

// The command without `--replay`.
fn command_in(
    alloc: Global,
    long: bool,
    json: bool,
    workers: Option<&str>,
    name: &[u8],
    words: &[&str],
) -> Result<Command, Status>
    ensures command { Reads result (command_in long json (option_map (λ w. w.now) workers.entry) name.now (map (λ w. w.now) words.now)) }
    ensures workers { IfOk result HasWorkers }
{
    if name == b"run".as_slice() {
        return or_bad(run_in(scale_by(long), json, workers, words));
    }
    if name == b"gen".as_slice() {
        return or_bad(gen_in(scale_by(long), json, workers, words));
    }
    if long {
        return Err(Status::BadWords);
    }
    if name == b"check".as_slice() {
        return or_bad(alone_in(Command::Ask(Question::Check), json, workers, words));
    }
    if name == b"questions".as_slice() {
        return or_bad(alone_in(Command::Questions { json }, false, workers, words));
    }
    if name == b"follow".as_slice() {
        return or_bad(alone_in(Command::Follow, json, workers, words));
    }
    if workers.is_some() {
        return Err(Status::BadWords);
    }
    if name == b"match".as_slice() {
        return asked(match_in(alloc, json, words));
    }
    if name == b"send".as_slice() {
        return asked(send_in(json, words));
    }
    let question = graph_in(alloc, json, name, words)?;
    Ok(Command::Ask(Question::Graph(question)))
}

// The command that asks the question.
fn asked(question: Result<Question, Status>) -> Result<Command, Status>
    ensures command { (read : Option Question) → Reads question read → Reads result (option_map Ask read) }
    ensures workers { IfOk result HasWorkers }
{
    match question {
        Ok(question) => Ok(Command::Ask(question)),
        Err(status) => Err(status),
    }
}

// Words that name no command are bad ones.
fn or_bad(command: Option<Command>) -> Result<Command, Status>
    ensures command { Reads result command }
    ensures workers { IfSome command HasWorkers → IfOk result HasWorkers }
{
    match command {
        Some(command) => Ok(command),
        None => Err(Status::BadWords),
    }
}

fn run_in(scale: Scale, json: bool, workers: Option<&str>, words: &[&str]) -> Option<Command>
    ensures command { result ≡ run_in scale json (option_map (λ w. w.now) workers.entry) (map (λ w. w.now) words.now) }
    ensures workers { IfSome result HasWorkers }
{
    if json || !words.is_empty() {
        return None;
    }
    let workers = workers_in(workers)?;
    Some(Command::Run { scale, workers })
}

#[tactic(auto, using(crate::proofs::Listed::drawn_too_short, crate::proofs::Listed::drawn_too_long))]
fn gen_in(scale: Scale, json: bool, workers: Option<&str>, words: &[&str]) -> Option<Command>
    ensures command { result ≡ gen_in scale json (option_map (λ w. w.now) workers.entry) (map (λ w. w.now) words.now) }
    ensures workers { IfSome result HasWorkers }
{
    if json {
        return None;
    }
    match words {
        [] => None,
        [_] => None,
        [number, lines] => gen_of(scale, workers, number.as_bytes(), lines.as_bytes()),
        [_, _, _, ..] => None,
    }
}

fn gen_of(scale: Scale, workers: Option<&str>, number: &[u8], lines: &[u8]) -> Option<Command>
    ensures command { result ≡ gen_of (workers_in (option_map (λ w. w.now) workers.entry)) (seed_in number.now) (number_in 15 (most_lines scale) lines.now) }
    ensures workers { IfSome result HasWorkers }
{
    let workers = workers_in(workers)?;
    let number = seed_in(number)?;
    let lines = number_in(lines, LEAST_LINES, u64::from(scale.most_lines()))?;
    Some(Command::Gen {
        workers,
        number,
        lines: lines as u32,
    })
}

fn workers_in(workers: Option<&str>) -> Option<u32>
    ensures value { result ≡ workers_in (option_map (λ w. w.now) workers.entry) }
    ensures within { IfSome result (λ n. (1 ≤ n) × (n ≤ 64)) }
{
    match workers {
        Some(word) => {
            let number = number_in(word.as_bytes(), 1, MOST_WORKERS)?;
            Some(number as u32)
        }
        None => Some(WORKERS),
    }
}

// A command that takes no further word.
fn alone_in(command: Command, json: bool, workers: Option<&str>, words: &[&str]) -> Option<Command>
    ensures command { result ≡ alone_in command json (option_map (λ w. w.now) workers.entry) (map (λ w. w.now) words.now) }
    ensures workers { HasWorkers command → IfSome result HasWorkers }
{
    if json || workers.is_some() || !words.is_empty() {
        return None;
    }
    Some(command)
}

fn form_of(json: bool) -> Form
    ensures { result ≡ form_of json }
{
    if json { Form::Json } else { Form::Lines }
}

#[tactic(auto, using(crate::proofs::Listed::match_too_short, crate::proofs::Listed::match_too_long))]
fn match_in(alloc: Global, json: bool, words: &[&str]) -> Result<Question, Status>
    ensures { Reads result (match_in json (map (λ w. w.now) words.now)) }
{
    match words {
        [] => Err(Status::BadWords),
        [_] => Err(Status::BadWords),
        [node, text] => match_of(alloc, json, node.as_bytes(), text.as_bytes()),
        [_, _, _, ..] => Err(Status::BadWords),
    }
}

fn match_of(alloc: Global, json: bool, node: &[u8], text: &[u8]) -> Result<Question, Status>
    ensures { Reads result (match_of (form_of json) text.now (node_in node.now)) }
{
    let Some(from) = node_in(node) else {
        return Err(Status::BadWords);
    };
    match PatternText::of(alloc, text) {
        Ok(text) => Ok(Question::Match {
            from,
            text,
            form: form_of(json),
        }),
        Err(AllocError) => Err(Status::NoMemory),
    }
}

#[tactic(auto, using(crate::proofs::Listed::no_place, crate::proofs::Listed::places_too_many))]
fn send_in(json: bool, words: &[&str]) -> Result<Question, Status>
    ensures { Reads result (send_in json (map (λ w. w.now) words.now)) }
{
    if json {
        return Err(Status::BadWords);
    }
    match words {
        [] => Err(Status::BadWords),
        [word] => send_of(word.as_bytes()),
        [_, _, ..] => Err(Status::BadWords),
    }
}

fn send_of(word: &[u8]) -> Result<Question, Status>
    ensures { Reads result (option_map Question.Send (number_in 0 last_place word.now)) }
{
    match number_in(word, 0, LAST_PLACE) {
        Some(from) => Ok(Question::Send(from)),
        None => Err(Status::BadWords),
    }
}

// The question to the graph.
fn graph_in(alloc: Global, json: bool, name: &[u8], words: &[&str]) -> Result<GraphQuestion, Status>
    ensures { Reads result (graph_in json name.now (map (λ w. w.now) words.now)) }
{
    if name == b"recipe".as_slice() {
        return recipe_in(json, words);
    }
    let query = query_in(alloc, name, words)?;
    let form = form_of(json);
    Ok(GraphQuestion::Lineage { query, form })
}

#[tactic(auto, using(crate::proofs::Listed::no_recipe, crate::proofs::Listed::recipe_too_long))]
fn recipe_in(json: bool, words: &[&str]) -> Result<GraphQuestion, Status>
    ensures { Reads result (recipe_in json (map (λ w. w.now) words.now)) }
{
    if json {
        return Err(Status::BadWords);
    }
    match words {
        [] => Err(Status::BadWords),
        [word] => recipe_of(word.as_bytes()),
        [_, _, ..] => Err(Status::BadWords),
    }
}

fn recipe_of(word: &[u8]) -> Result<GraphQuestion, Status>
    ensures { Reads result (option_map GraphQuestion.Recipe (node_in word.now)) }
{
    match node_in(word) {
        Some(node) => Ok(GraphQuestion::Recipe(node)),
        None => Err(Status::BadWords),
    }
}

#[tactic(auto, using(crate::proofs::Listed::too_few, crate::proofs::Listed::too_many))]
fn query_in(alloc: Global, name: &[u8], words: &[&str]) -> Result<Query, Status>
    ensures { Reads result (query_in name.now (map (λ w. w.now) words.now)) }
{
    match words {
        [] => Err(Status::BadWords),
        [word] => query_on(alloc, name, word.as_bytes()),
        [from, to] => path_on(name, from.as_bytes(), to.as_bytes()),
        [_, _, _, ..] => Err(Status::BadWords),
    }
}

fn query_on(alloc: Global, name: &[u8], word: &[u8]) -> Result<Query, Status>
    ensures { Reads result (query_on name.now word.now) }
{
    if name == b"ancestors".as_slice() {
        return ancestors_in(word);
    }
    if name == b"descendants".as_slice() {
        return descendants_in(word);
    }
    if name == b"named".as_slice() {
        return named_in(alloc, word);
    }
    Err(Status::BadWords)
}

fn ancestors_in(word: &[u8]) -> Result<Query, Status>
    ensures { Reads result (option_map Query.Ancestors (node_in word.now)) }
{
    match node_in(word) {
        Some(node) => Ok(Query::Ancestors(node)),
        None => Err(Status::BadWords),
    }
}

fn descendants_in(word: &[u8]) -> Result<Query, Status>
    ensures { Reads result (option_map Query.Descendants (node_in word.now)) }
{
    match node_in(word) {
        Some(node) => Ok(Query::Descendants(node)),
        None => Err(Status::BadWords),
    }
}

fn named_in(alloc: Global, word: &[u8]) -> Result<Query, Status>
    ensures { Reads result (option_map Query.Named (name_in word.now)) }
{
    match Text::name(alloc, word) {
        Ok(name) => Ok(Query::Named(name)),
        Err(TextFault::NoMemory) => Err(Status::NoMemory),
        Err(TextFault::BadLength | TextFault::BadByte) => Err(Status::BadWords),
    }
}

fn path_on(name: &[u8], from: &[u8], to: &[u8]) -> Result<Query, Status>
    ensures { Reads result (path_on name.now from.now to.now) }
{
    if name != b"path".as_slice() {
        return Err(Status::BadWords);
    }
    match (node_in(from), node_in(to)) {
        (Some(from), Some(to)) => Ok(Query::Path(from, to)),
        _ => Err(Status::BadWords),
    }
}
