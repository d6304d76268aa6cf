//! The commands of the program, and how its words name them.
ghost use Rattle.std.specs.Prelude.{ℕ, ◌≡◌, ◌≤◌, ◌∷◌, [], true, IfOk, IsErr, Some, map, option_map, string_bytes};
ghost use Rattle.pass_entry.specs.Texts.{is_name};
ghost use Rattle.pass_trace.specs.Words.{is_text as is_text_of};
ghost use Rattle.pass_ask.specs.Numbers.{last_number, number_in as number_of};
ghost use Rattle.pass_ask.specs.Telling.{spelled_in as spelled_of};
ghost use Rattle.pass_old.specs.Words.{IsNamed, called as called_of, command_of, diff_of, file_of, is_run as is_run_of, named_of, writes as writes_of};

use pass_ask::{LAST_NUMBER, node_in, number_in, spelled_in};
use pass_entry::{Node, Pnode, Text, TextFault};
use pass_files::Spelled;
use pass_status::Status;
use std::alloc::{AllocError, Global};

/// How many workers take the turns where the words don't say it.
const WORKERS: u32 = 4;

/// How many workers may take turns.
const MOST_WORKERS: u64 = 64;

/// What the program's words ask for.
#[derive(Drop)]
pub enum OldCommand {
    /// To run the trace of the source, and to keep the versions of its files.
    Run { workers: u32 },
    /// To answer a question to the archive.
    Ask(OldQuestion),
    /// To answer a question to the archive and the store's log.
    Consult(LogQuestion),
    /// To write the tar of what a node came from.
    Tar(Spelled),
}

/// What may be asked of an archive.
#[derive(Clone, Copy)]
pub enum OldQuestion {
    /// The bytes of a version.
    Cat(Node),
    /// The versions of a file.
    Versions(Pnode),
    /// Where two versions of a file differ.
    Diff { from: Node, to: Node },
}

/// What may be asked of an archive and of a store's log.
#[derive(Drop)]
pub enum LogQuestion {
    /// The versions of the files that ever had the name.
    Named(Text),
    /// Whether the log bears out what the archive has.
    Check,
}

fn is_text(word: &[u8], text: &[u8]) -> bool
    ensures { result ≡ is_text_of word.now text.now }
{
    word == text
}

// The command without a further word.
fn alone(name: &[u8]) -> Option<OldCommand>
    ensures { result ≡ command_of (name.now ∷ []) }
{
    if is_text(name, b"run") {
        Some(OldCommand::Run { workers: WORKERS })
    } else if is_text(name, b"check") {
        Some(OldCommand::Consult(LogQuestion::Check))
    } else {
        None
    }
}

// The word without the `@` that may end a name.
fn called(word: &[u8]) -> &[u8]
    ensures { result.now ≡ called_of word.now }
{
    if !word.is_empty() && word[word.len() - 1] == b'@' {
        &word[..word.len() - 1]
    } else {
        word
    }
}

// The versions of the files that ever had the name.
fn named(alloc: Global, name: &[u8]) -> Result<Option<OldCommand>, AllocError>
    ensures named { IfOk result (λ command. command ≡ named_of name.now) }
    ensures refused { IsErr result → is_name name.now ≡ true }
{
    match Text::name(alloc, name) {
        Ok(name) => Ok(Some(OldCommand::Consult(LogQuestion::Named(name)))),
        Err(TextFault::NoMemory) => Err(AllocError),
        Err(TextFault::BadLength | TextFault::BadByte) => Ok(None),
    }
}

// The versions of the file that the word gives, by its number or a name.
fn versions(alloc: Global, word: &[u8]) -> Result<Option<OldCommand>, AllocError>
    ensures file { IfOk result (λ command. command ≡ file_of (number_of 1 last_number word.now) word.now) }
    ensures refused { IsErr result → IsNamed (file_of (number_of 1 last_number word.now) word.now) }
{
    match number_in(word, 1, LAST_NUMBER) {
        Some(pnode) => Ok(Some(OldCommand::Ask(OldQuestion::Versions(Pnode(pnode))))),
        None => named(alloc, called(word)),
    }
}

// The tar of what the node came from that the word gives.
fn tar_of(alloc: Global, word: &[u8]) -> Result<Option<OldCommand>, AllocError>
    ensures node { IfOk result (λ command. command ≡ option_map OldCommand.Tar (spelled_of word.now)) }
    ensures refused { IsErr result → IsNamed (option_map OldCommand.Tar (spelled_of word.now)) }
{
    match spelled_in(alloc, word) {
        Ok(node) => Ok(Some(OldCommand::Tar(node))),
        Err(Status::NoMemory) => Err(AllocError),
        Err(_) => Ok(None),
    }
}

// The command with one further word.
fn with_word(alloc: Global, name: &[u8], word: &[u8]) -> Result<Option<OldCommand>, AllocError>
    ensures command { IfOk result (λ command. command ≡ command_of (name.now ∷ word.now ∷ [])) }
    ensures refused { IsErr result → IsNamed (command_of (name.now ∷ word.now ∷ [])) }
{
    if is_text(name, b"cat") {
        Ok(node_in(word).map(|node| OldCommand::Ask(OldQuestion::Cat(node))))
    } else if is_text(name, b"versions") {
        versions(alloc, word)
    } else if is_text(name, b"tar") {
        tar_of(alloc, word)
    } else {
        Ok(None)
    }
}

// Two nodes of one file.
fn diff(from: Option<Node>, to: Option<Node>) -> Option<OldCommand>
    ensures { result ≡ diff_of from to }
{
    let from = from?;
    let to = to?;
    if from.pnode == to.pnode {
        Some(OldCommand::Ask(OldQuestion::Diff { from, to }))
    } else {
        None
    }
}

// The command with two further words.
fn with_words(name: &[u8], first: &[u8], second: &[u8]) -> Option<OldCommand>
    ensures { result ≡ command_of (name.now ∷ first.now ∷ second.now ∷ []) }
{
    if is_text(name, b"diff") {
        diff(node_in(first), node_in(second))
    } else if is_text(name, b"run") && is_text(first, b"--workers") {
        number_in(second, 1, MOST_WORKERS).map(|workers| OldCommand::Run {
            workers: workers as u32,
        })
    } else {
        None
    }
}

// The command of the words, if they are those of one.
fn command_in(alloc: Global, words: &[String]) -> Result<Option<OldCommand>, AllocError>
    ensures command { IfOk result (λ command. command ≡ command_of (map string_bytes words.now)) }
    ensures refused { IsErr result → IsNamed (command_of (map string_bytes words.now)) }
{
    match words {
        [] => Ok(None),
        [name] => Ok(alone(name.as_bytes())),
        [name, word] => with_word(alloc, name.as_bytes(), word.as_bytes()),
        [name, first, second] => {
            Ok(with_words(name.as_bytes(), first.as_bytes(), second.as_bytes()))
        }
        [_, _, _, _, ..] => Ok(None),
    }
}

/// The command of the words behind the two folders, if they are those of one. Only a name needs memory.
pub fn read_words(alloc: Global, words: &[String]) -> Result<Option<OldCommand>, AllocError>
    ensures command { IfOk result (λ command. command ≡ command_of (map string_bytes words.now)) }
    ensures workers { (n : ℕ) → IfOk result (λ command. command ≡ Some (OldCommand.Run n) → (1 ≤ n) × (n ≤ 64)) }
    ensures refused { IsErr result → IsNamed (command_of (map string_bytes words.now)) }
{
    command_in(alloc, words)
}

fn is_run(command: Option<OldCommand>) -> bool
    ensures { result ≡ is_run_of command }
{
    matches!(command, Some(OldCommand::Run { .. }))
}

/// The words are those of a command that writes: only a run does.
pub fn writes(words: &[String]) -> bool
    ensures { result ≡ writes_of (map string_bytes words.now) }
{
    match words {
        [] => false,
        [name] => is_text(name.as_bytes(), b"run"),
        [_, _] => false,
        [name, first, second] => {
            is_run(with_words(name.as_bytes(), first.as_bytes(), second.as_bytes()))
        }
        [_, _, _, _, ..] => false,
    }
}
