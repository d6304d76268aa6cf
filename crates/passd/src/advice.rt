//! What is said on standard error of a command that was refused: what to do about it.
use crate::help::HELP;
use pass_cli::Status;
use pass_trace::TraceReason;
use std::alloc::{AllocError, Global};
use strsim::levenshtein;

/// How many letters of a word may be wrong where another is taken to be meant.
const MOST_EDITS: usize = 2;

/// Says what to do about a status that is none of a report.
pub fn tell_advice(rt: &HostRuntime, folder: &str, words: &[String], status: Status) {
    if status == Status::BadWords {
        tell_words(rt, words);
        return;
    }
    if let Some(advice) = advice_on(status) {
        let _told = eprintln!(rt; "passd: {folder}: {advice}");
    }
}

fn advice_on(status: Status) -> Option<&'static str> {
    match status {
        Status::Stuck => Some(
            "the run is stuck: the report's lines `waiting` say which processes wait, and where",
        ),
        Status::ReadFault => Some("standard input can't be read: give it by `<` or by a pipe"),
        Status::BadTrace {
            reason: TraceReason::Many,
            ..
        } => Some(
            "a trace has up to 100000 lines, of which up to 8191 make an object; with --long 1000000, and 65535",
        ),
        Status::BadTrace {
            reason: TraceReason::Number,
            ..
        } => Some(
            "a number is none, or too high: a process has one up to 8192, with --long up to 65536",
        ),
        Status::BadTrace { .. } => Some(
            "standard input is no trace: it has one call a line, as `1 creat 3 a`; passtrace makes one of what strace wrote",
        ),
        Status::DiskFault { .. } => Some(
            "its files can't be read or written: see whether there is room, and check the store before you go on",
        ),
        Status::BadStore(_) | Status::BadLog { .. } => Some(
            "its `log` is damaged or no store's, and is left as it is: take a copy of the folder that is whole",
        ),
        Status::BadPattern(_) => Some(
            "a pattern has the pieces i, v and e, each with {NAME} behind it or not, and / | * ( ) between them",
        ),
        Status::NoObject(node) if node.pnode.0 == 0 => Some(
            "no file of the store ever had that name: a name is a path below the folder of the run, or absolute",
        ),
        Status::NoObject(_) => Some(
            "the store has no such version: `named NAME` lists those of a file",
        ),
        Status::BadStream { .. } => Some(
            "that isn't what the other store sends next: send from the position that `follow` told last",
        ),
        Status::NoFrame(_) => Some("a log is sent from 0, or from a position that `follow` told"),
        Status::Done | Status::BadWords | Status::WriteFault | Status::NoMemory => None,
    }
}

// Says which word no command has, or else which words the command has.
fn tell_words(rt: &HostRuntime, words: &[String]) {
    let Some(word) = first_unlisted(words) else {
        tell_usage(rt, words);
        return;
    };
    let _told = match nearest(rt.alloc(), word) {
        Ok(Some(meant)) => eprintln!(rt;
            "passd: no command or option is called {word}: perhaps {meant} is meant"
        ),
        _ => eprintln!(rt; "passd: no command or option is called {word}: passd --help lists them"),
    };
}

// Says how the command is called whose other words are at fault.
fn tell_usage(rt: &HostRuntime, words: &[String]) {
    let command = words.iter().find(|word| !is_option(word.as_str()));
    let _told = match command {
        Some(word) => match line_of(word.as_str()) {
            Some(line) => eprintln!(rt; "passd: not these words: {line}"),
            None => eprintln!(rt; "passd: passd --help lists the commands"),
        },
        None => eprintln!(rt;
            "passd: no command is given: passd DIR COMMAND; passd --help lists the commands"
        ),
    };
}

fn is_option(word: &str) -> bool {
    word.starts_with("--")
}

// The first word or option that stands where a listed one must, and isn't listed.
fn first_unlisted(words: &[String]) -> Option<&str> {
    for (at, word) in words.iter().enumerate() {
        let name = option_name(word.as_str());
        if (at == 0 || is_option(name)) && line_of(name).is_none() {
            return Some(name);
        }
    }
    None
}

// An option without the value behind its `=`.
fn option_name(word: &str) -> &str {
    match word.split_once("=") {
        Some((name, _value)) if is_option(name) => name,
        _ => word,
    }
}

// What a line of the help lists: a command or an option.
fn listed_in(line: &str) -> Option<&str> {
    line.strip_prefix("  ")?.split_whitespace().next()
}

// The line of the help that lists a command or an option.
fn line_of(name: &str) -> Option<&'static str> {
    for line in HELP.lines() {
        if listed_in(line) == Some(name) {
            return Some(line.trim_start());
        }
    }
    None
}

// The command or option from which a word differs least, and by few letters.
fn nearest(alloc: Global, word: &str) -> Result<Option<&'static str>, AllocError> {
    let mut fewest = MOST_EDITS + 1;
    let mut meant = None;
    for line in HELP.lines() {
        if let Some(listed) = listed_in(line) {
            let edits = levenshtein(alloc, word, listed)?;
            if edits < fewest {
                fewest = edits;
                meant = Some(listed);
            }
        }
    }
    Ok(meant)
}
