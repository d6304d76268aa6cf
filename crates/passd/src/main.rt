//! Runs a command on the store of a folder. The first argument is the folder, and the others are the words of the command; a trace
//! comes on standard input, and the answer goes to standard output. Standard error has what helps: that calls of a run failed, and
//! what to do about words that no command has and about a name that no file ever had.
//!
//! All that is promised is a clause of `pass_cli::pass_main`, and that only words that write open the folder to write is one of
//! `open`. The opening itself, exit 11, that questions open it beside others, and what is said on standard error are tested.
#![tactic(auto)]

mod advice;
mod help;

ghost use Rattle.std.specs.Prelude.{◌≡◌, IfOk, map, string_bytes};
ghost use Rattle.pass_ask.specs.Words.{writes};
ghost use Rattle.pass_host.specs.Host.{may_write};

use crate::advice::tell_advice;
use crate::help::HELP;
use pass_cli::{Status, ask, pass_main, writes};
use pass_entry::{Entry, Reply};
use pass_help::{Request, VERSION, asked};
use pass_host::{HostDisk, HostFault, HostSink, HostSource};
use pass_outside::{NoDisk, OpenGate};
use std::alloc::AllocError;
use std::fs::File;
use std::process::ExitCode;
use std::{env, io, mem};

/// The exit status where the folder or one of its files can't be opened.
const UNOPENED: u8 = 11;

fn main(rt: HostRuntime) -> ExitCode {
    let Ok(arguments) = arguments(&rt) else {
        return ExitCode::from(Status::NoMemory.number());
    };
    if let Some(request) = asked(arguments.as_slice()) {
        return ExitCode::from(told(&rt, request));
    }
    let [folder, words @ ..] = arguments.as_slice() else {
        return ExitCode::from(without_folder(&rt));
    };
    let folder = folder.as_str();
    // The folder is opened before the words are judged.
    let disk = match open(&rt, folder, words) {
        Ok(disk) => disk,
        Err(fault) => return ExitCode::from(unopened(&rt, folder, fault)),
    };
    if let Some(note) = disk.note() {
        let _told = eprintln!(rt; "passd: {folder}: {note}");
    }
    let mut source = HostSource::new(rt.reader());
    let mut sink = HostSink::new(io::writer(&rt));
    let ended = pass_main(
        &rt,
        rt.alloc(),
        words,
        &mut source,
        &mut sink,
        disk,
        &OpenGate,
    );
    tell_failed(&rt, &ended.history);
    tell_advice(&rt, folder, words, ended.status);
    let status = ended.status.number();
    // The program ends, and its memory with it: nothing of the history is given back piece by piece.
    mem::forget(ended);
    ExitCode::from(status)
}

// Tells how many calls of a run failed, where some did.
fn tell_failed(rt: &HostRuntime, history: &[Entry]) {
    let failed = history.iter().filter(|entry| is_failed(entry)).count();
    if failed > 0 {
        let _told = eprintln!(rt; "passd: calls that failed: {failed}");
    }
}

fn is_failed(entry: &Entry) -> bool {
    match entry.reply {
        Reply::Fault(_) => true,
        Reply::Done | Reply::Made(_) | Reply::Took(_) => false,
    }
}

// Opens the folder alone and to be written for words that run a trace or follow a log, and for all others to be read, beside others.
fn open(rt: &HostRuntime, folder: &str, words: &[String]) -> Result<HostDisk<File>, HostFault>
    ensures { IfOk result (λ d. may_write d ≡ writes (map string_bytes words.now)) }
{
    match writes(rt.alloc(), words) {
        Ok(true) => HostDisk::open(rt, rt.alloc(), folder),
        Ok(false) => HostDisk::open_to_read(rt, rt.alloc(), folder),
        Err(AllocError) => Err(HostFault::NoMemory),
    }
}

// Tells the words of the program, or its version.
fn told(rt: &HostRuntime, request: Request) -> u8 {
    let written = match request {
        Request::Help => print!(rt; "{HELP}"),
        Request::Version => println!(rt; "passd {VERSION}"),
    };
    match written {
        Ok(()) => Status::Done.number(),
        Err(_) => Status::WriteFault.number(),
    }
}

// The arguments; none where one of them isn't text, since no command has such a word.
fn arguments(rt: &HostRuntime) -> io::Result<Vec<String>> {
    match env::args(rt) {
        Ok(words) => Ok(words.skip(1).collect(rt.alloc())?),
        Err(error) if error.kind() == io::ErrorKind::InvalidData => Ok(Vec::new(rt.alloc())),
        Err(error) => Err(error),
    }
}

// Refuses a call without a folder, which has no words either.
fn without_folder(rt: &HostRuntime) -> u8 {
    let mut sink = HostSink::new(io::writer(rt));
    let asked = ask(rt.alloc(), &[], &mut sink, NoDisk::new());
    let _told = eprintln!(rt;
        "passd: no folder is named: passd DIR COMMAND; passd --help lists the commands"
    );
    asked.status.number()
}

// Says that the folder can't be opened and what to do, unless it was for want of memory.
fn unopened(rt: &HostRuntime, folder: &str, fault: HostFault) -> u8 {
    if fault == HostFault::NoMemory {
        return Status::NoMemory.number();
    }
    let _written = println!(rt; "fault open");
    let _told = eprintln!(rt; "passd: {folder}: {fault}");
    UNOPENED
}
