//! Shows the graph of the store of a folder. The first argument is the folder, and the others say what is to be shown and how:
//! `dot` or `prov`, and a node behind it for what that node came from. `--plain` behind `dot` leaves out the system's files. `csv`
//! writes one of two tables.
//!
//! The answer goes to standard output, and why there is none to standard error. The text of either is a clause of
//! `pass_ask::show`; where it goes is tested.
#![tactic(auto)]

mod help;

use crate::help::HELP;
use pass_ask::{Status, show};
use pass_help::{Request, VERSION, asked};
use pass_host::{HostDisk, HostFault, HostSink};
use pass_outside::{Failed, MemSink, NoDisk};
use pass_status::write_text;
use std::process::ExitCode;
use std::{env, io};

/// The exit status where the folder or one of its files can't be opened.
const UNOPENED: u8 = 11;

fn main(rt: HostRuntime) -> ExitCode {
    let Ok(arguments) = arguments(&rt) else {
        return ExitCode::from(Status::NoMemory.number());
    };
    if let Some(request) = asked(arguments.as_slice()) {
        return ExitCode::from(told(&rt, request));
    }
    let mut answer = MemSink::new(rt.alloc(), Vec::new(rt.alloc()));
    let [folder, words @ ..] = arguments.as_slice() else {
        // A call without a folder has no words either.
        let ended = show(rt.alloc(), "", &[], &mut answer, NoDisk::new());
        return ExitCode::from(handed_on(&rt, ended.status, &answer));
    };
    // The folder is opened before the words are judged, beside others that read.
    let folder = folder.as_str();
    match HostDisk::open_to_read(&rt, rt.alloc(), folder) {
        Ok(disk) => {
            if let Some(note) = disk.note() {
                let _told = eprintln!(rt; "passview: {folder}: {note}");
            }
            let ended = show(rt.alloc(), folder, words, &mut answer, disk);
            ExitCode::from(handed_on(&rt, ended.status, &answer))
        }
        Err(fault) => ExitCode::from(unopened(&rt, folder, fault)),
    }
}

// Hands on what was answered: an answer to standard output, and a refusal to standard error.
fn handed_on(rt: &HostRuntime, status: Status, answer: &MemSink) -> u8 {
    match status {
        Status::Done => match write_text(&mut HostSink::new(io::writer(rt)), answer.taken()) {
            Ok(()) => status.number(),
            Err(Failed) => Status::WriteFault.number(),
        },
        // The answer is kept in memory, of which there wasn't enough.
        Status::WriteFault => Status::NoMemory.number(),
        _ => {
            tell(rt, status);
            status.number()
        }
    }
}

// Tells why there is no answer.
fn tell(rt: &HostRuntime, status: Status) {
    if let Ok(text) = status.text(rt.alloc()) {
        let _told = eprint!(rt; "{text}");
    }
    if status == Status::BadWords {
        let _told = eprintln!(rt; "passview: passview --help lists the words");
    }
}

// Tells the words of the program, or its version.
fn told(rt: &HostRuntime, request: Request) -> u8 {
    let written = match request {
        Request::Help => print!(rt; "{HELP}"),
        Request::Version => println!(rt; "passview {VERSION}"),
    };
    match written {
        Ok(()) => Status::Done.number(),
        Err(_) => Status::WriteFault.number(),
    }
}

// The arguments; none where one of them isn't text, since no request has such a word.
fn arguments(rt: &HostRuntime) -> io::Result<Vec<String>> {
    match env::args(rt) {
        Ok(words) => Ok(words.skip(1).collect(rt.alloc())?),
        Err(error) if error.kind() == io::ErrorKind::InvalidData => Ok(Vec::new(rt.alloc())),
        Err(error) => Err(error),
    }
}

// Says that the folder can't be opened and what to do, unless it was for want of memory.
fn unopened(rt: &HostRuntime, folder: &str, fault: HostFault) -> u8 {
    if fault == HostFault::NoMemory {
        return Status::NoMemory.number();
    }
    let _told = eprintln!(rt; "fault open");
    let _advice = eprintln!(rt; "passview: {folder}: {fault}");
    UNOPENED
}
