//! Reads on standard input what strace wrote of a run, and writes its trace to standard output. What the trace can't say, and why
//! there is none, goes to standard error. It is called as `passtrace [DIR] [--root FOLDER] [--waits-flow] [--loaders]
//! [--fact NAME VALUE]..`: the trace is for the store of DIR, names below FOLDER are relative to it, a process takes from a child for
//! which it waited, programs are read for what loads them, and the run has these attributes.
//!
//! `pass_on` writes exactly the text that `pass_strace::translate` gives (`text`, `written`), whose lines have an origin each, in
//! order (`lines`, `origins`, `order`), of which none of the text's calls is lost (`kept`), which begins with the attributes (`facts`,
//! `told`), and nothing where there is none (`untouched`). A text that ends within a line is refused with that line, unless it can't be
//! read or memory is refused (`cut`). A fault of a stream is told exactly where its count rose (`read`, `read_ok`, `read_kept`, `write`,
//! `write_ok`). The words of the call, the store that is read and the exit numbers are tested.
#![tactic(auto)]

mod help;
mod passing;
mod programs;
mod words;

use crate::help::HELP;
use crate::passing::{Fault, pass_on};
use crate::programs::HostPrograms;
use crate::words::{Pair, Words};
use pass_help::{Request, VERSION, asked};
use pass_host::{HostDisk, HostFault, HostSink, HostSource};
use pass_log::{LogFault, LogImage, read_image};
use pass_strace::{Fact, Request as Wanted, Stored, Told};
use pass_trace::Scale;
use std::alloc::{AllocError, Global};
use std::process::ExitCode;
use std::{env, io};

// The exit statuses are those of `passd` for the same causes.
const DONE: u8 = 0;

const BAD_WORDS: u8 = 2;

const BAD_STRACE: u8 = 3;

const BAD_STORE: u8 = 5;

const READ_FAULT: u8 = 6;

const WRITE_FAULT: u8 = 7;

const DISK_FAULT: u8 = 8;

const NO_MEMORY: u8 = 10;

const UNOPENED: u8 = 11;

fn main(rt: HostRuntime) -> ExitCode {
    let Ok(arguments) = arguments(&rt) else {
        return ExitCode::from(bad_words(&rt));
    };
    if let Some(request) = asked(arguments.as_slice()) {
        return ExitCode::from(tell_request(&rt, request));
    }
    let Some(words) = Words::of(rt.alloc(), arguments) else {
        return ExitCode::from(bad_words(&rt));
    };
    ExitCode::from(pass(&rt, &words))
}

// Writes the trace, and tells what it can't say.
fn pass(rt: &HostRuntime, words: &Words) -> u8 {
    let stored = match stored_in(rt, words) {
        Ok(stored) => stored,
        Err(status) => return status,
    };
    let Ok(facts) = facts_of(rt.alloc(), &words.pairs) else {
        return NO_MEMORY;
    };
    let request = Wanted {
        stored: &stored,
        root: words.root(),
        waits: words.waits,
        facts: if stored.has_room_for_app() {
            &facts
        } else {
            &[]
        },
    };
    let host = HostPrograms { rt };
    let programs = if words.loaders { Some(&host) } else { None };
    let mut source = HostSource::new(rt.reader());
    let mut sink = HostSink::new(io::writer(rt));
    match pass_on(rt.alloc(), &mut source, &mut sink, request, programs) {
        Ok(translated) => {
            if translated.scale == Scale::Long {
                let _told = eprintln!(rt; "long");
            }
            if request.facts.len() < facts.len() {
                let _told = eprintln!(rt; "untold facts run line 0 times 1");
            }
            for told in &translated.told {
                tell(rt, told);
            }
            DONE
        }
        Err(fault) => refused(rt, fault),
    }
}

// The attributes of the run.
fn facts_of(alloc: Global, pairs: &[Pair]) -> Result<Vec<Fact>, AllocError> {
    let mut facts = Vec::new(alloc);
    for pair in pairs {
        let fact = Fact::of(alloc, pair.name.as_bytes(), pair.value.as_bytes())?;
        if let Some(fact) = fact {
            facts.push(fact)?;
        }
    }
    Ok(facts)
}

// The words with which the program was called.
fn arguments(rt: &HostRuntime) -> io::Result<Vec<String>> {
    let words = env::args(rt)?;
    Ok(words.skip(1).collect(rt.alloc())?)
}

// Refuses the words.
fn bad_words(rt: &HostRuntime) -> u8 {
    let _told = eprintln!(rt; "fault words");
    BAD_WORDS
}

// Tells the words of the program, or its version.
fn tell_request(rt: &HostRuntime, request: Request) -> u8 {
    let written = match request {
        Request::Help => print!(rt; "{HELP}"),
        Request::Version => println!(rt; "passtrace {VERSION}"),
    };
    match written {
        Ok(()) => DONE,
        Err(_) => WRITE_FAULT,
    }
}

// What the store has, where one is named; else the exit status.
fn stored_in(rt: &HostRuntime, words: &Words) -> Result<Stored, u8> {
    let Some(folder) = words.store() else {
        return Ok(Stored::empty(rt.alloc()));
    };
    let mut disk = match HostDisk::open_to_read(rt, rt.alloc(), folder) {
        Ok(disk) => disk,
        Err(fault) => return Err(unopened(rt, folder, fault)),
    };
    let LogImage { list, .. } = match read_image(rt.alloc(), &mut disk) {
        Ok(image) => image,
        Err(fault) => return Err(unread(rt, fault)),
    };
    match Stored::of_records(rt.alloc(), &list) {
        Ok(stored) => Ok(stored),
        Err(_) => Err(NO_MEMORY),
    }
}

// Tells why the folder of the store can't be opened and what to do, unless it is for want of memory.
fn unopened(rt: &HostRuntime, folder: &str, fault: HostFault) -> u8 {
    if fault == HostFault::NoMemory {
        return NO_MEMORY;
    }
    let _told = eprintln!(rt; "fault open");
    let _advice = eprintln!(rt; "passtrace: {folder}: {fault}");
    UNOPENED
}

// Tells why the log of the store can't be read, unless it is for want of memory.
fn unread(rt: &HostRuntime, fault: LogFault) -> u8 {
    match fault {
        LogFault::NoMemory => NO_MEMORY,
        LogFault::DiskFault => {
            let _told = eprintln!(rt; "fault disk");
            DISK_FAULT
        }
        LogFault::BadFrame { .. } | LogFault::BadRecord { .. } | LogFault::Broken { .. } => {
            let _told = eprintln!(rt; "fault store");
            BAD_STORE
        }
    }
}

// Tells why there is no trace, unless it is for want of memory.
fn refused(rt: &HostRuntime, fault: Fault) -> u8 {
    match fault {
        Fault::Unread => {
            let _told = eprintln!(rt; "fault read");
            READ_FAULT
        }
        Fault::Refused { line, reason } => {
            let word = reason.word();
            let _told = match reason.expected() {
                Some(expected) => eprintln!(rt; "fault strace {line} {word} {expected}"),
                None => eprintln!(rt; "fault strace {line} {word}"),
            };
            BAD_STRACE
        }
        Fault::Unwritten => {
            let _told = eprintln!(rt; "fault write");
            WRITE_FAULT
        }
        Fault::NoMemory => NO_MEMORY,
    }
}

// Tells what the trace can't say of a file or of calls.
fn tell(rt: &HostRuntime, told: &Told) {
    let word = told.skip.word();
    let what = told.what.as_str();
    let (line, count) = (told.line, told.count);
    let _told = eprintln!(rt; "untold {word} {what} line {line} times {count}");
}
