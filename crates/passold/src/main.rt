//! Runs a command on the store of a folder and the archive of another. The first two arguments are the folders, the store's first, and
//! the others are the words of the command; a trace comes on standard input, and the answer goes to standard output. Standard error
//! has what helps.
//!
//! All that is promised is a clause of `pass_old::old_main` or `pass_old::prune_main`, and that only a run opens the two folders to
//! write is one of `open`. The opening itself, exit 11, and what is said on standard error are tested.
#![tactic(auto)]

mod advice;
mod help;

ghost use Rattle.std.specs.Prelude.{◌≡◌, IfOk, map, string_bytes};
ghost use Rattle.pass_host.specs.Host.{may_write};
ghost use Rattle.pass_old.specs.Words.{writes};

use crate::advice::{tell_advice, tell_fresh_advice, tell_note};
use crate::help::HELP;
use pass_help::{Request, VERSION, asked};
use pass_host::{HostDisk, HostFault, HostSink, HostSource};
use pass_old::{PruneEnded, old_main, prune_main, third_folder, writes};
use pass_outside::OpenGate;
use std::fs::File;
use std::process::ExitCode;
use std::{env, io};

/// The exit status where a folder or one of its files can't be opened.
const UNOPENED: u8 = 11;

/// The exit status where a folder isn't named.
const BAD_WORDS: u8 = 2;

/// The exit status where what was asked for can't be written.
const WRITE_FAULT: u8 = 7;

/// The exit status where memory is refused.
const NO_MEMORY: u8 = 10;

fn main(rt: HostRuntime) -> ExitCode {
    let Ok(arguments) = arguments(&rt) else {
        return ExitCode::from(NO_MEMORY);
    };
    if let Some(request) = asked(arguments.as_slice()) {
        return ExitCode::from(told(&rt, request));
    }
    let [store, archive, words @ ..] = arguments.as_slice() else {
        return ExitCode::from(without_folders(&rt));
    };
    let (disk, kept) = match open_both(&rt, store.as_str(), archive.as_str(), words) {
        Ok(disks) => disks,
        Err(number) => return ExitCode::from(number),
    };
    tell_note(&rt, archive.as_str(), kept.note());
    if let Some(fresh) = third_folder(words) {
        let number = pruned(&rt, words, archive.as_str(), fresh.as_str(), disk, kept);
        return ExitCode::from(number);
    }
    let mut source = HostSource::new(rt.reader());
    let mut sink = HostSink::new(io::writer(&rt));
    let ended = old_main(
        &rt,
        rt.alloc(),
        words,
        &mut source,
        &mut sink,
        disk,
        kept,
        &OpenGate,
    );
    for node in &ended.lacking {
        let _told = eprintln!(rt; "passold: {archive}: {node} isn't kept");
    }
    tell_advice(&rt, archive.as_str(), ended.status);
    ExitCode::from(ended.status.number())
}

// Opens both folders before the words are judged, the store's first; or says why it can't, and with which exit status.
fn open_both(
    rt: &HostRuntime,
    store: &str,
    archive: &str,
    words: &[String],
) -> Result<(HostDisk<File>, HostDisk<File>), u8> {
    let disk = match open(rt, store, words) {
        Ok(disk) => disk,
        Err(fault) => return Err(unopened(rt, store, fault)),
    };
    match open(rt, archive, words) {
        Ok(kept) => Ok((disk, kept)),
        Err(fault) => Err(unopened(rt, archive, fault)),
    }
}

// Puts the chosen versions into the archive of a third folder, which is opened last, alone and to be written.
fn pruned(
    rt: &HostRuntime,
    words: &[String],
    archive: &str,
    fresh: &str,
    disk: HostDisk<File>,
    kept: HostDisk<File>,
) -> u8 {
    let opened = match HostDisk::open(rt, rt.alloc(), fresh) {
        Ok(opened) => opened,
        Err(fault) => return unopened(rt, fresh, fault),
    };
    tell_note(rt, fresh, opened.note());
    let mut sink = HostSink::new(io::writer(rt));
    let PruneEnded { status, .. } = prune_main(rt.alloc(), words, &mut sink, disk, kept, opened);
    tell_fresh_advice(rt, archive, fresh, status);
    status.number()
}

// Opens a folder alone and to be written for words that run a trace, and for all others to be read, beside others.
fn open(rt: &HostRuntime, folder: &str, words: &[String]) -> Result<HostDisk<File>, HostFault>
    ensures { IfOk result (λ d. may_write d ≡ writes (map string_bytes words.now)) }
{
    if writes(words) {
        HostDisk::open(rt, rt.alloc(), folder)
    } else {
        HostDisk::open_to_read(rt, rt.alloc(), folder)
    }
}

// Tells the words of the program, or its version.
fn told(rt: &HostRuntime, request: Request) -> u8 {
    let written = match request {
        Request::Help => print!(rt; "{HELP}"),
        Request::Version => println!(rt; "passold {VERSION}"),
    };
    match written {
        Ok(()) => 0,
        Err(_) => WRITE_FAULT,
    }
}

// The arguments; none where one of them isn't text, since no command has such a word.
fn arguments(rt: &HostRuntime) -> io::Result<Vec<String>> {
    match env::args(rt) {
        Ok(words) => Ok(words.skip(1).collect(rt.alloc())?),
        Err(error) if error.kind() == io::ErrorKind::InvalidData => Ok(Vec::new(rt.alloc())),
        Err(error) => Err(error),
    }
}

// Refuses a call that doesn't name both folders.
fn without_folders(rt: &HostRuntime) -> u8 {
    let _written = println!(rt; "fault words");
    let _told = eprintln!(rt;
        "passold: two folders are to be named: passold DIR ARCHIVE COMMAND; passold --help lists the commands"
    );
    BAD_WORDS
}

// Says that a folder can't be opened and what to do, unless it was for want of memory.
fn unopened(rt: &HostRuntime, folder: &str, fault: HostFault) -> u8 {
    if fault == HostFault::NoMemory {
        return NO_MEMORY;
    }
    let _written = println!(rt; "fault open");
    let _told = eprintln!(rt; "passold: {folder}: {fault}");
    UNOPENED
}
