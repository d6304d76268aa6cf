//! A drawn run whose entries become durable, and whose changed blocks are put aside, while it goes on.
use crate::running::new_disk;
use pass_cli::{Status, pass_main};
use pass_entry::Pnode;
use pass_outside::{Area, Gate, MemSink, MemSource, Watch, WatchDisk};
use std::alloc::{AllocError, Global};
use std::sync::Wait;
use std::sync::atomic::{AtomicU64, Ordering};
use std::test::*;
use std::thread::Threads;

const WORDS: [&str; 5] = ["gen", "7", "1000", "--workers", "2"];

const LINES: &[u8] = b"gen 7 1000\nanswered 1008\nwrote 253 497349\nacyclic yes\n";

/// How many lines have begun, and how many had as the log was first written behind the first one.
#[derive(Drop)]
struct Lines {
    begun: AtomicU64,
    at_frame: AtomicU64,
}

impl Lines {
    fn new() -> Lines {
        Lines {
            begun: AtomicU64::new(0),
            at_frame: AtomicU64::new(0),
        }
    }

    /// The log was written behind the first line and before the last one.
    fn is_written_between(&self) -> bool {
        let at_frame = self.at_frame.load(Ordering::SeqCst);
        0 < at_frame && at_frame < self.begun.load(Ordering::SeqCst)
    }
}

#[derive(Drop)]
struct Counts<'s> {
    lines: &'s Lines,
}

impl<'s> Gate for Counts<'s> {
    fn enter(&self, _process: u32, _line: u32) {
        self.lines.begun.fetch_add(1, Ordering::SeqCst);
    }

    fn inside(&self, _pnode: Pnode) {}
}

#[derive(Drop)]
struct Sees<'s> {
    lines: &'s Lines,
}

impl<'s> Watch for Sees<'s> {
    fn before(&self, area: Area, _at: u64) {
        if area == Area::Log && self.lines.at_frame.load(Ordering::SeqCst) == 0 {
            let begun = self.lines.begun.load(Ordering::SeqCst);
            self.lines.at_frame.store(begun, Ordering::SeqCst);
        }
    }
}

fn words(alloc: Global) -> Result<Vec<String>, AllocError> {
    let mut words = Vec::new(alloc);
    for word in WORDS {
        words.push(String::from_str(alloc, word)?)?;
    }
    Ok(words)
}

/// How the run over a watched disk ends, and whether it writes its lines.
fn drawn<R: Threads + Wait + Sync>(
    rt: &R,
    alloc: Global,
    lines: &Lines,
) -> Result<(Status, bool), AllocError> {
    let words = words(alloc)?;
    let disk = WatchDisk::new(new_disk(alloc)?, Sees { lines });
    let mut source = MemSource::new(Vec::new(alloc), Vec::new(alloc));
    let mut sink = MemSink::new(alloc, Vec::new(alloc));
    let ended = pass_main(
        rt,
        alloc,
        &words,
        &mut source,
        &mut sink,
        disk,
        &Counts { lines },
    );
    Ok((ended.status, sink.taken() == LINES))
}

#[test]
fn a_drawn_run_writes_its_log_while_it_goes_on(rt: HostRuntime) -> Result<(), Fail> {
    let lines = Lines::new();
    let (status, is_told) = drawn(&rt, rt.alloc(), &lines)?;
    assert!(rt; status == Status::Done);
    assert!(rt; is_told);
    assert!(rt; lines.is_written_between());
    Ok(())
}
