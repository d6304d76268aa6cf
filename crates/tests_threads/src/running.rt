//! Runs of a trace by eight workers.
use pass_cli::{Ended, Status, pass_main};
use pass_outside::{Disk, Gate, MemDisk, MemSink, MemSource};
use std::alloc::{AllocError, Global};
use std::sync::Wait;
use std::thread::Threads;

/// A disk in memory that nothing was written to.
pub fn new_disk(alloc: Global) -> Result<MemDisk, AllocError> {
    MemDisk::new(
        alloc,
        Vec::new(alloc),
        Vec::new(alloc),
        Vec::new(alloc),
        None,
    )
}

fn words(alloc: Global) -> Result<Vec<String>, AllocError> {
    let mut words = Vec::new(alloc);
    words.push(String::from_str(alloc, "run")?)?;
    words.push(String::from_str(alloc, "--workers")?)?;
    words.push(String::from_str(alloc, "8")?)?;
    Ok(words)
}

/// Runs a trace over a disk.
pub fn run<R: Threads + Wait + Sync, D: Disk + Send + Drop, G: Gate + Sync>(
    rt: &R,
    alloc: Global,
    trace: Vec<u8>,
    disk: D,
    gate: &G,
) -> Result<Ended<D>, AllocError> {
    let words = words(alloc)?;
    let mut source = MemSource::new(trace, Vec::new(alloc));
    let mut sink = MemSink::new(alloc, Vec::new(alloc));
    Ok(pass_main(rt, alloc, &words, &mut source, &mut sink, disk, gate))
}

/// How the run of a trace over a disk ends.
pub fn status_of<R: Threads + Wait + Sync, D: Disk + Send + Drop, G: Gate + Sync>(
    rt: &R,
    alloc: Global,
    trace: &[u8],
    disk: D,
    gate: &G,
) -> Result<Status, AllocError> {
    let trace = trace.to_vec(alloc)?;
    let ended = run(rt, alloc, trace, disk, gate)?;
    Ok(ended.status)
}
