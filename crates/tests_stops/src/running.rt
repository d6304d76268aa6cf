//! Runs of the program's call by one worker, over streams and disks in memory.
use pass_cli::{Ended, pass_main};
use pass_outside::{MemDisk, OpenGate, Sink, Source};
use std::alloc::AllocError;
use std::sync::Wait;
use std::thread::Threads;

/// A run that makes a file, writes to it and syncs it. Device calls 1 to 3 open the store, 4 and 5 write the first gate, 6 to 9 the
/// ceiling, 10 to 13 the frame of its six records, 14 the block, and 15 syncs it.
pub const SYNC: &[u8] = b"1 creat 3 a\n1 write 3 t:abc\n1 sync 3\n";

/// A new disk at which the listed calls fail, and each one after the stop.
pub fn new_disk(
    rt: &impl AllocGlobal,
    fails: &[u64],
    stop: Option<u64>,
) -> Result<MemDisk, AllocError> {
    let alloc = rt.alloc();
    let fails = fails.to_vec(alloc)?;
    MemDisk::new(alloc, Vec::new(alloc), Vec::new(alloc), fails, stop)
}

/// Runs the trace of a source over a disk.
pub fn run_on<R: Threads + Wait + Sync + AllocGlobal, S: Source, K: Sink>(
    rt: &R,
    source: &mut S,
    sink: &mut K,
    disk: MemDisk,
) -> Result<Ended<MemDisk>, AllocError> {
    let mut words = Vec::new(rt.alloc());
    words.push(String::from_str(rt.alloc(), "run")?)?;
    words.push(String::from_str(rt.alloc(), "--workers")?)?;
    words.push(String::from_str(rt.alloc(), "1")?)?;
    Ok(pass_main(rt, rt.alloc(), &words, source, sink, disk, &OpenGate))
}
