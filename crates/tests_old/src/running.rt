//! Runs and questions by one worker, over disks in memory.
use pass_old::{OldEnded, OldStatus, old_main};
use pass_outside::{MemDisk, MemSink, MemSource, OpenGate};
use std::alloc::AllocError;
use std::sync::Wait;
use std::thread::Threads;

/// A run that makes two versions of a file. Of the archive's device calls 1 and 2 open it, 3 and 4 write its first gate, and 5 to 8 keep
/// both versions, which are one batch.
pub const VERSIONS: &[u8] = b"1 creat 3 a\n1 write 3 t:a\n1 seek 3 0\n1 read 3 1\n1 write 3 t:bc\n";

/// A new disk at which the listed calls fail, and each one after the stop.
pub fn new_disk(
    rt: &impl AllocGlobal,
    fails: &[u64],
    stop: Option<u64>,
) -> Result<MemDisk, AllocError> {
    let alloc = rt.alloc();
    let fails = fails.to_vec(alloc)?;
    MemDisk::new(alloc, Vec::new(alloc), Vec::new(alloc), fails, stop)
}

/// The words of a run, or of the question for that version of the file.
fn words(rt: &impl AllocGlobal, version: Option<&str>) -> Result<Vec<String>, AllocError> {
    let alloc = rt.alloc();
    let mut words = Vec::new(alloc);
    match version {
        Some(node) => {
            words.push(String::from_str(alloc, "cat")?)?;
            words.push(String::from_str(alloc, node)?)?;
        }
        None => {
            words.push(String::from_str(alloc, "run")?)?;
            words.push(String::from_str(alloc, "--workers")?)?;
            words.push(String::from_str(alloc, "1")?)?;
        }
    }
    Ok(words)
}

/// Runs the trace over a new store and an archive.
pub fn run_over<R: Threads + Wait + Sync + AllocGlobal>(
    rt: &R,
    archive: MemDisk,
) -> Result<OldEnded<MemDisk, MemDisk>, AllocError> {
    let alloc = rt.alloc();
    let words = words(rt, None)?;
    let mut source = MemSource::new(VERSIONS.to_vec(alloc)?, Vec::new(alloc));
    let mut sink = MemSink::new(alloc, Vec::new(alloc));
    let disk = new_disk(rt, &[], None)?;
    Ok(old_main(
        rt,
        alloc,
        &words,
        &mut source,
        &mut sink,
        disk,
        archive,
        &OpenGate,
    ))
}

/// How an archive answers for a version, and with which bytes.
pub fn bytes_of<R: Threads + Wait + Sync + AllocGlobal>(
    rt: &R,
    version: &str,
    archive: MemDisk,
) -> Result<(OldStatus, Vec<u8>, MemDisk), AllocError> {
    let alloc = rt.alloc();
    let words = words(rt, Some(version))?;
    let mut source = MemSource::new(Vec::new(alloc), Vec::new(alloc));
    let mut sink = MemSink::new(alloc, Vec::new(alloc));
    let disk = new_disk(rt, &[], None)?;
    let ended = old_main(
        rt,
        alloc,
        &words,
        &mut source,
        &mut sink,
        disk,
        archive,
        &OpenGate,
    );
    Ok((ended.status, sink.taken().to_vec(alloc)?, ended.archive))
}
