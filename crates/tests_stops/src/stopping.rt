//! Runs of a sync that stop after each device call, and what each way of a crash leaves.
use crate::running::{SYNC, new_disk, run_on};
use pass_cli::Status;
use pass_entry::Pnode;
use pass_outside::{Keep, MemDisk, MemSink, MemSource};
use pass_range::Range;
use pass_recover::recover;
use std::alloc::{AllocError, Global};
use std::process::Abort;
use std::sync::Wait;
use std::test::Fail;
use std::thread::Threads;

// How many records a crash leaves after that device call, and whether the file's block disagrees with its digest.
fn left_after(call: u64, keep: Keep) -> (usize, bool) {
    // The byte of an open gate is 1.
    let is_open = matches!(keep, Keep::New | Keep::Fill(1));
    match call {
        0..=7 => (0, false),
        8 if !is_open => (0, false),
        8..=11 => (1, false),
        12 if !is_open => (1, false),
        12 | 13 => (7, true),
        14 => (7, keep != Keep::New),
        _ => (7, false),
    }
}

// How many records a disk opens with, and whether one range is unmatched, the file's block.
fn found(alloc: Global, disk: &mut MemDisk) -> Option<(usize, bool)> {
    let opening = recover(alloc, disk).ok()?;
    let block = Range {
        pnode: Pnode(2),
        block: 0,
    };
    Some((
        opening.image.list.len(),
        opening.unmatched.as_slice() == [block].as_slice(),
    ))
}

// The status of a run of that trace, the bytes of its report, and its disk.
fn run<R: Threads + Wait + Sync + AllocGlobal>(
    rt: &R,
    trace: &[u8],
    disk: MemDisk,
) -> Result<(Status, Vec<u8>, MemDisk), AllocError> {
    let alloc = rt.alloc();
    let mut source = MemSource::new(trace.to_vec(alloc)?, Vec::new(alloc));
    let mut sink = MemSink::new(alloc, Vec::new(alloc));
    let ended = run_on(rt, &mut source, &mut sink, disk)?;
    Ok((ended.status, sink.taken().to_vec(alloc)?, ended.disk))
}

#[test]
fn a_stop_after_each_device_call(rt: HostRuntime) -> Result<(), Fail> {
    let fault = Status::DiskFault { opened: 0, now: 1 };
    for call in 1..16 {
        // No call is made behind the last one.
        let want = if call < 15 { fault } else { Status::Done };
        for keep in [
            Keep::Old,
            Keep::New,
            Keep::Fill(0),
            Keep::Fill(1),
            Keep::Fill(7),
        ] {
            let (status, _text, disk) = run(&rt, SYNC, new_disk(&rt, &[], Some(call))?)?;
            assert!(rt; status == want, "call {call}");
            let left = found(rt.alloc(), &mut disk.after_crash(keep)?);
            assert!(rt; left == Some(left_after(call, keep)), "call {call}");
        }
    }
    Ok(())
}

#[test]
fn a_torn_gate_is_open_or_closed(rt: HostRuntime) -> Result<(), Fail> {
    // Once the ceiling is durable, no number up to it is given again.
    for (call, keep, process) in [
        (8, Keep::Old, b"1"),
        (8, Keep::New, b"3"),
        (12, Keep::Fill(7), b"3"),
        (12, Keep::Fill(1), b"3"),
    ] {
        let (_status, _text, disk) = run(&rt, SYNC, new_disk(&rt, &[], Some(call))?)?;
        let (status, text, _disk) = run(&rt, b"", disk.after_crash(keep)?)?;
        assert!(rt; status == Status::Done);
        assert!(rt; text.as_slice().starts_with(b"call "), "call {call}");
        assert!(rt; text.as_slice()[5..].starts_with(process), "call {call}");
    }
    Ok(())
}
