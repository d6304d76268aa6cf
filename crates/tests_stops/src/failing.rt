//! Runs of which each device call fails in turn.
use crate::running::{SYNC, new_disk, run_on};
use pass_cli::Status;
use pass_outside::{MemSink, MemSource};
use std::alloc::AllocError;
use std::process::Abort;
use std::sync::Wait;
use std::test::Fail;
use std::thread::Threads;

// The status of a run of the sync of which that device call fails, and how many entries it hands out.
fn with_disk_fault<R: Threads + Wait + Sync + AllocGlobal>(
    rt: &R,
    call: u64,
) -> Result<(Status, usize), AllocError> {
    let alloc = rt.alloc();
    let mut source = MemSource::new(SYNC.to_vec(alloc)?, Vec::new(alloc));
    let mut sink = MemSink::new(alloc, Vec::new(alloc));
    let ended = run_on(rt, &mut source, &mut sink, new_disk(rt, &[call], None)?)?;
    Ok((ended.status, ended.history.len()))
}

#[test]
fn each_device_call_fails_in_turn(rt: HostRuntime) -> Result<(), Fail> {
    let fault = Status::DiskFault { opened: 0, now: 1 };
    for call in 1..16 {
        // The store is opened by the first nine.
        let entries = if call < 10 { 0 } else { 6 };
        let (status, count) = with_disk_fault(&rt, call)?;
        assert!(rt; status == fault && count == entries, "call {call}");
    }
    Ok(())
}
