//! Runs over streams that move a byte a call, of which each call of the source and each call of the sink fails in turn.
use crate::running::{new_disk, run_on};
use pass_cli::Status;
use pass_outside::{MemSink, MemSource};
use std::alloc::{AllocError, Global};
use std::process::Abort;
use std::sync::Wait;
use std::test::Fail;
use std::thread::Threads;

/// Two programs and a pipe between them.
const PIPELINE: &[u8] = b"1 creat 3 cat
1 creat 4 sort
1 creat 5 in
1 write 5 t:abc
1 pipe 6 7
1 fork 2
1 fork 3
1 close 6
1 close 7
1 wait 2
1 wait 3
2 exec cat in
2 seek 5 0
2 read 5 4096
2 write 7 buf
3 close 7
3 exec sort
3 read 6 4096
3 creat 8 out
3 write 8 buf
";

/// The first bytes of its report.
const REPORT: &[u8] = b"call 1 1 creat pnode 2\ncall 1 2 creat pnode 3\n";

/// What is written where the source fails.
const FAULT: &[u8] = b"fault read\n";

fn pipeline() -> &'static [u8] {
    PIPELINE
}

// A source of the pipeline that moves a byte a call and fails at these calls.
fn source_of(alloc: Global, fails: &[u64]) -> Result<MemSource, AllocError> {
    let trace = pipeline().to_vec(alloc)?;
    Ok(MemSource::in_steps(trace, 1, fails.to_vec(alloc)?))
}

// The status of a run over that source and a sink that takes a byte a call and fails at these calls, how many entries it hands out,
// and the sink.
fn run_over<R: Threads + Wait + Sync + AllocGlobal>(
    rt: &R,
    mut source: MemSource,
    fails: &[u64],
) -> Result<(Status, usize, MemSink), AllocError> {
    let mut sink = MemSink::in_steps(rt.alloc(), 1, fails.to_vec(rt.alloc())?);
    let ended = run_on(rt, &mut source, &mut sink, new_disk(rt, &[], None)?)?;
    Ok((ended.status, ended.history.len(), sink))
}

// A run of which that call of the source fails: nothing is handed out.
fn check_read<R: Threads + Wait + Sync + Abort + AllocGlobal>(
    rt: &R,
    call: u64,
) -> Result<(), Fail> {
    let (status, entries, sink) = run_over(rt, source_of(rt.alloc(), &[call])?, &[])?;
    assert!(rt; (status, entries) == (Status::ReadFault, 0), "call {call}");
    assert_eq!(rt; sink.taken(), FAULT, "call {call}");
    Ok(())
}

// A run of which that call of the sink fails: each call before it took a byte of the report.
fn check_write<R: Threads + Wait + Sync + Abort + AllocGlobal>(
    rt: &R,
    call: u64,
) -> Result<(), Fail> {
    let (status, entries, sink) = run_over(rt, source_of(rt.alloc(), &[])?, &[call])?;
    assert!(rt;
        (status, entries) == (Status::WriteFault, 54),
        "call {call}"
    );
    assert_eq!(rt; sink.taken().len() as u64 + 1, call);
    assert!(rt; REPORT.starts_with(sink.taken()), "call {call}");
    Ok(())
}

#[test]
fn each_call_of_the_source_fails_in_turn(rt: HostRuntime) -> Result<(), Fail> {
    for call in 1..41 {
        check_read(&rt, call)?;
    }
    // The last one finds the end.
    check_read(&rt, pipeline().len() as u64 + 1)
}

#[test]
fn no_call_of_the_source_is_made_behind_its_end(rt: HostRuntime) -> Result<(), Fail> {
    let source = source_of(rt.alloc(), &[pipeline().len() as u64 + 2])?;
    let (status, entries, sink) = run_over(&rt, source, &[])?;
    assert!(rt; (status, entries) == (Status::Done, 54));
    assert!(rt; sink.taken().starts_with(REPORT));
    Ok(())
}

#[test]
fn each_call_of_the_sink_fails_in_turn(rt: HostRuntime) -> Result<(), Fail> {
    for call in 1..41 {
        check_write(&rt, call)?;
    }
    Ok(())
}
