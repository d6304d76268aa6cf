//! A file that is made durable, and the calls that the device has then.
use crate::answers::{Row, compare, told_in};
use crate::calls::{Answer, Call};
use pass_entry::Synced;
use pass_outside::Disk;
use pass_vault::Receipt;
use std::test::*;

/// Makes a file, writes to it and syncs it.
fn saves() -> [Row; 3] {
    [
        (0, Call::Creat(3, b'a'), Answer::Made(2)),
        (0, Call::Write(3, b'x', 3), Answer::Wrote(3, 2, 1)),
        (0, Call::Sync(3), Answer::Synced(15, 6)),
    ]
}

fn synced(calls: u64, entries: u64) -> Synced {
    Synced { calls, entries }
}

/// The device has three calls as the store is read, six for the ceiling and its gate, four for the frame of the sync, and two for the
/// block. What comes behind has no record and changes no block: it is durable without a call.
#[test]
fn a_sync_has_six_device_calls(rt: HostRuntime) -> Result<(), Fail> {
    let alloc = rt.alloc();
    let told = told_in(&rt, alloc, 2, 1_000, &saves())?;
    compare(&rt, &told.answers, &saves());
    let settled = Receipt {
        calls: 15,
        entries: 8,
    };
    assert!(rt; told.finished.settled == Ok(settled));
    let syncs = [synced(13, 6), synced(15, 6), synced(15, 8)];
    assert!(rt; told.finished.closed.syncs.as_slice() == syncs.as_slice());
    Ok(())
}

/// The whole store is settled, which writes the frame and the block; then two syncs, and once more the whole store.
fn again() -> [Row; 6] {
    [
        (0, Call::Creat(3, b'a'), Answer::Made(2)),
        (0, Call::Write(3, b'x', 3), Answer::Wrote(3, 2, 1)),
        (0, Call::Settle, Answer::Synced(15, 5)),
        (0, Call::Sync(3), Answer::Synced(15, 6)),
        (0, Call::Sync(3), Answer::Synced(15, 8)),
        (0, Call::Settle, Answer::Synced(15, 9)),
    ]
}

#[test]
fn a_needless_sync_has_no_device_call(rt: HostRuntime) -> Result<(), Fail> {
    let alloc = rt.alloc();
    let told = told_in(&rt, alloc, 2, 1_000, &again())?;
    compare(&rt, &told.answers, &again());
    assert!(rt; told.finished.closed.disk.calls() == 15);
    Ok(())
}

/// Blocks that have changed are put aside once, and no more at a time than are asked for.
fn aside() -> [Row; 8] {
    [
        (0, Call::Creat(3, b'a'), Answer::Made(2)),
        (0, Call::Creat(4, b'b'), Answer::Made(3)),
        (0, Call::Write(3, b'x', 4_096), Answer::Wrote(4_096, 2, 1)),
        (0, Call::Write(3, b'x', 3), Answer::Wrote(3, 2, 1)),
        (0, Call::Write(4, b'y', 3), Answer::Wrote(3, 3, 1)),
        (0, Call::Trickle(1), Answer::Number(1)),
        (0, Call::Trickle(8), Answer::Number(2)),
        (0, Call::Trickle(8), Answer::Number(0)),
    ]
}

/// The device has nine calls before the first call of a process, four for the frame, and one for each block and each file as the store
/// is settled.
#[test]
fn a_block_that_was_put_aside_is_written_at_the_end(rt: HostRuntime) -> Result<(), Fail> {
    let alloc = rt.alloc();
    let told = told_in(&rt, alloc, 3, 1_000, &aside())?;
    compare(&rt, &told.answers, &aside());
    assert!(rt; told.finished.settled.is_ok());
    assert!(rt; told.finished.closed.disk.calls() == 18);
    Ok(())
}
