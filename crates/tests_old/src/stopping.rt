//! Runs whose archive stops after each device call, and what each way of a crash leaves of it.
use crate::running::{bytes_of, new_disk, run_over};
use pass_old::OldStatus;
use pass_outside::{Keep, MemDisk};
use pass_status::Status;
use std::alloc::AllocError;
use std::process::Abort;
use std::sync::Wait;
use std::test::Fail;
use std::thread::Threads;

// How many versions a crash leaves after that device call: none or both of the batch.
fn left_after(call: u64, keep: Keep) -> u64 {
    // The byte of an open gate is 1.
    let is_open = matches!(keep, Keep::New | Keep::Fill(1));
    match call {
        0..=6 => 0,
        7 if !is_open => 0,
        _ => 2,
    }
}

// How many of the two versions an archive has, each with its bytes; and the archive.
fn kept<R: Threads + Wait + Sync + AllocGlobal>(
    rt: &R,
    archive: MemDisk,
) -> Result<(Option<u64>, MemDisk), AllocError> {
    let done = OldStatus::Same(Status::Done);
    let (first, one, archive) = bytes_of(rt, "2.1", archive)?;
    let (second, two, archive) = bytes_of(rt, "2.2", archive)?;
    let has_one = first == done && one.as_slice() == b"a".as_slice();
    let has_two = second == done && two.as_slice() == b"abc".as_slice();
    let count = if has_one && has_two {
        Some(2)
    } else if has_one {
        Some(1)
    } else if first == done {
        None
    } else {
        Some(0)
    };
    Ok((count, archive))
}

#[test]
fn a_stop_after_each_device_call(rt: HostRuntime) -> Result<(), Fail> {
    for call in 1..9 {
        // No call is made behind the last one.
        let want = if call < 8 {
            OldStatus::ArchiveFault
        } else {
            OldStatus::Same(Status::Done)
        };
        for keep in [
            Keep::Old,
            Keep::New,
            Keep::Fill(0),
            Keep::Fill(1),
            Keep::Fill(7),
        ] {
            let ended = run_over(&rt, new_disk(&rt, &[], Some(call))?)?;
            assert!(rt; ended.status == want, "call {call}");
            let (left, archive) = kept(&rt, ended.archive.after_crash(keep)?)?;
            assert!(rt; left == Some(left_after(call, keep)), "call {call}");
            // The next run goes on behind what is left.
            let (all, _archive) = kept(&rt, run_over(&rt, archive)?.archive)?;
            assert!(rt; all == Some(2), "after call {call}");
        }
    }
    Ok(())
}
