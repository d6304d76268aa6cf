//! A store in memory that is opened, while each of its calls fails in turn.
use pass_outside::{Disk, MemDisk};
use pass_recover::{OpenFault, recover};
use std::alloc::{AllocError, Global};
use std::test::Fail;

/// The log of a session in which process 1 creates the file `a` and writes `abc`.
const SESSION: &[u8] = b"\x01\0\0\0\x09\x08\0\0\0\0\0\0\0\x02\x01\0\0\0\x6e\
\x01\0\0\0\0\0\0\0\x01\x01\
\x01\0\0\0\0\0\0\0\x02\x02\
\x02\0\0\0\0\0\0\0\x02\x01a\
\x04\0\0\0\0\0\0\0\x02\0\0\0\0\0\0\0\x01\0\0\0\0\0\0\0\x01\0\0\0\0\0\0\0\x01\
\x06\0\0\0\0\0\0\0\x02\0\0\0\0\0\0\0\x03\
\x07\0\0\0\0\0\0\0\x02\0\0\0\0\x90\x01\x50\x98\x3c\xd2\x4f\xb0\xd6\x96\x3f\x7d\x28\xe1\x7f\x72\
\0";

// With how many records a disk opens; none where a call of it fails.
fn records(alloc: Global, disk: &mut MemDisk) -> Option<usize> {
    match recover(alloc, disk) {
        Ok(opening) => Some(opening.image.list.len()),
        Err(OpenFault::DiskFault) => None,
        Err(_) => Some(0),
    }
}

// What a disk with the session opens with of which that call fails, and how many calls it has then.
fn opened(alloc: Global, fail: u64) -> Result<(Option<usize>, u64), AllocError> {
    let log = SESSION.to_vec(alloc)?;
    let store = b"abc".to_vec(alloc)?;
    let mut disk = MemDisk::new(alloc, log, store, [fail].to_vec(alloc)?, None)?;
    let records = records(alloc, &mut disk);
    Ok((records, disk.calls()))
}

#[test]
fn each_call_fails_in_turn(rt: HostRuntime) -> Result<(), Fail> {
    // Two syncs, the log's length, its bytes, and the block.
    for fail in 1..6 {
        let found = opened(rt.alloc(), fail)?;
        assert!(rt; found == (None, fail), "call {fail}");
    }
    let found = opened(rt.alloc(), 6)?;
    assert!(rt; found == (Some(7), 5));
    Ok(())
}
