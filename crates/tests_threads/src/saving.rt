//! A call that is answered while another thread's sync is at the disk.
use crate::running::{new_disk, status_of};
use crate::turns::Meeting;
use pass_cli::Status;
use pass_entry::Pnode;
use pass_outside::{Area, Gate, Watch, WatchDisk};
use std::alloc::{AllocError, Global};
use std::sync::Wait;
use std::test::*;
use std::thread::Threads;

/// The second process changes a file and makes it durable; the third makes one of its own, and then goes on.
const TRACE: &[u8] =
    b"1 creat 3 a\n1 fork 2\n1 fork 3\n2 write 3 t:abc\n2 sync 3\n3 creat 4 b\n3 close 4\n";

/// The line by which the third process makes its file.
const CREAT: u32 = 6;

/// How far the two threads are.
#[derive(Drop)]
struct Stage {
    syncing: Meeting,
    at_disk: Meeting,
    answered: Meeting,
}

impl Stage {
    fn new() -> Stage {
        Stage {
            syncing: Meeting::new(),
            at_disk: Meeting::new(),
            answered: Meeting::new(),
        }
    }
}

/// Holds the third process until the frame is at the disk, and sees when its call has been answered.
#[derive(Drop)]
struct Steps<'s> {
    stage: &'s Stage,
}

impl<'s> Gate for Steps<'s> {
    fn enter(&self, process: u32, line: u32) {
        if process == 2 {
            self.stage.syncing.come();
        }
        if process == 3 && line == CREAT {
            self.stage.at_disk.wait_for(1);
        }
        if process == 3 && line > CREAT {
            self.stage.answered.come();
        }
    }

    fn inside(&self, _pnode: Pnode) {}
}

/// Holds the write of the sync's frame until the third process's call is answered.
#[derive(Drop)]
struct Held<'s> {
    stage: &'s Stage,
}

impl<'s> Watch for Held<'s> {
    fn before(&self, area: Area, _at: u64) {
        if area == Area::Log && self.stage.syncing.has(1) {
            self.stage.at_disk.come();
            self.stage.answered.wait_for(1);
        }
    }
}

/// How the run over the watched disk ends.
fn run_held<R: Threads + Wait + Sync>(
    rt: &R,
    alloc: Global,
    stage: &Stage,
) -> Result<Status, AllocError> {
    let disk = WatchDisk::new(new_disk(alloc)?, Held { stage });
    status_of(rt, alloc, TRACE, disk, &Steps { stage })
}

#[test]
fn a_call_is_answered_while_a_frame_is_written(rt: HostRuntime) -> Result<(), Fail> {
    let stage = Stage::new();
    let status = run_held(&rt, rt.alloc(), &stage)?;
    assert!(rt; status == Status::Done);
    assert_eq!(rt; stage.at_disk.late(), 0);
    assert_eq!(rt; stage.answered.late(), 0);
    Ok(())
}
