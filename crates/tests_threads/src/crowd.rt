//! Eight threads that read and write two files and a pipe of one store.
use crate::judging::judge;
use crate::running::{new_disk, run};
use crate::turns::Meeting;
use pass_cli::Status;
use pass_entry::Pnode;
use pass_outside::Gate;
use std::alloc::{AllocError, Global};
use std::test::*;

/// How often each of the eight processes makes its six calls.
const ROUNDS: u32 = 1_667;

/// The first process makes what all hold, and the eight others.
const FIRST: &[u8] =
    b"1 creat 3 a\n1 creat 4 b\n1 pipe 5 6\n1 fork 2\n1 fork 3\n1 fork 4\n1 fork 5\n1 fork 6\n1 fork 7\n1 fork 8\n1 fork 9\n";

/// What each of the others does, on one file, on the other one and on the pipe. It reads from the pipe after it wrote as much, so no read
/// waits.
const CALLS: [&[u8]; 6] = [
    b" write 3 t:abc\n",
    b" read 4 4\n",
    b" write 6 t:abc\n",
    b" seek 3 0\n",
    b" write 4 t:abc\n",
    b" read 5 3\n",
];

/// Lets nobody begin until all eight have come to their first lines.
#[derive(Drop)]
struct Start {
    come: Meeting,
}

impl Gate for Start {
    fn enter(&self, process: u32, _line: u32) {
        if process > 1 {
            self.come.come();
            self.come.wait_for(8);
        }
    }

    fn inside(&self, _pnode: Pnode) {}
}

/// The next line of each of the eight processes, which all make the same call.
fn add_lines(trace: &mut Vec<u8>, call: &[u8]) -> Result<(), AllocError> {
    for process in b'2'..=b'9' {
        trace.push(process)?;
        trace.extend_from_slice(call)?;
    }
    Ok(())
}

fn add_round(trace: &mut Vec<u8>) -> Result<(), AllocError> {
    for call in CALLS {
        add_lines(trace, call)?;
    }
    Ok(())
}

fn trace(alloc: Global) -> Result<Vec<u8>, AllocError> {
    let mut trace = FIRST.to_vec(alloc)?;
    for _ in 0..ROUNDS {
        add_round(&mut trace)?;
    }
    Ok(trace)
}

#[test]
fn eight_threads_make_one_legal_history(rt: HostRuntime) -> Result<(), Fail> {
    let alloc = rt.alloc();
    let gate = Start {
        come: Meeting::new(),
    };
    let ended = run(&rt, alloc, trace(alloc)?, new_disk(alloc)?, &gate)?;
    assert!(rt; ended.status == Status::Done);
    assert_eq!(rt; gate.come.late(), 0);
    judge(&rt, alloc, &ended.history)
}
