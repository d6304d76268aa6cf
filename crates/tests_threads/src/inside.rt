//! Two threads in calls on files of their own, at once.
use crate::running::{new_disk, status_of};
use crate::turns::Meeting;
use pass_cli::Status;
use pass_entry::Pnode;
use pass_outside::Gate;
use std::test::*;

/// Two processes write to a file each, whose numbers are 2 and 3.
const TRACE: &[u8] =
    b"1 creat 3 a\n1 creat 4 b\n1 fork 2\n1 fork 3\n2 write 3 t:abc\n3 write 4 t:abc\n";

/// Holds whoever is inside one of the two files, with its lock held, until both are.
#[derive(Drop)]
struct Both {
    inside: Meeting,
}

impl Gate for Both {
    fn enter(&self, _process: u32, _line: u32) {}

    fn inside(&self, pnode: Pnode) {
        if pnode.0 == 2 || pnode.0 == 3 {
            self.inside.come();
            self.inside.wait_for(2);
        }
    }
}

#[test]
fn two_files_are_written_at_once(rt: HostRuntime) -> Result<(), Fail> {
    let alloc = rt.alloc();
    let gate = Both {
        inside: Meeting::new(),
    };
    let status = status_of(&rt, alloc, TRACE, new_disk(alloc)?, &gate)?;
    assert!(rt; status == Status::Done);
    assert!(rt; gate.inside.has(2));
    assert_eq!(rt; gate.inside.late(), 0);
    Ok(())
}
