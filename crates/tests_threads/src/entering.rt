//! Two processes of a run at their lines, at once.
use crate::running::{new_disk, status_of};
use crate::turns::Meeting;
use pass_cli::Status;
use pass_entry::Pnode;
use pass_outside::Gate;
use std::test::*;

/// One process makes two others, which make a line each.
const TRACE: &[u8] = b"1 fork 2\n1 fork 3\n2 creat 3 a\n3 creat 3 b\n";

/// Holds the second process at its line until the third has come to its own.
#[derive(Drop)]
struct Held {
    third: Meeting,
}

impl Gate for Held {
    fn enter(&self, process: u32, _line: u32) {
        if process == 2 {
            self.third.wait_for(1);
        }
        if process == 3 {
            self.third.come();
        }
    }

    fn inside(&self, _pnode: Pnode) {}
}

#[test]
fn a_process_goes_on_while_another_is_held(rt: HostRuntime) -> Result<(), Fail> {
    let alloc = rt.alloc();
    let gate = Held {
        third: Meeting::new(),
    };
    let status = status_of(&rt, alloc, TRACE, new_disk(alloc)?, &gate)?;
    assert!(rt; status == Status::Done);
    assert_eq!(rt; gate.third.late(), 0);
    Ok(())
}
