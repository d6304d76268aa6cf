//! Sessions that may make no further object, or have no room for another call.
use crate::answers::{Row, check};
use crate::calls::{Answer, Call};
use pass_entry::CallFault;
use std::test::*;

/// How many entries a session has room for, and what the calls of its one process answer.
fn rooms() -> [(u32, [Row; 2]); 3] {
    let many = Answer::Refused(CallFault::TooMany);
    let unheld = Answer::Refused(CallFault::BadFd);
    [
        (
            1_000,
            [(0, Call::MakeObject(3), many), (0, Call::Fork, many)],
        ),
        (
            66,
            [
                (0, Call::Freeze(3), Answer::Full(0, 3)),
                (0, Call::Fork, Answer::Full(0, 132)),
            ],
        ),
        (
            69,
            [
                (0, Call::Freeze(3), unheld),
                (0, Call::Freeze(3), Answer::Full(2, 3)),
            ],
        ),
    ]
}

/// A call asks for its places first, and gives back what it does not use.
#[test]
fn the_first_process_is_alone(rt: HostRuntime) -> Result<(), Fail> {
    for (entries, rows) in rooms() {
        check(&rt, rt.alloc(), 1, entries.clamp(66, 1_000), &rows)?;
    }
    Ok(())
}
