//! A pipe that is full.
use crate::answers::{Row, check};
use crate::calls::{Answer, Call};
use std::test::*;

/// A write that waits goes on as the same call once there is room for it; the pipe then has 65,536 bytes, and takes no further one.
fn waits() -> [Row; 7] {
    [
        (0, Call::Write(4, b'b', 4_093), Answer::Wrote(4_093, 2, 1)),
        (0, Call::Write(4, b'c', 4), Answer::Again),
        (0, Call::Number, Answer::Number(19)),
        (1, Call::Read(3, 1), Answer::Read(1, 2, 1)),
        (0, Call::Write(4, b'c', 4), Answer::Wrote(4, 2, 1)),
        (0, Call::Number, Answer::Number(19)),
        (0, Call::Write(4, b'd', 1), Answer::Again),
    ]
}

#[test]
fn a_full_pipe_is_waited_for(rt: HostRuntime) -> Result<(), Fail> {
    let alloc = rt.alloc();
    let mut rows = Vec::new(alloc);
    rows.push((0, Call::Pipe(3, 4), Answer::Made(2)))?;
    rows.push((0, Call::Fork, Answer::Made(3)))?;
    for _ in 0..15 {
        rows.push((0, Call::Write(4, b'a', 4_096), Answer::Wrote(4_096, 2, 1)))?;
    }
    for row in waits() {
        rows.push(row)?;
    }
    check(&rt, alloc, 8, 1_000, &rows)?;
    Ok(())
}
