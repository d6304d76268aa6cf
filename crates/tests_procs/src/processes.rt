//! Processes that share a file, and that meet.
use crate::answers::{Row, check, edges_of};
use crate::calls::{Answer, Call};
use std::test::*;

/// A process that writes what its child has read in between: the link stands already, so nothing is frozen.
fn shares() -> [Row; 6] {
    [
        (0, Call::Creat(3, b'a'), Answer::Made(2)),
        (0, Call::Fork, Answer::Made(3)),
        (0, Call::Write(3, b'x', 1), Answer::Wrote(1, 2, 1)),
        (0, Call::Write(3, b'y', 1), Answer::Wrote(1, 2, 1)),
        (1, Call::Read(3, 1), Answer::Read(1, 2, 1)),
        (0, Call::Write(3, b'z', 1), Answer::Wrote(1, 2, 1)),
    ]
}

#[test]
fn a_link_that_stands_freezes_nothing(rt: HostRuntime) -> Result<(), Fail> {
    let alloc = rt.alloc();
    let records = check(&rt, alloc, 8, 1_000, &shares())?;
    let edges = edges_of(alloc, &records)?;
    let wanted = [((3, 1), (1, 1)), ((2, 1), (1, 1)), ((3, 1), (2, 1))];
    assert!(rt; edges.as_slice() == wanted.as_slice());
    Ok(())
}

/// Processes that meet have seen all that was made until then, and so has one that meets what an ended one had seen.
fn meetings() -> [Row; 10] {
    [
        (0, Call::Creat(3, b'a'), Answer::Made(2)),
        (0, Call::Seen, Answer::Number(3)),
        (0, Call::Fork, Answer::Made(3)),
        (0, Call::Seen, Answer::Number(6)),
        (1, Call::Creat(4, b'b'), Answer::Made(4)),
        (1, Call::Seen, Answer::Number(8)),
        (0, Call::Seen, Answer::Number(6)),
        (0, Call::Meet(1), Answer::Number(8)),
        (1, Call::Retire(0), Answer::Number(9)),
        (0, Call::Seen, Answer::Number(9)),
    ]
}

#[test]
fn processes_that_meet_see_the_same(rt: HostRuntime) -> Result<(), Fail> {
    let alloc = rt.alloc();
    check(&rt, alloc, 8, 1_000, &meetings())?;
    Ok(())
}
