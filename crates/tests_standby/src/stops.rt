//! A standby whose disk stops or fails at each of its device calls: another one goes on from what is left.
use pass_entry::Record;
use pass_outside::{Keep, MemDisk};
use pass_recover::recover;
use pass_standby::{Standby, StandbyFault};
use std::alloc::{AllocError, Global};
use std::test::Fail;

/// A ceiling of 1, process 1, and a ceiling of 2, each in a frame.
const STREAM: &[u8] = b"\x01\0\0\0\x09\x08\0\0\0\0\0\0\0\x01\
\x01\0\0\0\x0a\x01\0\0\0\0\0\0\0\x01\x01\
\x01\0\0\0\x09\x08\0\0\0\0\0\0\0\x02";

/// A position, and how many records stand in front of it.
type Reached = (u64, usize);

// The position behind so many frames, of a record each.
fn behind(frames: usize) -> Reached {
    match frames {
        0 => (0, 0),
        1 => (14, 1),
        2 => (29, 2),
        _ => (43, 3),
    }
}

// A disk without bytes, at which the listed device calls fail, and each one after the stop.
fn fresh(alloc: Global, fail: &[u64], stop: Option<u64>) -> Result<MemDisk, AllocError> {
    let fail = fail.to_vec(alloc)?;
    MemDisk::new(alloc, Vec::new(alloc), Vec::new(alloc), fail, stop)
}

/// How far a standby came: the last position that it answered, and the fault that ended it.
type Came = (u64, Option<StandbyFault>);

// Feeds pieces up to a fault.
fn feed_all(standby: &mut Standby<MemDisk>, pieces: &[&[u8]]) -> Came {
    let mut at = standby.position();
    for piece in pieces {
        match standby.feed(piece) {
            Ok(answered) => at = answered,
            Err(fault) => return (at, Some(fault)),
        }
    }
    (at, None)
}

// Feeds the stream in three pieces, none of which ends where a frame does. The device calls: 1 and 2 read the log, 3 and 4 make
// its first gate, and each frame has four.
fn fed(alloc: Global, disk: MemDisk) -> (Came, MemDisk) {
    match Standby::open(alloc, disk) {
        Ok(mut standby) => {
            let came = feed_all(
                &mut standby,
                &[&STREAM[..20], &STREAM[20..35], &STREAM[35..]],
            );
            (came, standby.into_disk())
        }
        Err((fault, disk)) => ((0, Some(fault)), disk),
    }
}

// Whether a record is the one of the stream with that number.
fn is_of_stream(place: usize, one: &Record) -> bool {
    match one {
        Record::Ceiling { pnode } => (place == 0 && pnode.0 == 1) || (place == 2 && pnode.0 == 2),
        Record::Object { pnode, .. } => place == 1 && pnode.0 == 1,
        _ => false,
    }
}

// How many records these are, if they are the stream's first.
fn count(list: &[Record]) -> Option<usize> {
    for (place, one) in list.iter().enumerate() {
        if !is_of_stream(place, one) {
            return None;
        }
    }
    Some(list.len())
}

// How many records a store has that takes over.
fn taken_over(alloc: Global, disk: &mut MemDisk) -> Option<usize> {
    let opening = recover(alloc, disk).ok()?;
    count(&opening.image.list)
}

// What a standby opens with, and what its disk has with the rest of the stream.
fn goes_on(alloc: Global, disk: MemDisk) -> Option<(Reached, Reached)> {
    let mut standby = Standby::open(alloc, disk).ok()?;
    let from = standby.position();
    let records = count(standby.index().records())?;
    let rest = STREAM.get(from as usize..)?;
    let at = standby.feed(rest).ok()?;
    let mut disk = standby.into_disk();
    let all = taken_over(alloc, &mut disk)?;
    Some(((from, records), (at, all)))
}

// A stop, a crash, and a standby on what is left.
fn after_a_stop(alloc: Global, stop: u64, keep: Keep) -> Option<(Came, Reached, Reached)> {
    let disk = fresh(alloc, &[], Some(stop)).ok()?;
    let (came, disk) = fed(alloc, disk);
    let (left, all) = goes_on(alloc, disk.after_crash(keep).ok()?)?;
    Some((came, left, all))
}

// A device call that fails, and another standby on the disk.
fn after_a_fault(alloc: Global, fail: u64) -> Option<(Came, Reached, Reached)> {
    let disk = fresh(alloc, &[fail], None).ok()?;
    let (came, disk) = fed(alloc, disk);
    let (left, all) = goes_on(alloc, disk)?;
    Some((came, left, all))
}

// The fault of a feed whose answered position lies behind so many of the three frames.
fn came(frames: usize) -> Came {
    let fault = if frames < 3 {
        Some(StandbyFault::DiskFault)
    } else {
        None
    };
    (behind(frames).0, fault)
}

#[test]
fn a_stop_after_each_call(rt: HostRuntime) -> Result<(), Fail> {
    let keeps = [Keep::Old, Keep::New, Keep::Fill(0), Keep::Fill(1)];
    // A row for each number of calls that were made: behind how many frames a position was answered, and how many are left.
    let table: [(usize, [usize; 4]); 17] = [
        (0, [0, 0, 0, 0]),
        (0, [0, 0, 0, 0]),
        (0, [0, 0, 0, 0]),
        (0, [0, 0, 0, 0]),
        (0, [0, 0, 0, 0]),
        (0, [0, 0, 0, 0]),
        (0, [0, 0, 0, 0]),
        (0, [0, 1, 0, 1]),
        (1, [1, 1, 1, 1]),
        (1, [1, 1, 1, 1]),
        (1, [1, 1, 1, 1]),
        (1, [1, 2, 1, 2]),
        (2, [2, 2, 2, 2]),
        (2, [2, 2, 2, 2]),
        (2, [2, 2, 2, 2]),
        (2, [2, 3, 2, 3]),
        (3, [3, 3, 3, 3]),
    ];
    for (stop, (answered, row)) in table.iter().enumerate() {
        for (keep, left) in keeps.iter().zip(row.iter()) {
            let found = after_a_stop(rt.alloc(), stop as u64, *keep);
            let want = Some((came(*answered), behind(*left), behind(3)));
            assert!(rt; found == want, "stop {stop}");
        }
    }
    Ok(())
}

#[test]
fn each_call_fails_in_turn(rt: HostRuntime) -> Result<(), Fail> {
    // A row for each call that fails, behind the row of none: behind how many frames a position was answered, and how many are
    // left.
    let table: [(usize, usize); 17] = [
        (3, 3),
        (0, 0),
        (0, 0),
        (0, 0),
        (0, 0),
        (0, 0),
        (0, 0),
        (0, 0),
        (0, 1),
        (1, 1),
        (1, 1),
        (1, 1),
        (1, 2),
        (2, 2),
        (2, 2),
        (2, 2),
        (2, 3),
    ];
    for (call, (answered, left)) in table.iter().enumerate() {
        let found = after_a_fault(rt.alloc(), call as u64);
        let want = Some((came(*answered), behind(*left), behind(3)));
        assert!(rt; found == want, "call {call}");
    }
    Ok(())
}
