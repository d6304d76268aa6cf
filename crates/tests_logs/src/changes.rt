//! Each change of one byte of a log.
use crate::judging::first_flaw;
use crate::pipeline::PIPELINE;
use crate::reading::{Unread, rows};
use pass_entry::FlawReason;
use pass_outside::MemDisk;
use pass_record::RecordFault;
use pass_recover::{OpenFault, recover};
use std::alloc::{AllocError, Global};
use std::test::Fail;

/// What is said of a log.
#[derive(Clone, Copy, PartialEq, Eq)]
enum Told {
    Sound(usize),
    Frame(u64),
    Record(u64, RecordFault),
    Flaw(u64, FlawReason),
    Nothing,
}

/// What the opening of a store says of its log.
fn opening(alloc: Global, log: &[u8]) -> Result<Told, AllocError> {
    let mut disk = MemDisk::new(
        alloc,
        log.to_vec(alloc)?,
        Vec::new(alloc),
        Vec::new(alloc),
        None,
    )?;
    Ok(match recover(alloc, &mut disk) {
        Ok(found) => Told::Sound(found.image.list.len()),
        Err(OpenFault::BadFrame { at }) => Told::Frame(at),
        Err(OpenFault::BadRecord { place, fault }) => Told::Record(place, fault),
        Err(OpenFault::Flaw { place, reason }) => Told::Flaw(place, reason),
        Err(_) => Told::Nothing,
    })
}

/// What a plain reading says of a log.
fn plain_reading(alloc: Global, log: &[u8]) -> Told {
    match rows(alloc, log) {
        Ok(rows) => match first_flaw(rows.as_slice()) {
            Some((place, reason)) => Told::Flaw(place, reason),
            None => Told::Sound(rows.len()),
        },
        Err(Unread::Frame(at)) => Told::Frame(at),
        Err(Unread::Record(place, fault)) => Told::Record(place, fault),
        Err(Unread::Memory) => Told::Nothing,
    }
}

/// Whether both readings say the same of a log, and say something.
fn agree(alloc: Global, log: &[u8]) -> Result<bool, AllocError> {
    let told = opening(alloc, log)?;
    Ok(told != Told::Nothing && told == plain_reading(alloc, log))
}

#[test]
fn each_change_of_a_byte_is_told_exactly(rt: HostRuntime) -> Result<(), Fail> {
    let alloc = rt.alloc();
    let mut log = PIPELINE.to_vec(alloc)?;
    for place in 0..log.len() {
        let was = log[place];
        for value in 0..=255 {
            log[place] = value;
            let agree = agree(alloc, &log)?;
            assert!(rt; agree, "{value} at {place}");
        }
        log[place] = was;
    }
    Ok(())
}
