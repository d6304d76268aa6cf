//! What a log area tells.
ghost use Rattle.std.specs.Prelude.{◌≡◌, ◌⊎◌, ◌<◌, ◌≤◌, ◌+◌, ◌^◌, ◌↔◌, List, ℕ, length, take, drop, IsTrue, Ok, Err, IfOk, IfErr, IfSome, IfNone, OnOk, IsErrOf};
ghost use Rattle.std.specs.List.{All};
ghost use Rattle.pass_entry.specs.Ranges.{IsInRange};
ghost use Rattle.pass_log.specs.Frames.{Frames, number, scan};
ghost use Rattle.pass_log.specs.Records.{image_of, joined, records_in, records_of, Fails, Gives};
ghost use Rattle.pass_log.specs.LogImage.{held_in};

use crate::LogFault;
use pass_entry::Record;
use pass_num::Cursor;
use pass_record::{RecordFault, decode};
use std::alloc::Global;

// The byte of an open gate.
const OPEN: u8 = 1;

// How many bytes stand in the log before a frame's records: its gate and its length.
const FRAME_HEAD: u64 = 5;

/// The records of a log area, the place of the gate behind its last frame, in bytes, and whether the area holds at
/// most one byte.
#[derive(Drop)]
pub struct LogImage {
    pub list: Vec<Record>,
    pub end: u64,
    pub short: bool,
}

// The frame behind an open gate at the front, and what follows it, which isn't empty.
fn frame_at(bytes: &[u8]) -> Option<(&[u8], &[u8])>
    requires { 0 < length bytes.now }
    ensures fits { IfSome result (λ f. number (drop 1 bytes.now) + 4 < length (drop 1 bytes.now)) }
    ensures frame { IfSome result (λ f. f.0.now ≡ take (number (drop 1 bytes.now)) (drop 4 (drop 1 bytes.now))) }
    ensures rest { IfSome result (λ f. f.1.now ≡ drop (number (drop 1 bytes.now) + 4) (drop 1 bytes.now)) }
    ensures none { IfNone result (length (drop 1 bytes.now) ≤ number (drop 1 bytes.now) + 4) }
{
    let mut cursor = Cursor::new(&bytes[1..]);
    let Ok(count) = cursor.take_u32() else {
        return None;
    };
    let Ok(frame) = cursor.take_bytes(count as usize) else {
        return None;
    };
    let after = cursor.left();
    if after.is_empty() {
        return None;
    }
    Some((frame, after))
}

// The end of the frames in the bytes of a log area.
fn frames_end(bytes: &[u8]) -> Result<u64, LogFault>
    requires { length bytes.now ≤ 2 ^ 39 }
    ensures ok { IfOk result (λ end. (frames : List (List ℕ)) × (scan 0 0 bytes.now ≡ Ok (record { list = frames; end = end }))) }
    ensures place { IfOk result (λ end. end ≤ length bytes.now) }
    ensures broken { IfErr result (λ e. (at : ℕ) × (e ≡ LogFault.BadFrame at) × (scan 0 0 bytes.now ≡ Err at)) }
{
    let mut place: u64 = 0;
    let mut rest = bytes;
    while !rest.is_empty() && rest[0] == OPEN {
        let Some((frame, after)) = frame_at(rest) else {
            return Err(LogFault::BadFrame { at: place });
        };
        place += FRAME_HEAD + frame.len() as u64;
        rest = after;
    }
    Ok(place)
}

// The fault of a record of that number.
fn fault_of(place: u64, fault: RecordFault) -> LogFault
    ensures memory { fault ≡ RecordFault.NoMemory → result ≡ LogFault.NoMemory }
    ensures bytes { (fault ≡ RecordFault.NoMemory → ⊥) → result ≡ LogFault.BadRecord place fault }
{
    match fault {
        RecordFault::NoMemory => LogFault::NoMemory,
        _ => LogFault::BadRecord { place, fault },
    }
}

// Puts the records of a frame behind those of the frames before it.
fn read_frame(alloc: Global, frame: &[u8], list: &mut Vec<Record>) -> Result<(), LogFault>
    ensures ok { OnOk result (joined list.old.items (records_in 0 (length list.old.items) frame.now) ≡ Ok list.new.items) }
    ensures err { IfErr result (λ e. Fails e (records_in 0 (length list.old.items) frame.now)) }
    ensures in_range { OnOk result (All IsInRange list.old.items → All IsInRange list.new.items) }
{
    let mut rest = frame;
    while !rest.is_empty() {
        match decode(alloc, rest) {
            Ok((one, len)) => {
                list.push(one)?;
                rest = &rest[len..];
            }
            Err(fault) => return Err(fault_of(list.len() as u64, fault)),
        }
    }
    Ok(())
}

// The records of frames of which each one is whole.
fn read_frames(alloc: Global, bytes: &[u8]) -> Result<Vec<Record>, LogFault>
    ensures exact { (frames : List (List ℕ)) (end : ℕ) → scan 0 0 bytes.now ≡ Ok (record { list = frames; end = end })
        → Gives (λ list. list.items) result (records_of 0 frames) }
    ensures in_range { IfOk result (λ list. All IsInRange list.items) }
{
    let mut list = Vec::new(alloc);
    let mut rest = bytes;
    while !rest.is_empty() && rest[0] == OPEN {
        let Some((frame, after)) = frame_at(rest) else {
            return Ok(list);
        };
        read_frame(alloc, frame, &mut list)?;
        rest = after;
    }
    Ok(list)
}

/// The image of a log area's bytes: the frames are judged first, then their records.
pub fn parse(alloc: Global, bytes: &[u8]) -> Result<LogImage, LogFault>
    requires { length bytes.now ≤ 2 ^ 39 }
    ensures exact { Gives held_in result (image_of bytes.now) }
    ensures short { IfOk result (λ image. IsTrue image.short ↔ (length bytes.now ≤ 1)) }
    ensures end { IfOk result (λ image. image.end ≤ 2 ^ 39) }
    ensures in_range { IfOk result (λ image. All IsInRange image.list.items) }
{
    if bytes.len() <= 1 {
        return Ok(LogImage {
            list: Vec::new(alloc),
            end: 0,
            short: true,
        });
    }
    let end = frames_end(bytes)?;
    let list = read_frames(alloc, bytes)?;
    Ok(LogImage {
        list,
        end,
        short: false,
    })
}
