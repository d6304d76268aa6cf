//! What is sent of a log to a standby.
ghost use Rattle.std.specs.Prelude.{◌≡◌, ◌⊎◌, ◌<◌, ◌≤◌, ◌^◌, ℕ, length, take, drop, Ok, IsTrue, OnOk, IfOk, IfErr, IsErrOf, ◌↔◌, Contains};
ghost use Rattle.pass_log.specs.Frames.{Frames, frames_of};
ghost use Rattle.pass_outside.specs.Areas.{Image};
ghost use Rattle.pass_outside.specs.Moments.{Adds};
ghost use Rattle.pass_record.specs.declared.fault.RecordFault.{RecordFault};
ghost use Rattle.pass_recover.specs.Faults.{LogHas};
ghost use Rattle.pass_standby.specs.declared.sending.SendFault.TheVariants as faults;
ghost use Rattle.pass_standby.specs.Sending.{places, HoldsLogged, HasFault, IsSent, IsUnsent, Withholds};

use crate::StandbyFault;
use crate::frame::{HEAD, OPEN};
use crate::opening::{found_in, frame_at, read_bytes};
use pass_graph::read;
use pass_log::{LogFault, read_image};
use pass_outside::{Disk, Failed, MemDisk, sync_both};
use pass_recover::OpenFault;
use std::alloc::Global;

/// Why nothing is sent.
#[derive(Clone, Copy, PartialEq, Eq, Drop)]
pub enum SendFault {
    /// The log doesn't open, as of a store.
    Unopened(OpenFault),
    /// No frame of the log stands at the place, nor does the log end there.
    NoFrame,
}

impl From<Failed> for SendFault {
    ghost use Rattle.pass_recover.specs.declared.fault.OpenFault.TheVariants as opening;

    ghost from_gives = { λ _ e. e ≡ faults.Unopened opening.DiskFault };

    fn from(_failed: Failed) -> SendFault {
        SendFault::Unopened(OpenFault::DiskFault)
    }
}

// The fault of reading the log area.
fn unread(fault: StandbyFault) -> OpenFault
    ensures disk { fault ≡ StandbyFault.DiskFault → result ≡ OpenFault.DiskFault }
    ensures long { (at : ℕ) → fault ≡ StandbyFault.BadLog at → result ≡ OpenFault.BadFrame at }
    ensures memory { fault ≡ StandbyFault.NoMemory → result ≡ OpenFault.NoMemory }
{
    match fault {
        StandbyFault::DiskFault => OpenFault::DiskFault,
        StandbyFault::BadLog { at } => OpenFault::BadFrame { at },
        _ => OpenFault::NoMemory,
    }
}

// The fault of an image. It was read in memory, where a device call fails only for want of it.
fn unheld(fault: LogFault) -> OpenFault
    ensures frame { (at : ℕ) → fault ≡ LogFault.BadFrame at → result ≡ OpenFault.BadFrame at }
    ensures one { (place : ℕ) (why : RecordFault) → fault ≡ LogFault.BadRecord place why → result ≡ OpenFault.BadRecord place why }
    ensures memory { (fault ≡ LogFault.DiskFault) ⊎ (fault ≡ LogFault.NoMemory) → result ≡ OpenFault.NoMemory }
{
    match fault {
        LogFault::BadFrame { at } => OpenFault::BadFrame { at },
        LogFault::BadRecord { place, fault } => OpenFault::BadRecord { place, fault },
        _ => OpenFault::NoMemory,
    }
}

// Judges the bytes of a log area as those of a disk: its frames, then its records, then their flaws.
fn judge_bytes(alloc: Global, bytes: Vec<u8>) -> Result<(), OpenFault>
    ensures ok { OnOk result (HoldsLogged bytes.items) }
    ensures fault { IfErr result (HasFault bytes.items) }
{
    let none = Vec::new(alloc);
    let mut disk = MemDisk::new(alloc, bytes, Vec::new(alloc), none, None)?;
    let image = match read_image(alloc, &mut disk) {
        Ok(image) => image,
        Err(fault) => return Err(unheld(fault)),
    };
    read(alloc, &image.list)?;
    Ok(())
}

// Whether a frame of the log stands at the place, or the log ends there.
fn is_place(bytes: &[u8], from: u64) -> bool
    requires some { 1 < length bytes.now }
    requires fits { length bytes.now ≤ 2 ^ 39 }
    ensures { (frames : Frames) → frames_of bytes.now ≡ Ok frames → IsTrue result ↔ Contains (places 0 frames.list) from }
{
    let mut place: u64 = 0;
    let mut rest = bytes;
    while place < from && rest[0] == OPEN {
        let Some((frame, after)) = frame_at(rest) else {
            return false;
        };
        place += (HEAD + frame.len()) as u64;
        rest = after;
    }
    place == from
}

// The same of a log area that may be empty.
#[tactic(auto, using(crate::proofs::Places::empty_is))]
fn is_in(bytes: &[u8], from: u64) -> bool
    requires { length bytes.now ≤ 2 ^ 39 }
    ensures { (frames : Frames) → frames_of bytes.now ≡ Ok frames → IsTrue result ↔ Contains (places 0 frames.list) from }
{
    if bytes.len() <= 1 {
        return from == 0;
    }
    is_place(bytes, from)
}

// The fault of a log area's bytes, which hold no records that are well logged.
fn fault_in(alloc: Global, bytes: Vec<u8>) -> OpenFault
    requires { HoldsLogged bytes.items → ⊥ }
    ensures { HasFault bytes.items result }
{
    match judge_bytes(alloc, bytes) {
        Ok(()) => unreachable!(),
        Err(fault) => fault,
    }
}

// The bytes from a place up to another.
fn between(bytes: Vec<u8>, from: usize, end: usize) -> Vec<u8>
    ensures { result.items ≡ drop from (take end bytes.items) }
{
    let mut text = bytes;
    text.truncate(end);
    let front = from.min(text.len());
    text.drain(..front);
    text
}

// The bytes of a log from a place on, up to its end.
#[tactic(auto, using(crate::proofs::Withheld::found_logged, crate::proofs::Withheld::found_sent, crate::proofs::Withheld::found_nowhere, crate::proofs::Withheld::bad_none))]
fn sent(alloc: Global, bytes: Vec<u8>, from: u64) -> Result<Vec<u8>, SendFault>
    requires { length bytes.items ≤ 2 ^ 39 }
    ensures logged { OnOk result (HoldsLogged bytes.items) }
    ensures sent { IfOk result (λ v. IsSent bytes.items from v.items) }
    ensures fault { IfErr result (Withholds bytes.items from) }
{
    let end = match found_in(alloc, &bytes) {
        Ok(found) => found.image.end,
        Err(StandbyFault::BadLog { .. }) => return Err(SendFault::Unopened(fault_in(alloc, bytes))),
        Err(_) => return Err(SendFault::Unopened(OpenFault::NoMemory)),
    };
    if !is_in(&bytes, from) {
        return Err(SendFault::NoFrame);
    }
    Ok(between(bytes, from as usize, end as usize))
}

/// The bytes of a store's log from a place on, up to the log's end: the stream for a standby with that position. It syncs both
/// areas, reads the log once and judges it as for a question, and writes nothing.
pub fn send<D: Disk>(alloc: Global, disk: &mut D, from: u64) -> Result<Vec<u8>, SendFault>
    ensures sent { IfOk result (λ v. LogHas (D.view disk.old) (λ bytes. HoldsLogged bytes × IsSent bytes from v.items)) }
    ensures fault { IfErr result (IsUnsent (D.view disk.old) (D.view disk.new) from) }
    ensures no_fault { (IsErrOf result (SendFault.Unopened OpenFault.DiskFault) → ⊥) → (D.view disk.new).faults ≡ (D.view disk.old).faults }
    // Unless a device call failed the disk reads as before.
    ensures stays { (IsErrOf result (SendFault.Unopened OpenFault.DiskFault) → ⊥) → (D.view disk.new).seen ≡ (D.view disk.old).seen }
    ensures crash { (c : Image) → (D.view disk.new).may_leave c → (D.view disk.old).may_leave c }
    ensures run { Adds (D.view disk.old) (D.view disk.new) (D.view disk.old).may_leave }
    ensures tells { (D.view disk.new).tells ≡ (D.view disk.old).tells }
    ensures rises { (D.view disk.old).faults ≤ (D.view disk.new).faults }
{
    sync_both(disk)?;
    match read_bytes(alloc, disk) {
        Ok(bytes) => sent(alloc, bytes, from),
        Err(fault) => Err(SendFault::Unopened(unread(fault))),
    }
}
