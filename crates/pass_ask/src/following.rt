//! Follows the log of another store, whose bytes a source gives.
ghost use Rattle.std.specs.Prelude.{◌≡◌, ◌≢◌, ◌⊎◌, ◌++◌, ◌∷◌, [], true, IsTrue, IfOk, OnOk, codes, decimal, string_bytes};
ghost use Rattle.pass_ask.specs.Answers.{is_reported};
ghost use Rattle.pass_ask.specs.Follows.{HasCome, HasFed, HasFollowed, IsFollowedOn, IsToldOf, OfRead, place_line, status_of_standby};
ghost use Rattle.pass_recover.specs.Later.{IsLater};
ghost use Rattle.pass_standby.specs.Standing.{Leaves};
ghost use Rattle.pass_standby.specs.declared.standby.Fate.TheVariants as fates;

use crate::judged::{Judged, refused};
use pass_outside::{Disk, Failed, Source};
use pass_standby::{Standby, StandbyFault};
use pass_status::Status;
use std::alloc::{AllocError, Global};
use std::sync::Wait;

/// How many bytes are asked of the source at once.
const PIECE: usize = 4096;

/// Why a stream isn't followed to its end.
#[derive(Clone, Copy, PartialEq, Eq, Drop)]
pub enum Refusal {
    /// The source failed.
    ReadFault,
    /// The standby refused its bytes.
    Refused(StandbyFault),
}

impl From<Failed> for Refusal {
    ghost use Rattle.pass_ask.specs.declared.following.Refusal.TheVariants as refusal;

    ghost from_gives = { λ _ e. e ≡ refusal.ReadFault };

    fn from(_failed: Failed) -> Refusal {
        Refusal::ReadFault
    }
}

/// What was judged, and the disk.
#[derive(Drop)]
pub struct Followed<D> {
    pub judged: Judged,
    pub disk: D,
}

/// Opens a standby on the disk, and hands it what the source gives, to its end or to the first refusal.
pub fn follow<R: Wait, S: Source, D: Disk>(
    rt: &R,
    alloc: Global,
    source: &mut S,
    disk: D,
) -> Followed<D>
    ensures judged { result.judged.status ≢ Status.NoMemory → OfRead S.tells (S.left source.old) (S.left source.new) (D.view disk)
        (λ log bytes. HasFollowed log bytes (S.left source.new) S.tells (S.fault_count source.old) (S.fault_count source.new) (D.view disk) (D.view result.disk)
        result.judged.status result.judged.text.items) }
    ensures on_disk { OfRead S.tells (S.left source.old) (S.left source.new) (D.view disk) (λ log bytes. IsFollowedOn log bytes (D.view disk) (D.view result.disk)) }
    ensures later { IsLater (D.view disk) (D.view result.disk) }
    ensures reported { IsTrue (is_reported result.judged.status) → result.judged.status ≡ Status.Done }
    ensures unwritten { result.judged.status ≢ Status.WriteFault }
{
    let opened = disk.faults();
    match Standby::open(alloc, disk) {
        Ok(standby) => follow_on(rt, alloc, source, standby, opened),
        Err((fault, disk)) => {
            let status = standby_status(fault, opened, disk.faults());
            Followed {
                judged: refused(alloc, status),
                disk,
            }
        }
    }
}

// Hands the source's bytes to a standby, and judges what has come of it.
fn follow_on<R: Wait, S: Source, D: Disk>(
    rt: &R,
    alloc: Global,
    source: &mut S,
    standby: Standby<D>,
    opened: u64,
) -> Followed<D>
    requires going { standby.fate ≡ fates.Going }
    requires leaves { Leaves (D.view standby.disk) standby.list standby.at }
    ensures { HasCome D.view S.tells (S.left source.old) (S.left source.new) standby (S.fault_count source.old) (S.fault_count source.new) opened result.disk
        result.judged.status result.judged.text.items }
{
    let mut standby = standby;
    let fed = feed_all(rt, source, &mut standby);
    let position = standby.position();
    let rest = standby.rest();
    let disk = standby.into_disk();
    Followed {
        judged: judge_fed(alloc, fed, position, rest, opened, disk.faults()),
        disk,
    }
}

// What is judged of a standby: where it stands at the stream's end, or why the stream ended before.
fn judge_fed(
    alloc: Global,
    fed: Result<(), Refusal>,
    position: u64,
    rest: u64,
    opened: u64,
    now: u64,
) -> Judged
    ensures { IsToldOf fed position rest opened now result.status result.text.items }
{
    match fed {
        Ok(()) => judge_place(alloc, position, rest),
        Err(Refusal::ReadFault) => refused(alloc, Status::ReadFault),
        Err(Refusal::Refused(fault)) => refused(alloc, standby_status(fault, opened, now)),
    }
}

// Where a standby stands.
fn judge_place(alloc: Global, position: u64, rest: u64) -> Judged
    ensures { ((result.status ≡ Status.Done) × (result.text.items ≡ place_line position rest)) ⊎ (result.status ≡ Status.NoMemory) }
{
    match place_line(alloc, position, rest) {
        Ok(text) => Judged {
            status: Status::Done,
            text: text.into_bytes(),
        },
        Err(AllocError) => refused(alloc, Status::NoMemory),
    }
}

fn place_line(alloc: Global, position: u64, rest: u64) -> Result<String, AllocError>
    ensures { IfOk result (λ text. string_bytes text ≡ codes "position " ++ decimal position ++ codes " rest " ++ decimal rest ++ 10 ∷ []) }
{
    format!(in alloc; "position {position} rest {rest}\n")
}

// The status of a standby's fault. A standby that is closed is asked for nothing.
fn standby_status(fault: StandbyFault, opened: u64, now: u64) -> Status
    ensures { result ≡ status_of_standby opened now fault }
{
    match fault {
        StandbyFault::DiskFault => Status::DiskFault { opened, now },
        StandbyFault::BadLog { at } => Status::BadLog { at },
        StandbyFault::BadStream { at } => Status::BadStream { at },
        StandbyFault::Closed { .. } | StandbyFault::NoMemory => Status::NoMemory,
    }
}

// Hands the source's bytes to a standby.
fn feed_all<R: Wait, S: Source, D: Disk>(
    rt: &R,
    source: &mut S,
    standby: &mut Standby<D>,
) -> Result<(), Refusal>
    requires going { standby.old.fate ≡ fates.Going }
    requires leaves { Leaves (D.view standby.old.disk) standby.old.list standby.old.at }
    ensures fed { HasFed D.view S.tells (S.left source.old) (S.left source.new) standby.old standby.new (S.fault_count source.old) (S.fault_count source.new) result }
    ensures to_end { OnOk result (IsTrue S.tells → S.left source.new ≡ []) }
{
    'pieces: for _piece in rt.forever() {
        if !feed_piece(source, standby)? {
            return Ok(());
        }
    }
    unreachable!()
}

// Hands the next piece of a source to a standby, or answers that there is none.
fn feed_piece<S: Source, D: Disk>(source: &mut S, standby: &mut Standby<D>) -> Result<bool, Refusal>
    requires going { standby.old.fate ≡ fates.Going }
    requires leaves { Leaves (D.view standby.old.disk) standby.old.list standby.old.at }
    ensures fed { HasFed D.view S.tells (S.left source.old) (S.left source.new) standby.old standby.new (S.fault_count source.old) (S.fault_count source.new) result }
    ensures to_end { IfOk result (λ more. ¬ IsTrue more → IsTrue S.tells → S.left source.new ≡ []) }
{
    let mut piece = [0u8; PIECE];
    let count = source.read(&mut piece)?;
    if count == 0 {
        return Ok(false);
    }
    match standby.feed(&piece[..count]) {
        Ok(_position) => Ok(true),
        Err(fault) => Err(Refusal::Refused(fault)),
    }
}
