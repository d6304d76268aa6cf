//! The run of a trace whose file versions an archive keeps.
ghost use Rattle.std.specs.Prelude.{◌≡◌, ◌≢◌, ◌⊎◌, ◌↔◌, ◌+◌, ◌<◌, ◌≤◌, ◌^◌, ℕ, List, [], IsTrue};
ghost use Rattle.pass_outside.specs.Faults.{HasRisen};
ghost use Rattle.pass_plain.specs.Legal.{session_of, IsLegal};
ghost use Rattle.pass_plain.specs.Sound.{IsSound};
ghost use Rattle.pass_recover.specs.Later.{IsLater};
ghost use Rattle.pass_trace.specs.TraceLines.{objects_of as objects_of_lines};
ghost use Rattle.pass_trace.specs.Traces.{trace_of};
ghost use Rattle.pass_run.specs.Ends.{IsEmptyStart, IsTrace};
ghost use Rattle.pass_run.specs.Stored.{IsEnd};
ghost use Rattle.pass_trace.specs.declared.limits.Scale.TheVariants.{Usual};
ghost use Rattle.pass_cli.specs.Answers.{OfBytes, IsTraced, IsReadInTime};
ghost use Rattle.pass_leaf.specs.Archives.{Archive};
ghost use Rattle.pass_old.specs.Runs.{IsKept, IsSomeKept, IsKeptAs, IsHandedOut, HasNothing, IsLost, HasRunOver, IsOldRun};

use crate::questions::unread;
use crate::retracing::is_like;
use crate::status::OldStatus;
use pass_cli::read_trace;
use pass_entry::{Entry, Record};
use pass_leaf::Old;
use pass_outside::{Disk, Gate, Source};
use pass_past::keep;
use pass_plain::Start;
use pass_recover::{Opening, recover};
use pass_run::{Order, RunEnd, empty_start, run_trace};
use pass_status::{Status, opening_status};
use pass_trace::laws::scales;
use pass_trace::{Scale, Trace, objects_of};
use std::alloc::{AllocError, Global};
use std::sync::Wait;
use std::thread::Threads;

/// How such a run ended, with the report of one that is done or stuck.
#[derive(Drop)]
pub(crate) struct OldRun<D, A> {
    pub(crate) status: OldStatus,
    pub(crate) report: Vec<u8>,
    pub(crate) history: Vec<Entry>,
    pub(crate) start: Start,
    pub(crate) disk: D,
    pub(crate) archive: A,
}

// Nothing was run.
fn unrun<D, A>(alloc: Global, status: OldStatus, disk: D, archive: A) -> OldRun<D, A>
    ensures status { result.status ≡ status }
    ensures report { result.report.items ≡ [] }
    ensures history { result.history.items ≡ [] }
    ensures start { IsEmptyStart result.start }
    ensures disk { result.disk ≡ disk }
    ensures archive { result.archive ≡ archive }
{
    OldRun {
        status,
        report: Vec::new(alloc),
        history: Vec::new(alloc),
        start: empty_start(alloc),
        disk,
        archive,
    }
}

/// Judges the source and its bytes, opens the archive, recovers the store for the start, and runs the trace. Where the run came to its
/// end, and is what the store told, the archive keeps its versions.
pub(crate) fn judge_run<
    R: Threads + Wait + Sync,
    S: Source,
    D: Disk + Send,
    A: Disk,
    G: Gate + Sync,
>(
    rt: &R,
    alloc: Global,
    workers: u32,
    source: &mut S,
    disk: D,
    archive: A,
    gate: &G,
) -> OldRun<D, A>
    requires { (1 ≤ workers) × (workers ≤ 64) }
    ensures run { OfBytes S.tells (S.left source.old) (λ bytes. IsOldRun D.view A.view bytes (S.fault_count source.old) (S.fault_count source.new)
        disk result.disk archive result.archive result.start result.history.items result.status result.report.items) }
    ensures later { IsLater (D.view disk) (D.view result.disk) }
    ensures archive_later { IsLater (A.view archive) (A.view result.archive) }
    ensures no_write { result.status ≢ OldStatus.Same Status.WriteFault }
    ensures stops { IsTrue S.tells → result.status ≢ OldStatus.Same Status.NoMemory → ¬ HasRisen (S.fault_count source.old) (S.fault_count source.new)
        → IsReadInTime Usual (S.left source.old) (S.left source.new) }
{
    scales();
    let trace = match read_trace(alloc, Scale::Usual, source) {
        Ok(trace) => trace,
        Err(status) => return unrun(alloc, OldStatus::Same(status), disk, archive),
    };
    match Old::open(alloc, archive) {
        Ok(old) => run_kept(rt, alloc, &trace, workers, disk, old, gate),
        Err((fault, archive)) => unrun(alloc, unread(fault), disk, archive),
    }
}

// Recovers the store, and runs the trace over it.
fn run_kept<R: Threads + Wait + Sync, D: Disk + Send, A: Disk, G: Gate + Sync>(
    rt: &R,
    alloc: Global,
    trace: &Trace,
    workers: u32,
    disk: D,
    old: Old<A>,
    gate: &G,
) -> OldRun<D, A>
    requires trace { IsTrace trace.now.lines.items }
    requires workers { (1 ≤ workers) × (workers ≤ 64) }
    requires healthy { (A.view old.disk).faults ≤ old.opened }
    requires begun { old.gathered ≡ [] }
    ensures run { (bytes : List ℕ) (before after : ℕ) → IsTraced Usual bytes before after → trace.now.lines.items ≡ trace_of bytes
        → (HasNothing result.start result.history.items × IsLost D.view A.view disk result.disk old result.archive result.status)
        ⊎ HasRunOver D.view A.view bytes before after disk result.disk old result.archive result.start result.history.items result.status result.report.items }
    ensures later { IsLater (D.view disk) (D.view result.disk) }
    ensures archive_later { IsLater (A.view old.disk) (A.view result.archive) }
    ensures no_write { result.status ≢ OldStatus.Same Status.WriteFault }
{
    let mut disk = disk;
    let faults = disk.faults();
    match recover(alloc, &mut disk) {
        Ok(opening) => {
            let run = run_trace(rt, alloc, trace, Order::Passes { workers }, disk, gate);
            end_run(alloc, trace, &opening, run, old)
        }
        Err(fault) => {
            let status = opening_status(fault, faults, disk.faults());
            unrun(alloc, OldStatus::Same(status), disk, old.into_disk())
        }
    }
}

// Keeps the versions of a run over a store that was recovered, and hands out what it made.
fn end_run<D, A: Disk>(
    alloc: Global,
    trace: &Trace,
    opening: &Opening,
    run: RunEnd<D>,
    old: Old<A>,
) -> OldRun<D, A>
    requires trace { IsTrace trace.now.lines.items }
    requires sound { (objects : ℕ) → 1 ≤ objects → opening.now.start.ceiling + objects < 2 ^ 48 → IsSound (session_of opening.now.start objects) }
    requires healthy { (A.view old.disk).faults ≤ old.opened }
    requires begun { old.gathered ≡ [] }
    ensures kept { (last : Archive A) × IsKeptAs A.view old last opening.now.image.list.items run.list.items opening.now.start (objects_of_lines trace.now.lines.items) run.history.items run.status result.status
        × IsHandedOut A.view last result.archive }
    ensures history { result.history.items ≡ run.history.items }
    ensures start { result.start ≡ run.start }
    ensures report { result.report.items ≡ run.report.items }
    ensures disk { result.disk ≡ run.disk }
    ensures later { IsLater (A.view old.disk) (A.view result.archive) }
    ensures no_write { run.status ≢ Status.WriteFault → result.status ≢ OldStatus.Same Status.WriteFault }
{
    let mut old = old;
    let RunEnd {
        status: ended,
        history,
        list,
        start,
        report,
        disk,
        ..
    } = run;
    let status = keep_run(alloc, trace, opening, ended, &list, &history, &mut old);
    OldRun {
        status,
        report,
        history,
        start,
        disk,
        archive: old.into_disk(),
    }
}

// The run came to its end.
fn has_ended(status: &Status) -> bool
    ensures { IsTrue result ↔ IsEnd status.now }
{
    match status {
        Status::Done | Status::Stuck => true,
        _ => false,
    }
}

// Keeps the versions of a run that came to its end.
fn keep_run<A: Disk>(
    alloc: Global,
    trace: &Trace,
    opening: &Opening,
    ended: Status,
    list: &[Record],
    history: &[Entry],
    old: &mut Old<A>,
) -> OldStatus
    requires trace { IsTrace trace.now.lines.items }
    requires sound { (objects : ℕ) → 1 ≤ objects → opening.now.start.ceiling + objects < 2 ^ 48 → IsSound (session_of opening.now.start objects) }
    requires healthy { (A.view old.old.disk).faults ≤ old.old.opened }
    requires begun { old.old.gathered ≡ [] }
    ensures kept { IsKeptAs A.view old.old old.new opening.now.image.list.items list.now opening.now.start (objects_of_lines trace.now.lines.items) history.now ended result }
    ensures later { IsLater (A.view old.old.disk) (A.view old.new.disk) }
    ensures no_write { ended ≢ Status.WriteFault → result ≢ OldStatus.Same Status.WriteFault }
{
    if !has_ended(&ended) {
        return OldStatus::Same(ended);
    }
    let objects = objects_of(&trace.lines);
    let list_was = &opening.image.list;
    let like = match is_like(alloc, list_was, list, &opening.start, objects, history) {
        Ok(like) => like,
        Err(AllocError) => return OldStatus::Same(Status::NoMemory),
    };
    if !like {
        return OldStatus::Unlike;
    }
    kept_as(old, alloc, &opening.start, history, ended)
}

// Keeps the versions of a history, and answers as its run ended, unless the archive has a fault.
fn kept_as<A: Disk>(
    old: &mut Old<A>,
    alloc: Global,
    start: &Start,
    history: &[Entry],
    ended: Status,
) -> OldStatus
    requires legal { (objects : ℕ) × IsSound (session_of start.now objects) × IsLegal (session_of start.now objects) history.now }
    requires healthy { (A.view old.old.disk).faults ≤ old.old.opened }
    requires begun { old.old.gathered ≡ [] }
    ensures kept { IsKept A.view old.old old.new start.now history.now ended result ⊎ IsSomeKept A.view old.old old.new start.now history.now result }
    ensures later { IsLater (A.view old.old.disk) (A.view old.new.disk) }
    ensures no_write { ended ≢ Status.WriteFault → result ≢ OldStatus.Same Status.WriteFault }
{
    match keep(old, alloc, start, history) {
        Ok(_count) => OldStatus::Same(ended),
        Err(fault) => unread(fault),
    }
}
