//! The run of a trace over a disk.
ghost use Rattle.std.specs.Prelude.{◌≡◌, ◌≢◌, ◌⊎◌, ◌≤◌, ◌<◌, ℕ, List, []};
ghost use Rattle.pass_outside.specs.Moments.{IsAtEnd};
ghost use Rattle.pass_recover.specs.declared.fault.OpenFault.{OpenFault as AnyFault};
ghost use Rattle.pass_recover.specs.Faults.{LogHas};
ghost use Rattle.pass_replay.specs.Needs.{places_of as places_of_trace};
ghost use Rattle.pass_session.specs.Sessions.{HasRefused, HasSession};
ghost use Rattle.pass_safe.specs.Grounds.{ground_of};
ghost use Rattle.pass_trace.specs.TraceLines.{objects_of as objects_of_lines, plain_trace};
ghost use Rattle.pass_run.specs.Ends.{IsTrace};
ghost use Rattle.pass_run.specs.Orders.{HasReplayed, IsOrder};
ghost use Rattle.pass_run.specs.OpenedRuns.{IsRunOver, IsReportedOver};
ghost use Rattle.pass_run.specs.Stored.{session_fault, IsStoreJudged, IsEnd, IsOfDisk, IsLater, IsRefusedOpening, IsHeldBack, IsOverStore, HasEnded, IsBackedBy};

use crate::closing::hand_out;
use crate::ending::{RunEnd, unopened};
use crate::needs::places_of;
use crate::order::Order;
use crate::reporting::reported;
use crate::serving::{Served, serve};
use pass_graph::laws::{edges, graph};
use pass_order::laws::replays;
use pass_outside::{Disk, Gate};
use pass_recover::OpenFault;
use pass_safe::Opening;
use pass_session::{Opened, open};
use pass_status::{Status, opening_status};
use pass_store::Store;
use pass_trace::laws::traces;
use pass_trace::{Trace, objects_of};
use pass_walk::laws::ends;
use pass_walk::{Plan, Ran};
use std::alloc::Global;
use std::marker::Brand;
use std::snapshot::Snapshot;
use std::sync::Wait;
use std::thread::Threads;

/// Runs a trace over the store of a disk as `run_unreported` does, and makes its report; one for which memory is refused ends the run too.
pub fn run_trace<R: Threads + Wait + Sync, D: Disk + Send, G: Gate + Sync>(
    rt: &R,
    alloc: Global,
    trace: &Trace,
    order: Order,
    disk: D,
    gate: &G,
) -> RunEnd<D>
    requires trace { IsTrace trace.now.lines.items }
    requires order { IsOrder order }

    // The statuses, in the order in which they are judged. Want of memory alone is free.
    ensures disk_fault { (opened now : ℕ) → result.status ≡ Status.DiskFault opened now
        → (opened ≡ (D.view disk).faults) × (now ≡ (D.view result.disk).faults) × ((opened < now) ⊎ IsAtEnd (D.view result.disk)) }
    ensures no_fault { result.status ≢ Status.NoMemory → (IsOfDisk result.status → ⊥) → (D.view result.disk).faults ≡ (D.view disk).faults }
    ensures judged { result.status ≢ Status.NoMemory → (IsOfDisk result.status → ⊥)
        → LogHas (D.view disk) (λ bytes. IsStoreJudged (session_fault bytes) result.status) }

    // What stands after each. A store that is refused isn't written to.
    ensures bad_store { (fault : AnyFault) → result.status ≡ Status.BadStore fault
        → IsRefusedOpening (D.view disk) (D.view result.disk) result.status result.list.items result.start result.history.items result.syncs.items }
    // Whatever the status, also where memory was refused: the opening was refused, or no entry was made, or this is what was opened
    // and recorded, and what a crash leaves of it: since the opening, and since each sync, with the data of the file that was synced.
    ensures recorded { IsRefusedOpening (D.view disk) (D.view result.disk) result.status result.list.items result.start result.history.items result.syncs.items
        ⊎ (IsHeldBack (D.view disk) (D.view result.disk) trace.now.lines.items result.status result.list.items result.start result.history.items result.syncs.items
        ⊎ IsOverStore (D.view disk).calls (D.view disk) (D.view result.disk) trace.now.lines.items result.list.items result.start result.history.items result.syncs.items) }
    // Each sync of which the history tells is among the syncs: it has the entry by which its call began, and none from its own place on.
    ensures backed { IsBackedBy result.history.items result.syncs.items }
    ensures ended { IsEnd result.status
        → HasEnded (D.view disk).calls (D.view disk) (D.view result.disk) trace.now.lines.items result.list.items result.start result.history.items result.syncs.items result.status result.report.items }
    ensures no_report { (IsEnd result.status → ⊥) → result.report.items ≡ [] }
    // In the order of the lines the history is the replay of the trace from the start that was opened.
    ensures replayed { order ≡ Order.Lines → HasReplayed (D.view disk) trace.now.lines.items result.list.items result.start result.history.items result.syncs.items result.status }
    // What the disk tells stays, and its counts never fall.
    ensures later { IsLater (D.view disk) (D.view result.disk) }
{
    let first = Snapshot::of(&disk);
    let ended = run_unreported(rt, alloc, trace, order, disk, gate);
    with_report(rt, alloc, trace, order, first, ended)
}

/// A run over a disk that was found in its first state, with its report.
fn with_report<R: Threads + Sync, D: Disk>(
    rt: &R,
    alloc: Global,
    trace: &Trace,
    order: Order,
    first: Snapshot<D>,
    ended: RunEnd<D>,
) -> RunEnd<D>
    requires over { IsRunOver D.view (D.view first.value) trace.now.lines.items order ended }
    ensures { IsReportedOver D.view (D.view first.value) trace.now.lines.items order result }
{
    reported(rt, alloc, trace, order, ended)
}

/// Runs a trace over the store of a disk, and keeps what it records there.
///
/// The store is opened for as many objects and entries as the trace may make, and its ceiling raised by them. Then the calls are made, until
/// each process has made its exit or none can go on: in the order of the lines on the caller's thread, or in passes, in which so many worker
/// threads take the turns of the processes. One worker is the caller's thread and takes the turns in ascending order of the processes. A
/// `sync` makes what stands before it durable. At the end every entry and every changed block is made durable, whatever the processes came
/// to.
///
/// No report is made. The memory of the run itself is taken before its first entry. Each call takes its own, and one that is refused ends the run.
pub fn run_unreported<R: Threads + Wait + Sync, D: Disk + Send, G: Gate + Sync>(
    rt: &R,
    alloc: Global,
    trace: &Trace,
    order: Order,
    disk: D,
    gate: &G,
) -> RunEnd<D>
    requires trace { IsTrace trace.now.lines.items }
    requires order { IsOrder order }

    // The statuses, in the order in which they are judged. Want of memory alone is free.
    ensures disk_fault { (opened now : ℕ) → result.status ≡ Status.DiskFault opened now
        → (opened ≡ (D.view disk).faults) × (now ≡ (D.view result.disk).faults) × ((opened < now) ⊎ IsAtEnd (D.view result.disk)) }
    ensures no_fault { result.status ≢ Status.NoMemory → (IsOfDisk result.status → ⊥) → (D.view result.disk).faults ≡ (D.view disk).faults }
    ensures judged { result.status ≢ Status.NoMemory → (IsOfDisk result.status → ⊥)
        → LogHas (D.view disk) (λ bytes. IsStoreJudged (session_fault bytes) result.status) }

    // What stands after each. A store that is refused isn't written to.
    ensures bad_store { (fault : AnyFault) → result.status ≡ Status.BadStore fault
        → IsRefusedOpening (D.view disk) (D.view result.disk) result.status result.list.items result.start result.history.items result.syncs.items }
    // Whatever the status, also where memory was refused: the opening was refused, or no entry was made, or this is what was opened
    // and recorded, and what a crash leaves of it: since the opening, and since each sync, with the data of the file that was synced.
    ensures recorded { IsRefusedOpening (D.view disk) (D.view result.disk) result.status result.list.items result.start result.history.items result.syncs.items
        ⊎ (IsHeldBack (D.view disk) (D.view result.disk) trace.now.lines.items result.status result.list.items result.start result.history.items result.syncs.items
        ⊎ IsOverStore (D.view disk).calls (D.view disk) (D.view result.disk) trace.now.lines.items result.list.items result.start result.history.items result.syncs.items) }
    // Each sync of which the history tells is among the syncs: it has the entry by which its call began, and none from its own place on.
    ensures backed { IsBackedBy result.history.items result.syncs.items }
    // The text would be its report.
    ensures ended { (text : List ℕ) × (IsEnd result.status
        → HasEnded (D.view disk).calls (D.view disk) (D.view result.disk) trace.now.lines.items result.list.items result.start result.history.items result.syncs.items result.status text) }
    ensures silent { result.report.items ≡ [] }
    // In the order of the lines the history is the replay of the trace from the start that was opened.
    ensures replayed { order ≡ Order.Lines → HasReplayed (D.view disk) trace.now.lines.items result.list.items result.start result.history.items result.syncs.items result.status }
    // What the disk tells stays, and its counts never fall.
    ensures later { IsLater (D.view disk) (D.view result.disk) }
{
    traces();
    let first = Snapshot::of(&disk);
    let faults = disk.faults();
    let objects = objects_of(&trace.lines);
    let entries = places_of(&trace.lines);
    let Ok(plan) = Plan::of(alloc, &trace.lines) else {
        return unopened(alloc, Status::NoMemory, disk);
    };
    match open(alloc, disk, objects, entries) {
        Ok(opened) => run_opened::<R, Brand, D, G>(
            rt, alloc, trace, &plan, order, opened, first, gate,
        ),
        Err((fault, disk)) => not_opened(alloc, trace, order, first, faults, fault, disk),
    }
}

/// The end of a run whose session wasn't opened, over a disk that was found in its first state, with this count of faults.
fn not_opened<D: Disk>(
    alloc: Global,
    trace: &Trace,
    order: Order,
    first: Snapshot<D>,
    faults: u64,
    fault: OpenFault,
    disk: D,
) -> RunEnd<D>
    requires refused { HasRefused D.view (D.view first.value) (objects_of_lines trace.now.lines.items) (fault, disk) }
    requires faults { faults ≡ (D.view first.value).faults }
    ensures { IsRunOver D.view (D.view first.value) trace.now.lines.items order result }
{
    let now = disk.faults();
    unopened(alloc, opening_status(fault, faults, now), disk)
}

/// Runs a trace over an opened session of a disk that was found in its first state.
fn run_opened<R: Threads + Wait + Sync, J: Opening + Send, D: Disk + Send, G: Gate + Sync>(
    rt: &R,
    alloc: Global,
    trace: &Trace,
    plan: &Plan<'_>,
    order: Order,
    opened: Opened<D>,
    first: Snapshot<D>,
    gate: &G,
) -> RunEnd<D>
    requires trace { IsTrace trace.now.lines.items }
    requires plan { plan.now ≡ trace.now.lines.items }
    requires order { IsOrder order }
    requires session { HasSession D.view (D.view first.value) (objects_of_lines trace.now.lines.items) (places_of_trace (plain_trace trace.now.lines.items)) opened }
    requires book { opened.vault.book ≡ J.book }
    requires places { opened.places ≡ J.places }
    requires ground { ground_of opened.vault ≡ J.ground }
    requires tells { (D.view opened.vault.disk).tells ≡ J.tells }
    ensures { IsRunOver D.view (D.view first.value) trace.now.lines.items order result }
{
    let Ok(room) = plan.room::<J>(alloc) else {
        return unopened(alloc, Status::NoMemory, opened.into_disk());
    };
    let (store, process) = match Store::<J, D, G>::begin(alloc, opened, gate) {
        Ok(begun) => begun,
        Err(disk) => return unopened(alloc, Status::NoMemory, disk),
    };
    let served = Served {
        rt,
        alloc,
        store: &store,
    };
    let Ran { trails, last } = serve(&served, process, plan, room, order);
    let finished = store.finish(alloc, trails);
    graph();
    edges();
    ends();
    replays();
    hand_out(alloc, last, finished)
}
