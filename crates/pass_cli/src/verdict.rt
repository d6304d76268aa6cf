//! Judges what is to be answered of a run, before any of it is written.
ghost use Rattle.std.specs.Prelude.{◌≡◌, ◌≢◌, ◌⊎◌, IsTrue};
ghost use Rattle.pass_outside.specs.Faults.{HasRisen};
ghost use Rattle.pass_run.specs.Orders.{IsOrder};
ghost use Rattle.pass_run.specs.Stored.{IsBackedBy, IsLater};
ghost use Rattle.pass_cli.specs.Answers.{OfBytes, HasRun, IsUnrecorded, IsRecorded, IsReplayed, IsReadInTime, outcome_of_run};

use crate::reading::read_trace;
use pass_outside::{Disk, Gate, Source};
use pass_run::{Order, RunEnd, run_trace, unopened};
use pass_status::Status;
use pass_trace::Scale;
use pass_trace::laws::scales;
use std::alloc::Global;
use std::sync::Wait;
use std::thread::Threads;

/// Judges the source, then its bytes, and runs their trace over the store in this order.
pub fn judge<R: Threads + Wait + Sync, S: Source, D: Disk + Send, G: Gate + Sync>(
    rt: &R,
    alloc: Global,
    scale: Scale,
    order: Order,
    source: &mut S,
    disk: D,
    gate: &G,
) -> RunEnd<D>
    requires { IsOrder order }
    ensures judged { result.status ≢ Status.NoMemory → OfBytes S.tells (S.left source.old)
        (λ bytes. HasRun D.view scale bytes (S.fault_count source.old) (S.fault_count source.new) disk result.disk (outcome_of_run result) result.status result.report.items) }
    // Also where memory was refused.
    ensures recorded { OfBytes S.tells (S.left source.old)
        (λ bytes. IsUnrecorded (D.view disk) (D.view result.disk) bytes (outcome_of_run result) ⊎ IsRecorded (D.view disk) (D.view result.disk) bytes (outcome_of_run result)) }
    // In the order of the lines the history is the replay of the trace.
    ensures replayed { order ≡ Order.Lines → OfBytes S.tells (S.left source.old) (λ bytes. IsReplayed (D.view disk) bytes (outcome_of_run result) result.status) }
    ensures backed { IsBackedBy result.history.items result.syncs.items }
    ensures later { IsLater (D.view disk) (D.view result.disk) }
    ensures no_write { result.status ≢ Status.WriteFault }
    ensures stops { IsTrue S.tells → result.status ≢ Status.NoMemory → ¬ HasRisen (S.fault_count source.old) (S.fault_count source.new)
        → IsReadInTime scale (S.left source.old) (S.left source.new) }
{
    scales();
    match read_trace(alloc, scale, source) {
        Ok(trace) => run_trace(rt, alloc, &trace, order, disk, gate),
        Err(status) => unopened(alloc, status, disk),
    }
}
