//! Runs a trace that is drawn from a number.
ghost use Rattle.std.specs.Prelude.{◌≡◌, ◌≢◌, ◌⊎◌, ◌≤◌, ℕ, List};
ghost use Rattle.pass_trace.specs.declared.limits.Scale.TheVariants.{Long};
ghost use Rattle.pass_trace.specs.Limits.{most_lines};
ghost use Rattle.pass_gen.specs.Generated.{generated};
ghost use Rattle.pass_run.specs.Stored.{IsBackedBy, IsLater};
ghost use Rattle.pass_cli.specs.Answers.{HasRun, IsUnrecorded, IsRecorded, outcome_of_run};
ghost use Rattle.pass_cli.specs.Drawn.{HasDrawn, IsTold, drawn_bytes};

use pass_drawn::report as drawn_report;
use pass_gen::generate;
use pass_outside::{Disk, Gate};
use pass_run::{Order, RunEnd, run_unreported, unopened};
use pass_status::Status;
use pass_trace::Trace;
use std::alloc::Global;
use std::sync::Wait;
use std::thread::Threads;

/// Runs the trace that the number draws, with so many lines, over the store. The report that is handed out is the text that tells
/// what it came to.
pub fn judge_drawn<R: Threads + Wait + Sync, D: Disk + Send, G: Gate + Sync>(
    rt: &R,
    alloc: Global,
    workers: u32,
    number: u64,
    lines: u32,
    disk: D,
    gate: &G,
) -> RunEnd<D>
    requires workers { (1 ≤ workers) × (workers ≤ 64) }
    requires lines { (15 ≤ lines) × (lines ≤ most_lines Long) }
    ensures judged { result.status ≢ Status.NoMemory → HasDrawn D.view number lines disk result.disk (outcome_of_run result) result.status result.report.items }
    // Also where memory was refused.
    ensures recorded { IsUnrecorded (D.view disk) (D.view result.disk) (drawn_bytes number lines) (outcome_of_run result)
        ⊎ IsRecorded (D.view disk) (D.view result.disk) (drawn_bytes number lines) (outcome_of_run result) }
    ensures backed { IsBackedBy result.history.items result.syncs.items }
    ensures later { IsLater (D.view disk) (D.view result.disk) }
    ensures no_write { result.status ≢ Status.WriteFault }
{
    pass_gen::laws::generated_is_read();
    pass_drawn::laws::ends();
    match generate(alloc, number, lines) {
        Ok(trace) => {
            let ended = run_drawn(rt, alloc, workers, number, lines, &trace, disk, gate);
            drop(trace);
            told(alloc, number, lines, ended)
        }
        Err(_) => unopened(alloc, Status::NoMemory, disk),
    }
}

// Runs the trace that was drawn. Its report isn't made.
fn run_drawn<R: Threads + Wait + Sync, D: Disk + Send, G: Gate + Sync>(
    rt: &R,
    alloc: Global,
    workers: u32,
    number: u64,
    lines: u32,
    trace: &Trace,
    disk: D,
    gate: &G,
) -> RunEnd<D>
    requires workers { (1 ≤ workers) × (workers ≤ 64) }
    requires lines { (15 ≤ lines) × (lines ≤ most_lines Long) }
    requires drawn { trace.now.lines.items ≡ generated number lines }
    ensures judged { result.status ≢ Status.NoMemory → (report : List ℕ) × HasRun D.view Long (drawn_bytes number lines) 0 0 disk result.disk (outcome_of_run result) result.status report }
    ensures recorded { IsUnrecorded (D.view disk) (D.view result.disk) (drawn_bytes number lines) (outcome_of_run result)
        ⊎ IsRecorded (D.view disk) (D.view result.disk) (drawn_bytes number lines) (outcome_of_run result) }
    ensures backed { IsBackedBy result.history.items result.syncs.items }
    ensures later { IsLater (D.view disk) (D.view result.disk) }
{
    pass_gen::laws::generated_is_read();
    run_unreported(rt, alloc, trace, Order::Passes { workers }, disk, gate)
}

// The end of a run with the text of what it came to, or want of memory.
fn told<D>(alloc: Global, number: u64, lines: u32, ended: RunEnd<D>) -> RunEnd<D>
    ensures disk { result.disk ≡ ended.disk }
    ensures outcome { outcome_of_run result ≡ outcome_of_run ended }
    ensures status { (result.status ≡ Status.NoMemory) ⊎ (result.status ≡ ended.status) }
    ensures text { result.status ≡ Status.Done → IsTold number lines ended.history.items result.report.items }
{
    if ended.status != Status::Done {
        return ended;
    }
    let RunEnd {
        status,
        history,
        syncs,
        list,
        start,
        report,
        disk,
    } = ended;
    match drawn_report(alloc, number, lines, &history) {
        Ok(text) => RunEnd {
            status,
            history,
            syncs,
            list,
            start,
            report: text,
            disk,
        },
        Err(_) => RunEnd {
            status: Status::NoMemory,
            history,
            syncs,
            list,
            start,
            report,
            disk,
        },
    }
}
