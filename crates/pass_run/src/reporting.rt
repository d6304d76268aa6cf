//! The run of a trace with its report.
ghost use Rattle.std.specs.Prelude.{◌≡◌, ◌⊎◌, []};
ghost use Rattle.pass_plain.specs.declared.start.Start.{Start as AnyStart};
ghost use Rattle.pass_plain.specs.Sessions.{Session};
ghost use Rattle.pass_report.specs.Reports.{IsLegalFrom, IsRunFrom, report_of};
ghost use Rattle.pass_run.specs.Stored.{IsEnd};

use crate::ending::RunEnd;
use crate::order::{Order, workers_of};
use pass_report::report;
use pass_status::Status;
use pass_trace::Trace;
use std::alloc::Global;
use std::thread::Threads;

/// The end of a run with the report of one that came to its end; where memory is refused for it, the status says so.
pub(crate) fn reported<R: Threads + Sync, D>(
    rt: &R,
    alloc: Global,
    trace: &Trace,
    order: Order,
    ended: RunEnd<D>,
) -> RunEnd<D>
    requires legal { IsEnd ended.status → (session : Session) × IsLegalFrom ended.start ended.history.items session }
    requires silent { ended.report.items ≡ [] }
    ensures same { result ≡ record ended { status = result.status; report = result.report } }
    ensures status { (result.status ≡ ended.status) ⊎ (IsEnd ended.status × (result.status ≡ Status.NoMemory)) }
    ensures report { IsEnd result.status → (full : AnyStart) → IsRunFrom ended.start ended.history.items trace.now.lines.items full → result.report.items ≡ report_of full ended.history.items trace.now.lines.items }
    ensures no_report { (IsEnd result.status → ⊥) → result.report.items ≡ [] }
{
    match ended.status {
        Status::Done | Status::Stuck => {}
        _ => return ended,
    }
    let RunEnd {
        status,
        history,
        syncs,
        list,
        start,
        report: nothing,
        disk,
    } = ended;
    let (status, report) = match report(rt, alloc, &start, &history, trace, workers_of(order)) {
        Ok(text) => (status, text),
        Err(_refused) => (Status::NoMemory, nothing),
    };
    RunEnd {
        status,
        history,
        syncs,
        list,
        start,
        report,
        disk,
    }
}
