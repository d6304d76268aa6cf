//! The report of a run.
ghost use Rattle.std.specs.Prelude.{ℕ, List, [], ◌∷◌, ◌++◌, ◌≡◌, ◌==◌, ◌+◌, ◌<◌, ◌≤◌, ◌^◌, not, flat_map, length, IfOk, OnOk, string_bytes};
ghost use Rattle.std.specs.List.{list_any};
ghost use Rattle.pass_entry.specs.declared.entry.Entry.{Entry as AnyEntry};
ghost use Rattle.pass_plain.specs.declared.start.Start.{Start as AnyStart};
ghost use Rattle.pass_plain.specs.Sessions.{Session};
ghost use Rattle.pass_plain.specs.Runs.{pnode_in, first_begun};
ghost use Rattle.pass_report.specs.Reports.{report_of, IsRunFrom, IsLegalFrom, edge_line, object_line};
ghost use Rattle.pass_report.specs.Trails.{IsTrail};
ghost use Rattle.pass_report.specs.Kinds.{AreKinds};
ghost use Rattle.pass_report.specs.Recorders.{HasPassed};
ghost use Rattle.pass_report.specs.Standings.{lines_in, done_by, waiting_text};

use crate::answers::write_answers;
use crate::calls::Calls;
use crate::kinds::Kinds;
use crate::lines::{Edge, write_edge, write_end, write_object, write_waiting};
use crate::recorder::Recorder;
use crate::standing::Standing;
use crate::trail::Trail;
use pass_entry::{Entry, Pnode};
use pass_plain::Start;
use pass_trace::Trace;
use std::alloc::{AllocError, Global};
use std::collections::BTreeSet;
use std::thread::Threads;

/// The report of a run of a trace: its calls' answers, the edges of its records, its objects, who waits, and how it ended.
///
/// `start` may lack the bytes of its files: the report is that of each start that has them and of which the history is a run
/// of the trace. It says `stuck` where a process of the trace is open, also where one could still move. So many workers at most write the
/// lines of the calls.
pub fn report<R: Threads + Sync>(
    rt: &R,
    alloc: Global,
    start: &Start,
    history: &[Entry],
    trace: &Trace,
    workers: u32,
) -> Result<Vec<u8>, AllocError>
    requires known { (session : Session) × IsLegalFrom start.now history.now session }
    ensures { IfOk result (λ v. (full : AnyStart) → IsRunFrom start.now history.now trace.now.lines.items full → v.items ≡ report_of full history.now trace.now.lines.items) }
{
    let recorder = record(alloc, start, history)?;
    let Recorder {
        trail,
        calls,
        kinds,
        logged,
        answered,
        ..
    } = recorder;
    let first = first_process(start, history);
    let standing = Standing::of(alloc, &trace.lines, &calls, first)?;
    let mut text = write_answers(
        rt,
        alloc,
        history,
        trail.nodes(),
        answered.as_slice(),
        0,
        history.len(),
        workers,
    )?;
    write_edges(&mut text, &logged.edges)?;
    write_objects(&mut text, start, &kinds, &trail)?;
    write_standing(&mut text, &standing)?;
    let stuck = is_stuck(&standing, &calls);
    write_end(&mut text, stuck, history.len(), logged.records)?;
    Ok(text.into_bytes())
}

// What all entries of a history make.
fn record(alloc: Global, start: &Start, history: &[Entry]) -> Result<Recorder, AllocError>
    requires { (session : Session) × IsLegalFrom start.now history.now session }
    ensures { IfOk result (λ r. (session : Session) → IsLegalFrom start.now history.now session → HasPassed start.now session history.now (length history.now) r) }
{
    let mut recorder = Recorder::opened(alloc, start)?;
    for place in 0..history.len() {
        recorder.note(start, history, place)?;
    }
    Ok(recorder)
}

// The pnode of process 1, if it has begun.
fn first_process(start: &Start, history: &[Entry]) -> Option<Pnode>
    requires { start.now.ceiling < 2 ^ 63 }
    ensures { (session : Session) → start.now.ceiling ≡ session.start.ceiling → result ≡ pnode_in (first_begun session history.now) 1 }
{
    if history.is_empty() {
        None
    } else {
        Some(Pnode(start.ceiling + 1))
    }
}

fn write_edges(text: &mut String, edges: &BTreeSet<Edge>) -> Result<(), AllocError>
    ensures { OnOk result (string_bytes text.new ≡ string_bytes text.old ++ flat_map edge_line edges.now.keys) }
{
    for edge in edges {
        write_edge(text, edge)?;
    }
    Ok(())
}

fn write_objects(
    text: &mut String,
    start: &Start,
    kinds: &Kinds,
    trail: &Trail,
) -> Result<(), AllocError>
    ensures { OnOk result ((session : Session) (history : List AnyEntry) → AreKinds start.now session history kinds.now → IsTrail start.now session history trail.now
        → string_bytes text.new ≡ string_bytes text.old ++ flat_map (object_line session history) kinds.now.touched.keys) }
{
    for pnode in &kinds.touched {
        write_known(text, start, kinds, trail, *pnode)?;
    }
    Ok(())
}

// Adds the line of an object; the registry has none.
fn write_known(
    text: &mut String,
    start: &Start,
    kinds: &Kinds,
    trail: &Trail,
    pnode: Pnode,
) -> Result<(), AllocError>
    ensures { OnOk result ((session : Session) (history : List AnyEntry) → AreKinds start.now session history kinds.now → IsTrail start.now session history trail.now
        → string_bytes text.new ≡ string_bytes text.old ++ object_line session history pnode) }
{
    match kinds.kind(start, pnode) {
        Some(kind) => write_object(text, pnode, kind, trail.version(start, pnode)),
        None => Ok(()),
    }
}

fn write_standing(text: &mut String, standing: &Standing) -> Result<(), AllocError>
    ensures { OnOk result (string_bytes text.new ≡ string_bytes text.old ++ flat_map (waiting_text standing.now) standing.now.processes.keys) }
{
    for process in &standing.processes {
        write_next(text, standing, *process)?;
    }
    Ok(())
}

// Adds the line of a process with a line that isn't answered.
fn write_next(text: &mut String, standing: &Standing, process: u32) -> Result<(), AllocError>
    ensures { OnOk result (string_bytes text.new ≡ string_bytes text.old ++ waiting_text standing.now process) }
{
    match standing.next_line(process) {
        Some(line) => write_waiting(text, process, line),
        None => Ok(()),
    }
}

// Some process of the trace is open.
fn is_stuck(standing: &Standing, calls: &Calls) -> bool
    requires { (process : ℕ) → lines_in standing.now process < 2 ^ 63 }
    ensures { result ≡ list_any (λ process. not (done_by calls.now standing.now process (lines_in standing.now process + 1))) standing.now.processes.keys }
{
    standing
        .processes
        .iter()
        .any(|process| standing.is_open(calls, *process))
}
