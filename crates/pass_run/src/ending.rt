//! What the run of a trace hands out.
ghost use Rattle.std.specs.Prelude.{◌≡◌, []};
ghost use Rattle.pass_run.specs.Ends.{IsEmptyStart};

use pass_entry::{Entry, Record, Synced};
use pass_plain::Start;
use pass_status::Status;
use std::alloc::Global;

/// How the run of a trace ended: the history that it recorded, the syncs of the store, the records and the start that its
/// opening gave, the report, and the disk.
#[derive(Drop)]
pub struct RunEnd<D> {
    pub status: Status,
    pub history: Vec<Entry>,
    pub syncs: Vec<Synced>,
    pub list: Vec<Record>,
    /// Its files lack their bytes.
    pub start: Start,
    /// Nothing where none was asked for.
    pub report: Vec<u8>,
    pub disk: D,
}

/// The start of a store that nothing was opened for.
pub fn empty_start(alloc: Global) -> Start
    ensures { IsEmptyStart result }
{
    Start {
        ceiling: 0,
        files: Vec::new(alloc),
        apps: Vec::new(alloc),
    }
}

/// The end of a run for which nothing was opened.
pub fn unopened<D>(alloc: Global, status: Status, disk: D) -> RunEnd<D>
    ensures status { result.status ≡ status }
    ensures history { result.history.items ≡ [] }
    ensures syncs { result.syncs.items ≡ [] }
    ensures list { result.list.items ≡ [] }
    ensures start { IsEmptyStart result.start }
    ensures report { result.report.items ≡ [] }
    ensures disk { result.disk ≡ disk }
{
    RunEnd {
        status,
        history: Vec::new(alloc),
        syncs: Vec::new(alloc),
        list: Vec::new(alloc),
        start: empty_start(alloc),
        report: Vec::new(alloc),
        disk,
    }
}
