//! One pass over a history.
ghost use Rattle.std.specs.Prelude.{◌≡◌, ◌+◌, ◌<◌, ◌&&◌, not, length, IfOk, OnOk};
ghost use Rattle.pass_entry.specs.declared.entry.Entry.{Entry as AnyEntry};
ghost use Rattle.std.specs.Prelude.{List};
ghost use Rattle.pass_plain.specs.Sessions.{Session};
ghost use Rattle.pass_plain.specs.Legal.{is_start};
ghost use Rattle.pass_report.specs.Reports.{IsLegalFrom};
ghost use Rattle.pass_report.specs.Recorders.{HasPassed};

use crate::calls::Calls;
use crate::kinds::Kinds;
use crate::logged::Logged;
use crate::processes::Processes;
use crate::trail::Trail;
use pass_entry::{CallName, Entry};
use pass_plain::Start;
use std::alloc::{AllocError, Global};

/// What the entries so far have made.
#[derive(Drop)]
pub struct Recorder {
    pub trail: Trail,
    pub calls: Calls,
    pub kinds: Kinds,
    pub logged: Logged,
    /// For each entry, whether it ends a call that a process made.
    pub answered: Vec<bool>,
    processes: Processes,
}

// The entry is the last one of a call that a process made.
fn is_answered(entry: &Entry, ended: bool) -> bool
    ensures { result ≡ (not (is_start entry.now.call) && ended) }
{
    match entry.call {
        CallName::Start => false,
        _ => ended,
    }
}

impl Recorder {
    /// Before the first entry.
    pub fn opened(alloc: Global, start: &Start) -> Result<Recorder, AllocError>
        ensures { IfOk result (λ r. (session : Session) (history : List AnyEntry) → IsLegalFrom start.now history session → HasPassed start.now session history 0 r) }
    {
        let logged = Logged::opened(alloc, start)?;
        Ok(Recorder {
            trail: Trail::new(alloc),
            calls: Calls::new(alloc),
            kinds: Kinds::new(alloc),
            logged,
            answered: Vec::new(alloc),
            processes: Processes::new(alloc),
        })
    }

    /// The entry at a place of the history.
    pub fn note(&mut self, start: &Start, history: &[Entry], place: usize) -> Result<(), AllocError>
        requires within { place < length history.now }
        requires known { (session : Session) × IsLegalFrom start.now history.now session × HasPassed start.now session history.now place self.old }
        ensures { OnOk result ((session : Session) → IsLegalFrom start.now history.now session → HasPassed start.now session history.now place self.old
            → HasPassed start.now session history.now (place + 1) self.new) }
    {
        let entry = &history[place];
        let turn = self.trail.note(start, entry)?;
        let ended = self.processes.ends_call(entry);
        self.answered.push(is_answered(entry, ended))?;
        self.calls.note(entry, ended)?;
        self.kinds.note(entry)?;
        self.processes.note(&history[..place], entry)?;
        self.logged.note(start, entry, &turn)
    }
}
