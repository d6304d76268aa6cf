//! How far the processes of a trace have come.
ghost use Rattle.std.specs.Prelude.{ℕ, List, [], ◌∷◌, ◌≡◌, ◌==◌, ◌+◌, ◌≤◌, ◌<◌, ◌^◌, Option, Some, None, not, length, take, fold, option_map, IfOk, OnOk, if◌then◌else◌};
ghost use Rattle.std.specs.Option.{option_or, option_to_list};
ghost use Rattle.std.specs.Ordering.{nat_cmp};
ghost use Rattle.std.specs.BTreeMap.{get};
ghost use Rattle.std.specs.BTreeSet.{insert_key};
ghost use Rattle.pass_entry.specs.declared.entry.Entry.{Entry as AnyEntry};
ghost use Rattle.pass_plain.specs.Sessions.{Session};
ghost use Rattle.pass_plain.specs.Traces.{fork_as};
ghost use Rattle.pass_plain.specs.Runs.{IsRun, pnode_in, first_begun, is_open as is_open_in};
ghost use Rattle.pass_trace.specs.TraceLines.{plain_line, plain_trace, call_of};
ghost use Rattle.pass_report.specs.Reports.{forked_by, next_line as next_line_of};
ghost use Rattle.pass_report.specs.CallTables.{IsCallTable};
ghost use Rattle.pass_report.specs.Standings.{lines_in, begun_from, ReadsLine, LooksAtLine, HasRead, HasLooked, done_by};

use crate::calls::Calls;
use pass_entry::Pnode;
use pass_trace::{Command, TraceLine};
use std::alloc::{AllocError, Global};
use std::collections::{BTreeMap, BTreeSet};

/// The processes of a trace by their numbers there: all, those that have begun with their pnodes, how many lines each has,
/// and the first line of each that isn't answered.
#[derive(Drop)]
pub struct Standing {
    pub processes: BTreeSet<u32>,
    begun: BTreeMap<u32, Pnode>,
    lines: BTreeMap<u32, u64>,
    next: BTreeMap<u32, u32>,
}

// The process that a command forks.
fn forked(command: &Command) -> Option<u32>
    ensures { result ≡ forked_by (call_of command.now) }
{
    match command {
        Command::Fork { child } => Some(*child),
        _ => None,
    }
}

impl Standing {
    /// How far the processes of these lines have come by the calls. `first` is the pnode of process 1, if it has begun.
    pub fn of(
        alloc: Global,
        lines: &[TraceLine],
        calls: &Calls,
        first: Option<Pnode>,
    ) -> Result<Standing, AllocError>
        ensures few { IfOk result (λ s. (process : ℕ) → lines_in s process ≤ length lines.now) }
        ensures looked { IfOk result (λ s. (session : Session) (history : List AnyEntry) → IsRun session (plain_trace lines.now) history → IsCallTable history calls.now
            → first ≡ pnode_in (first_begun session history) 1 → HasLooked session (plain_trace lines.now) history (plain_trace lines.now) s) }
    {
        let mut standing = Standing::new(alloc, first)?;
        standing.read(lines, calls)?;
        standing.lines.clear();
        standing.look(lines, calls)?;
        Ok(standing)
    }

    // Before the first line.
    fn new(alloc: Global, first: Option<Pnode>) -> Result<Standing, AllocError>
        ensures processes { IfOk result (λ s. s.processes.keys ≡ 1 ∷ []) }
        ensures begun { IfOk result (λ s. (process : ℕ) → get nat_cmp s.begun process ≡ (if 1 == process then first else None)) }
        ensures lines { IfOk result (λ s. (process : ℕ) → lines_in s process ≡ 0) }
        ensures next { IfOk result (λ s. (process : ℕ) → get nat_cmp s.next process ≡ None) }
    {
        let mut processes = BTreeSet::new(alloc);
        processes.insert(1)?;
        let mut begun = BTreeMap::new(alloc);
        if let Some(pnode) = first {
            begun.insert(1, pnode)?;
        }
        Ok(Standing {
            processes,
            begun,
            lines: BTreeMap::new(alloc),
            next: BTreeMap::new(alloc),
        })
    }

    // Finds which processes there are, and which have begun.
    fn read(&mut self, lines: &[TraceLine], calls: &Calls) -> Result<(), AllocError>
        requires { (process : ℕ) → lines_in self.old process ≡ 0 }
        ensures read { OnOk result ((session : Session) (history : List AnyEntry) → IsRun session (plain_trace lines.now) history → IsCallTable history calls.now
            → HasRead session history [] self.old → HasRead session history (plain_trace lines.now) self.new) }
        ensures next { self.new.next ≡ self.old.next }
    {
        for line in lines {
            self.read_line(line, calls)?;
        }
        Ok(())
    }

    // One more line.
    fn read_line(&mut self, line: &TraceLine, calls: &Calls) -> Result<(), AllocError>
        requires { lines_in self.old line.now.process < 2 ^ 63 }
        ensures reads { OnOk result (ReadsLine calls.now (plain_line line.now) self.old self.new) }
        ensures next { self.new.next ≡ self.old.next }
    {
        let number = self.count(line.process)?;
        if let Some(child) = forked(&line.command) {
            self.processes.insert(child)?;
            self.fork(child, line.process, number, calls)?;
        }
        Ok(())
    }

    // One more line of the process: the answer is its number among them, from 1.
    fn count(&mut self, process: u32) -> Result<u64, AllocError>
        requires { lines_in self.old process < 2 ^ 63 }
        ensures number { IfOk result (λ n. n ≡ lines_in self.old process + 1) }
        ensures lines { OnOk result ((q : ℕ) → lines_in self.new q ≡ (if process == q then lines_in self.old q + 1 else lines_in self.old q)) }
        ensures processes { self.new.processes ≡ self.old.processes }
        ensures begun { self.new.begun ≡ self.old.begun }
        ensures next { self.new.next ≡ self.old.next }
    {
        let number = self.line_count(process) + 1;
        self.lines.insert(process, number)?;
        Ok(number)
    }

    fn line_count(&self, process: u32) -> u64
        ensures { result ≡ lines_in self.now process }
    {
        match self.lines.get(&process) {
            Some(count) => *count,
            None => 0,
        }
    }

    // A fork of the parent's, its call of this number, begins the child where it is answered.
    fn fork(
        &mut self,
        child: u32,
        parent: u32,
        number: u64,
        calls: &Calls,
    ) -> Result<(), AllocError>
        ensures begun { OnOk result ((q : ℕ) → get nat_cmp self.new.begun q
            ≡ option_or (get nat_cmp self.old.begun q) (pnode_in (begun_from calls.now (get nat_cmp self.old.begun parent) number (fork_as child)) q)) }
        ensures lines { self.new.lines ≡ self.old.lines }
        ensures processes { self.new.processes ≡ self.old.processes }
        ensures next { self.new.next ≡ self.old.next }
    {
        match self.begun.get(&parent).copied() {
            Some(parent) => {
                if calls.is_over(parent, number) && !self.begun.contains_key(&child) {
                    self.begun.insert(child, calls.child(parent, number))?;
                }
                Ok(())
            }
            None => Ok(()),
        }
    }

    // Finds the first line of each process that isn't answered.
    fn look(&mut self, lines: &[TraceLine], calls: &Calls) -> Result<(), AllocError>
        requires { (process : ℕ) → lines_in self.old process ≡ 0 }
        ensures few { OnOk result ((process : ℕ) → lines_in self.new process ≤ length lines.now) }
        ensures looked { OnOk result ((session : Session) (history : List AnyEntry) → IsRun session (plain_trace lines.now) history → IsCallTable history calls.now
            → HasLooked session (plain_trace lines.now) history [] self.old → HasLooked session (plain_trace lines.now) history (plain_trace lines.now) self.new) }
    {
        for line in lines {
            self.look_at_line(line, calls)?;
        }
        Ok(())
    }

    fn look_at_line(&mut self, line: &TraceLine, calls: &Calls) -> Result<(), AllocError>
        requires { lines_in self.old line.now.process < 2 ^ 63 }
        ensures { OnOk result (LooksAtLine (done_by calls.now self.old line.now.process (lines_in self.old line.now.process + 1)) (plain_line line.now) self.old self.new) }
    {
        let number = self.count(line.process)?;
        if !self.is_done(calls, line.process, number) && !self.next.contains_key(&line.process) {
            self.next.insert(line.process, line.number)?;
        }
        Ok(())
    }

    // The call of this number of a process is answered.
    fn is_done(&self, calls: &Calls, process: u32, number: u64) -> bool
        ensures { result ≡ done_by calls.now self.now process number }
    {
        match self.begun.get(&process) {
            Some(who) => calls.is_over(*who, number),
            None => false,
        }
    }

    /// The number of the next line of a process with a line that isn't answered.
    pub fn next_line(&self, process: u32) -> Option<u32>
        ensures { result ≡ get nat_cmp self.now.next process }
    {
        self.next.get(&process).copied()
    }

    /// A line of the process isn't answered, or its exit isn't made.
    pub fn is_open(&self, calls: &Calls, process: u32) -> bool
        requires { lines_in self.now process < 2 ^ 63 }
        ensures { result ≡ not (done_by calls.now self.now process (lines_in self.now process + 1)) }
    {
        !self.is_done(calls, process, self.line_count(process) + 1)
    }
}
