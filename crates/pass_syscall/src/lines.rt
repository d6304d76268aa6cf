//! The lines of strace, of which those of one call are joined.

use crate::calls::stands_at_end;
use crate::fault::{LineFault, StraceFault, StraceReason, Taken};
use crate::parts::{BAD, before, behind, behind_spaces, small_of};
use std::alloc::Global;
use std::collections::{BTreeMap, BTreeSet};

/// How far a step has come.
#[derive(Clone, Copy, PartialEq)]
pub enum Stage {
    /// A call of which no answer is known.
    Begun,
    Answered,
    /// Not a call: its thread has ended.
    Ended,
}

/// A call of a thread, or its end: where it stands, the lines where it began and ended, and its text, which may go on in a later line.
#[derive(Clone, Copy)]
pub struct Step<'a> {
    pub place: u64,
    pub begun: u64,
    pub ended: u64,
    pub pid: u32,
    pub front: &'a [u8],
    pub rest: &'a [u8],
    pub stage: Stage,
}

impl<'a> Step<'a> {
    fn on_line(line: u64, pid: u32, front: &'a [u8], stage: Stage) -> Step<'a> {
        let (place, begun, ended) = (line, line, line);
        let rest = &[];
        Step {
            place,
            begun,
            ended,
            pid,
            front,
            rest,
            stage,
        }
    }
}

// A call that goes on: where its step is, unless it stands where it ends.
#[derive(Clone, Copy)]
struct Unfinished<'a> {
    step: Step<'a>,
    place: Option<usize>,
}

#[derive(Drop)]
pub struct Joining<'a> {
    /// The calls so far, each where it stands.
    pub steps: Vec<Step<'a>>,
    /// The calls that go on, by their threads.
    begun: BTreeMap<u32, Unfinished<'a>>,
    /// The threads that haven't ended.
    pub alive: BTreeSet<u32>,
}

impl<'a> Joining<'a> {
    fn take(&mut self, line: u64, text: &'a [u8]) -> Taken {
        let digits = before(text, b' ');
        let unnumbered = LineFault::Bad(StraceReason::Unnumbered);
        let pid = small_of(digits).ok_or(unnumbered)?;
        let said = behind_spaces(behind(text, digits.len()));
        if let Some(how) = said.strip_prefix(b"+++ ") {
            return self.end(line, pid, how);
        }
        self.alive.insert(pid)?;
        if said.starts_with(b"--- ") {
            return Ok(());
        }
        match said.strip_prefix(b"<... ") {
            Some(rest) => self.resume(line, pid, rest),
            None => self.begin(line, pid, said),
        }
    }

    // A thread that execs goes on as the first one of its process, whose call is over.
    fn end(&mut self, line: u64, pid: u32, how: &'a [u8]) -> Taken {
        let begun = self.begun.remove(&pid);
        let mut ended = pid;
        if let Some(by) = how.strip_prefix(b"superseded by execve in pid ") {
            ended = small_of(before(by, b' ')).ok_or(BAD)?;
            if let Some(exec) = self.begun.remove(&ended) {
                self.begun.insert(pid, exec)?;
            }
        } else if let Some(
            Unfinished {
                place: Some(place),
                ..
            },
        ) = begun
        {
            if let Some(step) = self.steps.get_mut(place) {
                step.ended = line;
            }
        }
        let _alive = self.alive.remove(&ended);
        self.steps
            .push(Step::on_line(line, ended, how, Stage::Ended))?;
        Ok(())
    }

    fn begin(&mut self, line: u64, pid: u32, text: &'a [u8]) -> Taken {
        let Some(front) = text.strip_suffix(b" <unfinished ...>") else {
            self.steps
                .push(Step::on_line(line, pid, text, Stage::Answered))?;
            return Ok(());
        };
        let step = Step::on_line(line, pid, front, Stage::Begun);
        let place = if stands_at_end(front) {
            None
        } else {
            self.steps.push(step)?;
            Some(self.steps.len().saturating_sub(1))
        };
        match self.begun.insert(pid, Unfinished { step, place })? {
            Some(_) => Err(LineFault::Bad(StraceReason::Process)),
            None => Ok(()),
        }
    }

    // Takes the rest of a call, behind its name.
    fn resume(&mut self, line: u64, pid: u32, text: &'a [u8]) -> Taken {
        let end = text.iter().position(|byte| *byte == b'>').ok_or(BAD)?;
        let (front, rest) = text.split_at(end);
        if !front.ends_with(b" resumed") {
            return Err(BAD);
        }
        let Some(Unfinished { step, place }) = self.begun.remove(&pid) else {
            return Err(LineFault::Bad(StraceReason::Process));
        };
        let mut step = step;
        step.rest = behind(rest, 1);
        step.stage = Stage::Answered;
        step.ended = line;
        match place {
            Some(place) => {
                if let Some(begun) = self.steps.get_mut(place) {
                    *begun = step;
                }
            }
            None => {
                step.place = line;
                self.steps.push(step)?;
            }
        }
        Ok(())
    }
}

pub fn join(alloc: Global, lines: &[u8]) -> Result<Joining<'_>, StraceFault> {
    let mut joining = Joining {
        steps: Vec::new(alloc),
        begun: BTreeMap::new(alloc),
        alive: BTreeSet::new(alloc),
    };
    let mut number: u64 = 0;
    for line in lines.split(|byte| *byte == b'\n') {
        number = number.saturating_add(1);
        if let Err(fault) = joining.take(number, line) {
            return Err(fault.at_line(number));
        }
    }
    Ok(joining)
}
