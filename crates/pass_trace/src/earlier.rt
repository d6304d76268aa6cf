//! The lines of a trace so far, and what the lines behind them may be.
ghost use Rattle.std.specs.Prelude.{◌≡◌, ℕ, ◌≤◌, ◌++◌, ◌∷◌, [], length, slice_index, IfOk, OnOk, OnErr, None};
ghost use Rattle.pass_trace.specs.declared.limits.Scale.TheVariants.{Long};
ghost use Rattle.pass_trace.specs.Limits.{last_process};
ghost use Rattle.pass_trace.specs.Rules.{is_there, may_call, rule_of, child_of};

use crate::limits::Scale;
use crate::objects::creates;
use crate::trace::{Command, TraceLine, TraceReason};
use std::alloc::{AllocError, Global};
use std::marker::Model;

// The earlier lines, seen as their list, with the parent of each process that they fork.
#[derive(Drop)]
pub(crate) struct Earlier {
    lines: Vec<TraceLine>,
    parents: Vec<u32>,
    created: u32,
}

impl Model for Earlier {
    ghost use Rattle.std.specs.Prelude.{List};
    ghost use Rattle.pass_trace.specs.declared.trace.TraceLine.{TraceLine};
    ghost use Rattle.pass_trace.specs.Tables.{IsTable};

    ghost Value = { List TraceLine };

    ghost view = { λ e. e.lines.items };

    ghost invariant = { λ e. IsTable e.lines.items e.parents.items e.created };
}

fn zeros(alloc: Global, count: usize) -> Result<Vec<u32>, AllocError>
    ensures len { IfOk result (λ v. length v.items ≡ count) }
    ensures zero { IfOk result (λ v. (k : ℕ) → slice_index v.items k ≡ 0) }
{
    vec![in alloc; 0; count]
}

impl Earlier {
    pub(crate) fn new(alloc: Global) -> Result<Earlier, AllocError>
        ensures { IfOk result (λ e. e ≡ []) }
    {
        let parents = zeros(alloc, Scale::Long.last_process() as usize + 1)?;
        Ok(Earlier {
            lines: Vec::new(alloc),
            parents,
            created: 0,
        })
    }

    fn is_there(&self, process: u32) -> bool
        requires { process ≤ last_process Long }
        ensures { result ≡ is_there self.now process }
    {
        process == 1 || self.parents[process as usize] > 0
    }

    fn may_call(&self, process: u32, command: &Command) -> bool
        requires parent { 1 ≤ process }
        requires child { child_of command.now ≤ last_process Long }
        ensures { result ≡ may_call self.now process command.now }
    {
        match command {
            Command::Fork { child } => !self.is_there(*child),
            Command::Wait { child } => self.parents[*child as usize] == process,
            Command::Await { child } => self.parents[*child as usize] == process,
            _ => true,
        }
    }

    // The first reason why the line may not come next.
    pub(crate) fn rule_of(&self, scale: Scale, line: &TraceLine) -> Option<TraceReason>
        requires process { 1 ≤ line.now.process }
        requires process_end { line.now.process ≤ last_process Long }
        requires child { child_of line.now.command ≤ last_process Long }
        ensures { result ≡ rule_of scale self.now line.now }
    {
        if !(self.is_there(line.process) && self.may_call(line.process, &line.command)) {
            return Some(TraceReason::Process);
        }
        if creates(&line.command) && self.created >= scale.most_created() {
            return Some(TraceReason::Many);
        }
        None
    }

    // Puts a line behind the others.
    pub(crate) fn push(&mut self, scale: Scale, line: TraceLine) -> Result<(), AllocError>
        requires process { 1 ≤ line.process }
        requires child { child_of line.command ≤ last_process Long }
        requires fits { rule_of scale self.old line ≡ None }
        ensures ok { OnOk result (self.new ≡ self.old ++ line ∷ []) }
        ensures err { OnErr result (self.new ≡ self.old) }
    {
        let _ = scale;
        let made = u32::from(creates(&line.command));
        let process = line.process;
        let child = match line.command {
            Command::Fork { child } => Some(child),
            _ => None,
        };
        self.lines.push(line)?;
        self.created += made;
        if let Some(child) = child {
            self.parents[child as usize] = process;
        }
        Ok(())
    }

    pub(crate) fn into_lines(self) -> Vec<TraceLine>
        ensures { result.items ≡ self }
    {
        let Earlier { lines, .. } = self;
        lines
    }
}
