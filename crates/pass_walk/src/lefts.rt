//! How many turns are left from each line of a trace on.
ghost use Rattle.std.specs.Prelude.{◌≡◌, ◌≤◌, ◌+◌, ◌*◌, ℕ, [], IfOk, length};
ghost use Rattle.pass_trace.specs.declared.limits.Scale.TheVariants.{Long};
ghost use Rattle.pass_trace.specs.Limits.{most_lines};
ghost use Rattle.pass_trace.specs.TraceLines.{call_of, plain_trace};
ghost use Rattle.pass_replay.specs.Lines.{AreLinesBehind};
ghost use Rattle.pass_walk.specs.Lefts.{AreLefts, of_child};
ghost use Rattle.pass_walk.specs.Behind.{left_behind};

use pass_trace::{Command, TraceLine};
use std::alloc::{AllocError, Global};
use std::collections::BTreeMap;

/// How many are left to a process behind a line: its exit, where it has no line there.
fn left_to(behind: &BTreeMap<u32, u64>, process: u32) -> u64
    ensures { result ≡ left_behind behind.now process }
{
    behind.get(&process).copied().unwrap_or(1)
}

/// How many are left to the child that a command forks.
fn left_to_child(behind: &BTreeMap<u32, u64>, command: &Command) -> u64
    ensures { result ≡ of_child (left_behind behind.now) (call_of command.now) }
{
    match command {
        Command::Fork { child } => left_to(behind, *child),
        _ => 0,
    }
}

/// Looks at each line once, the last one first.
pub(crate) fn lefts_of(alloc: Global, lines: &[TraceLine]) -> Result<Vec<u64>, AllocError>
    requires ordered { AreLinesBehind [] (plain_trace lines.now) }
    requires few { length lines.now ≤ most_lines Long }
    ensures { IfOk result (λ lefts. AreLefts (plain_trace lines.now) lefts.items) }
{
    let mut behind = BTreeMap::new(alloc);
    let mut lefts = vec![in alloc; 0; lines.len()]?;
    'lines: for place in (0..lines.len()).rev() {
        let line = &lines[place];
        let left = 1 + left_to_child(&behind, &line.command) + left_to(&behind, line.process);
        behind.insert(line.process, left)?;
        lefts[place] = left;
    }
    Ok(lefts)
}
