//! How many places of a history the run of a trace takes at most.
ghost use Rattle.std.specs.Prelude.{◌≡◌, ◌≤◌, length};
ghost use Rattle.pass_trace.specs.declared.limits.Scale.TheVariants.{Long};
ghost use Rattle.pass_trace.specs.Limits.{most_lines};
ghost use Rattle.pass_trace.specs.TraceLines.{call_of, plain_trace};
ghost use Rattle.pass_replay.specs.Needs.{need_of_line, places_of as places_of_trace};

use pass_trace::{Command, TraceLine};

/// The first process's first entry and its exit, a `Leave` for each of 64 descriptors and `Finish`.
const FIRST_PROCESS: u32 = 66;

/// A fork, with the exit of its child.
const FORK: u32 = 132;

/// Any other call.
const CALL: u32 = 3;

/// How many places of a history the run of a trace takes at most.
pub(crate) fn places_of(lines: &[TraceLine]) -> u32
    requires { length lines.now ≤ most_lines Long }
    ensures { result ≡ places_of_trace (plain_trace lines.now) }
{
    let mut places = FIRST_PROCESS;
    for line in lines {
        places += need_of(&line.command);
    }
    places
}

/// What the call of a command needs.
fn need_of(command: &Command) -> u32
    ensures { result ≡ need_of_line (call_of command.now) }
{
    match command {
        Command::Fork { .. } => FORK,
        _ => CALL,
    }
}
