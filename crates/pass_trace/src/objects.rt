//! How many objects a trace can make.
ghost use Rattle.std.specs.Prelude.{◌≡◌, ◌≤◌, length};
ghost use Rattle.pass_trace.specs.declared.limits.Scale.TheVariants.{Long};
ghost use Rattle.pass_trace.specs.Limits.{most_lines};
ghost use Rattle.pass_trace.specs.TraceLines.{objects_of as objects_of_lines};
ghost use Rattle.pass_trace.specs.Rules.{creates as creates_of};

use crate::trace::{Command, TraceLine};

/// How many objects the session of a trace may make: its first process, and one for each line that creates one.
pub fn objects_of(lines: &[TraceLine]) -> u32
    requires { length lines.now ≤ most_lines Long }
    ensures { result ≡ objects_of_lines lines.now }
{
    1 + lines.iter().filter(|line| creates(&line.command)).count() as u32
}

pub(crate) fn creates(command: &Command) -> bool
    ensures { result ≡ creates_of command.now }
{
    matches!(
        command,
        Command::Creat { .. } | Command::Pipe { .. } | Command::Fork { .. } | Command::MkObj { .. }
    )
}
