//! The words of the program.

pub(crate) const HELP: &str =
    "passtrace [DIR] [--root FOLDER] [--waits-flow] [--loaders] [--fact NAME VALUE].. < FILE: what strace wrote of a run,
as a trace for passd

  strace -f -y -xx -s 1073741823 -o FILE COMMAND    writes what it reads
  passtrace [DIR] [..] < FILE > TRACE               writes the trace; what it can't say goes to standard error
  passd DIR run --replay [--long] < TRACE           runs it over the store in DIR; with --long where `long` is told

DIR is the folder of the store in which the trace will be run: its files are opened, and not made. Names below FOLDER,
an absolute path without links, become relative to it. A process that waits for another takes nothing from it; by
--waits-flow it takes all that the other came from. By --loaders the files of the programs that ran are read for what
loads them, which strace doesn't see. The run has an app object with each attribute NAME, whose value is VALUE.

passtrace --help, passtrace --version.
";
