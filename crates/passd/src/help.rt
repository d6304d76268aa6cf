//! The words of the program.

pub const HELP: &str = "passd DIR COMMAND: a file store that records which data came from where

  run                      runs the trace on standard input, and writes the report
  gen NUMBER LINES         runs a trace of 15 to 100000 lines that the number draws
  check                    counts what the store has, and lists blocks with other bytes than were recorded
  ancestors NODE           lists what the version came from
  descendants NODE         lists what came from the version
  inputs NODE              lists the versions of files from which the version came
  outputs NODE             lists the versions of files that came from the version
  path NODE NODE           gives a shortest way from the first version back to the second, or none
  named NAME               lists the files that ever had the name, each at its current version
  recipe NODE              lists what the version came from, in an order in which it can be made again
  match NODE PATTERN       follows paths of the pattern
  questions                answers the questions on standard input, each a line as ancestors 8.1, in their order
  send FROM                writes the log from this place on
  follow                   keeps the log that comes on standard input

  --replay                 with run, without --workers: makes each call where its line stands, or as soon behind it as it is ready
  --long                   with run and gen: a trace of up to 1000000 lines, of which up to 65535 make an object
  --workers N              with run and gen: 1 to 64 threads (4 if not given)
  --json                   with ancestors, descendants, inputs, outputs, path, named and match; with questions: with each
  --names                  with ancestors, descendants and path: tells of each node its kind, its name or what it ran, or
                           the attributes of an app object
  --data                   with inputs and outputs: only flows of data count
  --plain                  with inputs and outputs: leaves out the programs and libraries of the system

passd --help, passd --version. DIR has to be there. A NODE is P.V, version V of object P. With inputs, outputs and
--names it is also a file's NAME, or NAME@V. A name that reads as P.V or has an @ is written NAME@.
";
