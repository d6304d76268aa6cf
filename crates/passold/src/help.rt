//! The words of the program.

pub const HELP: &str = "passold DIR ARCHIVE COMMAND: old versions of a store's files

  run                   runs the trace on standard input as passd does, and keeps each version of its files in the archive
  cat P.V               writes the bytes of version V of file P
  versions FILE         lists the versions of a file that are kept, each with its size and its MD5; FILE is a number, or a name: then
                        of each file that ever had it
  diff P.V P.W          lists the ranges of bytes in which two versions of a file differ
  tar NODE              writes a tar of each version of a file among NODE (P.V, NAME or NAME@V) and all it came from
  prune FRESH [P.V]..   puts into the archive in the folder FRESH, which has none yet: the last version of each file, each with the
                        attribute `keep`, and each P.V with what it came from
  check                 names each version that is kept with other bytes than the store's log tells, and counts

  --workers N           with run: 1 to 64 threads (4 if not given)

passold --help, passold --version. DIR is the folder of the store, and ARCHIVE a folder of its own; both have to be there.
";
