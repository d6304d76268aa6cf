//! The words of the program.

pub const HELP: &str = "passview DIR COMMAND: the graph of a store as a picture or as tables

  dot [NODE]     for Graphviz: the whole graph, or what the version came from
  prov [NODE]    the same as PROV-JSON of W3C
  csv nodes      a table of the versions, for databases and engines of graphs
  csv edges      a table of what each version came from

  --plain        last, with dot: without the programs and libraries that the system brings
  --store NAME   last, with csv: the name of the store in its keys, else DIR

passview --help, passview --version. DIR has to be there. A NODE is P.V, version V of object P, or a file's NAME, or NAME@V.
A name that reads as P.V, has an @ or is --plain is written NAME@.
";
