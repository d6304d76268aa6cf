//! The graph of the versions of a store: the laws of every legal history's graph, and the check of a list of records.
//!
//! For each accepted opening and each legal history (`laws`): the records have a version exactly where an entry freezes, and an
//! input exactly where an IN is fresh (`edges`); along every edge the rank of a version falls, and no edge leads from the opening
//! into the session, so there is no cycle (`rank`); a path leads from a version to another exactly where a chain of flows, or the
//! opening's graph, joins them (`chain_gives_path`, `path_gives_chain`, `graph`); an IN that isn't fresh has its edge already, and
//! its source took no new ancestor in between (`duplicates_lose_nothing`); the list of each prefix is well logged (`prefixes`);
//! version, mark, fresh and freeze mean what the texts over places say (`words`); a store without records, whose start is empty, is
//! an accepted opening (`first_opening`); the nodes of a well logged list are made once, and their ranks fall along every edge
//! (`well_logged`).
//!
//! `read` answers exactly where a list of records is well logged, with tables of what it says of each object (`says`), and else the
//! first record that isn't, with its first reason (`flaw`). `check` is `read` with ranks, which show that the graph has no cycle.
#![tactic(auto)]

pub mod bounds;
mod checking;
pub mod laws;
mod logged;

pub use checking::{CheckFault, Ranks, check, read};
pub use logged::{Logged, Told};
