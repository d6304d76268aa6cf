//! Runs a trace over the store of a disk: its processes take their turns on worker threads, or make their calls in the order of the
//! lines, what they did is kept, and the end is told.
//!
//! `run_trace` opens a session and a store over the disk, has `pass_turns` run the processes, or `pass_order` for a replay, settles
//! and closes the store whatever they came to, and makes the report. The store is handed to the run as a `Served`, which implements
//! the trait `Calls`: each command of a line is a call of the store. `docs/PROMISES.md` explains the clauses: `disk_fault`,
//! `no_fault`, `judged`, `bad_store`, `recorded`, `ended`, `backed`, `no_report`, `later`, whatever the workers do, and `replayed`.
//! `run_unreported` is that run without its report; what it says of the end is said of the text that would be the report (`ended`,
//! `silent`).
//!
//! What a run stores is `IsStored`, for every status: since each sync a crash leaves the entries of the sync (`since`), and of each
//! sync of a file of which the history tells the file's data (`synced`). Its numbers are above the ceiling that it found, and
//! within its own (`numbered`). Behind an end with Done or Stuck a crash leaves all records, and each block of the run with its
//! bytes (`settled`: `records`, `held`, `matched`, `older`).
//!
//! Let a run come to its end, and then a second. By `laws::successive` the second opens exactly the records of the first; where the
//! store area reached to the end of each block of the log as the first began, it opens each file with the bytes that the first
//! left, and the area reaches so far again; and behind the second each crash leaves the records of both. By `laws::reopened` a
//! store that reads what a crash left behind an ended run has all its records, and, where the area reached so far, lists no range
//! that this run hadn't found unmatched (`whole`). Since a sync of a file it has at least the entries of the sync, and lists no
//! range of the file that they made (`since`).
#![tactic(auto)]

mod closing;
mod ending;
pub mod laws;
mod needs;
mod order;
mod reporting;
mod serving;
mod storing;

pub use ending::{RunEnd, empty_start, unopened};
pub use order::Order;
pub use storing::{run_trace, run_unreported};
