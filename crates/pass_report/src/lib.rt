//! The report of a run: what each call was answered, the version graph, the objects, and who waits.
//!
//! `report` of a run's history is, byte for byte, the report that the definitions give (`Reports`), whatever the workers: each answered call with its
//! nodes, the edges of the history's records, the objects with their last versions, who waits, and the counts. It keeps one
//! `Versions` per object and compares nothing with the slow reference; the clause does. For a report a history has to be legal in a
//! session with that start, and no more.
#![tactic(auto)]

mod answers;
mod blocks;
mod calls;
mod files;
mod kinds;
mod lines;
mod logged;
mod names;
mod opening;
mod processes;
mod recorder;
mod reporting;
mod standing;
mod trail;

pub use reporting::report;
pub use trail::Trail;
