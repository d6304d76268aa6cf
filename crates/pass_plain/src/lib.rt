//! The plain definitions of a history, and their laws.
//!
//! `specs` is what a reader has to believe: legal histories, flows, versions, records, runs of a trace. Nothing in it knows locks,
//! flags, caches or logs. `Outlines` says what of a start is known before its files' bytes are read.
//!
//! The module `laws` carries what follows from legality: an IN names an earlier OUT (`sources`); what an object's holder and a
//! caller's holder have seen decides what may come next, and with which records (`two_prefixes`); ranges of sizes, offsets,
//! descriptors, call numbers and pipes (`bounds`); how calls end (`ends`); what is made is new and what is used is there
//! (`objects`); processes begin once (`processes`); how one object's version, mark and sources move (`lineages`); by an await no data
//! flows (`awaits`); how a list's ceiling is raised (`ceilings`).
#![tactic(auto)]

mod ceilings;
mod contents;
pub mod file;
pub mod laws;
mod names;
mod nodes;
pub mod process;
mod records;
pub mod registry;
pub mod request;
pub mod start;
pub mod steps;

pub use ceilings::{CEILING_STEP, ceilings_between};
pub use contents::{Content, bytes_in};
pub use names::Names;
pub use nodes::VersionStep;
pub use process::ProcessState;
pub use records::{Recording, is_change};
pub use request::Request;
pub use start::{Start, StartFile};
