//! What a session writes is bounded: by the log that it begins with, and by its history.
//!
//! The laws say that a session's numbers, its records and their bytes stay within the log's limits, by the end of its log and the
//! lines of its trace (`logs`, `histories`, `runs`). So no run is refused for them.
#![tactic(auto)]

pub mod laws;
