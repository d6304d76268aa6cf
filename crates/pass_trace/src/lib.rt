//! The text of a trace: which bytes are a trace, what it says, and how a trace is written.
//!
//! `parse_within` answers Ok exactly on the grammar of a scale, `parse` on that of the usual one, with that trace, and else the first faulty line and its first reason (`text`,
//! `trace`, `fault`, `laws::text_or_one_fault`). What `print` writes is read again with the same processes and commands
//! (`laws::written_is_read_again`). Lines whose fields are in their ranges, and that may follow each other, are the trace of what
//! is written of them, up to as many as its scale allows; the lines of every trace are such lines (`laws::lines_that_follow`). A reader may stop where
//! a text is seen to be too long: it misses no trace and no other fault (`laws::long_texts`). `objects_of` counts the objects that
//! a trace makes, and no trace makes more than one session may (`laws::traces`).
#![tactic(auto)]

mod call;
mod earlier;
mod fields;
pub mod laws;
pub mod limits;
mod line;
mod objects;
mod parsing;
mod printing;
mod trace;
mod words;

pub use limits::Scale;
pub use objects::objects_of;
pub use parsing::{parse, parse_within};
pub use printing::print;
pub use trace::{Command, Payload, Trace, TraceFault, TraceLine, TraceReason};
