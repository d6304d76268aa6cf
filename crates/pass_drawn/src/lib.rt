//! What comes of running a trace that was drawn from a number.
//!
//! Such a run never gets stuck (`laws::ends`): no line makes a pipe, so a begun child can always go on, and the first process waits
//! only for children. Where no process is left open each line is answered, and the eight exits (`laws::counts`). On a store without
//! files each write goes through with all its bytes, so that how many there are and how many bytes they wrote is known from the two
//! numbers alone, whatever the threads do (`laws::writes`). `report` counts these in a history, in one walk, and writes the four
//! lines that the definitions give (`text`, `fresh`). The line `acyclic yes` is the same for every run: the graph of each is proved
//! to have no cycle.
#![tactic(auto)]

pub mod laws;
mod reporting;

pub use reporting::report;
