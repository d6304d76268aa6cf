//! The calls that give and take descriptors and names, followed one after the other, and the lines that they are in a trace. No
//! clause says which lines.
#![tactic(auto)]

mod descriptors;
mod naming;
mod opening;
mod output;
mod run;

pub use output::Output;
pub use run::{Beginning, Known, Opening, Program, Run, Setting, What};
