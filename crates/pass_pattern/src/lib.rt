//! Paths of a given shape through the graph of versions of a log.
//!
//! `parse_pattern` reads exactly the grammar (`pattern`) and tells both faults exactly: too long, or too deep before any other
//! fault (`long`); or no pattern, with the length of the longest prefix that begins a pattern (`bad`). No two patterns have one
//! text (`laws::one_pattern`). `find` gives exactly the nodes to which a path of the shape leads from the given node, ascending,
//! each once (`all`). It takes at most one step for each edge and each step of the pattern (`steps`); that it looks at no other
//! edge is how it is written. `NoObject` comes exactly where the graph hasn't the node (`absent`). `answer` is its text (`text`).
#![tactic(auto)]

mod code;
mod fault;
mod finding;
pub mod laws;
mod matching;
mod parsing;
mod pattern;
mod reader;
mod search;

pub use fault::PatternFault;
pub use finding::find;
pub use matching::answer;
pub use parsing::parse_pattern;
pub use pattern::{EdgeTest, Pattern};
