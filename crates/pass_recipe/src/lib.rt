//! The steps by which a node was made, in an order in which they can be made again.
//!
//! `recipe` lists exactly the node and its ancestors, each once and behind every node to which it has an edge (`sound`, `complete`,
//! `once`, `after`). No such order is less, node by node (`least`). Each has the sources and the first program name and arguments
//! that the records give it (`sources`, `programs`). It takes three steps for each edge that leaves a listed node, and never more
//! (`steps`, `counted`). `NoObject` comes exactly where the graph hasn't the node (`absent`). `to_text` is its text.
#![tactic(auto)]

mod entries;
mod output;
mod programs;
mod queue;
mod recipes;
mod waiters;

pub use entries::Made;
pub use output::to_text;
pub use recipes::recipe;
