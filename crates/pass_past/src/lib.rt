//! The versions of files that a session ends or leaves, with their contents, and how an archive keeps them.
#![tactic(auto)]

mod contents;
mod keeping;
pub mod laws;
mod phases;

pub use keeping::{finish, halt, keep};
pub use phases::keep_next;
