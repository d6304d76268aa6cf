//! Recovery: how a store opens, from what its disk has.
//!
//! `recover` syncs, reads the log, checks it, and answers its list, the start with every file's bytes, and exactly the ranges that
//! don't match (`image`, `logged`, `start`, `bytes`, `unmatched`). Each refusal has its cause: the disk's count rose, a frame, a
//! record or a flaw that is there, in that order (`fault`). Unless a device call failed the disk reads as before (`stays`) and both
//! syncs have come (`later`). Whatever the answer, each crash at a moment since they came leaves what was read (`since`). What a
//! later moment of a disk is (`IsLater`), and a moment at which nothing was written (`IsLeftAlone`), is said here for all crates
//! above.
#![tactic(auto)]

mod blank;
mod fault;
mod fill;
mod opening;

pub use fault::OpenFault;
pub use opening::{Opening, open_fault, recover};
