//! Blocks of files that wait to be written, of which the block that was staged longest ago leaves first.
//!
//! A `Pool` is a list of blocks with their bytes, the block that was staged last first, and none twice. `put` lays a block first,
//! in the place of an equal block, and hands out the last block exactly where a new block finds the pool full (`pairs`, `evicted`).
//! `get` changes nothing; `take` and `take_last` remove what they answer; want of memory changes nothing (`err`). There are never
//! more blocks than there may be (`fits`, `once`).
#![tactic(auto)]

mod pool;

pub use pool::{Evicted, FileBlock, Pool};
