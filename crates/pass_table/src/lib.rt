//! Bytes in blocks of 4,096, of which the blocks that were never written take no memory.
//!
//! `write`, `truncate` and `read_into` are exactly the definitions' over the whole list, with zeros in every gap (`bytes`, `count`,
//! `slice`). What `reserve` made room for is never refused memory later (`room`). That a block of zeros takes no memory is how the
//! code is written; no clause says it.
#![tactic(auto)]

mod blocks;
mod table;

pub use blocks::Blocks;
pub use table::{blocks_for, zeros};
