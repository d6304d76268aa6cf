//! Ranges of files on the store area, and the table of their digests.
//!
//! `Table::of` is the table of a list of records by its rows. `unmatched` lists exactly the ranges whose bytes on the device have
//! another digest. `write_range` and `read_range` move one block's bytes; `read_matched` also compares them with a digest
//! (`matched`). `Dirtied` says which act made a block dirty last. By `laws::dirty` the block's row comes from this very entry.
#![tactic(auto)]

mod fault;
mod later;
pub mod laws;
mod listing;
mod range;
mod table;

pub use fault::RangeFault;
pub use later::Later;
pub use listing::unmatched;
pub use range::{Range, digests_of, range_len, read_matched, read_range, write_range};
pub use table::{Table, TableFile, later_of};
