//! The records of the log as bytes.
//!
//! `encode` writes a record's one spelling. `decode` answers Ok exactly where a record begins the bytes, with its length, and else
//! the first fault (`found`, `only`, `exact`). No spelling begins another spelling, and what was written is read again whatever
//! comes behind (`laws`). An `encode` that is refused memory leaves the vector's bytes as they were.
#![tactic(auto)]

mod fault;
mod fields;
mod laws;
mod reading;
mod writing;

pub use fault::RecordFault;
pub use laws::{
    bytes_want_no_memory, cut_is_short, found_stays, one_spelling, read_is_written,
    spelling_length, written_is_read,
};
pub use reading::decode;
pub use writing::encode;
