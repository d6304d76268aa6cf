//! How a command ends: its status with the text that says so, and how a source is read and a text written on the way there.
//!
//! `Status::number` and `Status::text` are exactly the definitions' exit number and text. `opening_status` is the status of a store
//! that didn't open. `read_source` answers what the source had left, up to where it is seen to be too long (`front`, `whole`,
//! `stops`), and fails exactly where the count rose (`fault`). `write_text` writes the whole text, or fails exactly where the count
//! rose and a prefix of it was taken (`whole`, `part`, `faults`); an empty text is always written (`empty`).
#![tactic(auto)]

mod reading;
mod status;
mod writing;

pub use reading::{ReadEnd, read_source};
pub use status::{Status, opening_status};
pub use writing::write_text;
