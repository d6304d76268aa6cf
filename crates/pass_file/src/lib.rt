//! A file, and the file as it lies under its lock.
//!
//! A `FileState` is content, version, the blocks with a digest and the dirty blocks. `records` gives exactly the records that a
//! change will make of size and digests, and changes nothing; each change turns rows and dirty blocks as the definitions say
//! (`rows`, `dirty`). A `FileDesk` is a file under its lock: content, version, rows and dirty blocks are what the definitions make
//! of all that was seen of it. Each sync of the file cleans at its entries. Each act gives the reply of the plain history, and
//! makes the one entry with its records (`entry`, `content`, `state`). A write or a cut is handed the records of the content,
//! which `put_records` and `cut_records` give whoever holds the file, without the book. After a sync of all that was seen no block
//! is dirty (`LentFile::synced`).
#![tactic(auto)]

mod desk;
mod digests;
mod set;
mod state;
mod touched;

pub use desk::{FileDesk, LentFile};
pub use state::FileState;
