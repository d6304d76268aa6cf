//! The outside as the system has it: streams, and a disk of two files in a folder.
//!
//! `HostSource`, `HostSink` and `HostDisk` keep the promises of the traits: a call fails exactly where the count of faults rose or
//! a count is at its end. They tell nothing of content, nor of who else has a folder open. That a run has its folder alone is the
//! system's lock on the file `log`, and is tested. The folder is synced once, when its two files are there. A read that was
//! interrupted is tried again.
//!
//! A disk that `open_to_read` gave may not be written (`reads`): it opens no file to write or to make it, and each write and each
//! cut of it fails. Whose the log of a folder is, is judged by its first bytes and the mark beside it (`Front`). What isn't a
//! store's is copied aside before `open` answers, which is tested.
#![tactic(auto)]

mod advice;
mod aside;
mod counts;
mod disk;
mod fault;
mod folder;
mod front;
mod note;
mod streams;

pub use aside::Copies;
pub use disk::HostDisk;
pub use fault::{Cause, HostFault, Part};
pub use note::Note;
pub use streams::{HostSink, HostSource};
