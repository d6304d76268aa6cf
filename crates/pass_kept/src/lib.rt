//! The calls by which entries and blocks of a store become durable while its other calls go on: `pass_sync`, `trickle` and `settle`.
//!
//! They stand over the locks of `pass_slots` and the lock of the vault. A call takes an object's lock or the registry's first, then the
//! vault's, then the book's. While the disk is at work the book is free. A file that a call takes out of its lock lies there again when
//! the lock is given back (`object`, `file`).
//!
//! `pass_sync` answers as `SyncAnswers` of `pass_answer` says (`call`). It makes its device calls with no lock held but the vault's and its
//! object's, and no frame where another's has its first entry: this is how it is written, and no clause says so.
//!
//! Where `pass_sync`, `trickle` or `settle` answers a fault of the disk, its counts are such as some disk of that type has since
//! the opening (`fault`, `stopped`): no clause can name the disk under the lock. Where `settle` answers a receipt, the process that
//! asked sees a sync with these numbers in its list, of at least all entries that it had seen before, and no entry of its own is
//! new (`settled`, `looked`). `trickle` makes no entry and answers at most the number that it was given (`few`). That it makes
//! entries durable and lets blocks wait, that it tells a fault of the disk rather than want of memory for the list of files, and
//! that `settle` writes the changed blocks is how the code is written: no clause says so. No program here calls `settle`.
#![tactic(auto)]

mod answering;
mod context;
mod flushing;
mod syncing;
mod trickling;

pub use answering::answered;
pub use flushing::settle;
pub use syncing::pass_sync;
pub use trickling::trickle;
