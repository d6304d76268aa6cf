//! A store under its locks: threads call it side by side, and all that they do stands in one legal history. It begins and ends here; its
//! calls are those of `pass_shared` and `pass_kept`.
//!
//! Whoever begins or ends a store holds all of it, so no lock is waited for. In between the order of the locks is that of `pass_slots`.
//!
//! `begin` lays an opened session out under locks and gives its first process, which has made its first entry (`first`, `seen`,
//! `state`). It is refused for want of memory alone, and then the disk comes back (`disk`).
//!
//! `end` closes a store without a device call. `finish` makes every entry durable, writes each block that the disk lacks, and
//! closes the store whatever comes of that. Both hand out the legal history, its syncs, the opening's records and start, and the
//! disk (`legal`, `closed`: `IsClosed`). Each crash leaves what was there before, or the records of a prefix of the history; since
//! the store was opened it leaves these with the ceiling. Since a sync the prefix has as many entries as were durable then. Since a
//! sync of a file it leaves that file's data: each block that an entry below the sync made has its bytes and is matched, unless a
//! later entry changed it whose records the crash leaves too (`matched`: `KeepsData`). For each entry that tells of a sync the list
//! has a sync with the entry by which its call began, and with none from its own place on; of a file it is a sync of this file's
//! data (`kept`, `AreFilesKept`).
//!
//! Where `finish` answers a receipt, that is the last sync, it has every entry, each block that the session wrote has its bytes
//! and is matched from then on, older blocks are as they were, and no device call has failed (`settled`: `IsSettled`;
//! `healthy`). Else a fault of the disk is told with the opening's count and a count that the disk has reached (`refused`). The
//! disk tells what it told as the store was opened, and has no fewer faults (`gone_on`). What each process had seen begins the
//! history, which has no other entries of it (`trails`). No program here calls `end`.
#![tactic(auto)]

mod beginning;
mod ending;
mod settling;
mod store;

pub use ending::{Closed, Finished};
pub use store::Store;
