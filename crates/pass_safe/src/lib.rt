//! The vault under its lock, and the steps of a sync.
//!
//! The lock of the vault keeps a `Safe`: the vault of a session, until a device call fails. After that it is not asked again, and
//! each call answers the counts of that fault (`lost`, `since`). What the vault was opened with is part of its invariant, by a type
//! that names the opening (`Opening`, `Ground`). While no call has failed all that the vault has seen is durable (`durable`:
//! `whole`).
//!
//! A sync of a file is `keep`, which makes its first entry in one hold of the book; `Safe::save_file`, which makes durable what the
//! sync waits for, and the file's data, with the vault locked and the book free while the disk is at work; and `kept`, which makes
//! the last entry. A pipe or an app object has `Safe::save_history` and `kept_entries`. Where another sync's frame has made the
//! first entry durable, nothing is copied, which no clause says. What is saved is a sync of this vault, no staging, with more
//! entries than the first entry's place (`saved`, `above`), of a file one of its data (`of_file`). So the process is told what
//! `SyncAnswers` of `pass_answer` says. Where the vault gave no answer, the first entry stands and nothing else (`left`: `call`),
//! and the vault's fault is told (`cause`). A sync's first entry and its refusal are never answered by a fault of the disk
//! (`no_disk`).
//!
//! `Safe::settle_history` makes each entry durable that its process sees, which is the whole history (`met`, `whole`).
//! `Safe::settle_file` writes a file's changed blocks. `Safe::flush_history` and `Safe::stage_file` are a trickle's: the second
//! lets at most so many blocks wait (`few`). That these three write anything is no clause of theirs. They stand on calls over
//! records and files in hand, whose clauses say exactly what vault and file have become (`done`, `file`, `undone`, `memory`):
//! `flush`, `save`; `settle`, which writes a file exactly where it has a dirty block, or a block that waits in the vault, or where
//! anything written there is unsynced (`dirty`, `idle`, `clean`); and `stage`, which notes no staging of a file without dirty
//! blocks (`few`, `done`, `idle`).
//!
//! `finish` ends a session: history and vault are handed out whatever comes (`history`, `told`). Where it answers a receipt, the
//! vault has seen the whole history, and its last sync has all entries and the receipt's numbers. No block is dirty by its list,
//! none waits, none is unsynced, and no device call has failed since the opening (`done`, `settled`, `written`, `healthy`). It also
//! hands out a note of what the book had at its end, by whose list each entry that tells of a sync has a sync (`note`, `backed`).
//! The vault is still the vault that was opened, over a disk that has gone on (`ground`, `gone_on`). Only a file with a number has
//! dirty blocks, and a clean file stays clean by more syncs (`laws::settled`).
#![tactic(auto)]

mod ending;
mod fault;
mod finishing;
mod ground;
mod keeping;
pub mod laws;
mod locked;
mod safe;
mod saving;
mod settling;
mod working;

pub use ending::{kept, kept_entries, left};
pub use fault::{Lost, SafeFault};
pub use finishing::{Finished, finish};
pub use ground::Opening;
pub use keeping::{Keeping, keep, refused_sync};
pub use safe::Safe;
pub use saving::{Saved, look_told};
