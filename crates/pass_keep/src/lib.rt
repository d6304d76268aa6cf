//! What a disk keeps of a session: its records in the log, and its files' bytes on the store area.
//!
//! A `Keeper` owns the disk, its log, the number of durable entries and the syncs. `ready` takes the memory for the syncs to come;
//! behind it `append` makes entries durable and `write` writes dirty blocks and syncs them, and neither can be refused memory. Each
//! refusal has its cause (`broken`, `failed`), and whatever a call answers, what was kept is kept (`kept`, `err`). `put` writes one
//! block before its sync: what was kept stays where no sync covers what lay in its place (`kept`), and the store area has its bytes
//! (`held`). So a sync asks of each dirty block that it is given or that its bytes are there already. `clean` notes a sync of a
//! file that needs no call.
//!
//! `images` says what that means for each crash. Since the opening it leaves the records and the data from before, or the session's
//! first entries (`begun`); since each sync at least the entries that were durable then (`since`), with each range that the sync
//! covers (`matched`); where the last sync covers all, none of the session's ranges is unmatched (`settled`). In each such image a
//! block that the session did not change has what it had at the opening (`AreOlder`). The syncs that are handed out are of their
//! moment (`timed`): none has a count of calls or of entries beyond it, and neither number falls along the list. How small these
//! counts may be is said by no clause.
#![tactic(auto)]

mod append;
mod begin;
mod block;
mod fault;
mod images;
mod keeper;

pub use append::stage_all;
pub use block::Block;
pub use fault::KeepFault;
pub use keeper::Keeper;
