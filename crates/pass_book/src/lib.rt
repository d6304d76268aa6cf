//! The one history of a session, and the tokens by which threads add to it and learn of it.
//!
//! A *desk* is the right to make entries on one object, a *line* the right to make them as one process, a *last* the right to end a
//! process. A *claim* is a number of places that are kept free, a *note* a prefix of the history that somebody saw. A token's
//! contract says which prefix its holder has seen. The prefix has every entry that concerns the token: a desk's has all entries on
//! its object, a line's all entries by its process. Of other threads nothing else is known.
//!
//! `claim` is refused exactly where fewer places are neither used nor claimed, and says how many are left (`enough`, `full`). `add`
//! takes an entry that its desk and line allow by what they have seen, with exactly its records. It takes no memory, answers the
//! entry's place, the history stays legal, and afterwards both have seen all of it (`place`, `book`, `desk`, `line`, `legal`). That
//! such an entry may come next, with these records, after every legal history that begins with both prefixes is `laws::adds`.
//! `look`, `meet` and `seen` tell how far a holder has seen; who holds the right to end a process has seen no end of it (`lives`).
//! The records of an entry are given up only once it is durable by the list of syncs (`shed`). `parts` gives the records of the
//! whole history from any place that wasn't shed. `VaultSeat::flushed` and `VaultSeat::synced_file` ask for no disk: they are true
//! because a vault owns the seat.
#![tactic(auto)]

mod book;
mod claim;
mod entering;
pub mod laws;
mod open;
mod parts;
mod rule;
mod sight;
mod steps;
mod tokens;
mod vault;
mod vault_steps;
pub mod view;

pub use book::Book;
pub use claim::{Claim, Full, Slip};
pub use sight::Note;
pub use tokens::{Desk, Last, Line};
pub use vault::VaultSeat;
