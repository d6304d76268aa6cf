//! The book of a session in its lock, and the processes that work on it.
//!
//! A store's identity is a type (`Whose`), which carries the session and the number of entries that it may have. A `Shelf` is the
//! book as it lies under its lock: whenever it is free, its processes hold the claimed places by the definitions, and no others.
//! A `Caller` is the line of a living process with the places that it holds, for its exit and for its last call; it makes an
//! entry with the shelf and the desk of the entry's object in hand. A `Blank` is the desk of an object that the session may make,
//! until somebody uses it.
//!
//! `enter`, `leave`, `born` and `finish` make an entry that desk and caller allow, with exactly its records. They claim what the
//! call still needs and give back what it no longer needs in the same hold (`entry`, `shelf`), take no memory and can't be
//! refused. Behind each the history is legal and has the entry behind prefixes that both had seen (`entry`), and the desk has seen
//! all syncs of its object (`listed`). What a caller owes before an entry and how it stands after it are the relations `MayEnter`
//! and `Enters`, by which each act of the crates above says its entry. `room` is refused exactly where fewer places are left for a new call than it needs,
//! and tells how many (`full`, `room`). The places of a call that is left count as free; then the process has seen the whole
//! history and made no entry (`looked`). `look`, `meet` and `show` bring a holder further. That what a call makes by these steps
//! is its call, at each answer, are the laws `calls`, `answers` and `places`. At the end of a session the book's list of syncs
//! has a sync for each entry that tells of one (`backed`).
#![tactic(auto)]

mod blank;
mod caller;
mod claims;
mod entering;
pub mod laws;
mod shelf;
mod slips;
pub mod whose;

pub use blank::Blank;
pub use caller::Caller;
pub use shelf::Shelf;
pub use slips::slip_of;
pub use whose::Whose;
