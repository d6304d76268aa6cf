//! The slow reference: what may come next after a history, told by the plain definitions entry by entry.
//!
//! For tests and proofs alone. `Plain::step` answers `Some` of the reply exactly where the entry with that reply may come next, and
//! else `None` with nothing moved (`answer`, `moved`, `refused`, `err`), for every act and call. `Plain::records` answers exactly
//! the records of the entries so far, in order. `Plain::entries` says that the history is legal. `call_steps` and `is_next_step`
//! are the definitions' steps of each call. Copies and comparisons of acts and replies stand here, since no other crate needs them
//! (`same_act`, `same_reply`).
#![tactic(auto)]

mod cache;
mod callers;
mod copying;
mod equality;
mod file;
mod judge;
pub mod next;
mod nodes;
mod pipe;
pub mod reference;
mod registry;
mod replies;
pub mod steps;
mod walk;

pub use callers::LastCall;
pub use equality::same_reply;
pub use reference::Plain;
