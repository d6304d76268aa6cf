//! What a run asks of a store, and what the answer of a call makes of its process's history: laws for whoever runs a trace.
//!
//! The trait `Calls` is all that a run asks of a store: the call of a line (`AnswersAny`: `Answers`, or `SyncAnswers` of a sync),
//! a fork with its child (`call`, `child`), the exit (`retire`), how a process meets another, or one that has ended, and a
//! trickle. `at_line` tells that a line is about to be made. The trait names no disk, lock or gate, and has no clause on a fault
//! of the disk: `pass_run` implements it over a store.
//!
//! By what a call answers, each further entry of its process was, at its place, the next step of that call. After an answer or a
//! fault the call is over; where it waits, its next step was not ready; where places lack, none of its entries is made
//! (`laws::calls`). A process between two calls has made first steps of the call that it goes on with, if any, and has read last
//! what it had read before it (`laws::standing`, `between`). A fork that did not go through bears no child, and after an exit the
//! process has ended (`laws::lives`).
#![tactic(auto)]

mod calls;
pub mod laws;
mod proc;

pub use calls::Calls;
pub use proc::between;
