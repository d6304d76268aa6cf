//! The calls by which processes begin and end: a fork, an exit, and a wait for a child.
//!
//! A fork and an exit have a step on each pipe that their process holds, each under that pipe's lock. They are made in steps over
//! what is held, so that no lock is held while another is awaited. What is under way between the steps is a `Forking` or an
//! `Exiting`, which names the next pipe. `begin_fork` takes all memory and the places, gives the child its number and marks the
//! parent; `join` is one entry on a pipe; `end_fork` bears the child. While a fork is under way the invariant of an idle process
//! doesn't hold, and the steps pass on `IsForking` instead. The answer is the relation of all calls, `Answers` of `pass_answer`
//! (`call`): the entries are exactly the fork's, the child has the number of the first entry, has seen what its parent has, and
//! holds what its parent holds, with offsets of its own (`child`: `IsChild`).
//!
//! An `Exiting` process makes no other call. It leaves its pipes (`leave`), and its last entry ends it, at the place that is
//! answered, and last in what its trail has seen (`end_exit`: `call`, `trail`, `ended`). A wait lets a child go that has ended, and
//! takes from it or not (`wait_ended`, by `ChildWait`). It takes no memory; where it finds too few places, the child has ended in
//! what was seen (`ready`). For a child whose right to end it is found the answer to either wait is Again, since it has not ended in
//! what was seen (`wait_living`).
#![tactic(auto)]

mod exiting;
mod forking;
mod pipes;
mod waiting;

pub use exiting::{Exiting, begin_exit, end_exit, leave};
pub use forking::{Forking, begin_fork, end_fork, join};
pub use waiting::{ChildWait, wait_ended, wait_living};
