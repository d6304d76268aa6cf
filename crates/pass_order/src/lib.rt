//! The calls of a trace, each made where its line stands or as soon behind it as it is ready.
//!
//! `run` makes them on one thread, over the trait `Calls`. Whatever the store's history is at the end, if it goes on from what
//! the processes have seen by no entry of theirs, it is a beginning of the replay of the trace (`replayed`), beside a run of it
//! (`ran`). `laws::replays` joins this with the history that the store hands out: where the run has come to its end no call is
//! due (`whole`).
//!
//! The living processes stand by the ranks of their next calls in the text (`standing`): a heap of those whose call is to be
//! tried, and a list of those whose call was tried since the last entry, and waits (`queue`). The first of the heap comes to one
//! history with the process that was tried last, and takes its turn. If that made an entry, or its call is over, all that wait
//! stand in the heap again. Room for all is taken before the first entry, so no step takes memory of its own.
#![tactic(auto)]

pub mod laws;
mod queue;
mod running;
mod standing;

pub use running::run;
