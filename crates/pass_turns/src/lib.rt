//! The processes of a trace as tasks, and passes over them until none goes on.
//!
//! `run` makes each process of a trace a task, and passes of `pass_sched` give them turns by as many workers as are asked for. It
//! asks the store by the trait `Calls` of `pass_progress`, and names no store, disk or gate. It always hands out what each process
//! had seen, also where memory was refused or a device call failed: the room for that is taken by `Plan::room` before the run's
//! first entry. What it hands out is `IsRanBy` of `pass_walk`, its one clause: each process has made the next step of its lines,
//! entry by entry, by what it had seen; each child that a process bore, by the fork of a line, is among them, and the first process
//! is.
//!
//! `Done` comes only where each has made its exit. `Stuck` comes only where a process lives, all living processes have seen as many
//! entries and wait, each for a step that was not ready, and none that has ended has seen more. `Failed` with too few places, or
//! with a refused fork, comes only where a process has seen so. Want of memory and a fault of the disk have no cause here:
//! `pass_run` takes what it tells of such a fault from `Store::finish`.
//!
//! No clause says that a run ends, or that `Stuck` or `Done` comes where it might. Nor does a clause say in which order processes
//! move, how many workers work, or that `at_line` is called before each line and `trickle` behind each round.
#![tactic(auto)]

mod crew;
mod meeting;
mod passes;
mod running;
mod task;

pub use running::run;
