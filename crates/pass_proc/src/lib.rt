//! A process: while it lives, with all that it holds and the calls that it makes, and once it has ended.
//!
//! A `Proc` is a living process: its desk, version, descriptors, children and last read bytes are what the definitions make of what
//! was seen (`ProcessDesk`). Between its calls it may begin its next call. Each act makes its entry and changes that state as the
//! definitions do (`entry`, `state`). A call that the process refuses is one entry with the plain fault, for every call
//! by one function (`refuse`). A fork gives the child the parent's descriptors as they are (`born`). As long as a process lives,
//! the right to end it lies in its slot: where it is found there and meets a note, the process has not ended in the note
//! (`Living::meet`, `lives`). `finish` takes it, and what is left is a desk and a trail of what the process had seen (`Ended`,
//! `Trail`): no type lets a process act that has ended. `Proc::first` is a session's first process: its number is the first above
//! the opening's ceiling, it keeps 65 places for its exit, and it is refused exactly where fewer are left.
#![tactic(auto)]

mod acts;
mod birth;
mod children;
mod desk;
mod ended;
mod exec;
mod holdings;
mod opening;
mod proc;
mod refusals;
mod refusing;
mod taking;
mod trail;
mod way;

pub use birth::ChildRoom;
pub use desk::ProcessDesk;
pub use ended::{Ended, Living};
pub use exec::ExecRoom;
pub use proc::Proc;
pub use refusing::refuse;
pub use trail::Trail;
pub use way::Way;
