//! A pipe: bytes in the order in which they were given, within a fixed capacity, and the counts of its two ends.
//!
//! `give` answers BrokenPipe exactly where nobody reads, Again exactly where somebody does and there is too little room, and else
//! has put all bytes behind the others. `take_into` answers Again exactly where the pipe is empty and somebody writes, and else has
//! moved the oldest bytes to the front of the slice (`answer`, `ok`, `broken`, `again`, `count`, `slice`). What is refused changes
//! nothing. In every legal history the bytes read, then those left, are those written, in order (`laws::order`).
//!
//! A `PipeDesk` is a pipe under its lock: what it holds, who has its ends and its version are what the definitions make of what was
//! seen of it. `take` gives the oldest bytes, `push` puts all of a write behind the others, with the plain reply (`reply`,
//! `entry`, `state`). `first` and `is_full_for` tell exactly when a process has to wait, and `look` that this is so in the whole
//! history. `join`, `leave` and `leave_by_exit` are descriptors that come and go.
#![tactic(auto)]

mod desk;
pub mod laws;
mod pipe;

pub use desk::PipeDesk;
pub use pipe::{PipeEnd, PipeState};
