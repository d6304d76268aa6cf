//! A standby: it takes the frames of another store's log, in whatever pieces they come, keeps them on a disk of its own and
//! has their graph.
//!
//! The stream is what a log area holds from the place of a frame up to its end; what files hold isn't
//! sent. What a standby has taken is one fold over the bytes that it was given, so no cut of the stream matters (`feed`:
//! `told`; `laws::cuts`). Each crash leaves some whole frames, and all of them up to an answered place, each with its
//! bytes: the log area reads what stood there up to the old end, and then the bytes with which the stream has made frames
//! whole (`any_moment`, `leaves`, `bytes`). So no record goes over a frame's border. The records are well logged, so a
//! store opens with them (`laws::well_logged`). Whoever took all that a log has to send has the log (`laws::all_bytes`). A
//! stream's first bad frame is named where it begins, and what came before it is kept. After it, and after a device call
//! that failed, nothing more is taken (`closed`). A device call fails only as a byte has made a frame whole. Then
//! everything before this byte was taken, and a crash leaves the frames before, with or without the new frame (`ended`:
//! `Stops`). A standby opens exactly where its own log has no bad frame (`good`, `cause`, `laws::bad_log`). `send` gives
//! the bytes of a log from a frame's place, or from its end, to its end, by one reading, with the faults of an opening;
//! `NoFrame` comes exactly where nothing begins there (`sent`, `fault`).
#![tactic(auto)]

mod batch;
mod fault;
mod following;
mod frame;
pub mod laws;
mod opening;
mod sending;
mod standby;

pub use fault::StandbyFault;
pub use sending::{SendFault, send};
pub use standby::{Fate, Standby};
