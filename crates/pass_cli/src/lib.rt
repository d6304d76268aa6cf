//! The call that the program makes, over any source, sink, disk and gate.
//!
//! The clauses of `pass_main` are the promises of `docs/PROMISES.md`: a run and a drawn run are its own, and what is asked or
//! followed is `pass_ask`'s, in the same words. `laws::complete`: where the bytes are a trace, no device call failed, the store
//! opens and the sink takes what it is given, a run ends Done or Stuck, and its whole report is written. A drawn run is judged as
//! the run of its text from a source that can't fail; it never gets stuck, and its four lines are counted in its history (`drawn`:
//! `HasDrawn`).
#![tactic(auto)]

mod drawing;
pub mod laws;
mod main_call;
mod reading;
mod verdict;

pub use main_call::{Ended, pass_main};
pub use pass_ask::{Status, ask, writes};
pub use reading::read_trace;
