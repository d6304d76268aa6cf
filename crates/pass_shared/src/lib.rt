//! The calls that processes make of a store at the same time, each over the locks of `pass_slots`: all but `pass_sync`.
//!
//! A call takes the locks of its objects by ascending numbers, then the registry's, then the book's, and never waits with the book held. A
//! fork and an exit hold one object at a time.
//!
//! Each call is made for a process that one thread drives. Its clause `call` is one relation for all calls, `Answers` of `pass_answer`;
//! beyond the ranges of its arguments it asks for nothing. `close_fd`, `seek`, `pass_freeze`, `wait_child` and `await_child` never answer
//! for want of memory (`memory`). A read or a wait for a child tells of too few places only where it wouldn't wait (`ready`). A fork
//! answers with the child (`child`). `exit` and `retire` end the process, and give its last entry's place, or what it had seen
//! (`HasExited`). After `meet` and `meet_ended` both processes have seen one history, which begins with what each had seen and adds
//! no entry of theirs (`one`, `HasMet`). No program here calls `exit` or `meet`.
#![tactic(auto)]

mod call;
mod disclosing;
mod exiting;
mod flows;
mod forking;
mod meeting;
mod naming;
mod running;
mod transfers;
mod waiting;

pub use disclosing::disclose;
pub use exiting::{exit, retire};
pub use flows::{pass_freeze, tag};
pub use forking::fork;
pub use meeting::{meet, meet_ended};
pub use naming::{creat, open_name, pass_mkobj, pass_reviveobj, pipe, rename, unlink};
pub use running::exec;
pub use transfers::{close_fd, pass_read, pass_write, seek, truncate};
pub use waiting::{await_child, wait_child};
