//! What `strace` writes of a run, read as calls: the lines of the text, joined to the calls of threads, and their names,
//! arguments and answers. No clause says what is read: that every text gets an answer is all that is proved.
//! `cases/straces.table` shows which line is refused, and why.
#![tactic(auto)]

mod calls;
mod fault;
mod lines;
mod parts;
mod skip;

pub use calls::{Call, call_of};
pub use fault::{LineFault, StraceFault, StraceReason, Taken};
pub use lines::{Joining, Stage, Step, join};
pub use parts::{
    Answer, BAD, Base, Fd, Parts, Shown, ahead, before, behind, behind_spaces, fd_among,
    name_of_call, narrow, number_among, number_of_field, small_of, split_call, unescaped,
};
pub use skip::Skip;
