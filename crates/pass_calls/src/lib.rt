//! The calls that a store makes for a process, over the objects that it holds: each sees to its places and takes its memory, then
//! makes its entries.
//!
//! The clause `call` of each is the relation `Answers` of `pass_answer`. What a read, a write or a cut needs that depends on file
//! and process alone is made first, without the book: memory, bytes, and the records of the content (`ready_read`, `ready_write`,
//! `ready_cut`: `bytes`, `copy`, `room`, `list`). Only want of memory hinders it, and but for that room the file stays as it was
//! (`same`). `creat`, `make_object` and `make_pipe` also say that the new object has the session's next number, which no object had
//! (`made`). `close`, `close_pipe`, `seek`, `freeze`, `write_file` and `truncate` never answer for want of memory (`memory`). A held
//! object stays the object that it was (`what`). A read of a pipe tells of too few places only where it wouldn't wait (`ready`).
#![tactic(auto)]

mod beginning;
mod closing;
mod disclosing;
mod file_reading;
mod file_writing;
mod freezing;
mod granting;
mod held;
mod opening;
mod pipe_reading;
mod pipe_writing;
mod renaming;
mod running;
mod seeking;
mod tagging;
mod truncating;

pub use closing::{close, close_pipe};
pub use disclosing::{disclose, disclose_itself};
pub use file_reading::{ReadyRead, read_file, ready_read};
pub use file_writing::{ReadyWrite, ready_write, write_file};
pub use freezing::freeze;
pub use opening::{creat, make_object, make_pipe, open_name, revive};
pub use pipe_reading::read_pipe;
pub use pipe_writing::write_pipe;
pub use renaming::{rename, unlink};
pub use running::{exec, exec_unnamed};
pub use seeking::seek;
pub use tagging::tag;
pub use truncating::{ready_cut, truncate};
