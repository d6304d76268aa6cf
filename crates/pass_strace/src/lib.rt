//! From what strace writes of a run to a trace.
//!
//! `translate` hands out the text of a trace (`text`) and what it says (`lines`). Each line has the number of a line of the text, and
//! these don't fall (`origins`, `order`); that it is the line from which it comes is tested. Where a text ends within a line, exactly
//! this line is refused (`cut`). What is said of the run stands in front, exactly (`facts`), and its first process begins by reading
//! of it (`told`). No answered call that opens, closes, doubles, reads, writes, copies, forks or execs is lost: its line, or one of its
//! two, is an origin, or is among those that are left out (`kept`). No clause says that the trace means what the run did, nor the line
//! of a fault of form or of a process: `cases/straces.table` and `cases/real_commands` show it.
#![tactic(auto)]

mod acting;
mod facts;
mod fault;
mod keeping;
mod telling;
mod translating;

pub use acting::Waits;
pub use facts::Fact;
pub use fault::{Refusal, TranslationFault};
pub use pass_descriptor::Program;
pub use pass_observed::{Loader, Loaders, Skipped, Stored, Told};
pub use pass_syscall::{Skip, StraceReason};
pub use translating::{Request, Translated, programs_of, translate};
