//! What a call of a process answers, and what holds then: the relations that calls, forks, exits and syncs share.
//!
//! It stands below calls, lives and syncs, and below whoever runs a trace. `Moved` and `CallEnd` are the answers of a call.
//! `Answers` is one relation for all calls but a sync: by what its process was before and is after, the process's entries are those
//! from before and then exactly the steps of this call, each once, in a legal history that begins with what it had seen; the answer
//! is the answer that they carry, or their last fault. `Again` comes only where the process looked and the next step was not ready
//! in what it saw. `Full` comes only where it looked and what was left for it was less than the call needs, with both numbers. Want
//! of memory leaves the process as it was. A write to a pipe without room has made its first step, and the same write goes on with
//! it.
//!
//! `SyncAnswers` is the relation of a sync. Where it is answered its two entries stand, and the list of syncs that the process
//! knows has a sync with the answered numbers, which is no staging (`HasSynced`), with more entries than the first entry's place.
//! Of a file the list also has a sync of this file's data with these numbers (`BacksFile`). Where a device call failed, or memory
//! was refused, the first entry stands and nothing else, and the call may be left (`HasLeft`). `Full` is as for any call.
//!
//! `IsChild` says how a child begins, `HasMet` what two processes come to that meet, `HasExited` how a process ends. `ended` is the
//! answer of a call by what its steps came to. `refused` makes the refusal of any call, its one entry, and takes no memory (`call`,
//! `memory`).
#![tactic(auto)]

mod answer;
mod ending;
mod refusing;

pub use answer::{CallEnd, Moved};
pub use ending::ended;
pub use refusing::refused;
