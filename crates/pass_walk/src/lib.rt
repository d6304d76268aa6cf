//! The processes of a trace over a store's calls, and what each turn of one makes of it.
//!
//! A `Walker` is a process of a run on its way: `Living` at its next line, `Ended` behind its exit, or `Left` in its lines with a
//! cause. `Living::turn` makes the next call of its lines, or the exit, by the trait `Calls`, and needs no word of any other
//! process. Its clause is `HasWent`: the process is then at its next line, where it was, ended or left (`walker`); it is the same
//! process, which has seen no less (`process`, `who`, `begins`); each child that it bore was borne by the fork of a line, and is
//! handed out (`kid`, `births`). A turn that waits found the next step of its line not ready (`waits`). How many turns are left
//! to a process and to all children that its lines will bear is known from its line (`left_in`); it falls by one with each turn
//! that moves (`moved`), and else stays (`stayed`). Each further entry of the process is of the call that was its next one
//! (`counts`), which is over where the turn moved (`over`, `next`); a child begins with what its parent has seen (`shares`,
//! `forks`).
//!
//! A process is left for want of memory or a fault of the disk, which come from outside of the history; for too few places, where
//! it has seen that its next call lacks them; or for a fork that it has seen refused (`IsCauseOf`). `met` brings a living process
//! and an ended one to one history, unless the ended one is known to have seen no more (`HaveMet`); `Living::join` and
//! `Living::join_living` do so in any case (`HasComeOn`). A `Plan` tells where each process has its lines and how many turns are
//! left, and takes the room for what all processes will have seen (`room`).
//!
//! `laws::ends` joins what a run hands out (`IsRanBy`) with the history that a store hands out. Whatever `last` says, that
//! history is a run of the trace (`run`); no process is open after `Done` (`done`), and the run is stuck after `Stuck` (`stuck`).
//! Where the store has the places that the trace needs, no run ends for want of places (`enough`), and none by a refused fork
//! (`forked`).
#![tactic(auto)]

mod calling;
mod children;
mod ends;
mod ground;
pub mod laws;
mod lefts;
mod meeting;
mod places;
mod plan;
mod walker;

pub use children::Children;
pub use ends::{Cause, Last, Ran};
pub use ground::Ground;
pub use meeting::met;
pub use plan::Plan;
pub use walker::{Ended, Left, Living, Walker, Went, step};
