//! What holds of the history of a run. The function carries a law in its contract and does nothing.
ghost use Rattle.pass_walk.specs.Runs.{RanLaw};

use pass_replay::laws::{rooms, runs, starts};

/// The history that a store hands out is a run of its trace, and how the run ended is true of it.
pub fn ends()
    ensures ran { RanLaw }
{
    runs();
    rooms();
    starts();
}
