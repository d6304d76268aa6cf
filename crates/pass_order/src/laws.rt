//! What holds of the history of a run in the order of the lines. The function carries a law in its contract and does nothing.
ghost use Rattle.pass_order.specs.Replayed.{ReplayedLaw};

use pass_replay::laws::{orders, starts};

/// The history that a store hands out is the replay of its trace.
pub fn replays()
    ensures { ReplayedLaw }
{
    orders();
    starts();
}
