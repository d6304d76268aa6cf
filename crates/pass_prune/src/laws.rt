//! Laws of pruning.
ghost use Rattle.pass_prune.specs.Laws.{PrunedLaw, GoesOnLaw};

use pass_leaf::laws::{kept, laid};

/// A chosen version has the same bytes in both archives, and no other is in the fresh one.
pub fn pruned()
    ensures { PrunedLaw }
{
    kept();
}

/// Where the last version of each file is chosen, the fresh archive goes on as the other one.
pub fn goes_on()
    ensures { GoesOnLaw }
{
    laid();
}
