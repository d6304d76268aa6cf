//! What holds of dirty blocks. Each function carries laws in its contract and does nothing.
ghost use Rattle.pass_clean.specs.Cleaned.{ListedLaw, DurableLaw, SyncedLaw, StagedLaw};

/// Who has seen all syncs of a file knows what is clean of it, no more is clean than is durable, and no block of a file is
/// dirty behind a sync of it, and none that was staged behind a staging.
pub fn syncs()
    ensures listed { ListedLaw }
    ensures durable { DurableLaw }
    ensures synced { SyncedLaw }
    ensures staged { StagedLaw }
{}
