//! What holds of the dirty blocks of all files. Each function carries laws in its contract and does nothing.
ghost use Rattle.pass_safe.specs.Settled.{OwnerLaw, StaysLaw, UntouchedLaw};

/// Only a file with a number has dirty blocks, and only one with entries, and a block that is clean stays so by more syncs.
pub fn settled()
    ensures owners { OwnerLaw }
    ensures stays { StaysLaw }
    ensures untouched { UntouchedLaw }
{}
