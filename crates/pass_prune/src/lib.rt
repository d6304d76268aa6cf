//! The versions of an archive that are chosen, and how they go onto a fresh one.
//!
//! A version is chosen that is the last one of its file, that the log tags with the attribute `keep`, or that is named or is what a
//! named node came from (`specs/Choices`). `prune` keeps the chosen versions of leaves in a fresh archive: each has the same bytes in
//! both, and no other is there (`pruned`); a crash leaves some of the first of them. A fresh archive that has a leaf is left as it is
//! (`not_fresh`). `NoObject` names the first named node that the graph hasn't (`absent`). The fresh archive goes on as the other
//! one (`laws::goes_on`). One walk over the leaves costs what they hold and what the chosen versions have.
#![tactic(auto)]

mod choosing;
mod fault;
pub mod laws;
mod pruning;
mod walking;

pub use fault::PruneFault;
pub use pruning::{Pruned, prune};
