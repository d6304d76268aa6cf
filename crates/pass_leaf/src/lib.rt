//! An archive: the content of each version of a file that was kept, as the blocks in which it differs from the version before.
#![tactic(auto)]

mod content;
mod fault;
pub mod laws;
mod leaf;
mod leaves;
mod making;
mod old;
mod places;
mod reading;
mod shelf;
mod stock;
mod tail;
mod walk;
mod writing;

pub use content::{LARGEST, lay, put_blocks};
pub use fault::OldFault;
pub use leaf::{Leaf, LeafBlock};
pub use leaves::{Leaves, read_leaves};
pub use old::Old;
