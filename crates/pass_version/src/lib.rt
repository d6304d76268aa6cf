//! The version, the mark and the known ancestors of one object.
//!
//! `Versions::mark`, `freeze` and `take` change version, mark and ancestors as their clauses say, and a dropped duplicate freezes
//! nothing. `laws::one_object` shows that they are then what the definitions make of the whole history. Ancestors are a hash set
//! with room reserved before, so a look-up costs the same however many there are.
#![tactic(auto)]

pub mod laws;
mod versions;

pub use versions::{Taken, Versions};
