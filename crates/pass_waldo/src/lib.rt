//! An index of the records of a log: the graph of versions both ways, the names that files had, and attributes.
//!
//! `Index::add` takes a record exactly where the list with it is well logged (`ok`, `sound`, `flaw`, `err`). Each look-up is the
//! answer that the records give. `Index::of` makes the index from the tables of an opening's check, and judges no record again. The
//! edges of a node are sorted vectors: an insert is a binary search and a move of the edges above.
#![tactic(auto)]

mod edges;
mod index;
mod sorted;
mod taken;
mod texts;

pub use index::{Index, IndexFault};
