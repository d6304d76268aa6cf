//! The one fault of the outside.

/// A call of a source, a sink or a disk failed. Its count of faults says so too.
#[derive(Clone, Copy, PartialEq, Eq)]
pub struct Failed;
