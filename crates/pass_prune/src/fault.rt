//! Why versions of an archive don't go onto a fresh one.
use pass_entry::Node;
use pass_leaf::OldFault;

/// Why versions of an archive don't go onto a fresh one.
#[derive(Clone, Copy, PartialEq, Eq, Drop)]
pub enum PruneFault {
    /// The first of the named nodes that is no version of an object of the log.
    NoObject(Node),
    /// The fresh archive has a version already.
    NotFresh,
    /// Why the fresh archive isn't opened, or keeps no more.
    Fresh(OldFault),
    /// Memory was refused before the fresh archive was touched.
    NoMemory,
}
