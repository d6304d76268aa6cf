//! Why a tar isn't written.
use pass_entry::Node;

/// Why no tar of what a node came from is written, or not the whole of it.
#[derive(Clone, Copy, PartialEq, Eq, Drop)]
pub enum TarFault {
    /// The records have no such node.
    NoObject(Node),
    /// The sink failed. It took a beginning of the tar.
    WriteFault,
    /// Memory was refused, before anything was written.
    NoMemory,
}
