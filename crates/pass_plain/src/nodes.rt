//! What an entry makes of a version.
use pass_entry::Node;

/// What an entry makes of the version of its object: the node at the entry's place, whether it is a new one, and the node
/// from which it takes anew.
#[derive(Clone, Copy)]
pub struct VersionStep {
    pub node: Node,
    pub freezes: bool,
    pub source: Option<Node>,
}
