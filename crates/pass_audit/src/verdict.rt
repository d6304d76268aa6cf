//! What a log says of a leaf.
use pass_entry::Node;

/// What a log says of a version of a file with a content.
#[derive(Clone, Copy)]
pub enum Verdict {
    /// Its size and digests are the content's.
    Borne,
    /// They are another content's.
    Unlike,
    /// It has no such version of a file.
    Unknown,
}

/// What a log says of the leaf of a version.
#[derive(Clone, Copy)]
pub struct Judged {
    pub node: Node,
    pub verdict: Verdict,
}
