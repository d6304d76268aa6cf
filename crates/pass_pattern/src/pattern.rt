//! The shape of a path.
use pass_entry::Text;

/// Which edges a step of a path may take.
#[derive(Clone, Copy, PartialEq, Eq)]
pub enum EdgeTest {
    /// To a node of another object; written `i`.
    Other,
    /// To a node of the same object; written `v`.
    Same,
    /// To any node; written `e`.
    Any,
}

/// The shape of a path.
///
/// A drop goes down the tree, and so does what compiles it: a pattern that was read from a text is at most 255 deep.
#[derive(Drop)]
pub enum Pattern {
    /// One edge that passes the test, where there is a name to a node whose object a record gave it.
    One { edge: EdgeTest, name: Option<Text> },
    /// A path of the first shape, and one of the second behind it.
    Then(Box<Pattern>, Box<Pattern>),
    /// A path of the one shape or of the other.
    Or(Box<Pattern>, Box<Pattern>),
    /// Any number of paths of the shape, one behind the other; also none.
    Many(Box<Pattern>),
}
