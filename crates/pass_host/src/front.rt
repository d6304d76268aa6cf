//! What the first bytes of a log say of the folder.
ghost use Rattle.std.specs.Prelude.{◌≡◌};
ghost use Rattle.pass_host.specs.Front.{are_zero, found_at, found_behind, marked_or, unless_zero};

/// How many of its first bytes say whose a log is: a gate, and the length of a frame.
pub const FRONT_LENGTH: usize = 5;

/// What a folder has as it is opened.
#[derive(Clone, Copy, PartialEq, Eq)]
pub enum Found {
    /// No log, or one without a byte.
    Nothing,
    /// The log of a store.
    Store,
    /// A log that no store wrote.
    Other,
}

/// What the folder has, given whether it is marked as a store's, and the first bytes of its log.
pub fn found_at(is_marked: bool, front: &[u8]) -> Found
    ensures { result ≡ found_at is_marked front.now }
{
    match front.split_first() {
        None => marked_or(Found::Nothing, is_marked),
        Some((gate, length)) => found_behind(is_marked, *gate, length),
    }
}

// A store's where the folder is marked.
fn marked_or(found: Found, is_marked: bool) -> Found
    ensures { result ≡ marked_or found is_marked }
{
    if is_marked { Found::Store } else { found }
}

// What a gate and the bytes of a length say. No run writes a frame without bytes.
fn found_behind(is_marked: bool, gate: u8, length: &[u8]) -> Found
    ensures { result ≡ found_behind is_marked gate length.now }
{
    if gate == 0 {
        marked_or(Found::Other, is_marked)
    } else if gate == 1 {
        unless_zero(are_zero(length))
    } else {
        Found::Other
    }
}

fn unless_zero(is_zero: bool) -> Found
    ensures { result ≡ unless_zero is_zero }
{
    if is_zero { Found::Other } else { Found::Store }
}

fn are_zero(bytes: &[u8]) -> bool
    ensures { result ≡ are_zero bytes.now }
{
    bytes.iter().all(|byte| *byte == 0)
}
