//! The bytes of a frame as they come.
ghost use Rattle.std.specs.Prelude.{◌≡◌, ◌++◌, ◌-◌, ◌≤◌, ◌<◌, ◌^◌, length, take, min, IfOk};
ghost use Rattle.pass_standby.specs.Streams.{claimed, is_fit, judgement, next_stop, head, IsSpelled};

use pass_num::Cursor;
use std::alloc::AllocError;

/// How many bytes a frame has in front of its records: its gate and its length.
pub(crate) const HEAD: usize = 5;

/// The byte of an open gate.
pub(crate) const OPEN: u8 = 1;

// How many bytes of records a frame may have.
const LONGEST: u64 = 1 << 31;

// The last place at which a frame may end.
const FURTHEST: u64 = 1 << 38;

/// What the first bytes of a frame are.
#[derive(Clone, Copy, PartialEq, Eq)]
pub(crate) enum Judgement {
    /// The beginning of a frame.
    Begun,
    /// No frame has this beginning.
    Bad,
    /// All of a frame.
    Whole,
}

// The length that a frame claims.
fn claimed(frame: &[u8]) -> u32
    requires { head ≤ length frame.now }
    ensures claimed { result ≡ claimed frame.now }
    ensures spelled { IsSpelled frame.now }
{
    let mut cursor = Cursor::new(&frame[1..]);
    match cursor.take_u32() {
        Ok(count) => count,
        Err(_) => 0,
    }
}

// Whether a frame at the place may have the length.
fn is_fit(at: u64, count: u32) -> bool
    requires { at ≤ 2 ^ 39 }
    ensures { result ≡ is_fit at count }
{
    let count = count as u64;
    1 <= count && count <= LONGEST && at + HEAD as u64 + count <= FURTHEST
}

/// Whether a frame at the place of which these bytes have come is bad, or they are all of it.
pub(crate) fn judge(at: u64, frame: &[u8]) -> Judgement
    requires place { at ≤ 2 ^ 39 }
    requires some { 1 ≤ length frame.now }
    ensures judged { result ≡ judgement at frame.now }
    ensures spelled { result ≡ Judgement.Whole → IsSpelled frame.now }
{
    if frame[0] != OPEN {
        return Judgement::Bad;
    }
    if frame.len() < HEAD {
        return Judgement::Begun;
    }
    let count = claimed(frame);
    if !is_fit(at, count) {
        return Judgement::Bad;
    }
    if frame.len() < HEAD + count as usize {
        return Judgement::Begun;
    }
    Judgement::Whole
}

// How many bytes of a frame there are where it is judged next.
fn next_stop(frame: &[u8]) -> usize
    ensures { result ≡ next_stop frame.now }
{
    if frame.is_empty() {
        return 1;
    }
    if frame.len() < HEAD {
        return HEAD;
    }
    HEAD + claimed(frame) as usize
}

/// Takes bytes off the front of a piece, up to where the frame that has begun is judged next. Their number is the answer. The
/// frame grows by what came, never by what it claims.
pub(crate) fn gather(frame: &mut Vec<u8>, piece: &[u8]) -> Result<usize, AllocError>
    requires { length frame.old.items < next_stop frame.old.items }
    ensures count { IfOk result (λ used. used ≡ min (next_stop frame.old.items - length frame.old.items) (length piece.now)) }
    ensures bytes { IfOk result (λ used. frame.new.items ≡ frame.old.items ++ take used piece.now) }
{
    let room = next_stop(frame) - frame.len();
    let used = if room < piece.len() {
        room
    } else {
        piece.len()
    };
    frame.extend_from_slice(&piece[..used])?;
    Ok(used)
}
