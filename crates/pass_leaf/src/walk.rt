//! The leaves of a log area, judged frame after frame.
ghost use Rattle.std.specs.Prelude.{◌≡◌, ◌⊎◌, ◌+◌, ◌<◌, ◌≤◌, ◌^◌, ◌++◌, ◌∷◌, ℕ, length, true, OnOk, IfOk, IfErr, IfSome, IfNone};
ghost use Rattle.std.specs.Int.{w32, to_be_bytes};
ghost use Rattle.pass_leaf.specs.Archives.{is_open, HasBadFrame, IsBroken, MayNotStand};
ghost use Rattle.pass_leaf.specs.Reads.{IsNextLeaf, IsFound};

use crate::reading::{LeafFault, read_leaf};
use crate::{Leaves, OldFault};
use pass_num::Cursor;
use std::alloc::Global;

/// The byte of an open gate.
pub(crate) const OPEN: u8 = 1;

// How many bytes a frame has in front of its leaf: its gate and its length.
const HEAD: usize = 5;

/// What a log area holds: its leaves, the place of the gate behind the last frame, and whether the area has at most one byte.
#[derive(Drop)]
pub(crate) struct Found {
    pub(crate) leaves: Leaves,
    pub(crate) end: u64,
    pub(crate) short: bool,
}

// The frame behind an open gate at the front, and what follows it, which isn't empty.
fn frame_at(bytes: &[u8]) -> Option<(&[u8], &[u8])>
    requires some { 0 < length bytes.now }
    requires gate { is_open bytes.now ≡ true }
    ensures fits { IfSome result (λ f. length f.0.now < 2 ^ 32) }
    ensures frame { IfSome result (λ f. bytes.now ≡ 1 ∷ to_be_bytes w32 (length f.0.now) ++ f.0.now ++ f.1.now) }
    ensures more { IfSome result (λ f. 0 < length f.1.now) }
    ensures broken { IfNone result (IsBroken bytes.now) }
{
    let mut cursor = Cursor::new(&bytes[1..]);
    let Ok(count) = cursor.take_u32() else {
        return None;
    };
    let Ok(frame) = cursor.take_bytes(count as usize) else {
        return None;
    };
    let after = cursor.left();
    if after.is_empty() {
        return None;
    }
    Some((frame, after))
}

// Puts the leaf of a frame behind others.
fn read_frame(alloc: Global, frame: &[u8], leaves: &mut Leaves) -> Result<(), LeafFault>
    ensures next { OnOk result (IsNextLeaf leaves.old frame.now leaves.new) }
    ensures bad { IfErr result (λ e. e ≡ LeafFault.Bad → MayNotStand leaves.old frame.now) }
{
    let leaf = match read_leaf(alloc, frame) {
        Ok(leaf) => leaf,
        Err(fault) => return Err(fault),
    };
    let node = leaf.node();
    if node.version <= leaves.last_version(node.pnode) {
        return Err(LeafFault::Bad);
    }
    leaves.push(alloc, leaf)?;
    Ok(())
}

// The fault of the frame at that place.
fn fault_at(fault: LeafFault, at: u64) -> OldFault
    ensures bad { fault ≡ LeafFault.Bad → result ≡ OldFault.BadFrame at }
    ensures memory { fault ≡ LeafFault.NoMemory → result ≡ OldFault.NoMemory }
{
    match fault {
        LeafFault::Bad => OldFault::BadFrame { at },
        LeafFault::NoMemory => OldFault::NoMemory,
    }
}

// What the bytes of an area of two bytes or more hold.
fn walk(alloc: Global, bytes: &[u8]) -> Result<Found, OldFault>
    requires some { 1 < length bytes.now }
    requires fits { length bytes.now ≤ 2 ^ 39 }
    ensures found { IfOk result (IsFound bytes.now) }
    ensures fault { IfErr result (λ e. (e ≡ OldFault.NoMemory) ⊎ ((at : ℕ) × (e ≡ OldFault.BadFrame at) × HasBadFrame bytes.now at)) }
{
    let mut place: u64 = 0;
    let mut leaves = Leaves::new(alloc);
    let mut rest = bytes;
    while rest[0] == OPEN {
        let Some((frame, after)) = frame_at(rest) else {
            return Err(OldFault::BadFrame { at: place });
        };
        if let Err(fault) = read_frame(alloc, frame, &mut leaves) {
            return Err(fault_at(fault, place));
        }
        place += (HEAD + frame.len()) as u64;
        rest = after;
    }
    Ok(Found {
        leaves,
        end: place,
        short: false,
    })
}

/// What the bytes of an area hold; at most one byte is an empty archive.
pub(crate) fn found_in(alloc: Global, bytes: &[u8]) -> Result<Found, OldFault>
    requires { length bytes.now ≤ 2 ^ 39 }
    ensures found { IfOk result (IsFound bytes.now) }
    ensures fault { IfErr result (λ e. (e ≡ OldFault.NoMemory) ⊎ ((at : ℕ) × (e ≡ OldFault.BadFrame at) × (1 < length bytes.now) × HasBadFrame bytes.now at)) }
{
    if bytes.len() <= 1 {
        return Ok(Found {
            leaves: Leaves::new(alloc),
            end: 0,
            short: true,
        });
    }
    walk(alloc, bytes)
}
