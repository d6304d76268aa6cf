//! Whether what a log says of a file bears a content out.
ghost use Rattle.std.specs.Prelude.{◌≡◌, ◌==◌, ◌<◌, ◌*◌, ℕ, true, false, length, IfSome, IfNone};
ghost use Rattle.std.specs.List.{list_all, range_with_len};
ghost use Rattle.std.specs.Ordering.{nat_cmp};
ghost use Rattle.std.specs.BTreeMap.{get};
ghost use Rattle.std.specs.BTreeSet.{contains};
ghost use Rattle.pass_leaf.specs.Keeping.{part as part_of, block_total};
ghost use Rattle.pass_audit.specs.Audits.{is_part_borne as is_part_borne_by};
ghost use Rattle.pass_audit.specs.Courses.{AreSure, is_held};
ghost use Rattle.pass_entry.specs.Limits.{block_size};

use crate::state::State;
use md5::{Digest, Md5};
use pass_entry::BLOCK_SIZE;
use std::collections::{BTreeMap, BTreeSet};

// All of these bytes are zero.
fn is_zero(bytes: &[u8]) -> bool
    ensures { result ≡ list_all (λ b. b == 0) bytes.now }
{
    bytes.iter().all(|byte| *byte == 0)
}

// The bytes of a block have the digest of its row; those of a block without a row are zero.
fn is_part_borne(row: Option<[u8; 16]>, bytes: &[u8]) -> bool
    ensures { result ≡ is_part_borne_by row bytes.now }
{
    match row {
        Some(digest) => Md5::digest(bytes) == digest,
        None => is_zero(bytes),
    }
}

// The bytes of a content that lie in a block.
fn part(content: &[u8], block: u64) -> &[u8]
    requires { block * block_size < length content.now }
    ensures { result.now ≡ part_of content.now block }
{
    let rest = &content[block as usize * BLOCK_SIZE as usize..];
    if rest.len() > BLOCK_SIZE as usize {
        &rest[..BLOCK_SIZE as usize]
    } else {
        rest
    }
}

// The first block in doubt, where it is below a number.
fn first_below(doubts: &BTreeSet<u64>, end: u64) -> Option<u64>
    ensures some { IfSome result (λ block. block < end) }
    ensures member { IfSome result (λ block. contains nat_cmp doubts.now block ≡ true) }
    ensures none { IfNone result ((block : ℕ) → block < end → contains nat_cmp doubts.now block ≡ false) }
{
    let Some(first) = doubts.first() else {
        return None;
    };
    if *first < end { Some(*first) } else { None }
}

// The rows bear each block of a content out, as they do with those that aren't in doubt. Blocks come out of doubt up to the first one
// that isn't borne out.
fn are_borne(rows: &BTreeMap<u64, [u8; 16]>, content: &[u8], doubts: &mut BTreeSet<u64>) -> bool
    requires { AreSure rows.now content.now doubts.old }
    ensures borne { result ≡ list_all (λ block. is_part_borne_by (get nat_cmp rows.now block) (part_of content.now block)) (range_with_len 0 (block_total (length content.now))) }
    ensures sure { AreSure rows.now content.now doubts.new }
{
    let end = (content.len() as u64).div_ceil(BLOCK_SIZE);
    while let Some(block) = first_below(doubts, end) {
        if !is_part_borne(rows.get(&block).copied(), part(content, block)) {
            return false;
        }
        doubts.remove(&block);
    }
    true
}

/// What a log says so far of a file bears this content out.
pub(crate) fn is_borne_out(state: &State, content: &[u8], doubts: &mut BTreeSet<u64>) -> bool
    requires { AreSure state.now.rows content.now doubts.old }
    ensures borne { result ≡ is_held state.now content.now }
    ensures sure { AreSure state.now.rows content.now doubts.new }
{
    if state.size != content.len() as u64 {
        return false;
    }
    are_borne(&state.rows, content, doubts)
}
