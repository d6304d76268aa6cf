//! The blocks of a content that the rows of a log may not bear out.
ghost use Rattle.std.specs.Prelude.{◌≡◌, ◌<◌, ◌≤◌, ◌==◌, ℕ, false, None, OnOk};
ghost use Rattle.std.specs.Ordering.{nat_cmp};
ghost use Rattle.std.specs.BTreeMap.{get};
ghost use Rattle.std.specs.BTreeSet.{contains};
ghost use Rattle.pass_leaf.specs.Keeping.{block_total};
ghost use Rattle.pass_leaf.specs.Leaves.{IsFormed};
ghost use Rattle.pass_audit.specs.Courses.{ReachOver, has_block};

use pass_entry::BLOCK_SIZE;
use pass_leaf::Leaf;
use std::alloc::AllocError;
use std::collections::{BTreeMap, BTreeSet};

/// One block more is in doubt.
pub(crate) fn doubt(doubts: &mut BTreeSet<u64>, block: u64) -> Result<(), AllocError>
    ensures { OnOk result ((b : ℕ) → contains nat_cmp doubts.new b ≡ false → (contains nat_cmp doubts.old b ≡ false) × ((block == b) ≡ false)) }
{
    doubts.insert(block)?;
    Ok(())
}

/// The blocks that have these rows are in doubt.
pub(crate) fn doubt_rows(
    doubts: &mut BTreeSet<u64>,
    rows: BTreeMap<u64, [u8; 16]>,
) -> Result<(), AllocError>
    ensures { OnOk result ((b : ℕ) → contains nat_cmp doubts.new b ≡ false → (contains nat_cmp doubts.old b ≡ false) × (get nat_cmp rows b ≡ None)) }
{
    let mut rest = rows;
    while let Some((block, _)) = rest.pop_first() {
        doubt(doubts, block)?;
    }
    Ok(())
}

// The blocks from one on, up to another, are in doubt.
fn doubt_range(doubts: &mut BTreeSet<u64>, from: u64, end: u64) -> Result<(), AllocError>
    ensures { OnOk result ((b : ℕ) → contains nat_cmp doubts.new b ≡ false → (contains nat_cmp doubts.old b ≡ false) × (from ≤ b → b < end → ⊥)) }
{
    for block in from..end {
        doubt(doubts, block)?;
    }
    Ok(())
}

// The blocks of a content that gets another size are in doubt, from the first one on that reaches past either size.
fn doubt_resized(doubts: &mut BTreeSet<u64>, old: u64, new: u64) -> Result<(), AllocError>
    ensures { OnOk result ((b : ℕ) → contains nat_cmp doubts.new b ≡ false → (contains nat_cmp doubts.old b ≡ false) × (b < block_total new → ReachOver old new b)) }
{
    if old == new {
        return Ok(());
    }
    doubt_range(doubts, old.min(new) / BLOCK_SIZE, new.div_ceil(BLOCK_SIZE))
}

// The blocks that a leaf has are in doubt.
fn doubt_blocks(doubts: &mut BTreeSet<u64>, leaf: &Leaf) -> Result<(), AllocError>
    ensures blocks { OnOk result ((b : ℕ) → contains nat_cmp doubts.new b ≡ false → (contains nat_cmp doubts.old b ≡ false) × (has_block leaf.now b ≡ false)) }
    ensures formed { IsFormed leaf.now }
{
    for block in leaf.blocks() {
        doubt(doubts, u64::from(block.number))?;
    }
    Ok(())
}

/// The blocks are in doubt in which a leaf may change a content of that size.
pub(crate) fn doubt_leaf(
    doubts: &mut BTreeSet<u64>,
    size: u64,
    leaf: &Leaf,
) -> Result<(), AllocError>
    ensures blocks { OnOk result ((b : ℕ) → contains nat_cmp doubts.new b ≡ false → (contains nat_cmp doubts.old b ≡ false)
        × (b < block_total leaf.now.size → ReachOver size leaf.now.size b) × (has_block leaf.now b ≡ false)) }
    ensures formed { OnOk result (IsFormed leaf.now) }
{
    doubt_resized(doubts, size, leaf.size())?;
    doubt_blocks(doubts, leaf)
}
