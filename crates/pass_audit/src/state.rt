//! What a log says of a file so far.
ghost use Rattle.std.specs.Prelude.{◌≡◌, ◌*◌, ℕ, None, IfOk, OnOk, nat_le, if◌then◌else◌};
ghost use Rattle.std.specs.Ordering.{nat_cmp};
ghost use Rattle.std.specs.BTreeMap.{get};
ghost use Rattle.pass_entry.specs.Limits.{block_size};

use crate::doubts::{doubt, doubt_rows};
use crate::steps::Step;
use pass_entry::BLOCK_SIZE;
use std::alloc::{AllocError, Global};
use std::collections::{BTreeMap, BTreeSet};

/// Whether an object is a file, its version and size, and the digests of its blocks.
#[derive(Drop)]
pub(crate) struct State {
    pub(crate) is_file: bool,
    pub(crate) version: u64,
    pub(crate) size: u64,
    pub(crate) rows: BTreeMap<u64, [u8; 16]>,
}

// Takes away the rows of blocks that begin at or past a size.
fn cut(rows: &mut BTreeMap<u64, [u8; 16]>, size: u64) -> Result<BTreeMap<u64, [u8; 16]>, AllocError>
    ensures left { OnOk result ((block : ℕ) → get nat_cmp rows.new block ≡ (if nat_le size (block * block_size) then None else get nat_cmp rows.old block)) }
    ensures gone { IfOk result (λ gone. (block : ℕ) → get nat_cmp gone block ≡ (if nat_le size (block * block_size) then get nat_cmp rows.old block else None)) }
{
    let first = size.div_ceil(BLOCK_SIZE);
    let gone = rows.split_off(&first)?;
    Ok(gone)
}

impl State {
    ghost use Rattle.std.specs.Prelude.{[]};
    ghost use Rattle.pass_audit.specs.Courses.{AreDoubted, IsAfter, IsNext};

    /// Before the first step.
    pub(crate) fn new(alloc: Global) -> State
        ensures { IsAfter [] result }
    {
        State {
            is_file: false,
            version: 1,
            size: 0,
            rows: BTreeMap::new(alloc),
        }
    }

    /// One step more, by which blocks come into doubt. After a want of memory the state is of no use.
    pub(crate) fn note(&mut self, step: &Step, doubts: &mut BTreeSet<u64>) -> Result<(), AllocError>
        ensures next { OnOk result (IsNext self.old step.now self.new) }
        ensures doubted { OnOk result (AreDoubted self.old.rows self.new.rows doubts.old doubts.new) }
    {
        match step {
            Step::Made { is_file } => {
                self.is_file = *is_file;
                Ok(())
            }
            Step::Version(version) => {
                self.version = *version;
                Ok(())
            }
            Step::Size(size) => {
                self.size = *size;
                let gone = cut(&mut self.rows, *size)?;
                doubt_rows(doubts, gone)
            }
            Step::Digest { block, md5 } => {
                self.rows.insert(u64::from(*block), *md5)?;
                doubt(doubts, u64::from(*block))
            }
        }
    }
}
