//! The rows that a list leaves, found from its back.
ghost use Rattle.std.specs.Prelude.{◌≡◌, ◌↔◌, ℕ, List, Some, OnOk, IfOk, Contains, map};
ghost use Rattle.pass_range.specs.Sources.{stays, touch_of, and_then};

use crate::Range;
use pass_entry::{BLOCK_SIZE, Pnode, Record};
use std::alloc::{AllocError, Global};
use std::collections::BTreeMap;

/// What the records behind a place of a list say of the rows: those that they set for good, and the least size that
/// they give to each file. A row from before that place stays where its block begins below that size.
#[derive(Drop)]
pub struct Later {
    pub rows: BTreeMap<Range, [u8; 16]>,
    pub least: BTreeMap<Pnode, u64>,
}

impl Later {
    ghost use Rattle.std.specs.BTreeMap.{get};
    ghost use Rattle.pass_range.specs.Laters.{has_size, touch_in, range_cmp};
    ghost use Rattle.pass_range.specs.Tables.{Row, range_at, IsAscending};

    /// No records.
    pub fn new(alloc: Global) -> Later
        ensures { (pnode block : ℕ) → touch_in result pnode block ≡ stays }
    {
        Later {
            rows: BTreeMap::new(alloc),
            least: BTreeMap::new(alloc),
        }
    }

    // Whether the records gave a file a size of at most this one.
    fn has_size(&self, pnode: Pnode, size: u64) -> bool
        ensures { result ≡ has_size self.now pnode size }
    {
        match self.least.get(&pnode) {
            Some(least) => *least <= size,
            None => false,
        }
    }

    // Notes a size that a file was given before.
    fn size(&mut self, pnode: Pnode, size: u64) -> Result<(), AllocError>
        ensures { OnOk result ((p block : ℕ) → touch_in self.new p block ≡ and_then (touch_of p block (Record.Size pnode size)) (touch_in self.old p block)) }
    {
        if self.has_size(pnode, size) {
            return Ok(());
        }
        self.least.insert(pnode, size)?;
        Ok(())
    }

    // Notes a digest that a block was given before.
    fn digest(&mut self, range: Range, md5: [u8; 16]) -> Result<(), AllocError>
        ensures { OnOk result ((pnode block : ℕ) → touch_in self.new pnode block ≡ and_then (touch_of pnode block (Record.Digest range.pnode range.block md5)) (touch_in self.old pnode block)) }
    {
        if self.has_size(range.pnode, u64::from(range.block) * BLOCK_SIZE)
            || self.rows.contains_key(&range)
        {
            return Ok(());
        }
        self.rows.insert(range, md5)?;
        Ok(())
    }

    /// Notes the record that stands before those that were noted.
    pub fn note(&mut self, one: &Record) -> Result<(), AllocError>
        ensures { OnOk result ((pnode block : ℕ) → touch_in self.new pnode block ≡ and_then (touch_of pnode block one.now) (touch_in self.old pnode block)) }
    {
        match one {
            Record::Size { pnode, size } => self.size(*pnode, *size),
            Record::Digest { pnode, block, md5 } => self.digest(
                Range {
                    pnode: *pnode,
                    block: *block,
                },
                *md5,
            ),
            _ => Ok(()),
        }
    }

    /// The rows that the records set for good, in ascending order.
    pub fn into_rows(self, alloc: Global) -> Result<Vec<(Range, [u8; 16])>, AllocError>
        ensures rows { IfOk result (λ rows. (pnode block : ℕ) (digest : List ℕ) → Contains rows.items (range_at pnode block, digest) ↔ (get range_cmp self.rows (range_at pnode block) ≡ Some digest)) }
        ensures ascending { IfOk result (λ rows. IsAscending (map (λ (row : Row). row.0) rows.items)) }
    {
        self.rows.into_iter().collect(alloc)
    }
}
