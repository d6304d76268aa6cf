//! One file without its bytes.
ghost use Rattle.std.specs.Prelude.{ℕ, ◌≡◌, ◌≢◌, ◌==◌, ◌||◌, ◌&&◌, ◌+◌, ◌*◌, ◌<◌, ◌≤◌, ◌^◌, nat_lt, vec_len, IfOk};
ghost use Rattle.std.specs.List.{list_any};
ghost use Rattle.pass_entry.specs.Limits.{block_count, block_size};
ghost use Rattle.pass_plain.specs.Sessions.{opening_size as opening_size_of, opening_rows as opening_rows_of};
ghost use Rattle.pass_plain.specs.Records.{touches as touches_of, range_len as range_len_of};
ghost use Rattle.pass_report.specs.Digests.{passing, put_size, is_stretched as is_stretched_of, gets_digest, row_at};

use crate::opening::{opening_rows, opening_size};
use pass_entry::{BLOCK_COUNT, BLOCK_SIZE, Pnode};
use pass_plain::Start;
use std::alloc::{AllocError, Global};

/// A file without its bytes: its size, and for each block whether it has a digest.
#[derive(Drop)]
pub struct Blocks {
    pub size: u64,
    pub rows: Vec<bool>,
    pub ghost all: { vec_len rows ≡ block_count },
}

// A write of `len` bytes at `at` writes a byte of the block.
fn touches(at: u64, len: u64, block: u64) -> bool
    requires low { block < block_count }
    requires fits { 0 < len → at + len < 2 ^ 63 }
    ensures { result ≡ touches_of at len block }
{
    len > 0 && block * BLOCK_SIZE < at + len && at < (block + 1) * BLOCK_SIZE
}

// From which block to before which one of a file these bytes lie.
fn blocks_between(low: u64, high: u64) -> (u64, u64)
    requires { low ≤ high }
    ensures order { (result.0 ≤ result.1) × (result.1 ≤ block_count) }
    ensures low { result.0 * block_size ≤ low }
    ensures high { (block : ℕ) → result.1 ≤ block → block < block_count → high ≤ block * block_size }
{
    let count = u64::from(BLOCK_COUNT);
    let first = low / BLOCK_SIZE;
    let end = high / BLOCK_SIZE + 1;
    (first.min(count), end.min(count))
}

// How many bytes of a block lie within a size.
fn range_len(size: u64, block: u64) -> u64
    requires { block < block_count }
    ensures { result ≡ range_len_of size block }
{
    size.min((block + 1) * BLOCK_SIZE)
        .saturating_sub(block * BLOCK_SIZE)
}

// For each block of a file, whether it is one of these.
fn row_flags(alloc: Global, blocks: &[u32]) -> Result<Vec<bool>, AllocError>
    ensures all { IfOk result (λ rows. vec_len rows ≡ block_count) }
    ensures rows { IfOk result (λ rows. (block : ℕ) → block < block_count → row_at rows.items block ≡ list_any (λ x. x == block) blocks.now) }
{
    let mut rows = vec![in alloc; false; BLOCK_COUNT as usize]?;
    for block in blocks {
        if *block < BLOCK_COUNT {
            rows[*block as usize] = true;
        }
    }
    Ok(rows)
}

impl Blocks {
    /// A file as the opening gives it.
    pub fn opened(alloc: Global, start: &Start, file: Pnode) -> Result<Blocks, AllocError>
        ensures size { IfOk result (λ b. b.size ≡ opening_size_of start.now file) }
        ensures rows { IfOk result (λ b. (block : ℕ) → block < block_count → row_at b.rows.items block ≡ list_any (λ x. x == block) (opening_rows_of start.now file)) }
    {
        Ok(Blocks {
            size: opening_size(start, file),
            rows: row_flags(alloc, opening_rows(start, file))?,
        })
    }

    // A block has a digest and its part of the file gets another length.
    fn is_stretched(&self, size: u64, block: u64) -> bool
        requires { block < block_count }
        ensures { result ≡ is_stretched_of (row_at self.now.rows.items) self.now.size size block }
    {
        self.rows[block as usize]
            && block * BLOCK_SIZE < size
            && range_len(self.size, block) != range_len(size, block)
    }

    // From where to where in the file bytes change where some are written and the file gets a size.
    fn stretch(&self, at: u64, len: u64, size: u64) -> (u64, u64)
        requires { 0 < len → at + len < 2 ^ 63 }
        ensures order { result.0 ≤ result.1 }
        ensures written { 0 < len → (result.0 ≤ at) × (at + len ≤ result.1) }
        ensures sized { self.now.size ≢ size → (result.0 ≤ self.now.size) × (result.0 ≤ size) × (self.now.size ≤ result.1) × (size ≤ result.1) }
    {
        if len > 0 && size == self.size {
            return (at, at + len);
        }
        let low = self.size.min(size);
        let high = self.size.max(size);
        if len > 0 {
            (low.min(at), high.max(at + len))
        } else {
            (low, high)
        }
    }

    // How many blocks get a digest where bytes are written and the file gets a size.
    fn digests(&self, at: u64, len: u64, size: u64) -> u64
        requires { 0 < len → at + len < 2 ^ 63 }
        ensures count { result ≡ passing (gets_digest (row_at self.now.rows.items) self.now.size at len size) block_count }
        ensures few { result ≤ block_count }
    {
        let (low, high) = self.stretch(at, len, size);
        let (first, end) = blocks_between(low, high);
        let mut digests = 0;
        for block in first..end {
            if touches(at, len, block) || self.is_stretched(size, block) {
                digests += 1;
            }
        }
        digests
    }

    // The blocks that are written have a digest.
    fn write_rows(&mut self, at: u64, len: u64)
        requires { 0 < len → at + len < 2 ^ 63 }
        ensures size { self.new.size ≡ self.old.size }
        ensures rows { (block : ℕ) → block < block_count → row_at self.new.rows.items block ≡ (row_at self.old.rows.items block || touches_of at len block) }
    {
        if len == 0 {
            return;
        }
        let (first, end) = blocks_between(at, at + len);
        for block in first..end {
            if touches(at, len, block) {
                self.rows[block as usize] = true;
            }
        }
    }

    // No block that begins at the size or past it has a digest.
    fn cut_rows(&mut self, size: u64)
        ensures size { self.new.size ≡ self.old.size }
        ensures rows { (block : ℕ) → block < block_count → row_at self.new.rows.items block ≡ (row_at self.old.rows.items block && nat_lt (block * block_size) size) }
    {
        for block in 0..u64::from(BLOCK_COUNT) {
            if size <= block * BLOCK_SIZE {
                self.rows[block as usize] = false;
            }
        }
    }

    /// So many bytes are written at an offset. The answer is how many blocks get a digest.
    pub fn put(&mut self, at: u64, len: u64) -> u64
        requires { 0 < len → at + len < 2 ^ 63 }
        ensures count { result ≡ passing (gets_digest (row_at self.old.rows.items) self.old.size at len (put_size self.old.size at len)) block_count }
        ensures few { result ≤ block_count }
        ensures size { self.new.size ≡ put_size self.old.size at len }
        ensures rows { (block : ℕ) → block < block_count → row_at self.new.rows.items block ≡ (row_at self.old.rows.items block || touches_of at len block) }
    {
        let size = if len == 0 {
            self.size
        } else {
            self.size.max(at + len)
        };
        let digests = self.digests(at, len, size);
        self.write_rows(at, len);
        self.size = size;
        digests
    }

    /// The file gets a size. The answer is how many blocks get a digest.
    pub fn cut(&mut self, size: u64) -> u64
        ensures count { result ≡ passing (gets_digest (row_at self.old.rows.items) self.old.size 0 0 size) block_count }
        ensures few { result ≤ block_count }
        ensures size { self.new.size ≡ size }
        ensures rows { (block : ℕ) → block < block_count → row_at self.new.rows.items block ≡ (row_at self.old.rows.items block && nat_lt (block * block_size) size) }
    {
        let digests = self.digests(0, 0, size);
        self.cut_rows(size);
        self.size = size;
        digests
    }
}
