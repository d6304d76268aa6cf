//! The size of each file, and which of its blocks have a digest.
ghost use Rattle.std.specs.Prelude.{ℕ, List, [], ◌∷◌, ◌++◌, ◌≡◌, ◌==◌, ◌||◌, ◌&&◌, ◌+◌, ◌*◌, ◌<◌, ◌≤◌, ◌^◌, false, true, is_some, nat_lt, IfOk, OnOk};
ghost use Rattle.std.specs.Ordering.{nat_cmp};
ghost use Rattle.std.specs.BTreeMap.{get};
ghost use Rattle.pass_entry.specs.declared.entry.Entry.{Entry as AnyEntry};
ghost use Rattle.pass_entry.specs.Limits.{block_count, block_size};
ghost use Rattle.pass_plain.specs.declared.start.Start.{Start as AnyStart};
ghost use Rattle.pass_plain.specs.Histories.{is_fault as is_fault_of};
ghost use Rattle.pass_plain.specs.Sessions.{Session};
ghost use Rattle.pass_plain.specs.Sound.{IsSound};
ghost use Rattle.pass_plain.specs.Outlines.{SameButBytes};
ghost use Rattle.pass_report.specs.Passing.{IsNext};
ghost use Rattle.pass_report.specs.Contents.{size_in, row_in, IsSameFile, AreFiles, content_count};
ghost use Rattle.pass_report.specs.Digests.{passing, put_size, gets_digest};
ghost use Rattle.pass_plain.specs.Records.{touches};

use crate::blocks::Blocks;
use pass_entry::{Act, Entry, Pnode};
use pass_plain::Start;
use std::alloc::{AllocError, Global};
use std::collections::BTreeMap;

/// The files that have changed.
#[derive(Drop)]
pub struct Files {
    alloc: Global,
    files: BTreeMap<Pnode, Blocks>,
}

impl Files {
    /// Before the first entry.
    pub fn new(alloc: Global) -> Files
        ensures { (start : AnyStart) (session : Session) → SameButBytes start session.start → IsSound session → AreFiles start session [] result }
    {
        Files {
            alloc,
            files: BTreeMap::new(alloc),
        }
    }

    /// One more entry that is no fault. The answer is how many records it has of a file's content.
    pub fn note(&mut self, start: &Start, entry: &Entry) -> Result<u64, AllocError>
        requires fine { is_fault_of entry.now.reply ≡ false }
        requires known { (session : Session) × (past : List AnyEntry) × IsNext start.now session past entry.now }
        ensures few { IfOk result (λ n. n ≤ 1025) }
        ensures count { IfOk result (λ n. (session : Session) (past : List AnyEntry) → IsNext start.now session past entry.now → AreFiles start.now session past self.old
            → AreFiles start.now session (past ++ entry.now ∷ []) self.new × (n ≡ content_count session past entry.now entry.now.act)) }
    {
        match &entry.act {
            Act::Put { at, bytes, .. } => self.put(start, entry.what, *at, bytes.as_bytes().len()),
            Act::Cut { size, .. } => self.cut(start, entry.what, *size),
            _ => Ok(0),
        }
    }

    // Bytes are written to a file.
    fn put(&mut self, start: &Start, file: Pnode, at: u64, len: usize) -> Result<u64, AllocError>
        requires { 0 < len → at + len < 2 ^ 63 }
        ensures few { IfOk result (λ n. n ≤ 1025) }
        ensures count { IfOk result (λ n. n ≡ 1 + passing (gets_digest (row_in start.now self.old file) (size_in start.now self.old file) at len (put_size (size_in start.now self.old file) at len)) block_count) }
        ensures size { OnOk result (size_in start.now self.new file ≡ put_size (size_in start.now self.old file) at len) }
        ensures rows { OnOk result ((block : ℕ) → block < block_count → row_in start.now self.new file block ≡ (row_in start.now self.old file block || touches at len block)) }
        ensures others { OnOk result ((q : ℕ) → (file == q) ≡ false → IsSameFile start.now self.old self.new q) }
    {
        self.meet(start, file)?;
        Ok(1 + self.put_met(start, file, at, len as u64))
    }

    // A file gets a size.
    fn cut(&mut self, start: &Start, file: Pnode, size: u64) -> Result<u64, AllocError>
        ensures few { IfOk result (λ n. n ≤ 1025) }
        ensures count { IfOk result (λ n. n ≡ 1 + passing (gets_digest (row_in start.now self.old file) (size_in start.now self.old file) 0 0 size) block_count) }
        ensures size { OnOk result (size_in start.now self.new file ≡ size) }
        ensures rows { OnOk result ((block : ℕ) → block < block_count → row_in start.now self.new file block ≡ (row_in start.now self.old file block && nat_lt (block * block_size) size)) }
        ensures others { OnOk result ((q : ℕ) → (file == q) ≡ false → IsSameFile start.now self.old self.new q) }
    {
        self.meet(start, file)?;
        Ok(1 + self.cut_met(start, file, size))
    }

    fn put_met(&mut self, start: &Start, file: Pnode, at: u64, len: u64) -> u64
        requires met { is_some (get nat_cmp self.old.files file) ≡ true }
        requires fits { 0 < len → at + len < 2 ^ 63 }
        ensures few { result ≤ block_count }
        ensures count { result ≡ passing (gets_digest (row_in start.now self.old file) (size_in start.now self.old file) at len (put_size (size_in start.now self.old file) at len)) block_count }
        ensures size { size_in start.now self.new file ≡ put_size (size_in start.now self.old file) at len }
        ensures rows { (block : ℕ) → block < block_count → row_in start.now self.new file block ≡ (row_in start.now self.old file block || touches at len block) }
        ensures others { (q : ℕ) → (file == q) ≡ false → IsSameFile start.now self.old self.new q }
    {
        match self.files.get_mut(&file) {
            Some(blocks) => blocks.put(at, len),
            None => 0,
        }
    }

    fn cut_met(&mut self, start: &Start, file: Pnode, size: u64) -> u64
        requires met { is_some (get nat_cmp self.old.files file) ≡ true }
        ensures few { result ≤ block_count }
        ensures count { result ≡ passing (gets_digest (row_in start.now self.old file) (size_in start.now self.old file) 0 0 size) block_count }
        ensures size { size_in start.now self.new file ≡ size }
        ensures rows { (block : ℕ) → block < block_count → row_in start.now self.new file block ≡ (row_in start.now self.old file block && nat_lt (block * block_size) size) }
        ensures others { (q : ℕ) → (file == q) ≡ false → IsSameFile start.now self.old self.new q }
    {
        match self.files.get_mut(&file) {
            Some(blocks) => blocks.cut(size),
            None => 0,
        }
    }

    // The file has a place among those that have changed.
    fn meet(&mut self, start: &Start, file: Pnode) -> Result<(), AllocError>
        ensures met { OnOk result (is_some (get nat_cmp self.new.files file) ≡ true) }
        ensures same { OnOk result ((q : ℕ) → IsSameFile start.now self.old self.new q) }
    {
        if !self.files.contains_key(&file) {
            let blocks = Blocks::opened(self.alloc, start, file)?;
            self.files.insert(file, blocks)?;
        }
        Ok(())
    }
}
