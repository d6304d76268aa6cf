//! A pool of blocks.
ghost use Rattle.std.specs.Prelude.{◌≡◌, ◌≤◌, ◌-◌, [], length, take, slice_get, option_copied, option_map, IfOk, OnOk, OnErr};
ghost use Rattle.std.specs.Map.{lookup, remove_entry};
ghost use Rattle.lru.specs.LruCache.{lru_cache, last_entry};
ghost use Rattle.pass_pool.specs.Pools.{is_block, staged, pushed_out, evicted_of, AreOnce};

use lru::LruCache;
use pass_entry::Bytes;
use std::alloc::{AllocError, Global};
use std::marker::Model;
use std::num::NonZeroUsize;

/// A block of a file, by the file's number.
#[derive(Clone, Copy, PartialEq, Eq, Hash)]
pub struct FileBlock {
    pub number: u32,
    pub block: u32,
}

/// A block that has left a pool, with its bytes.
#[derive(Drop)]
pub struct Evicted {
    pub number: u32,
    pub block: u32,
    pub bytes: Bytes,
}

/// Blocks with their bytes, the one that was staged last first, and how many there may be.
#[derive(Drop)]
pub struct Pool {
    cache: LruCache<FileBlock, Bytes>,
}

impl Model for Pool {
    ghost use Rattle.std.specs.Prelude.{ℕ, List, ◌≤◌};
    ghost use Rattle.std.specs.Coded.{codes, coded_ℕ, coded_list};
    ghost use Rattle.lru.specs.LruCache.{LruCache as Entries, lru_cache_code};
    ghost use Rattle.pass_pool.specs.declared.pool.FileBlock.{FileBlock};
    ghost use Rattle.pass_pool.specs.contracts.pool.FileBlock as block_type;

    ghost Value = { Entries FileBlock (List ℕ) };

    ghost coded = { lru_cache_code block_type.the_row.coded (coded_list coded_ℕ) };

    ghost view = { λ p. p.cache };

    ghost invariant = { λ p. p.cache.cap ≤ 65536 };
}

impl Pool {
    /// An empty pool for so many blocks.
    pub fn new(alloc: Global, capacity: u32) -> Result<Pool, AllocError>
        requires capacity { (1 ≤ capacity) × (capacity ≤ 65536) }
        ensures { IfOk result (λ p. p ≡ lru_cache [] capacity) }
    {
        let Some(capacity) = NonZeroUsize::new(capacity as usize) else {
            unreachable!()
        };
        let cache = LruCache::sparse(alloc, capacity)?;
        Ok(Pool { cache })
    }

    /// How many blocks are there. None is there twice, and there are no more than there may be.
    pub fn len(&self) -> usize
        ensures len { result ≡ length self.now.entries }
        ensures fits { length self.now.entries ≤ self.now.cap }
        ensures once { AreOnce self.now.entries }
    {
        self.cache.len()
    }

    /// Puts a block first. One that is there already gets these bytes and nothing is handed out; a new one in a full pool hands
    /// out the last.
    pub fn put(
        &mut self,
        number: u32,
        block: u32,
        bytes: Bytes,
    ) -> Result<Option<Evicted>, AllocError>
        ensures pairs { OnOk result (self.new ≡ lru_cache (staged self.old (record { number = number; block = block }) bytes) self.old.cap) }
        ensures evicted { IfOk result (λ out. out ≡ option_map evicted_of (pushed_out self.old (record { number = number; block = block }))) }
        ensures err { OnErr result (self.new ≡ self.old) }
    {
        let key = FileBlock { number, block };
        let known = self.cache.contains(&key);
        match self.cache.push(key, bytes) {
            Ok(_replaced) if known => Ok(None),
            Ok(pushed_out) => Ok(left_over(pushed_out)),
            Err(_) => Err(AllocError),
        }
    }

    /// The bytes of a block that is there. It changes nothing.
    pub fn get(&self, number: u32, block: u32) -> Option<&Bytes>
        ensures { option_copied result ≡ lookup (is_block number block) self.now.entries }
    {
        self.cache.peek(&FileBlock { number, block })
    }

    /// Takes a block out that is there.
    pub fn take(&mut self, number: u32, block: u32) -> Option<Bytes>
        ensures bytes { result ≡ lookup (is_block number block) self.old.entries }
        ensures pairs { self.new ≡ lru_cache (remove_entry (is_block number block) self.old.entries) self.old.cap }
    {
        self.cache.pop(&FileBlock { number, block })
    }

    /// Takes the last block out: the one that was staged longest ago. No program here makes this call.
    pub fn take_last(&mut self) -> Option<Evicted>
        ensures block { result ≡ option_map evicted_of (last_entry self.old.entries) }
        ensures pairs { self.new ≡ lru_cache (take (length self.old.entries - 1) self.old.entries) self.old.cap }
    {
        left_over(self.cache.pop_lru())
    }
}

fn left_over(last: Option<(FileBlock, Bytes)>) -> Option<Evicted>
    ensures { result ≡ option_map evicted_of last }
{
    let (at, bytes) = last?;
    Some(Evicted {
        number: at.number,
        block: at.block,
        bytes,
    })
}
