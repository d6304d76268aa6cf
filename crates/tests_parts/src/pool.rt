//! Blocks that wait in a pool.
use pass_entry::Bytes;
use pass_pool::Pool;
use std::alloc::{AllocError, Global};
use std::test::*;

/// Blocks of one file that are put into a pool for two, in order, and the block that each pushes out.
const PUTS: [(u32, Option<u32>); 5] = [(0, None), (1, None), (2, Some(0)), (1, None), (3, Some(2))];

/// Puts a block into the pool, and tells which one that pushes out.
fn put(alloc: Global, pool: &mut Pool, block: u32) -> Result<Option<u32>, AllocError> {
    let Ok(bytes) = Bytes::from_vec(Vec::new(alloc)) else {
        return Err(AllocError);
    };
    let out = pool.put(0, block, bytes)?;
    Ok(out.map(|out| out.block))
}

#[test]
fn the_block_that_waited_longest_leaves_a_full_pool(rt: HostRuntime) -> Result<(), Fail> {
    let alloc = rt.alloc();
    let mut pool = Pool::new(alloc, 2)?;
    for (block, out) in PUTS {
        let is_right = put(alloc, &mut pool, block)? == out;
        assert!(rt; is_right);
    }
    Ok(())
}
