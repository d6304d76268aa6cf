//! Which ranges of a table the store area doesn't match.
ghost use Rattle.std.specs.Prelude.{◌≡◌, ◌⊎◌, ◌<◌, ◌≤◌, ℕ, List, IsTrue, OnOk, IfOk, IsErr, IsErrOf, length};
ghost use Rattle.pass_entry.specs.Limits.{block_size};
ghost use Rattle.pass_entry.specs.declared.record.Record.{Record};
ghost use Rattle.pass_outside.specs.Areas.{Image};
ghost use Rattle.pass_outside.specs.Moments.{IsAtEnd, Adds};
ghost use Rattle.pass_range.specs.Tables.{IsTableOf, AreUnmatched, is_matched, unmatched_in};

use crate::{Range, RangeFault, Table, range_len, read_matched};
use pass_entry::BLOCK_SIZE;
use pass_outside::{Disk, Failed};
use std::alloc::{AllocError, Global};

/// Lists the ranges of the table of which the store area has bytes with another digest than their row's, in ascending
/// order. Bytes past the area's end are 0.
pub fn unmatched<D: Disk>(
    alloc: Global,
    table: &Table,
    disk: &mut D,
) -> Result<Vec<Range>, RangeFault>
    ensures found { IfOk result (λ found. IsTrue (D.view disk.old).tells → found.items ≡ unmatched_in table.now (D.view disk.old).seen.store) }
    ensures exactly { IfOk result (λ found. IsTrue (D.view disk.old).tells → (list : List Record) → IsTableOf list table.now → AreUnmatched list (D.view disk.old).seen.store found.items) }
    ensures failed { IsErrOf result RangeFault.DiskFault → ((D.view disk.old).faults < (D.view disk.new).faults) ⊎ IsAtEnd (D.view disk.new) }
    ensures went { OnOk result ((D.view disk.new).faults ≡ (D.view disk.old).faults) }
    ensures tells { (D.view disk.new).tells ≡ (D.view disk.old).tells }
    ensures rises { (D.view disk.old).faults ≤ (D.view disk.new).faults }
    ensures content { (D.view disk.new).seen ≡ (D.view disk.old).seen }
    ensures crash { (c : Image) → (D.view disk.new).may_leave c → (D.view disk.old).may_leave c }
    ensures run { Adds (D.view disk.old) (D.view disk.new) (D.view disk.old).may_leave }
{
    let mut found = Vec::new(alloc);
    let mut buffer = block_buffer(alloc)?;
    for (range, digest) in &table.rows {
        if !is_matched(table, *range, digest, &mut buffer, disk)? {
            found.push(*range)?;
        }
    }
    Ok(found)
}

// Room for the bytes of a block.
fn block_buffer(alloc: Global) -> Result<Vec<u8>, AllocError>
    ensures { IfOk result (λ v. length v.items ≡ block_size) }
{
    let mut bytes = Vec::new(alloc);
    bytes.resize(BLOCK_SIZE as usize, 0)?;
    Ok(bytes)
}

// Whether the store area has bytes with this digest in a range.
fn is_matched<D: Disk>(
    table: &Table,
    range: Range,
    digest: &[u8; 16],
    buffer: &mut [u8],
    disk: &mut D,
) -> Result<bool, Failed>
    requires { block_size ≤ length buffer.old }
    ensures exactly { IfOk result (λ b. IsTrue (D.view disk.old).tells → b ≡ is_matched table.now (D.view disk.old).seen.store (range, digest.now)) }
    ensures failed { IsErr result → ((D.view disk.old).faults < (D.view disk.new).faults) ⊎ IsAtEnd (D.view disk.new) }
    ensures went { OnOk result ((D.view disk.new).faults ≡ (D.view disk.old).faults) }
    ensures tells { (D.view disk.new).tells ≡ (D.view disk.old).tells }
    ensures rises { (D.view disk.old).faults ≤ (D.view disk.new).faults }
    ensures content { (D.view disk.new).seen ≡ (D.view disk.old).seen }
    ensures crash { (c : Image) → (D.view disk.new).may_leave c → (D.view disk.old).may_leave c }
    ensures run { Adds (D.view disk.old) (D.view disk.new) (D.view disk.old).may_leave }
{
    let Some(file) = table.file(range.pnode) else {
        return Ok(true);
    };
    let into = &mut buffer[..range_len(file.size, range.block)];
    read_matched(disk, file.number, range.block, digest, into)
}
