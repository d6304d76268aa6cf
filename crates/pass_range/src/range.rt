//! Blocks of files: their digests, and their bytes on the store area.
ghost use Rattle.std.specs.Prelude.{◌≡◌, ◌⊎◌, IsErr, bytes_eq, ◌+◌, ◌-◌, ◌*◌, ◌<◌, ◌≤◌, ◌^◌, IsTrue, OnOk, IfOk, map, length};
ghost use Rattle.std.specs.List.{All};
ghost use Rattle.md5.specs.Md5.{md5};
ghost use Rattle.pass_outside.specs.Areas.{Image, written, Torn, OnArea};
ghost use Rattle.pass_outside.specs.declared.disk.Area.TheVariants as areas;
ghost use Rattle.pass_outside.specs.Moments.{IsAtEnd, IsDeviceCall, Adds, Follows, Reaches};
ghost use Rattle.pass_plain.specs.Records.{block_size, range_len};
ghost use Rattle.pass_range.specs.Places.{place, found_there};
ghost use Rattle.pass_range.specs.Rows.{range};

use md5::{Digest, Md5};
use pass_entry::{BLOCK_COUNT, BLOCK_SIZE, Pnode};
use pass_outside::{Area, Disk, Failed};
use pass_plain::bytes_in;
use std::alloc::{AllocError, Global};

/// A block of a file. Its range is what of the file's bytes lies in it.
#[derive(Clone, Copy, PartialEq, Eq, PartialOrd, Ord)]
pub struct Range {
    pub pnode: Pnode,
    pub block: u32,
}

/// How many bytes of a file of that size lie in a block.
pub fn range_len(size: u64, block: u32) -> usize
    ensures len { result ≡ range_len size block }
    ensures most { result ≤ block_size }
{
    let begin = u64::from(block) * BLOCK_SIZE;
    size.min(begin + BLOCK_SIZE).saturating_sub(begin) as usize
}

/// The digests of these blocks of a file's content, each one that of its range (RFC 1321). No program here makes this call.
pub fn digests_of(
    alloc: Global,
    content: &[u8],
    blocks: &[u32],
) -> Result<Vec<[u8; 16]>, AllocError>
    requires { All (λ block. block * block_size < length content.now) blocks.now }
    ensures { IfOk result (λ v. v.items ≡ map (λ block. md5 (range block content.now)) blocks.now) }
{
    let mut digests = Vec::with_capacity(alloc, blocks.len())?;
    for block in blocks {
        digests.push(Md5::digest(bytes_in(content, *block)))?;
    }
    Ok(digests)
}

// Where a block of the file of that number begins on the store area.
fn place(number: u32, block: u32) -> u64
    ensures { result ≡ place number block }
{
    (u64::from(number) * u64::from(BLOCK_COUNT) + u64::from(block)) * BLOCK_SIZE
}

/// Writes to the range of a block of the file of that number, by one device call.
pub fn write_range<D: Disk>(
    disk: &mut D,
    number: u32,
    block: u32,
    bytes: &[u8],
) -> Result<(), Failed>
    ensures written { OnOk result (IsTrue (D.view disk.old).tells → (D.view disk.new).seen.store ≡ written (D.view disk.old).seen.store (place number block) bytes.now) }
    ensures content { IsTrue (D.view disk.old).tells → OnArea areas.Store (Torn (place number block) (length bytes.now)) (D.view disk.old).seen (D.view disk.new).seen }
    ensures crash { Follows (OnArea areas.Store (Torn (place number block) (length bytes.now))) (D.view disk.old) (D.view disk.new) }
    ensures reaches { OnOk result (IsTrue (D.view disk.old).tells → Reaches (OnArea areas.Store (Torn (place number block) (length bytes.now))) (D.view disk.old) (D.view disk.new)) }
    ensures call { IsDeviceCall (D.view disk.old) (D.view disk.new) result }
    ensures stands { IsAtEnd (D.view disk.old) → disk.new ≡ disk.old }
{
    disk.write_at(Area::Store, place(number, block), bytes)
}

/// Reads what the store area has from the begin of a block of the file of that number on, by one device call. What
/// lies past the area's end is 0.
pub fn read_range<D: Disk>(
    disk: &mut D,
    number: u32,
    block: u32,
    into: &mut [u8],
) -> Result<(), Failed>
    ensures bytes { OnOk result (IsTrue (D.view disk.old).tells → into.new ≡ found_there (place number block) (length into.old) (D.view disk.old).seen.store) }
    ensures content { (D.view disk.new).seen ≡ (D.view disk.old).seen }
    ensures crash { (c : Image) → (D.view disk.new).may_leave c → (D.view disk.old).may_leave c }
    ensures reaches { (c : Image) → (D.view disk.old).may_leave c → (D.view disk.new).may_leave c }
    ensures call { IsDeviceCall (D.view disk.old) (D.view disk.new) result }
    ensures stands { IsAtEnd (D.view disk.old) → disk.new ≡ disk.old }
{
    let count = disk.read(Area::Store, place(number, block), &mut *into)?;
    into[count..].fill(0);
    Ok(())
}

/// The same, and tells whether these bytes have that digest (RFC 1321).
pub fn read_matched<D: Disk>(
    disk: &mut D,
    number: u32,
    block: u32,
    digest: &[u8; 16],
    into: &mut [u8],
) -> Result<bool, Failed>
    ensures bytes { IfOk result (λ _. IsTrue (D.view disk.old).tells → into.new ≡ found_there (place number block) (length into.old) (D.view disk.old).seen.store) }
    ensures matched { IfOk result (λ matched. matched ≡ bytes_eq (md5 into.new) digest.now) }
    ensures failed { IsErr result → ((D.view disk.old).faults < (D.view disk.new).faults) ⊎ IsAtEnd (D.view disk.new) }
    ensures went { OnOk result ((D.view disk.new).faults ≡ (D.view disk.old).faults) }
    ensures tells { (D.view disk.new).tells ≡ (D.view disk.old).tells }
    ensures rises { (D.view disk.old).faults ≤ (D.view disk.new).faults }
    ensures content { (D.view disk.new).seen ≡ (D.view disk.old).seen }
    ensures crash { (c : Image) → (D.view disk.new).may_leave c → (D.view disk.old).may_leave c }
    ensures run { Adds (D.view disk.old) (D.view disk.new) (D.view disk.old).may_leave }
{
    read_range(disk, number, block, &mut *into)?;
    Ok(Md5::digest(&*into) == *digest)
}
