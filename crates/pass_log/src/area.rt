//! Reading the log area of a disk.
ghost use Rattle.std.specs.Prelude.{◌≡◌, ◌⊎◌, ◌<◌, ◌≤◌, ◌^◌, ℕ, length, IsTrue, IfOk, IfErr, IsErrOf, vec_len};
ghost use Rattle.std.specs.List.{All};
ghost use Rattle.pass_entry.specs.Ranges.{IsInRange};
ghost use Rattle.pass_outside.specs.Areas.{Image};
ghost use Rattle.pass_outside.specs.Moments.{IsAtEnd, Adds, IsDeviceWork};
ghost use Rattle.pass_log.specs.LogImage.{IsRead, IsFaultRead, IsUnread};

use crate::image::parse;
use crate::{LogFault, LogImage};
use pass_outside::{Area, Disk};
use std::alloc::{AllocError, Global};

// The greatest length of a log area, in bytes.
const LONGEST: u64 = 1 << 39;

// How many bytes one device call reads.
const PIECE: usize = 65_536;

/// Reads what the log area tells. Memory is taken only for what was read, and for one piece more.
pub fn read_image<D: Disk>(alloc: Global, disk: &mut D) -> Result<LogImage, LogFault>
    ensures image { IfOk result (λ image. IsRead (D.view disk.old) image) }
    ensures open_next { IfOk result (λ image. IsRead (D.view disk.new) image) }
    ensures end { IfOk result (λ image. image.end ≤ 2 ^ 39) }
    // Each record is within the ranges of the format.
    ensures in_range { IfOk result (λ image. All IsInRange image.list.items) }
    // Which fault it is: that of the disk where a call failed, else that of the bytes, or want of memory.
    ensures fault { IfErr result (λ e. (e ≡ LogFault.DiskFault) ⊎ IsFaultRead (D.view disk.old) e) }
    ensures work { IsDeviceWork (D.view disk.old) (D.view disk.new) (IsErrOf result LogFault.DiskFault) }
    ensures content { (D.view disk.new).seen ≡ (D.view disk.old).seen }
    ensures crash { (c : Image) → (D.view disk.new).may_leave c → (D.view disk.old).may_leave c }
    ensures run { Adds (D.view disk.old) (D.view disk.new) (D.view disk.old).may_leave }
    ensures stands { IsAtEnd (D.view disk.old) → disk.new ≡ disk.old }
{
    let bytes = read_bytes(alloc, disk)?;
    parse(alloc, &bytes)
}

/// The bytes of the log area. Memory is taken only for what was read, and for one piece more.
pub fn read_bytes<D: Disk>(alloc: Global, disk: &mut D) -> Result<Vec<u8>, LogFault>
    ensures bytes { IfOk result (λ v. IsTrue (D.view disk.old).tells → v.items ≡ (D.view disk.old).seen.log) }
    ensures length { IfOk result (λ v. length v.items ≤ 2 ^ 39) }
    ensures fault { IfErr result (IsUnread (D.view disk.old)) }
    ensures work { IsDeviceWork (D.view disk.old) (D.view disk.new) (IsErrOf result LogFault.DiskFault) }
    ensures content { (D.view disk.new).seen ≡ (D.view disk.old).seen }
    ensures crash { (c : Image) → (D.view disk.new).may_leave c → (D.view disk.old).may_leave c }
    ensures run { Adds (D.view disk.old) (D.view disk.new) (D.view disk.old).may_leave }
    ensures stands { IsAtEnd (D.view disk.old) → disk.new ≡ disk.old }
{
    let size = disk.len(Area::Log)?;
    if size > LONGEST {
        return Err(LogFault::BadFrame { at: LONGEST });
    }
    read_area(alloc, disk, size as usize)
}

// A buffer of that many bytes.
fn buffer(alloc: Global, size: usize) -> Result<Vec<u8>, AllocError>
    ensures { IfOk result (λ v. length v.items ≡ size) }
{
    vec![in alloc; 0; size]
}

// The bytes of the log area, which has that length.
fn read_area<D: Disk>(alloc: Global, disk: &mut D, size: usize) -> Result<Vec<u8>, LogFault>
    requires { size ≤ 2 ^ 39 }
    ensures bytes { IfOk result (λ v. IsTrue (D.view disk.old).tells → size ≡ length (D.view disk.old).seen.log → v.items ≡ (D.view disk.old).seen.log) }
    ensures length { IfOk result (λ v. length v.items ≤ size) }
    ensures fault { IfErr result (λ e. (e ≡ LogFault.DiskFault) ⊎ (e ≡ LogFault.NoMemory)) }
    ensures work { IsDeviceWork (D.view disk.old) (D.view disk.new) (IsErrOf result LogFault.DiskFault) }
    ensures content { (D.view disk.new).seen ≡ (D.view disk.old).seen }
    ensures crash { (c : Image) → (D.view disk.new).may_leave c → (D.view disk.old).may_leave c }
    ensures run { Adds (D.view disk.old) (D.view disk.new) (D.view disk.old).may_leave }
    ensures stands { IsAtEnd (D.view disk.old) → disk.new ≡ disk.old }
{
    let mut bytes = Vec::new(alloc);
    let mut piece = buffer(alloc, PIECE)?;
    'pieces: while bytes.len() < size {
        let count = disk.read(Area::Log, bytes.len() as u64, &mut piece)?;
        if count == 0 {
            return Ok(bytes);
        }
        bytes.extend_from_slice(&piece[..count])?;
    }
    bytes.truncate(size);
    Ok(bytes)
}
