//! The bytes of files, read from the store area.
ghost use Rattle.std.specs.Prelude.{◌≡◌, ◌⊎◌, ◌*◌, ◌<◌, ◌≤◌, ◌++◌, ◌∷◌, [], ℕ, IsTrue, IsErr, IsErrOf, OnOk, IfOk, Err, length, bytes_eq};
ghost use Rattle.std.specs.List.{All};
ghost use Rattle.md5.specs.Md5.{md5};
ghost use Rattle.pass_entry.specs.Ranges.{IsInRange};
ghost use Rattle.pass_graph.specs.Logged.{Summarizes};
ghost use Rattle.pass_outside.specs.Areas.{Image};
ghost use Rattle.pass_outside.specs.Moments.{IsAtEnd, Adds};
ghost use Rattle.pass_plain.specs.Records.{range_len};
ghost use Rattle.pass_plain.specs.WellLogged.{IsWellLogged};
ghost use Rattle.pass_range.specs.Places.{place, found_there};
ghost use Rattle.pass_range.specs.Rows.{range};
ghost use Rattle.pass_range.specs.Tables.{IsTableOf};
ghost use Rattle.pass_recover.specs.Fills.{AreFilled, AreRead, other_ranges};

use crate::OpenFault;
use crate::blank::blank_files;
use md5::{Digest, Md5};
use pass_entry::Record;
use pass_graph::Logged;
use pass_outside::{Disk, Failed};
use pass_plain::StartFile;
use pass_range::{Range, Table, range_len, read_range};
use std::alloc::Global;

/// The files of a list with their bytes, and the ranges of its table that have another digest.
#[derive(Drop)]
pub struct Filled {
    pub files: Vec<StartFile>,
    pub unmatched: Vec<Range>,
}

// Reads the range of a block into a file's bytes, and tells whether it has the digest.
fn read_block<D: Disk>(
    disk: &mut D,
    number: u32,
    block: u32,
    digest: &[u8; 16],
    bytes: &mut [u8],
) -> Result<bool, Failed>
    requires { block * 4096 < length bytes.old }
    ensures given { IfOk result (λ _. IsTrue (D.view disk.old).tells → range block bytes.new ≡ found_there (place number block) (range_len (length bytes.old) block) (D.view disk.old).seen.store) }
    ensures matched { IfOk result (λ matched. matched ≡ bytes_eq (md5 (range block bytes.new)) digest.now) }
    ensures others { OnOk result ((other : ℕ) → (other ≡ block → ⊥) → range other bytes.new ≡ range other bytes.old) }
    ensures failed { IsErr result → ((D.view disk.old).faults < (D.view disk.new).faults) ⊎ IsAtEnd (D.view disk.new) }
    ensures tells { (D.view disk.new).tells ≡ (D.view disk.old).tells }
    ensures rises { (D.view disk.old).faults ≤ (D.view disk.new).faults }
    ensures went { OnOk result ((D.view disk.new).faults ≡ (D.view disk.old).faults) }
    ensures content { (D.view disk.new).seen ≡ (D.view disk.old).seen }
    ensures crash { (c : Image) → (D.view disk.new).may_leave c → (D.view disk.old).may_leave c }
    ensures run { Adds (D.view disk.old) (D.view disk.new) (D.view disk.old).may_leave }
{
    let begin = block as usize * 4096;
    let end = begin + range_len(bytes.len() as u64, block);
    let into = &mut bytes[begin..end];
    read_range(disk, number, block, &mut *into)?;
    Ok(Md5::digest(&*into) == *digest)
}

// Reads the range of a row into its file, and tells whether it has the row's digest.
fn read_row<D: Disk>(
    disk: &mut D,
    number: u32,
    block: u32,
    digest: &[u8; 16],
    file: &mut StartFile,
) -> Result<bool, OpenFault>
    requires { block * 4096 < length file.old.bytes.items }
    ensures head { OnOk result ((file.new.node ≡ file.old.node) × (file.new.name ≡ file.old.name) × (file.new.size ≡ file.old.size)) }
    ensures rows { OnOk result (file.new.rows.items ≡ file.old.rows.items ++ block ∷ []) }
    ensures len { OnOk result (length file.new.bytes.items ≡ length file.old.bytes.items) }
    ensures given { IfOk result (λ _. IsTrue (D.view disk.old).tells → range block file.new.bytes.items ≡ found_there (place number block) (range_len (length file.old.bytes.items) block) (D.view disk.old).seen.store) }
    ensures matched { IfOk result (λ matched. matched ≡ bytes_eq (md5 (range block file.new.bytes.items)) digest.now) }
    ensures others { OnOk result ((other : ℕ) → (other ≡ block → ⊥) → range other file.new.bytes.items ≡ range other file.old.bytes.items) }
    ensures failed { IsErrOf result OpenFault.DiskFault → ((D.view disk.old).faults < (D.view disk.new).faults) ⊎ IsAtEnd (D.view disk.new) }
    ensures only { IsErr result → (result ≡ Err OpenFault.DiskFault) ⊎ (result ≡ Err OpenFault.NoMemory) }
    ensures tells { (D.view disk.new).tells ≡ (D.view disk.old).tells }
    ensures rises { (D.view disk.old).faults ≤ (D.view disk.new).faults }
    ensures no_fault { (IsErrOf result OpenFault.DiskFault → ⊥) → (D.view disk.new).faults ≡ (D.view disk.old).faults }
    ensures content { (D.view disk.new).seen ≡ (D.view disk.old).seen }
    ensures crash { (c : Image) → (D.view disk.new).may_leave c → (D.view disk.old).may_leave c }
    ensures run { Adds (D.view disk.old) (D.view disk.new) (D.view disk.old).may_leave }
{
    file.rows.push(block)?;
    Ok(read_block(disk, number, block, digest, &mut file.bytes)?)
}

/// Reads every range of a list's table into the files of the list, by one device call each.
pub fn read_files<D: Disk>(
    alloc: Global,
    list: &[Record],
    logged: &Logged,
    table: &Table,
    disk: &mut D,
) -> Result<Filled, OpenFault>
    requires logged { IsWellLogged list.now }
    requires says { Summarizes logged.now list.now }
    requires in_range { All IsInRange list.now }
    requires table { IsTableOf list.now table.now }
    ensures files { IfOk result (λ f. AreFilled list.now table.now.rows.items f.files.items) }
    ensures bytes { IfOk result (λ f. IsTrue (D.view disk.old).tells → AreRead list.now table.now.rows.items (D.view disk.old).seen.store f.files.items) }
    ensures unmatched { IfOk result (λ f. f.unmatched.items ≡ other_ranges table.now f.files.items table.now.rows.items) }
    ensures failed { IsErrOf result OpenFault.DiskFault → ((D.view disk.old).faults < (D.view disk.new).faults) ⊎ IsAtEnd (D.view disk.new) }
    ensures only { IsErr result → (result ≡ Err OpenFault.DiskFault) ⊎ (result ≡ Err OpenFault.NoMemory) }
    ensures tells { (D.view disk.new).tells ≡ (D.view disk.old).tells }
    ensures rises { (D.view disk.old).faults ≤ (D.view disk.new).faults }
    ensures no_fault { (IsErrOf result OpenFault.DiskFault → ⊥) → (D.view disk.new).faults ≡ (D.view disk.old).faults }
    ensures content { (D.view disk.new).seen ≡ (D.view disk.old).seen }
    ensures crash { (c : Image) → (D.view disk.new).may_leave c → (D.view disk.old).may_leave c }
    ensures run { Adds (D.view disk.old) (D.view disk.new) (D.view disk.old).may_leave }
{
    let mut files = blank_files(alloc, list, logged, table)?;
    let mut unmatched = Vec::new(alloc);
    for (range, digest) in &table.rows {
        let Some(place) = table.file(range.pnode) else {
            continue;
        };
        let file = &mut files[place.number as usize];
        if !read_row(disk, place.number, range.block, digest, file)? {
            unmatched.push(*range)?;
        }
    }
    Ok(Filled { files, unmatched })
}
