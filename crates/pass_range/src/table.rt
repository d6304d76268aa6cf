//! The range table of a list of records.
ghost use Rattle.std.specs.Prelude.{◌≡◌, ◌+◌, ◌≤◌, ◌==◌, ℕ, IfOk, OnOk, option_map, if◌then◌else◌};
ghost use Rattle.pass_entry.specs.Limits.{kind_limit};
ghost use Rattle.std.specs.Ordering.{nat_cmp};
ghost use Rattle.std.specs.BTreeMap.{get, btree_map_len};
ghost use Rattle.pass_plain.specs.WellLogged.{IsWellLogged};
ghost use Rattle.pass_range.specs.Sources.{touch};
ghost use Rattle.pass_range.specs.Laters.{touch_in};
ghost use Rattle.pass_range.specs.Tables.{file_of, file_look, file_more, with_size};

use crate::Range;
use crate::later::Later;
use pass_entry::{Kind, Pnode, Record};
use std::alloc::{AllocError, Global};
use std::collections::BTreeMap;

/// A file of a table: its number, in the order in which files were made, and its size in bytes.
#[derive(Clone, Copy, PartialEq, Eq)]
pub struct TableFile {
    pub number: u32,
    pub size: u64,
}

/// The digests of the ranges of a store's files.
#[derive(Drop)]
pub struct Table {
    /// By file, and by block in a file.
    pub rows: Vec<(Range, [u8; 16])>,
    files: BTreeMap<Pnode, TableFile>,
}

// The files that a list makes.
fn files_of(alloc: Global, list: &[Record]) -> Result<BTreeMap<Pnode, TableFile>, AllocError>
    requires { IsWellLogged list.now }
    ensures { IfOk result (λ files. (pnode : ℕ) → get nat_cmp files pnode ≡ file_of list.now pnode) }
{
    let mut files = BTreeMap::new(alloc);
    for one in list {
        note_file(&mut files, one)?;
    }
    Ok(files)
}

// Notes the next record of a list.
fn note_file(files: &mut BTreeMap<Pnode, TableFile>, one: &Record) -> Result<(), AllocError>
    requires { btree_map_len files.old ≤ kind_limit }
    ensures files { OnOk result ((q : ℕ) → get nat_cmp files.new q ≡ file_look (btree_map_len files.old) q (get nat_cmp files.old q) one.now) }
    ensures len { OnOk result (btree_map_len files.new ≡ btree_map_len files.old + file_more files.old one.now) }
{
    match one {
        Record::Object {
            pnode,
            kind: Kind::File,
        } => {
            let file = TableFile {
                number: files.len() as u32,
                size: 0,
            };
            files.insert(*pnode, file)?;
        }
        Record::Size { pnode, size } => set_size(files, *pnode, *size),
        _ => {}
    }
    Ok(())
}

// Gives a file its next size.
fn set_size(files: &mut BTreeMap<Pnode, TableFile>, pnode: Pnode, size: u64)
    ensures files { (q : ℕ) → get nat_cmp files.new q ≡ (if pnode == q then option_map (with_size size) (get nat_cmp files.old q) else get nat_cmp files.old q) }
    ensures len { btree_map_len files.new ≡ btree_map_len files.old }
{
    if let Some(file) = files.get_mut(&pnode) {
        file.size = size;
    }
}

/// What a list does to the rows, in time proportional to it.
pub fn later_of(alloc: Global, list: &[Record]) -> Result<Later, AllocError>
    ensures { IfOk result (λ later. (pnode block : ℕ) → touch_in later pnode block ≡ touch pnode block list.now) }
{
    let mut later = Later::new(alloc);
    for one in list.iter().rev() {
        later.note(one)?;
    }
    Ok(later)
}

impl Table {
    ghost use Rattle.pass_range.specs.Tables.{IsTableOf, file_in};

    /// The table of a list.
    pub fn of(alloc: Global, list: &[Record]) -> Result<Table, AllocError>
        requires { IsWellLogged list.now }
        ensures { IfOk result (IsTableOf list.now) }
    {
        let files = files_of(alloc, list)?;
        let later = later_of(alloc, list)?;
        let rows = later.into_rows(alloc)?;
        Ok(Table { rows, files })
    }

    /// What the table has of a file; None where the list made no file of that number.
    pub fn file(&self, pnode: Pnode) -> Option<TableFile>
        ensures { result ≡ file_in self.now pnode }
    {
        self.files.get(&pnode).copied()
    }
}
