//! Copies of files that no store wrote.
use crate::fault::{Cause, HostFault, Part, at, fault_of};
use crate::folder::{DATA, LOG, path_in, sync_folder, told_of};
use std::alloc::Global;
use std::fmt::{Display, Formatter};
use std::fs::{File, Files, OpenFile};
use std::path::{Path, PathBuf};
use std::{fmt, fs, io};

/// How many copies a folder may have.
const MOST_COPIES: u32 = 1_000;

/// The copies that were made as a folder was opened: `log.found` of `log`, `data.found` of `data`, or these names with a number behind.
#[derive(Clone, Copy, PartialEq, Eq)]
pub struct Copies {
    has_log: bool,
    has_data: bool,
    behind: Behind,
}

impl Display for Copies {
    fn fmt<W: fmt::Write>(&self, f: &mut Formatter<W>) -> fmt::Result {
        let behind = self.behind;
        match (self.has_log, self.has_data) {
            (true, true) => write!(
                f,
                "its `log` and `data` were no store's: they are copied to `log.found{behind}` and `data.found{behind}`"
            ),
            (true, false) => {
                write!(
                    f,
                    "its `log` was no store's: it is copied to `log.found{behind}`"
                )
            }
            (false, _) => {
                write!(
                    f,
                    "its `data` was no store's: it is copied to `data.found{behind}`"
                )
            }
        }
    }
}

/// What stands behind the name of a copy: nothing for the first, and else a point and its number.
#[derive(Clone, Copy, PartialEq, Eq)]
struct Behind {
    number: u32,
}

impl Display for Behind {
    fn fmt<W: fmt::Write>(&self, f: &mut Formatter<W>) -> fmt::Result {
        if self.number == 1 {
            return Ok(());
        }
        let number = self.number;
        write!(f, ".{number}")
    }
}

/// Copies aside, under names that are free, what the folder has of both files, and syncs the copies.
pub fn copy_aside<R: Files>(
    rt: &R,
    alloc: Global,
    folder: &str,
) -> Result<Option<Copies>, HostFault> {
    let has_log = has_bytes(rt, alloc, folder, Part::Log, LOG)?;
    let has_data = has_bytes(rt, alloc, folder, Part::Data, DATA)?;
    if !has_log && !has_data {
        return Ok(None);
    }
    let behind = first_free(rt, alloc, folder)?;
    if has_log {
        copy_file(rt, alloc, folder, LOG, behind)?;
    }
    if has_data {
        copy_file(rt, alloc, folder, DATA, behind)?;
    }
    sync_folder(rt, folder)?;
    Ok(Some(Copies {
        has_log,
        has_data,
        behind,
    }))
}

fn has_bytes<R: Files>(
    rt: &R,
    alloc: Global,
    folder: &str,
    part: Part,
    name: &str,
) -> Result<bool, HostFault> {
    let path = path_in(alloc, folder, name)?;
    match told_of(rt, part, path.as_path())? {
        Some(told) => Ok(told.len() > 0),
        None => Ok(false),
    }
}

// The path of a copy.
fn path_of_copy(
    alloc: Global,
    folder: &str,
    name: &str,
    behind: Behind,
) -> Result<PathBuf, HostFault> {
    let copy = format!(in alloc; "{name}.found{behind}")?;
    Ok(path_in(alloc, folder, copy.as_str())?)
}

// Whether nothing has this name.
fn is_free<R: Files>(rt: &R, path: Path<'_>) -> Result<bool, HostFault> {
    match fs::symlink_metadata(rt, path) {
        Ok(_) => Ok(false),
        Err(error) if error.kind() == io::ErrorKind::NotFound => Ok(true),
        Err(error) => Err(fault_of(Part::Copy, &error)),
    }
}

// Whether neither file has a copy with this behind its name.
fn is_free_behind<R: Files>(
    rt: &R,
    alloc: Global,
    folder: &str,
    behind: Behind,
) -> Result<bool, HostFault> {
    let log = path_of_copy(alloc, folder, LOG, behind)?;
    if !is_free(rt, log.as_path())? {
        return Ok(false);
    }
    let data = path_of_copy(alloc, folder, DATA, behind)?;
    is_free(rt, data.as_path())
}

// What stands behind the names of the first copies that aren't there yet.
fn first_free<R: Files>(rt: &R, alloc: Global, folder: &str) -> Result<Behind, HostFault> {
    for number in 1..MOST_COPIES {
        let behind = Behind { number };
        if is_free_behind(rt, alloc, folder, behind)? {
            return Ok(behind);
        }
    }
    Err(HostFault::Failed {
        part: Part::Copy,
        cause: Cause::Full,
    })
}

// Copies a file under a name that is free. A copy that fails is taken away.
fn copy_file<R: Files>(
    rt: &R,
    alloc: Global,
    folder: &str,
    name: &str,
    behind: Behind,
) -> Result<(), HostFault> {
    let from = path_in(alloc, folder, name)?;
    let to = path_of_copy(alloc, folder, name, behind)?;
    let copy = at(Part::Copy, File::create_new(rt, to.as_path()))?;
    let done = copy_to(rt, from.as_path(), to.as_path(), &copy);
    if done.is_err() {
        let _gone = fs::remove_file(rt, to.as_path());
    }
    at(Part::Copy, done)
}

fn copy_to<R: Files>(rt: &R, from: Path<'_>, to: Path<'_>, copy: &R::File) -> io::Result<()> {
    let _count = fs::copy(rt, from, to)?;
    copy.sync_all()
}
