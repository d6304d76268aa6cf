//! The files of a folder, and how they are opened.
ghost use Rattle.std.specs.Prelude.{◌≡◌, false, true};
ghost use Rattle.std.specs.Fs.{new_options, with_create, with_read, with_write};

use crate::fault::{Cause, HostFault, Part, at, fault_of, lock_fault};
use std::alloc::{AllocError, Global};
use std::fs::{File, Files, Metadata, OpenFile, OpenOptions};
use std::path::{Path, PathBuf};
use std::{fs, io};

/// The file of records.
pub const LOG: &str = "log";

/// The file of the files' bytes.
pub const DATA: &str = "data";

/// The empty file that marks a folder as a store's.
pub const MARK: &str = "passd.store";

/// Refuses what is no folder.
pub fn require_folder<R: Files>(rt: &R, folder: &str) -> Result<(), HostFault> {
    if at(Part::Folder, fs::metadata(rt, folder))?.is_dir() {
        return Ok(());
    }
    Err(HostFault::Failed {
        part: Part::Folder,
        cause: Cause::NotFolder,
    })
}

/// The path of a file of the folder.
pub fn path_in(alloc: Global, folder: &str, name: &str) -> Result<PathBuf, AllocError> {
    Path::new(folder).join(alloc, name)
}

/// What the system tells of a file of the folder; none where it is missing. It has to be a file.
pub fn told_of<R: Files>(
    rt: &R,
    part: Part,
    path: Path<'_>,
) -> Result<Option<Metadata>, HostFault> {
    let told = match fs::metadata(rt, path) {
        Ok(told) => told,
        Err(error) if error.kind() == io::ErrorKind::NotFound => return Ok(None),
        Err(error) => return Err(fault_of(part, &error)),
    };
    if told.is_file() {
        return Ok(Some(told));
    }
    Err(HostFault::Failed {
        part,
        cause: Cause::NotFile,
    })
}

// How a file is opened to be read, or also to be written; then it is made where it is missing.
fn options(may_write: bool) -> OpenOptions
    ensures read { may_write ≡ false → result ≡ with_read new_options true }
    ensures write { may_write ≡ true → result ≡ with_create (with_write (with_read new_options true) true) true }
{
    let mut options = OpenOptions::new();
    options.read(true).write(may_write).create(may_write);
    options
}

/// Opens a file to be read and written, and makes it where it is missing.
pub fn open_to_write<R: Files>(
    rt: &R,
    alloc: Global,
    folder: &str,
    part: Part,
    name: &str,
) -> Result<R::File, HostFault> {
    let path = path_in(alloc, folder, name)?;
    let _told = told_of(rt, part, path.as_path())?;
    at(part, options(true).open(rt, path.as_path()))
}

/// Opens a file to be read; none where it is missing.
pub fn open_to_read<R: Files>(
    rt: &R,
    alloc: Global,
    folder: &str,
    part: Part,
    name: &str,
) -> Result<Option<R::File>, HostFault> {
    let path = path_in(alloc, folder, name)?;
    let told = told_of(rt, part, path.as_path())?;
    if told.is_none() {
        return Ok(None);
    }
    let file = at(part, options(false).open(rt, path.as_path()))?;
    Ok(Some(file))
}

/// Locks a file for one holder alone.
pub fn lock(file: &File) -> Result<(), HostFault> {
    match file.try_lock() {
        Ok(()) => Ok(()),
        Err(error) => Err(lock_fault(error)),
    }
}

/// Locks a file beside others who read it.
pub fn lock_shared(file: &File) -> Result<(), HostFault> {
    match file.try_lock_shared() {
        Ok(()) => Ok(()),
        Err(error) => Err(lock_fault(error)),
    }
}

/// Makes the names of the folder's files durable.
pub fn sync_folder<R: Files>(rt: &R, folder: &str) -> Result<(), HostFault> {
    let folder = at(Part::Folder, File::open(rt, folder))?;
    at(Part::Folder, folder.sync_all())
}

/// Whether the folder is marked as a store's.
pub fn is_marked<R: Files>(rt: &R, alloc: Global, folder: &str) -> Result<bool, HostFault> {
    let path = path_in(alloc, folder, MARK)?;
    let told = told_of(rt, Part::Mark, path.as_path())?;
    Ok(told.is_some())
}

/// Marks the folder as a store's.
pub fn set_mark<R: Files>(rt: &R, alloc: Global, folder: &str) -> Result<(), HostFault> {
    let path = path_in(alloc, folder, MARK)?;
    let _made = at(Part::Mark, File::create_new(rt, path.as_path()))?;
    sync_folder(rt, folder)
}
