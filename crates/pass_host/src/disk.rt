//! A disk of two files in a folder.
ghost use Rattle.std.specs.Prelude.{◌≡◌, ◌≤◌, IfOk, IsErr, false, length, true};
ghost use Rattle.pass_host.specs.Host.{host_disk, may_write};

use crate::aside::copy_aside;
use crate::counts::Counts;
use crate::fault::{HostFault, Part, fault_of};
use crate::folder::{
    DATA, LOG, is_marked, lock, lock_shared, open_to_read, open_to_write, require_folder, set_mark,
    sync_folder,
};
use crate::front::{FRONT_LENGTH, Found, found_at};
use crate::note::{Note, note_of};
use pass_outside::{Area, Disk, Failed};
use std::alloc::Global;
use std::fs::{File, Files, OpenFile};
use std::io;
use std::os::unix::fs::FileExt;

/// The files `log` and `data` of a folder. What stands in them is the system's, and no contract speaks of it. A file that is
/// missing has no bytes; only a disk that may be written makes it.
#[derive(Drop)]
pub struct HostDisk<F> {
    log: Option<F>,
    data: Option<F>,
    may_write: bool,
    note: Option<Note>,
    counts: Counts,
}

impl HostDisk<File> {
    ghost use Rattle.pass_host.specs.Host.{host_disk, may_write};

    /// Opens the files of a folder that is there, for this holder alone: it fails where anyone else has the folder open.
    /// A file that is missing is made, and the folder is marked as a store's. What no store wrote is copied aside before that, and
    /// the copies are on the disk. The folder is free again once the disk is dropped or the program ends.
    pub fn open<R: Files<File = File>>(
        rt: &R,
        alloc: Global,
        folder: &str,
    ) -> Result<HostDisk<File>, HostFault>
        ensures calls { IfOk result (λ d. (host_disk d).calls ≡ 0) }
        ensures faults { IfOk result (λ d. (host_disk d).faults ≡ 0) }
        ensures writes { IfOk result (λ d. may_write d ≡ true) }
    {
        require_folder(rt, folder)?;
        let log = open_to_write(rt, alloc, folder, Part::Log, LOG)?;
        lock(&log)?;
        let marked = is_marked(rt, alloc, folder)?;
        let found = found_in(&log, marked)?;
        let note = claim(rt, alloc, folder, found, marked)?;
        let data = open_to_write(rt, alloc, folder, Part::Data, DATA)?;
        sync_folder(rt, folder)?;
        Ok(HostDisk {
            log: Some(log),
            data: Some(data),
            may_write: true,
            note,
            counts: Counts::new(),
        })
    }

    /// The same for a holder that only reads, beside others that do: it fails where one has the folder open alone. It makes no file,
    /// and nothing can be written by it.
    pub fn open_to_read<R: Files<File = File>>(
        rt: &R,
        alloc: Global,
        folder: &str,
    ) -> Result<HostDisk<File>, HostFault>
        ensures calls { IfOk result (λ d. (host_disk d).calls ≡ 0) }
        ensures faults { IfOk result (λ d. (host_disk d).faults ≡ 0) }
        ensures reads { IfOk result (λ d. may_write d ≡ false) }
    {
        require_folder(rt, folder)?;
        let log = open_to_read(rt, alloc, folder, Part::Log, LOG)?;
        let found = match &log {
            Some(log) => found_beside(rt, alloc, folder, log)?,
            None => Found::Nothing,
        };
        let data = open_to_read(rt, alloc, folder, Part::Data, DATA)?;
        Ok(HostDisk {
            log,
            data,
            may_write: false,
            note: note_of(found),
            counts: Counts::new(),
        })
    }
}

// Locks the log beside others who read it, and says what the folder has.
fn found_beside<R: Files<File = File>>(
    rt: &R,
    alloc: Global,
    folder: &str,
    log: &File,
) -> Result<Found, HostFault> {
    lock_shared(log)?;
    let marked = is_marked(rt, alloc, folder)?;
    found_in(log, marked)
}

// What the folder of a log has.
fn found_in<F: FileExt>(log: &F, marked: bool) -> Result<Found, HostFault> {
    let mut front = [0u8; FRONT_LENGTH];
    match read_from(log, 0, &mut front) {
        Ok(count) => Ok(found_at(marked, &front[..count])),
        Err(error) => Err(fault_of(Part::Log, &error)),
    }
}

// Makes the folder a store's, before anything of it is written. What isn't a store's is copied aside. The mark of a log that is
// known without it may fail to be made, where nobody may make a file.
fn claim<R: Files>(
    rt: &R,
    alloc: Global,
    folder: &str,
    found: Found,
    marked: bool,
) -> Result<Option<Note>, HostFault> {
    if found == Found::Store {
        if !marked {
            let _made = set_mark(rt, alloc, folder);
        }
        return Ok(None);
    }
    let copies = copy_aside(rt, alloc, folder)?;
    if !marked {
        set_mark(rt, alloc, folder)?;
    }
    match copies {
        Some(copies) => Ok(Some(Note::Copied(copies))),
        None => Ok(None),
    }
}

impl<F: FileExt + OpenFile + Drop> HostDisk<F> {
    ghost use Rattle.std.specs.Prelude.{◌≡◌, ◌≤◌, IfOk, IsErr, false, length};
    ghost use Rattle.pass_host.specs.Host.{may_write, note_in};

    /// What its user should know of the folder.
    pub fn note(&self) -> Option<Note>
        ensures { result ≡ note_in self.now }
    {
        self.note
    }

    fn file(&self, area: Area) -> &Option<F> {
        match area {
            Area::Log => &self.log,
            Area::Store => &self.data,
        }
    }

    // A file that is missing has no bytes.
    fn length_of(&self, area: Area) -> io::Result<u64> {
        match self.file(area) {
            Some(file) => Ok(file.metadata()?.len()),
            None => Ok(0),
        }
    }

    fn read_of(&self, area: Area, at: u64, into: &mut [u8]) -> io::Result<usize>
        ensures { IfOk result (λ n. n ≤ length into.old) }
    {
        match self.file(area) {
            Some(file) => read_from(file, at, into),
            None => Ok(0),
        }
    }

    // Nothing is written where nothing may be.
    fn write_of(&self, area: Area, at: u64, bytes: &[u8]) -> io::Result<()>
        ensures { may_write self.now ≡ false → IsErr result }
    {
        if !self.may_write {
            return Err(unwritable());
        }
        match self.file(area) {
            Some(file) => write_to(file, at, bytes),
            None => Err(unwritable()),
        }
    }

    fn cut_of(&self, area: Area, len: u64) -> io::Result<()>
        ensures { may_write self.now ≡ false → IsErr result }
    {
        if !self.may_write {
            return Err(unwritable());
        }
        match self.file(area) {
            Some(file) => cut_to(file, len),
            None => Err(unwritable()),
        }
    }

    // Where nothing can be written, as on a medium that is only read, there is nothing to be synced either.
    fn sync_of(&self, area: Area) -> io::Result<()> {
        let Some(file) = self.file(area) else {
            return Ok(());
        };
        match file.sync_all() {
            Ok(()) => Ok(()),
            Err(error) if !self.may_write && is_fixed(&error) => Ok(()),
            Err(error) => Err(error),
        }
    }
}

fn unwritable() -> io::Error {
    io::Error::from(io::ErrorKind::ReadOnlyFilesystem)
}

// Whether a file system refuses to sync because it can't be written.
fn is_fixed(error: &io::Error) -> bool {
    matches!(
        error.kind(),
        io::ErrorKind::ReadOnlyFilesystem | io::ErrorKind::InvalidInput
    )
}

// Fills the front of a slice with the bytes from a place on, until it is full or the file ends.
fn read_from<F: FileExt>(file: &F, at: u64, into: &mut [u8]) -> io::Result<usize>
    ensures { IfOk result (λ n. n ≤ length into.old) }
{
    let mut count = 0;
    for _ in 0..u64::MAX {
        if count == into.len() {
            break;
        }
        let place = at.saturating_add(count as u64);
        match file.read_at(&mut into[count..], place) {
            Ok(0) => return Ok(count),
            Ok(more) => count += more,
            Err(error) if error.kind() == io::ErrorKind::Interrupted => {}
            Err(error) => return Err(error),
        }
    }
    Ok(count)
}

// Writes all of the bytes at a place. Where there are none, the file is at least as long as the place.
fn write_to<F: FileExt + OpenFile>(file: &F, at: u64, bytes: &[u8]) -> io::Result<()> {
    if !bytes.is_empty() {
        return file.write_all_at(bytes, at);
    }
    if file.metadata()?.len() < at {
        file.set_len(at)?;
    }
    Ok(())
}

// Cuts a file to a length, where it is longer.
fn cut_to<F: OpenFile>(file: &F, len: u64) -> io::Result<()> {
    if file.metadata()?.len() > len {
        file.set_len(len)?;
    }
    Ok(())
}

impl<F: FileExt + OpenFile + Drop> Disk for HostDisk<F> {
    ghost use Rattle.pass_host.specs.Host.{host_disk};

    ghost view = { host_disk };

    ghost reads_one = { λ d tells. absurd (Prim.cc tells) };

    ghost counts_more = { λ d t u c le left. left };

    ghost counts_now = { λ d t c le now. now };

    fn len(&mut self, area: Area) -> Result<u64, Failed> {
        self.counts.begin()?;
        let done = self.length_of(area);
        self.counts.judge(done)
    }

    fn read(&mut self, area: Area, at: u64, into: &mut [u8]) -> Result<usize, Failed> {
        self.counts.begin()?;
        let done = self.read_of(area, at, into);
        self.counts.judge(done)
    }

    fn write_at(&mut self, area: Area, at: u64, bytes: &[u8]) -> Result<(), Failed> {
        self.counts.begin()?;
        let done = self.write_of(area, at, bytes);
        self.counts.judge(done)
    }

    fn cut(&mut self, area: Area, len: u64) -> Result<(), Failed> {
        self.counts.begin()?;
        let done = self.cut_of(area, len);
        self.counts.judge(done)
    }

    fn sync(&mut self, area: Area) -> Result<(), Failed> {
        self.counts.begin()?;
        let done = self.sync_of(area);
        self.counts.judge(done)
    }

    fn calls(&self) -> u64 {
        self.counts.calls
    }

    fn faults(&self) -> u64 {
        self.counts.faults
    }
}
