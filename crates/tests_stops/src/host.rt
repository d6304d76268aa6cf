//! The adapters over a real folder, and over readers and writers that fail.
use pass_host::{Cause, HostDisk, HostFault, HostSink, HostSource, Part};
use pass_outside::{Area, Disk, Sink, Source};
use std::alloc::Global;
use std::io::{ErrorKind, Read, Write};
use std::path::PathBuf;
use std::test::Fail;
use std::{env, fs, io, process};

// A new folder of that name, for this process alone.
fn new_folder(rt: &HostRuntime, name: &str) -> io::Result<PathBuf> {
    let process = process::id(rt.process());
    let unique = format!(in rt.alloc(); "tests_stops.{process}.{name}")?;
    let folder = env::temp_dir(rt)?.join(rt.alloc(), unique.as_str())?;
    fs::create_dir(rt, folder.as_path())?;
    Ok(folder)
}

/// Someone else has the folder open.
const IN_USE: HostFault = HostFault::Failed {
    part: Part::Log,
    cause: Cause::InUse,
};

// Writes to a folder that is opened alone, while nobody else can open it.
fn write_in(rt: &HostRuntime, folder: &str) -> Option<bool> {
    let mut disk = HostDisk::open(rt, rt.alloc(), folder).ok()?;
    disk.write_at(Area::Log, 5, b"f").ok()?;
    disk.write_at(Area::Log, 0, b"abc").ok()?;
    disk.write_at(Area::Store, 1, b"xyz").ok()?;
    disk.sync(Area::Log).ok()?;
    let alone = HostDisk::open(rt, rt.alloc(), folder).err();
    let beside = HostDisk::open_to_read(rt, rt.alloc(), folder).err();
    Some(alone == Some(IN_USE) && beside == Some(IN_USE))
}

// Whether what was written is there when the folder is opened again, by two who read.
fn is_read(rt: &HostRuntime, folder: &str) -> Option<bool> {
    let mut disk = HostDisk::open_to_read(rt, rt.alloc(), folder).ok()?;
    let _other = HostDisk::open_to_read(rt, rt.alloc(), folder).ok()?;
    let alone = HostDisk::open(rt, rt.alloc(), folder).err();
    let mut bytes = [7; 8];
    let count = disk.read(Area::Log, 0, &mut bytes).ok()?;
    let len = disk.len(Area::Store).ok()?;
    Some(alone == Some(IN_USE) && (count, len) == (6, 4) && bytes == *b"abc\0\0f\x07\x07")
}

// Whether a file is cut, and no file has so high a place.
fn is_cut(rt: &HostRuntime, folder: &str) -> Option<bool> {
    let mut disk = HostDisk::open(rt, rt.alloc(), folder).ok()?;
    disk.cut(Area::Log, 9).ok()?;
    disk.cut(Area::Log, 2).ok()?;
    disk.write_at(Area::Log, 4, b"").ok()?;
    let len = disk.len(Area::Log).ok()?;
    let is_high = disk.write_at(Area::Log, 1 << 63, b"a").is_err();
    Some(is_high && (len, disk.calls(), disk.faults()) == (4, 5, 1))
}

#[test]
fn a_disk_in_a_folder(rt: HostRuntime) -> Result<(), Fail> {
    let path = new_folder(&rt, "disk")?;
    let folder = path.as_str();
    let is_written = write_in(&rt, folder) == Some(true);
    assert!(rt; is_written);
    let is_there = is_read(&rt, folder) == Some(true);
    assert!(rt; is_there);
    let is_short = is_cut(&rt, folder) == Some(true);
    assert!(rt; is_short);
    fs::remove_dir_all(&rt, path.as_path())?;
    let is_gone = HostDisk::open(&rt, rt.alloc(), folder).is_err();
    assert!(rt; is_gone);
    Ok(())
}

/// Every call of it fails.
#[derive(Drop)]
struct Broken;

impl Read for Broken {
    fn read(&mut self, _into: &mut [u8]) -> io::Result<usize> {
        Err(io::Error::from(ErrorKind::Other))
    }
}

/// Takes nothing.
#[derive(Drop)]
struct Full;

impl Write for Full {
    fn write(&mut self, _bytes: &[u8]) -> io::Result<usize> {
        Ok(0)
    }

    fn flush(&mut self) -> io::Result<()> {
        Ok(())
    }
}

fn is_read_from() -> Option<bool> {
    let mut source = HostSource::new(b"abc".as_slice());
    let mut bytes = [0; 2];
    let count = source.read(&mut bytes).ok()?;
    let is_broken = HostSource::new(Broken).read(&mut bytes).is_err();
    Some(is_broken && count == 2 && bytes == *b"ab")
}

fn is_written_to(alloc: Global) -> Option<bool> {
    let mut sink = HostSink::new(Vec::new(alloc));
    let count = sink.write(b"abc").ok()?;
    let mut full = HostSink::new(Full);
    let none = full.write(b"").ok()?;
    Some((count, none) == (3, 0) && full.write(b"abc").is_err())
}

#[test]
fn readers_and_writers(rt: HostRuntime) -> Result<(), Fail> {
    let is_so = is_read_from() == Some(true);
    assert!(rt; is_so);
    let is_taken = is_written_to(rt.alloc()) == Some(true);
    assert!(rt; is_taken);
    Ok(())
}
