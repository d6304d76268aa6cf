//! What loads the programs of a run, read from their files once the run is over.
ghost use Rattle.std.specs.Prelude.{◌≤◌, IfOk, length};

use pass_loader::{Found, loader_of};
use pass_strace::{Loader, Loaders, Program};
use std::alloc::{AllocError, Global};
use std::fs::File;
use std::io::Read;
use std::{fs, io, str};

/// How much of a program's file is read.
const FRONT: usize = 1_048_576;

/// The files of programs.
pub(crate) trait Programs {
    /// The first bytes of a file, or none where it can't be read.
    fn front(&self, alloc: Global, path: &[u8]) -> Result<Option<Vec<u8>>, AllocError>;

    /// The path of a file without links, or none where it isn't there.
    fn real(&self, alloc: Global, path: &[u8]) -> Result<Option<Vec<u8>>, AllocError>;
}

/// The files of this machine, as they are now.
#[derive(Clone, Copy)]
pub(crate) struct HostPrograms<'a> {
    pub(crate) rt: &'a HostRuntime,
}

impl Programs for HostPrograms<'_> {
    fn front(&self, alloc: Global, path: &[u8]) -> Result<Option<Vec<u8>>, AllocError> {
        let Ok(path) = str::from_utf8(path) else {
            return Ok(None);
        };
        // What isn't a file may keep its reader waiting.
        let is_file = match fs::metadata(self.rt, path) {
            Ok(metadata) => metadata.is_file(),
            Err(_) => false,
        };
        if !is_file {
            return Ok(None);
        }
        let mut file = match File::open(self.rt, path) {
            Ok(file) => file,
            Err(_) => return Ok(None),
        };
        let mut front = vec![in alloc; 0u8; FRONT]?;
        match fill(&mut file, front.as_mut_slice()) {
            Ok(count) => {
                front.truncate(count);
                Ok(Some(front))
            }
            Err(_) => Ok(None),
        }
    }

    fn real(&self, alloc: Global, path: &[u8]) -> Result<Option<Vec<u8>>, AllocError> {
        let Ok(path) = str::from_utf8(path) else {
            return Ok(None);
        };
        match fs::canonicalize(self.rt, path) {
            Ok(real) => Ok(Some(Vec::from_slice(alloc, real.as_str().as_bytes())?)),
            Err(_) => Ok(None),
        }
    }
}

// Reads until the bytes are full or the reader ends, and tells how many there are.
fn fill<R: Read>(reader: &mut R, into: &mut [u8]) -> io::Result<usize>
    ensures { IfOk result (λ n. n ≤ length into.old) }
{
    let mut count = 0;
    'pieces: for _ in 0..u64::MAX {
        if count == into.len() {
            break;
        }
        match reader.read(&mut into[count..]) {
            Ok(0) => return Ok(count),
            Ok(more) => count += more,
            Err(error) if error.kind() == io::ErrorKind::Interrupted => {}
            Err(error) => return Err(error),
        }
    }
    Ok(count)
}

// What loads a program whose file begins so.
fn loader_in<P: Programs>(alloc: Global, programs: &P, front: &[u8]) -> Result<Loader, AllocError> {
    match loader_of(front) {
        Found::Named(path) => match programs.real(alloc, path)? {
            Some(real) => Ok(Loader::Named(real)),
            None => Ok(Loader::Unknown),
        },
        Found::Nothing => Ok(Loader::Nothing),
        Found::Unknown => Ok(Loader::Unknown),
    }
}

fn loader_for<P: Programs>(
    alloc: Global,
    programs: &P,
    program: &Program,
) -> Result<Loader, AllocError> {
    if program.changed || !program.path.as_slice().starts_with(b"/") {
        return Ok(Loader::Unknown);
    }
    match programs.front(alloc, &program.path)? {
        Some(front) => loader_in(alloc, programs, &front),
        None => Ok(Loader::Unknown),
    }
}

/// The loaders of the programs. One that was changed while the run went on has none that is known.
pub(crate) fn loaders_of<P: Programs>(
    alloc: Global,
    programs: &P,
    ran: &[Program],
) -> Result<Loaders, AllocError> {
    let mut loaders = Loaders::none(alloc);
    for program in ran {
        let is_known = match loaders.of(&program.path) {
            Some(Loader::Unknown) => true,
            Some(_) => !program.changed,
            None => false,
        };
        if !is_known {
            let loader = loader_for(alloc, programs, program)?;
            loaders.set(program.path.clone()?, loader)?;
        }
    }
    Ok(loaders)
}
