//! The files of a run: their names, and what was in them before it.

use crate::endings::Ending;
use crate::images::Image;
use crate::overlaps::Touches;
use pass_entry::{FILE_LIMIT, Text};
use std::alloc::{AllocError, Global};
use std::collections::{BTreeMap, BTreeSet};

/// How a file came into being.
#[derive(Clone, Copy, PartialEq)]
pub enum Origin {
    /// The run made it.
    Made,
    /// It was there before the run.
    Before,
    /// The run was given it as a descriptor; it was there before once it is used.
    Given,
}

/// The name that a file has in the trace, and the path that is spelled so.
#[derive(Drop)]
pub struct Shown {
    pub path: Vec<u8>,
    pub name: Text,
}

#[derive(Drop)]
pub struct File {
    /// None once it has no name.
    pub shown: Option<Shown>,
    /// Its further names, which are hard links.
    pub links: BTreeSet<Vec<u8>>,
    /// The path and the name by which it was first known.
    pub first: Shown,
    pub origin: Origin,
    /// What was in it before the run.
    pub image: Image,
    pub size: u64,
    /// The size that it has in the store, which has its bytes.
    kept: Option<u64>,
    /// Where it ends of which the store may have a front.
    ends: Ending,
    /// How far it was mapped into memory by programs, where no call tells its bytes.
    mapped: u64,
    /// The run wrote to it.
    pub written: bool,
    /// It has bytes that the text doesn't show; and its version says so.
    pub unseen: bool,
    pub tagged: bool,
    /// A process shares it in memory.
    pub shared: bool,
    /// How often it was written to.
    pub writes: u64,
    /// The last calls on its bytes, and on its names.
    pub content: Touches,
    pub naming: Touches,
}

/// What a name means by now.
#[derive(Clone, Copy)]
pub enum Named {
    /// Nothing is known of it.
    Unknown,
    File(usize),
    /// It names nothing, and the trace has said nothing of it.
    Absent,
    /// It named a file that is no longer there.
    Gone,
}

#[derive(Drop)]
pub struct Files {
    pub files: Vec<File>,
    names: BTreeMap<Vec<u8>, Named>,
}

impl Named {
    // A name that wasn't there may be there.
    fn forget(&mut self) {
        if matches!(self, Named::Absent) {
            *self = Named::Unknown;
        }
    }
}

impl Shown {
    pub(crate) fn copy(&self) -> Result<Shown, AllocError> {
        Ok(Shown {
            path: self.path.clone()?,
            name: self.name.clone()?,
        })
    }
}

impl File {
    fn new(alloc: Global, first: Shown, origin: Origin) -> Result<File, AllocError> {
        Ok(File {
            shown: Some(first.copy()?),
            links: BTreeSet::new(alloc),
            first,
            origin,
            image: Image::new(alloc),
            size: 0,
            kept: None,
            ends: Ending::Here,
            mapped: 0,
            written: false,
            unseen: false,
            tagged: false,
            shared: false,
            writes: 0,
            content: Touches::NONE,
            naming: Touches::NONE,
        })
    }

    /// The store has it with this size, and with its bytes or not; it may go on behind that.
    pub fn keep(&mut self, size: u64, is_seen: bool, ends: Ending) {
        self.size = match ends {
            Ending::Behind(size) => size.min(FILE_LIMIT),
            Ending::Here | Ending::Unknown => size,
        };
        self.kept = is_seen.then_some(size);
        self.ends = ends;
    }

    /// A call tells its size.
    pub fn measure(&mut self, size: u64) {
        if self.origin == Origin::Before && self.writes == 0 {
            self.size = size.min(FILE_LIMIT);
            self.image.measure(size);
        }
    }

    /// A program has its bytes up to a place in memory.
    pub fn map(&mut self, end: u64) {
        self.mapped = self.mapped.max(end.min(FILE_LIMIT));
    }

    /// Whether a program may have looked at bytes in memory that were there before the run, and that the text doesn't show.
    pub fn is_seen_in_memory(&self) -> bool {
        self.origin == Origin::Before && self.image.hides(self.mapped)
    }

    /// Whether its size is known.
    pub fn has_end(&self) -> bool {
        self.origin != Origin::Before || self.image.has_end()
    }

    /// Whether it has bytes from before the run that neither the text shows nor the store has.
    pub fn hides(&self) -> bool {
        let is_kept = match self.kept {
            Some(size) => self.image.is_kept(size, self.ends),
            None => false,
        };
        self.origin == Origin::Before && !is_kept && self.image.hides(FILE_LIMIT)
    }

    /// Whether the run wrote to it by where the store's ends, and shows that it ended elsewhere.
    pub fn has_moved(&self) -> bool {
        let ended_there = match self.kept {
            Some(size) => self.image.is_kept(size, self.ends),
            None => true,
        };
        self.written && !self.unseen && !ended_there
    }

    /// So many bytes were read of it, of which the text shows these.
    pub fn read(
        &mut self,
        alloc: Global,
        at: u64,
        count: u64,
        bytes: &[u8],
        short: bool,
    ) -> Result<(), AllocError> {
        self.reach(at, count);
        self.tagged = false;
        if self.origin == Origin::Before {
            let bytes = Vec::from_slice(alloc, bytes)?;
            self.image.read(at, count, bytes, short)?;
            self.settle();
        }
        Ok(())
    }

    // It ended where a read met its end, as long as the run hasn't changed it.
    fn settle(&mut self) {
        if self.writes == 0 {
            self.size = match self.image.size() {
                Some(size) => size.min(FILE_LIMIT),
                None => self.size,
            };
        }
    }

    /// Where it ended before the run, by the end of a store's file of this size; None where the run cut it, or was given it as a
    /// descriptor.
    pub fn ending(&self, size: u64) -> Option<Ending> {
        if self.first.path.as_slice().starts_with(b"\0") {
            return None;
        }
        self.image.ending(size)
    }

    // It goes as far as a call moved bytes; one that moved none tells of none.
    fn reach(&mut self, at: u64, count: u64) {
        if count > 0 {
            self.size = self.size.max(at.saturating_add(count).min(FILE_LIMIT));
        }
    }

    /// Whether a read of so many bytes is of more than the run's own calls can have brought: the text lacks one.
    pub fn lacks(&self, at: u64, count: u64) -> bool {
        let end = at.saturating_add(count).min(FILE_LIMIT);
        self.origin == Origin::Made && !self.unseen && count > 0 && self.size < end
    }

    /// Whether a call told that it ended at a place before the run.
    pub fn ended_at(&self, place: u64) -> bool {
        self.origin == Origin::Before && self.image.told() == Some(place)
    }

    /// Whether it is known to end at a place by now.
    pub fn ends_at(&self, place: u64) -> bool {
        self.size == place && self.has_end()
    }

    pub fn write(&mut self, at: u64, count: u64) -> Result<(), AllocError> {
        self.reach(at, count);
        self.written = true;
        self.writes = self.writes.saturating_add(1);
        if self.origin == Origin::Before {
            self.image.write(at, count)?;
        }
        Ok(())
    }

    pub fn cut(&mut self, size: u64) {
        self.size = size.min(FILE_LIMIT);
        self.written = true;
        self.writes = self.writes.saturating_add(1);
        self.image.cut(size);
        if size == 0 {
            self.unseen = false;
        }
    }

    /// Whether the text shows the bytes of a range.
    pub fn knows(&self, at: u64, count: u64) -> bool {
        let was_there = self.origin == Origin::Before;
        !self.unseen && (!was_there || self.image.knows(at, count))
    }

    /// Its path, the first one where it has none.
    pub fn path(&self) -> &[u8] {
        match &self.shown {
            Some(shown) => shown.path.as_slice(),
            None => self.first.path.as_slice(),
        }
    }
}

impl Files {
    pub fn new(alloc: Global) -> Files {
        Files {
            files: Vec::new(alloc),
            names: BTreeMap::new(alloc),
        }
    }

    pub fn named(&self, path: &[u8]) -> Named {
        match self.names.get(path) {
            Some(named) => *named,
            None => Named::Unknown,
        }
    }

    pub fn set_name(&mut self, alloc: Global, path: &[u8], named: Named) -> Result<(), AllocError> {
        match self.names.get_mut(path) {
            Some(name) => *name = named,
            None => {
                self.names.insert(Vec::from_slice(alloc, path)?, named)?;
            }
        }
        Ok(())
    }

    /// Adds a file that has this name from now on.
    pub fn add(
        &mut self,
        alloc: Global,
        shown: Shown,
        origin: Origin,
    ) -> Result<usize, AllocError> {
        let place = self.files.len();
        let path = shown.path.clone()?;
        self.files.push(File::new(alloc, shown, origin)?)?;
        self.set_name(alloc, &path, Named::File(place))?;
        Ok(place)
    }

    /// Whether a path is that of a folder, since a name of a file lies below it.
    pub fn is_folder(&self, alloc: Global, path: &[u8]) -> Result<bool, AllocError> {
        let mut least = Vec::from_slice(alloc, path)?;
        least.push(b'/')?;
        for (name, named) in self.names.range(least.clone()?..) {
            if !name.as_slice().starts_with(least.as_slice()) {
                break;
            }
            if matches!(named, Named::File(_)) {
                return Ok(true);
            }
        }
        Ok(false)
    }

    /// Something else has got a path: what wasn't there by that name, and by names below it, may be there by now.
    pub fn replace(&mut self, alloc: Global, path: &[u8]) -> Result<(), AllocError> {
        let mut below = Vec::from_slice(alloc, path)?;
        if let Some(named) = self.names.get_mut(path) {
            named.forget();
        }
        below.push(b'/')?;
        for (name, named) in self.names.range_mut(below.clone()?..) {
            if !name.as_slice().starts_with(below.as_slice()) {
                break;
            }
            named.forget();
        }
        Ok(())
    }

    /// The names of files below a folder.
    pub fn below(&self, alloc: Global, folder: &[u8]) -> Result<Vec<Vec<u8>>, AllocError> {
        let mut least = Vec::from_slice(alloc, folder)?;
        least.push(b'/')?;
        let mut names = Vec::new(alloc);
        for (name, named) in self.names.range(least.clone()?..) {
            if !name.as_slice().starts_with(least.as_slice()) {
                break;
            }
            if matches!(named, Named::File(_)) {
                names.push(name.clone()?)?;
            }
        }
        Ok(names)
    }

    pub fn place_of(&self, path: &[u8]) -> Option<usize> {
        match self.named(path) {
            Named::File(place) => Some(place),
            Named::Unknown | Named::Absent | Named::Gone => None,
        }
    }

    pub fn get(&self, place: usize) -> Option<&File> {
        self.files.get(place)
    }

    pub fn get_mut(&mut self, place: usize) -> Option<&mut File> {
        self.files.get_mut(place)
    }
}
