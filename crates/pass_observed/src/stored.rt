//! The files that a store has before a run is recorded in it.

use crate::endings::Ending;
use crate::spelling::{ATTRIBUTE, SIZE, UNKNOWN};
use pass_entry::{BLOCK_SIZE, KIND_LIMIT, Kind, Record};
use pass_syscall::number_among;
use std::alloc::{AllocError, Global};
use std::collections::BTreeMap;

/// What a store's records say of its files.
#[derive(Drop)]
pub struct Stored {
    files: BTreeMap<u64, StoredFile>,
    /// The numbers of the files by the names that they have now.
    names: BTreeMap<Vec<u8>, u64>,
    /// How many app objects it has had.
    apps: u64,
}

/// A file of a store: its name, its size and the digests of its blocks.
#[derive(Drop)]
pub struct StoredFile {
    name: Vec<u8>,
    pub size: u64,
    /// It has bytes that no text showed.
    pub unseen: bool,
    /// Where the file ends of which it may be a front.
    pub ends: Ending,
    digests: BTreeMap<u32, [u8; 16]>,
}

impl StoredFile {
    fn new(alloc: Global) -> StoredFile {
        StoredFile {
            name: Vec::new(alloc),
            size: 0,
            unseen: false,
            ends: Ending::Here,
            digests: BTreeMap::new(alloc),
        }
    }

    // Bytes behind a new end are gone.
    fn resize(&mut self, size: u64) {
        if size < self.size {
            let blocks = size.div_ceil(BLOCK_SIZE);
            self.digests.retain(|block, _| u64::from(*block) < blocks);
        }
        self.unseen = self.unseen && size > 0;
        self.ends = self.ends.resized(self.size, size);
        self.size = size;
    }

    // An attribute of its current version.
    fn take(&mut self, attr: &[u8], value: &[u8]) {
        let is_unknown = value == UNKNOWN.as_bytes();
        if attr == ATTRIBUTE.as_bytes() && is_unknown {
            self.unseen = true;
        }
        if attr == SIZE.as_bytes() {
            match number_among(value) {
                Some(size) => self.ends = Ending::of(size, self.size),
                None if is_unknown => self.ends = Ending::Unknown,
                None => {}
            }
        }
    }

    /// The digest of a block within its size.
    pub fn digest(&self, block: u32) -> Option<&[u8; 16]> {
        self.digests.get(&block)
    }
}

impl Stored {
    /// A store without a file.
    pub fn empty(alloc: Global) -> Stored {
        Stored {
            files: BTreeMap::new(alloc),
            names: BTreeMap::new(alloc),
            apps: 0,
        }
    }

    /// What a store's records say, in the order of its log.
    pub fn of_records(alloc: Global, records: &[Record]) -> Result<Stored, AllocError> {
        let mut stored = Stored::empty(alloc);
        for record in records {
            stored.take(alloc, record)?;
        }
        for (number, file) in stored.files.iter() {
            if !file.name.is_empty() {
                stored.names.insert(file.name.clone()?, *number)?;
            }
        }
        Ok(stored)
    }

    fn take(&mut self, alloc: Global, record: &Record) -> Result<(), AllocError> {
        match record {
            Record::Object { pnode, kind } => {
                if *kind == Kind::File {
                    self.files.insert(pnode.0, StoredFile::new(alloc))?;
                }
                if *kind == Kind::App {
                    self.apps = self.apps.saturating_add(1);
                }
            }
            Record::Name { pnode, name } => {
                if let Some(file) = self.files.get_mut(&pnode.0) {
                    file.name = Vec::from_slice(alloc, name.as_bytes())?;
                }
            }
            Record::Size { pnode, size } => {
                if let Some(file) = self.files.get_mut(&pnode.0) {
                    file.resize(*size);
                }
            }
            Record::Digest { pnode, block, md5 } => {
                if let Some(file) = self.files.get_mut(&pnode.0) {
                    file.digests.insert(*block, *md5)?;
                }
            }
            Record::Attr { node, attr, value } => {
                if let Some(file) = self.files.get_mut(&node.pnode.0) {
                    file.take(attr.as_bytes(), value.as_bytes());
                }
            }
            Record::Input { .. } | Record::Version { .. } | Record::Ceiling { .. } => {}
        }
        Ok(())
    }

    /// The names that begin with a text.
    pub fn names_from(&self, alloc: Global, front: &[u8]) -> Result<Vec<Vec<u8>>, AllocError> {
        let mut names = Vec::new(alloc);
        for (name, _) in self.names.range(Vec::from_slice(alloc, front)?..) {
            if !name.as_slice().starts_with(front) {
                break;
            }
            names.push(name.clone()?)?;
        }
        Ok(names)
    }

    /// How many files it has had.
    pub fn len(&self) -> usize {
        self.files.len()
    }

    /// Whether it may have one more app object.
    pub fn has_room_for_app(&self) -> bool {
        self.apps < u64::from(KIND_LIMIT)
    }

    /// The file that has a name now.
    pub fn named(&self, name: &[u8]) -> Option<&StoredFile> {
        let number = self.names.get(name)?;
        self.files.get(number)
    }
}
