//! Names of files below folders, without `.`, `..`, repeated slashes and the symbolic links that are known.

use pass_syscall::{ahead, behind};
use std::alloc::{AllocError, Global};
use std::collections::{BTreeMap, BTreeSet};

/// How many links one name goes through at most, as in Linux.
const MOST_LINKS: usize = 40;

/// How long a path is at most, as in Linux.
const LONGEST: usize = 4_096;

// Puts a part behind a path.
fn down(path: &mut Vec<u8>, part: &[u8]) -> Result<(), AllocError> {
    if !path.is_empty() && !path.ends_with(b"/") {
        path.push(b'/')?;
    }
    path.extend_from_slice(part)
}

/// The part of a path before its last one, and the last.
pub fn split_last(path: &[u8]) -> (&[u8], &[u8]) {
    match path.iter().rposition(|byte| *byte == b'/') {
        Some(0) => (b"/", behind(path, 1)),
        Some(place) => (ahead(path, place), behind(path, place.saturating_add(1))),
        None => (&[], path),
    }
}

// Takes a part of a name into the path so far: `..` goes up, where it isn't in front of all.
fn enter(path: &mut Vec<u8>, part: &[u8]) -> Result<(), AllocError> {
    if part.is_empty() || part == b".".as_slice() {
        return Ok(());
    }
    if part != b"..".as_slice() {
        return down(path, part);
    }
    let (folder, last) = split_last(path);
    if path.is_empty() || last == b"..".as_slice() {
        return down(path, part);
    }
    let len = folder.len();
    path.truncate(len);
    Ok(())
}

/// The path of a name from a folder, by the parts alone. One that is absolute begins with a slash.
pub fn joined(alloc: Global, folder: &[u8], name: &[u8]) -> Result<Vec<u8>, AllocError> {
    let mut path = Vec::new(alloc);
    if name.starts_with(b"/") {
        path.push(b'/')?;
    } else {
        path.extend_from_slice(folder)?;
    }
    for part in name.split(|byte| *byte == b'/') {
        enter(&mut path, part)?;
    }
    Ok(path)
}

/// The path from a folder, where it lies below.
pub fn below<'a>(folder: &[u8], path: &'a [u8]) -> Option<&'a [u8]> {
    if folder.is_empty() {
        return None;
    }
    let rest = path.strip_prefix(folder)?;
    if rest.is_empty() || folder.ends_with(b"/") {
        return Some(rest);
    }
    rest.strip_prefix(b"/")
}

// How it is known what a path leads to.
#[derive(Clone, Copy, PartialEq)]
enum Ground {
    /// A call made the link, or read it.
    Told,
    /// An open shows where the path leads in the end.
    Learned,
    /// The same, where both have the same last part, and no call told which part is the link: it may be one of the path's folders.
    Supposed,
}

// What a path leads to.
#[derive(Drop)]
struct Link {
    target: Vec<u8>,
    ground: Ground,
}

impl Link {
    fn copy(&self) -> Result<Link, AllocError> {
        Ok(Link {
            target: self.target.clone()?,
            ground: self.ground,
        })
    }
}

/// The symbolic links that are known, by their paths, and folders to whose paths no link leads.
#[derive(Drop)]
pub struct Links {
    alloc: Global,
    targets: BTreeMap<Vec<u8>, Link>,
    folders: BTreeSet<Vec<u8>>,
    /// The links that were there before the run, as far as it has told them.
    before: BTreeMap<Vec<u8>, Link>,
    /// The paths that the run gave away or got.
    changed: BTreeSet<Vec<u8>>,
}

impl Links {
    pub fn new(alloc: Global) -> Links {
        Links {
            alloc,
            targets: BTreeMap::new(alloc),
            folders: BTreeSet::new(alloc),
            before: BTreeMap::new(alloc),
            changed: BTreeSet::new(alloc),
        }
    }

    /// The links that were there before a run, of which it told these.
    pub fn beginning(&self) -> Result<Links, AllocError> {
        let mut links = Links::new(self.alloc);
        for (path, link) in self.before.iter() {
            let own = links.resolved(&[], path, false)?;
            // By the link of its folder it may have another path, and be none.
            let target = joined(self.alloc, split_last(&own).0, &link.target)?;
            if own != target {
                links.put(own, link.copy()?)?;
            }
        }
        Ok(links)
    }

    fn put(&mut self, path: Vec<u8>, link: Link) -> Result<(), AllocError> {
        let _folder = self.folders.remove(path.as_slice());
        self.targets.insert(path, link)?;
        Ok(())
    }

    // A call tells a link, which was there before the run unless that has changed its path.
    fn tell(&mut self, path: Vec<u8>, link: Link) -> Result<(), AllocError> {
        let is_surer = match self.before.get(path.as_slice()) {
            Some(known) => known.ground != Ground::Told && link.ground == Ground::Told,
            None => true,
        };
        if is_surer && !self.has_changed(&path) {
            self.before.insert(path.clone()?, link.copy()?)?;
        }
        self.put(path, link)
    }

    /// A path is a link to a target.
    pub fn set(&mut self, path: Vec<u8>, target: Vec<u8>) -> Result<(), AllocError> {
        let ground = Ground::Told;
        self.tell(path, Link { target, ground })
    }

    /// A path leads to a target in the end, by a link of its own.
    pub fn learn(&mut self, path: Vec<u8>, target: Vec<u8>) -> Result<(), AllocError> {
        let ground = Ground::Learned;
        self.tell(path, Link { target, ground })
    }

    /// A path leads to a target with the same last part, by a link of its own or by one of its folder's.
    pub fn suppose(&mut self, path: Vec<u8>, target: Vec<u8>) -> Result<(), AllocError> {
        let ground = Ground::Supposed;
        self.tell(path, Link { target, ground })
    }

    /// The run makes a link.
    pub fn make(&mut self, path: Vec<u8>, target: Vec<u8>) -> Result<(), AllocError> {
        self.note_change(&path)?;
        let ground = Ground::Told;
        self.put(path, Link { target, ground })
    }

    /// A path names something else from now on, or nothing.
    pub fn note_change(&mut self, path: &[u8]) -> Result<(), AllocError> {
        if !self.changed.contains(path) {
            self.changed.insert(Vec::from_slice(self.alloc, path)?)?;
        }
        Ok(())
    }

    /// Whether the run has changed what a path, or a folder of it, names.
    pub fn has_changed(&self, path: &[u8]) -> bool {
        for (end, byte) in path.iter().enumerate() {
            if *byte == b'/' && self.changed.contains(ahead(path, end)) {
                return true;
            }
        }
        self.changed.contains(path)
    }

    /// Whether a path is known as a link.
    pub fn is_known(&self, path: &[u8]) -> bool {
        self.targets.contains_key(path)
    }

    /// The paths that are known as links.
    pub fn paths(&self) -> Result<Vec<Vec<u8>>, AllocError> {
        let mut paths = Vec::new(self.alloc);
        for (path, _) in self.targets.iter() {
            paths.push(path.clone()?)?;
        }
        Ok(paths)
    }

    /// A link goes by its path. Whether there was one.
    pub fn take(&mut self, path: &[u8]) -> bool {
        self.targets.remove(path).is_some()
    }

    /// A further name of a link is one too. Whether there is one.
    pub fn double(&mut self, old: &[u8], new: &[u8]) -> Result<bool, AllocError> {
        let link = match self.targets.get(old) {
            Some(link) => link.copy()?,
            None => return Ok(false),
        };
        self.note_change(new)?;
        self.put(Vec::from_slice(self.alloc, new)?, link)?;
        Ok(true)
    }

    /// A link gets another path, in place of what had that. Whether there is one.
    pub fn rename(&mut self, old: &[u8], new: &[u8]) -> Result<bool, AllocError> {
        self.note_change(old)?;
        self.note_change(new)?;
        let link = self.targets.remove(old);
        let _over = self.targets.remove(new);
        let Some(link) = link else {
            return Ok(false);
        };
        self.put(Vec::from_slice(self.alloc, new)?, link)?;
        Ok(true)
    }

    /// The links below a folder have other paths, as it has. What opens showed of them isn't known any more.
    pub fn move_below(&mut self, old: &[u8], new: &[u8]) -> Result<(), AllocError> {
        let mut front = Vec::from_slice(self.alloc, old)?;
        front.push(b'/')?;
        let mut paths = Vec::new(self.alloc);
        for (path, _) in self.targets.range(front.clone()?..) {
            if !path.as_slice().starts_with(front.as_slice()) {
                break;
            }
            paths.push(path.clone()?)?;
        }
        for path in &paths {
            let mut moved = Vec::from_slice(self.alloc, new)?;
            moved.extend_from_slice(behind(path, old.len()))?;
            if let Some(link) = self.targets.remove(path.as_slice()) {
                if link.ground == Ground::Told {
                    self.put(moved, link)?;
                }
            }
        }
        Ok(())
    }

    /// A path that is known to lead somewhere is itself a link.
    pub fn confirm(&mut self, path: &[u8]) {
        if let Some(link) = self.targets.get_mut(path) {
            if link.ground == Ground::Supposed {
                link.ground = Ground::Learned;
            }
        }
    }

    /// No link leads to a folder by its path.
    pub fn note_folder(&mut self, path: &[u8]) -> Result<(), AllocError> {
        if !self.folders.contains(path) {
            self.folders.insert(Vec::from_slice(self.alloc, path)?)?;
        }
        Ok(())
    }

    /// What a path leads to, where the link is rather its folder's.
    pub fn supposed(&self, path: &[u8]) -> Option<&[u8]> {
        match self.targets.get(path) {
            Some(link)
                if link.ground == Ground::Supposed && !self.folders.contains(split_last(path).0) =>
                Some(link.target.as_slice()),
            _ => None,
        }
    }

    /// The path of a name from a folder, through the links that are known; the last part's own only where it is followed.
    pub fn resolved(
        &self,
        folder: &[u8],
        name: &[u8],
        follows: bool,
    ) -> Result<Vec<u8>, AllocError> {
        let mut path = joined(self.alloc, folder, name)?;
        if self.targets.is_empty() {
            return Ok(path);
        }
        for _ in 0..MOST_LINKS {
            let Some(len) = self.first_link(&path, follows) else {
                break;
            };
            path = self.beyond(&path, len)?;
            if path.len() > LONGEST {
                break;
            }
        }
        Ok(path)
    }

    /// The path that leads to what an open showed, by no link that is known, or by one of its own that an open had shown.
    pub fn asked(&self, path: &[u8]) -> Result<Vec<u8>, AllocError> {
        let mut path = self.resolved(&[], path, false)?;
        for _ in 0..MOST_LINKS {
            match self.targets.get(path.as_slice()) {
                Some(link) if link.ground == Ground::Told => {}
                _ => break,
            }
            let next = self.beyond(&path, path.len())?;
            path = self.resolved(&[], &next, false)?;
        }
        Ok(path)
    }

    /// What opens showed of the links by which a path leads elsewhere isn't so any more; or, where none is left, no link is there.
    pub fn doubt(&mut self, path: &[u8], none_left: bool) -> Result<(), AllocError> {
        let mut path = Vec::from_slice(self.alloc, path)?;
        for _ in 0..MOST_LINKS {
            let Some(len) = self.first_link(&path, true) else {
                break;
            };
            let next = self.beyond(&path, len)?;
            let front = ahead(&path, len);
            let is_told = match self.targets.get(front) {
                Some(link) => link.ground == Ground::Told,
                None => false,
            };
            if none_left || !is_told {
                let _link = self.targets.remove(front);
            }
            path = next;
        }
        Ok(())
    }

    // How long the front of a path is that is a link, the first one.
    fn first_link(&self, path: &[u8], follows: bool) -> Option<usize> {
        for (end, byte) in path.iter().enumerate() {
            let next = end.saturating_add(1);
            let is_last = next == path.len();
            let front = if is_last { path } else { ahead(path, end) };
            let is_front = (*byte == b'/' || is_last) && (follows || !is_last);
            if is_front && self.targets.contains_key(front) {
                return Some(front.len());
            }
        }
        None
    }

    // The path where a front of it that is a link is replaced by what that leads to.
    fn beyond(&self, path: &[u8], len: usize) -> Result<Vec<u8>, AllocError> {
        let front = ahead(path, len);
        let Some(link) = self.targets.get(front) else {
            return Vec::from_slice(self.alloc, path);
        };
        let mut whole = joined(self.alloc, split_last(front).0, &link.target)?;
        for part in behind(path, front.len()).split(|byte| *byte == b'/') {
            enter(&mut whole, part)?;
        }
        Ok(whole)
    }
}
