//! The calls that give names and take them away.

use crate::descriptors::is_in_memory;
use crate::run::Run;
use pass_entry::Text;
use pass_observed::{Held, Named, Process, Shown, outside, own_descriptor, unspelled};
use pass_syscall::{Base, LineFault, Parts, Skip, Taken, behind, number_of_field};
use pass_trace::Command;

/// The path that a file has while two exchange theirs; no other has a zero byte.
const BETWEEN: &[u8] = b"\0between";

impl Run<'_> {
    /// A rename, or an exchange of two names: the paths that got others, the old one and the new one of each.
    pub fn rename(
        &mut self,
        process: &mut Process,
        parts: &Parts<'_>,
        below: bool,
    ) -> Result<Vec<(Vec<u8>, Vec<u8>)>, LineFault> {
        let (first, second) = if below { (1, 3) } else { (0, 1) };
        let old = self.own_path_of(process, parts, first, below)?;
        let new = self.own_path_of(process, parts, second, below)?;
        let mut moves = Vec::new(self.alloc);
        if old == new {
            return Ok(moves);
        }
        if parts.has(4, b"RENAME_EXCHANGE") {
            let between = Vec::from_slice(self.alloc, BETWEEN)?;
            moves.push((old.clone()?, between.clone()?))?;
            moves.push((new.clone()?, old))?;
            moves.push((between, new))?;
        } else {
            moves.push((old, new))?;
        }
        for (old, new) in &moves {
            self.rename_all(process, old, new)?;
        }
        self.files.set_name(self.alloc, BETWEEN, Named::Unknown)?;
        Ok(moves)
    }

    // A name, and those below it, are others.
    fn rename_all(&mut self, process: &Process, old: &[u8], new: &[u8]) -> Taken {
        self.files.replace(self.alloc, new)?;
        if self.rename_link(process, old, new)? {
            return Ok(());
        }
        self.links.move_below(old, new)?;
        self.find_below(old)?;
        let names = self.files.below(self.alloc, old)?;
        if names.is_empty() {
            return self.rename_path(process, old, new);
        }
        for name in &names {
            let mut moved = Vec::from_slice(self.alloc, new)?;
            moved.extend_from_slice(name.strip_prefix(old).unwrap_or(&[]))?;
            self.rename_path(process, name, &moved)?;
        }
        Ok(())
    }

    // The path of a name whose own link a call takes, and not what that leads to. Where a link is rather one of its folder's, that is
    // known from then on.
    fn own_path_of(
        &mut self,
        process: &mut Process,
        parts: &Parts<'_>,
        place: usize,
        below: bool,
    ) -> Result<Vec<u8>, LineFault> {
        let path = self.path_of(process, parts, place, below, false)?;
        let real = match self.links.supposed(&path) {
            Some(real) => Vec::from_slice(self.alloc, real)?,
            None => return Ok(path),
        };
        let _was_link = self.links.take(&path);
        self.learn_folder(&path, &real)?;
        Ok(real)
    }

    // Whether a name is a link, which gets another name, in place of what had it.
    fn rename_link(
        &mut self,
        process: &Process,
        old: &[u8],
        new: &[u8],
    ) -> Result<bool, LineFault> {
        if !self.links.rename(old, new)? {
            return Ok(false);
        }
        if let Some(file) = self.files.place_of(new) {
            self.unlink_path(process, file, new)?;
        }
        Ok(true)
    }

    // The store's files below a folder of which the run has told nothing are there.
    fn find_below(&mut self, folder: &[u8]) -> Taken {
        let mut front = Vec::from_slice(self.alloc, self.spell(folder)?.as_bytes())?;
        front.push(b'/')?;
        let names = self.setting.stored.names_from(self.alloc, &front)?;
        for name in &names {
            let Some(rest) = unspelled(self.alloc, behind(name, front.len()))? else {
                continue;
            };
            let mut path = Vec::from_slice(self.alloc, folder)?;
            path.push(b'/')?;
            path.extend_from_slice(&rest)?;
            if matches!(self.files.named(&path), Named::Unknown) {
                let _added = self.add_before(&path)?;
            }
        }
        Ok(())
    }

    fn rename_path(&mut self, process: &Process, old: &[u8], new: &[u8]) -> Taken {
        let Some(file) = self.renamed_file(old, new)? else {
            self.files.set_name(self.alloc, old, Named::Absent)?;
            return Ok(());
        };
        let mut freed = None;
        if let Some(other) = self.files.place_of(new) {
            if other == file {
                return Ok(());
            }
            freed = self.overwrite(process, other, new)?;
        }
        self.note_use(file, true, true)?;
        self.move_name(process, file, (old, new), freed)
    }

    // The file of a name that goes to another. One of which nothing is known keeps to be unknown, as long as the trace doesn't know the
    // other name either.
    fn renamed_file(&mut self, old: &[u8], new: &[u8]) -> Result<Option<usize>, LineFault> {
        if let Named::File(file) = self.files.named(old) {
            return Ok(Some(file));
        }
        let is_known = matches!(self.files.named(new), Named::File(_) | Named::Gone);
        if is_known || self.is_stored(old)? || self.is_stored(new)? {
            return self.find_or_add(old);
        }
        Ok(None)
    }

    // A file loses a name to another one. Where the trace has no other name for it, it still has that name there: then it is answered.
    fn overwrite(
        &mut self,
        process: &Process,
        other: usize,
        path: &[u8],
    ) -> Result<Option<usize>, LineFault> {
        let was_shown = self.is_shown_by(other, path);
        match self.next_name(other, path)? {
            Some((from, shown)) => {
                let to = shown.name.clone()?;
                self.show(other, Some(shown));
                self.say_named(process, other, Command::Rename { from, to })?;
                Ok(None)
            }
            None => Ok(was_shown.then_some(other)),
        }
    }

    fn is_shown_by(&self, file: usize, path: &[u8]) -> bool {
        match self.files.get(file) {
            Some(file) => file.shown.is_some() && file.path() == path,
            None => false,
        }
    }

    // The name in the trace that a file has by a path which it loses, and the one that it has from then on, if it has another.
    fn next_name(&mut self, file: usize, path: &[u8]) -> Result<Option<(Text, Shown)>, LineFault> {
        let Some(one) = self.files.get_mut(file) else {
            return Ok(None);
        };
        let is_shown = one.shown.is_some() && one.path() == path;
        if !is_shown {
            let _was_there = one.links.remove(path);
            return Ok(None);
        }
        let next = one.links.pop_last();
        let from = match &one.shown {
            Some(shown) => shown.name.clone()?,
            None => return Ok(None),
        };
        match next {
            Some(next) => {
                let shown = self.shown(&next)?;
                Ok(Some((from, shown)))
            }
            None => {
                self.show(file, None);
                Ok(None)
            }
        }
    }

    fn show(&mut self, file: usize, shown: Option<Shown>) {
        if let Some(file) = self.files.get_mut(file) {
            file.shown = shown;
        }
    }

    // A line on a file, unless it is left out.
    fn say_named(&mut self, process: &Process, file: usize, command: Command) -> Taken {
        if self.is_left_out(file) {
            return self.tell_left_out(file);
        }
        self.say(process, command)
    }

    // Gives a file a name in place of one that it has.
    fn move_name(
        &mut self,
        process: &Process,
        file: usize,
        paths: (&[u8], &[u8]),
        freed: Option<usize>,
    ) -> Taken {
        let (old, new) = paths;
        self.files.set_name(self.alloc, old, Named::Gone)?;
        self.files.set_name(self.alloc, new, Named::File(file))?;
        let shown = self.shown(new)?;
        let to = shown.name.clone()?;
        let from = match self.files.get_mut(file) {
            Some(one) => match &one.shown {
                Some(before) if before.path.as_slice() == old => Some(before.name.clone()?),
                _ => {
                    let _was_there = one.links.remove(old);
                    one.links.insert(Vec::from_slice(self.alloc, new)?)?;
                    None
                }
            },
            None => None,
        };
        if from.is_some() {
            self.show(file, Some(shown));
        }
        // Where the file isn't shown by the name, the one that had it before has none in the trace either.
        let is_left_out = self.is_left_out(file);
        if let (Some(other), true) = (freed, from.is_none() || is_left_out) {
            let name = to.clone()?;
            self.say_named(process, other, Command::Unlink { name })?;
            if is_left_out {
                return Ok(());
            }
        }
        match from {
            Some(from) => self.say_named(process, file, Command::Rename { from, to }),
            None => self.say_link(process, file, to),
        }
    }

    /// A further name of a file, which the trace knows by one: it gives it the other one for a moment.
    pub(crate) fn say_link(&mut self, process: &Process, file: usize, to: Text) -> Taken {
        let Some(from) = self.name_in_trace(file)? else {
            return Ok(());
        };
        let (back, aside) = (from.clone()?, to.clone()?);
        self.say_named(process, file, Command::Rename { from, to: aside })?;
        self.say_named(process, file, Command::Rename { from: to, to: back })
    }

    // What the store has by a path that was free when the run began is gone.
    pub(crate) fn note_stale(&mut self, path: &[u8]) -> Taken {
        let is_free = matches!(self.files.named(path), Named::Unknown | Named::Absent);
        if is_free && self.is_stored(path)? {
            let name = self.spell(path)?;
            self.stale.push(name)?;
        }
        Ok(())
    }

    /// A further name of a file, by which it is also known from then on.
    pub fn link(&mut self, process: &mut Process, parts: &Parts<'_>, below: bool) -> Taken {
        let (first, second) = if below { (1, 3) } else { (0, 1) };
        let follows = parts.has(4, b"AT_SYMLINK_FOLLOW");
        let old = if follows {
            self.path_of(process, parts, first, below, true)?
        } else {
            self.own_path_of(process, parts, first, below)?
        };
        let new = self.path_of(process, parts, second, below, false)?;
        if self.links.double(&old, &new)? {
            return Ok(());
        }
        let held = match (parts.has(4, b"AT_EMPTY_PATH"), parts.base(first, below)?) {
            (true, Base::Held(fd)) => self.held(process, fd)?,
            _ => own_descriptor(&old).and_then(|number| process.held_at(number)),
        };
        let file = match held {
            Some(held) => self.held_file(held)?,
            None => self.find_or_add(&old)?,
        };
        match file {
            Some(file) => self.link_file(process, file, new),
            None => Ok(()),
        }
    }

    /// The file that a descriptor is for, or one that was opened for its path alone.
    pub fn held_file(&mut self, held: Held) -> Result<Option<usize>, LineFault> {
        if let Some(file) = self.file_of(held.opening) {
            return Ok(Some(file));
        }
        let path = Vec::from_slice(self.alloc, self.opened_path(held.opening))?;
        if !path.starts_with(b"/") || is_in_memory(&path) {
            self.skip(Skip::Descriptor)?;
            return Ok(None);
        }
        self.find_or_add(&path)
    }

    fn link_file(&mut self, process: &Process, file: usize, new: Vec<u8>) -> Taken {
        if outside(&new).is_some() {
            return self.skip(Skip::Device);
        }
        self.note_use(file, true, true)?;
        let shown = self.shown(&new)?;
        self.note_stale(&new)?;
        self.files.set_name(self.alloc, &new, Named::File(file))?;
        let Some(from) = self.name_in_trace(file)? else {
            return Ok(());
        };
        let to = shown.name.clone()?;
        let is_nameless = from.as_bytes().starts_with(b"%:n");
        if is_nameless {
            self.show(file, Some(shown));
            return self.say_named(process, file, Command::Rename { from, to });
        }
        if let Some(one) = self.files.get_mut(file) {
            one.links.insert(new)?;
        }
        self.say_link(process, file, to)
    }

    pub fn unlink(&mut self, process: &mut Process, parts: &Parts<'_>, below: bool) -> Taken {
        let path = self.own_path_of(process, parts, usize::from(below), below)?;
        self.links.note_change(&path)?;
        if parts.has(2, b"AT_REMOVEDIR") || self.links.take(&path) {
            return Ok(());
        }
        let is_stored = self.is_stored(&path)?;
        let file = match self.files.named(&path) {
            Named::File(file) => Some(file),
            Named::Unknown if is_stored => self.find_or_add(&path)?,
            Named::Unknown => {
                self.files.set_name(self.alloc, &path, Named::Absent)?;
                None
            }
            Named::Absent | Named::Gone => None,
        };
        match file {
            Some(file) => self.unlink_path(process, file, &path),
            None => Ok(()),
        }
    }

    pub(crate) fn unlink_path(&mut self, process: &Process, file: usize, path: &[u8]) -> Taken {
        self.note_use(file, true, true)?;
        let was_shown = self.is_shown_by(file, path);
        let before = self.name_in_trace(file)?;
        let next = self.next_name(file, path)?;
        self.files.set_name(self.alloc, path, Named::Gone)?;
        match (next, before) {
            (Some((from, shown)), _) => {
                let to = shown.name.clone()?;
                self.show(file, Some(shown));
                self.say_named(process, file, Command::Rename { from, to })
            }
            (None, Some(name)) if was_shown => {
                self.say_named(process, file, Command::Unlink { name })
            }
            (None, _) => Ok(()),
        }
    }

    pub fn symlink(&mut self, process: &mut Process, parts: &Parts<'_>, below: bool) -> Taken {
        let place = if below { 2 } else { 1 };
        let path = self.path_of(process, parts, place, below, false)?;
        let target = parts.bytes(self.alloc, 0)?;
        Ok(self.links.make(path, target)?)
    }

    /// What a link leads to is told where it is read.
    pub fn read_link(&mut self, process: &mut Process, parts: &Parts<'_>, below: bool) -> Taken {
        let place = usize::from(below);
        let path = self.path_of(process, parts, place, below, false)?;
        let target = parts.shown(self.alloc, place.saturating_add(1))?;
        if outside(&path).is_none() && !target.cut {
            self.note_link(&path)?;
            self.links.set(path, target.bytes)?;
        }
        Ok(())
    }

    /// A name that isn't there, one that is a link or a file's own behind the link of its folder, or the size of a file.
    pub fn look(&mut self, process: &mut Process, parts: &Parts<'_>, below: bool) -> Taken {
        let place = usize::from(below);
        if parts.failed_by(b"ENOENT") {
            let path = self.path_of(process, parts, place, below, true)?;
            return self.note_absent(&path);
        }
        let (flags, told) = if parts.name == b"statx".as_slice() {
            (2, 4)
        } else {
            (3, place.saturating_add(1))
        };
        if parts.has(flags, b"AT_EMPTY_PATH") && parts.is_answered() {
            return self.measure(process, parts, told);
        }
        let is_own = parts.name == b"lstat".as_slice() || parts.has(flags, b"AT_SYMLINK_NOFOLLOW");
        if !parts.is_answered() || !is_own {
            return Ok(());
        }
        let path = self.path_of(process, parts, place, below, false)?;
        if parts.has(told, b"S_IFREG") {
            let real = self.links.resolved(&[], &path, true)?;
            return self.learn_folder(&path, &real);
        }
        if parts.has(told, b"S_IFLNK") {
            self.links.confirm(&path);
        }
        Ok(())
    }

    /// The size of the file of a descriptor is told at a place.
    pub fn measure(&mut self, process: &mut Process, parts: &Parts<'_>, told: usize) -> Taken {
        let Ok(fd) = parts.fd(0) else {
            return Ok(());
        };
        if parts.has(told, b"S_IFDIR") {
            return match process.held_at(fd.number) {
                Some(held) => Ok(self.note_folder(held.opening)?),
                None => Ok(()),
            };
        }
        let word = parts.word(told);
        let size = number_of_field(word, b"st_size").or(number_of_field(word, b"stx_size"));
        let (Some(size), true) = (size, parts.has(told, b"S_IFREG")) else {
            return Ok(());
        };
        let file = self
            .held(process, fd)?
            .and_then(|held| self.file_of(held.opening));
        if let Some(file) = file.and_then(|file| self.files.get_mut(file)) {
            file.measure(size);
        }
        Ok(())
    }

    pub fn note_absent(&mut self, path: &[u8]) -> Taken {
        if matches!(self.files.named(path), Named::Unknown) && !path.is_empty() {
            self.files.set_name(self.alloc, path, Named::Absent)?;
        }
        Ok(())
    }

    pub fn enter(&mut self, process: &mut Process, parts: &Parts<'_>) -> Taken {
        process.folder = self.path_of(process, parts, 0, false, true)?;
        Ok(())
    }

    pub fn enter_held(&mut self, process: &mut Process, parts: &Parts<'_>) -> Taken {
        let fd = parts.fd(0)?;
        process.folder = match (fd.path, process.held_at(fd.number)) {
            (Some(said), _) => self.told_path(said)?,
            (None, Some(held)) => Vec::from_slice(self.alloc, self.opened_path(held.opening))?,
            (None, None) => Vec::new(self.alloc),
        };
        Ok(())
    }
}
