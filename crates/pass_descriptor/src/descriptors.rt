//! The descriptors of processes, and the numbers that they have in the trace.

use crate::run::{Run, What};
use pass_entry::Mode;
use pass_observed::{Held, Named, Origin, Process, Range, Shown, given_name, outside, text_of};
use pass_syscall::{BAD, Fd, LineFault, Skip, Taken, fd_among};
use pass_trace::Command;

/// How many numbers of the trace a process has beside those of FIFOs.
const ROOM_BESIDE_FIFOS: usize = 32;

// Whether a path is that of a file in memory, which several may have.
pub(crate) fn is_in_memory(path: &[u8]) -> bool {
    path.starts_with(b"/memfd:")
}

impl Run<'_> {
    /// What the run was given as its first descriptors.
    pub fn give(&mut self, process: &mut Process) -> Taken {
        for number in 0..3u32 {
            let path = Vec::new(self.alloc);
            let opening = self.add_opening(What::Given(number), path, None, Mode::Both)?;
            self.float(opening);
            let closes = false;
            process.give(number, Held { opening, closes })?;
        }
        Ok(())
    }

    // The position of an opening that no call of the run made isn't known, nor whether it appends.
    fn float(&mut self, opening: usize) {
        if let Some(opening) = self.openings.get_mut(opening) {
            opening.floats = true;
            opening.may_append = true;
        }
    }

    /// The pipes of the FIFOs, of which each process has both ends.
    pub fn give_fifo(&mut self, process: &mut Process, path: &[u8]) -> Taken {
        if process.count_free() < ROOM_BESIDE_FIFOS {
            self.fifos.insert(Vec::from_slice(self.alloc, path)?, None)?;
            return Ok(());
        }
        let pipe = self.pipes.len();
        let (mut ends, mut slots) = ([0usize; 2], [0u8; 2]);
        for end in 0..2usize {
            let writes = end == 1;
            let own = Vec::from_slice(self.alloc, path)?;
            let opening = self.add_opening(What::Pipe { pipe, writes }, own, None, Mode::Both)?;
            if let Some(slot) = process.free_slot() {
                process.place(slot, opening, 0);
                process.keep(opening)?;
                ends[end] = opening;
                slots[end] = slot;
            }
        }
        self.pipes.add(ends[0], ends[1])?;
        self.fifos
            .insert(Vec::from_slice(self.alloc, path)?, Some(pipe))?;
        let (reader, writer) = (slots[0], slots[1]);
        Ok(self.out.push(0, 1, Command::Pipe { reader, writer })?)
    }

    /// The descriptor with a number, which is for what strace says.
    pub fn held(&mut self, process: &mut Process, fd: Fd<'_>) -> Result<Option<Held>, LineFault> {
        let held = process.held_at(fd.number);
        let Some(said) = fd.path else {
            return Ok(held);
        };
        if let Some(held) = held {
            let is_same = self
                .openings
                .get(held.opening)
                .is_some_and(|opening| opening.said.as_slice() == said);
            if is_same || self.is_still(process, held.opening, said)? {
                return Ok(Some(held));
            }
        }
        self.adopt(process, fd.number, said)
    }

    // Whether an opening is for what strace says by another path than before.
    fn is_still(
        &mut self,
        process: &Process,
        opening: usize,
        said: &[u8],
    ) -> Result<bool, LineFault> {
        let path = self.told_path(said)?;
        let what = self.what(opening);
        let settled = match what {
            What::Given(number) => Some(self.settled(number, &path)?),
            What::File(file) => match self.files.named(&path) {
                Named::File(other) if other != file => None,
                Named::File(_) => Some(what),
                Named::Unknown | Named::Absent | Named::Gone => {
                    self.add_link(process, file, &path)?;
                    Some(what)
                }
            },
            What::Pipe { .. } => None,
            What::Folder => path.starts_with(b"/").then_some(what),
            What::Unsaid(_) => self
                .openings
                .get(opening)
                .is_some_and(|opening| opening.said.is_empty())
                .then_some(what),
        };
        let Some(settled) = settled else {
            return Ok(false);
        };
        let said = Vec::from_slice(self.alloc, said)?;
        if let Some(opening) = self.openings.get_mut(opening) {
            opening.what = settled;
            opening.path = path;
            opening.said = said;
        }
        Ok(true)
    }

    // The file of a descriptor has got a name that no call gave it.
    fn add_link(&mut self, process: &Process, file: usize, path: &[u8]) -> Taken {
        if outside(path).is_some() || is_in_memory(path) {
            return Ok(());
        }
        self.note_stale(path)?;
        let own = Vec::from_slice(self.alloc, path)?;
        match self.files.get_mut(file) {
            Some(one) if one.shown.is_some() => {
                one.links.insert(own)?;
            }
            _ => return Ok(()),
        }
        self.files.set_name(self.alloc, path, Named::File(file))?;
        let to = self.spell(path)?;
        self.say_link(process, file, to)
    }

    // What a descriptor that the run was given is for.
    fn settled(&mut self, number: u32, path: &[u8]) -> Result<What, LineFault> {
        if path == b"/dev/null".as_slice() {
            return Ok(What::Unsaid(Skip::Quiet));
        }
        if path.starts_with(b"/") && outside(path).is_none() {
            return match self.find_or_add(path)? {
                Some(file) => Ok(What::File(file)),
                None => Ok(What::Unsaid(Skip::Descriptor)),
            };
        }
        self.given_file(number)
    }

    /// The file that stands for a descriptor that the run was given.
    pub fn given_file(&mut self, number: u32) -> Result<What, LineFault> {
        let name = given_name(number);
        let Some(text) = text_of(self.alloc, name.as_bytes())? else {
            return Ok(What::Unsaid(Skip::Descriptor));
        };
        let path = Vec::from_slice(self.alloc, &[0, u8::try_from(number).unwrap_or(3)])?;
        if let Named::File(file) = self.files.named(&path) {
            return Ok(What::File(file));
        }
        let file = self
            .files
            .add(self.alloc, Shown { path, name: text }, Origin::Given)?;
        Ok(What::File(file))
    }

    // A descriptor that no call of the text gave: it is for a pipe that the process has, or for a file.
    fn adopt(
        &mut self,
        process: &mut Process,
        number: u32,
        said: &[u8],
    ) -> Result<Option<Held>, LineFault> {
        if let Some(held) = self.alike(process, said) {
            return Ok(Some(held));
        }
        let path = self.told_path(said)?;
        if !path.starts_with(b"/") || outside(&path).is_some() {
            return Ok(process.held_at(number));
        }
        let file = if is_in_memory(&path) {
            None
        } else {
            self.find_or_add(&path)?
        };
        let what = match file {
            Some(file) => What::File(file),
            None => What::Unsaid(Skip::Descriptor),
        };
        let opening = self.add_opening(what, path, Some(said), Mode::Both)?;
        self.float(opening);
        self.hold(process, number, opening, false)?;
        Ok(process.held_at(number))
    }

    /// A descriptor of the process that is for the same.
    pub(crate) fn alike(&self, process: &Process, said: &[u8]) -> Option<Held> {
        for held in process.held.values() {
            if let Some(opening) = self.openings.get(held.opening) {
                if opening.said.as_slice() == said {
                    return Some(*held);
                }
            }
        }
        None
    }

    /// Closes the descriptors of a range that are open.
    pub fn close(&mut self, process: &mut Process, range: Range) -> Taken {
        let mut range = range;
        for _ in 0..process.count_held() {
            let Some(fd) = process.first_of(range) else {
                break;
            };
            if let Some((number, slot)) = process.let_go(fd) {
                self.say_close(process, number, slot.opening)?;
            }
            if fd == u32::MAX {
                break;
            }
            range.first = fd.saturating_add(1);
        }
        Ok(())
    }

    /// The line that closes a number of the trace.
    pub fn say_close(&mut self, process: &Process, fd: u8, opening: usize) -> Taken {
        if let What::Pipe { pipe, writes } = self.what(opening) {
            if let Some(pipe) = self.pipes.get_mut(pipe) {
                pipe.close(writes);
            }
        }
        self.say(process, Command::Close { fd })
    }

    /// Gives a process a descriptor for an opening.
    pub(crate) fn hold(
        &mut self,
        process: &mut Process,
        fd: u32,
        opening: usize,
        closes: bool,
    ) -> Taken {
        let (first, last, all) = (fd, fd, true);
        self.close(process, Range { first, last, all })?;
        process.give(fd, Held { opening, closes })?;
        Ok(())
    }

    /// A descriptor of what no trace says.
    pub(crate) fn hold_unsaid(
        &mut self,
        process: &mut Process,
        fd: Fd<'_>,
        skip: Skip,
        path: Vec<u8>,
    ) -> Taken {
        self.skip_on(skip, &path)?;
        self.hold_silently(process, fd, skip, path)
    }

    /// The same of one that is told where it is used.
    pub fn hold_silently(
        &mut self,
        process: &mut Process,
        fd: Fd<'_>,
        skip: Skip,
        path: Vec<u8>,
    ) -> Taken {
        let opening = self.add_opening(What::Unsaid(skip), path, fd.path, Mode::Both)?;
        self.hold(process, fd.number, opening, false)
    }

    /// Two descriptors of what no trace says.
    pub fn hold_pair(&mut self, process: &mut Process, fds: &[u8], skip: Skip) -> Taken {
        for end in 0..2usize {
            let fd = fd_among(fds, end).ok_or(BAD)?;
            self.hold_silently(process, fd, skip, Vec::new(self.alloc))?;
        }
        Ok(())
    }

    /// A number of the trace that is free. Where none is, the file that wasn't used for longest is closed; its process opens it again
    /// when it next uses it.
    pub fn free_slot(&mut self, process: &mut Process) -> Result<Option<u8>, LineFault> {
        if let Some(free) = process.free_slot() {
            return Ok(Some(free));
        }
        let mut oldest = None;
        for (place, slot) in process.slots().iter().enumerate() {
            let Some(slot) = *slot else {
                continue;
            };
            let can_close = self
                .file_of(slot.opening)
                .and_then(|file| self.files.get(file))
                .is_some_and(|file| file.shown.is_some());
            let is_older = match oldest {
                Some((_, least)) => slot.is_older(&least),
                None => true,
            };
            if can_close && is_older {
                oldest = Some((place, slot));
            }
        }
        let Some((place, _)) = oldest else {
            return Ok(None);
        };
        let number = u8::try_from(place).unwrap_or(u8::MAX);
        if process.vacate(number).is_some() {
            self.say(process, Command::Close { fd: number })?;
        }
        Ok(Some(number))
    }

    /// The number in the trace of an opening of a file, which is opened where it has none.
    pub fn slot_for(
        &mut self,
        process: &mut Process,
        opening: usize,
    ) -> Result<Option<u8>, LineFault> {
        if let Some(slot) = process.slot_of(opening) {
            process.touch(slot);
            return Ok(Some(slot));
        }
        let Some(file) = self.file_of(opening) else {
            return Ok(None);
        };
        if self.is_left_out(file) {
            return Ok(None);
        }
        let Some(name) = self.name_in_trace(file)? else {
            return Ok(None);
        };
        let mode = match self.openings.get(opening) {
            Some(opening) => opening.mode,
            None => Mode::Both,
        };
        if let Some(file) = self.files.get_mut(file) {
            if file.origin == Origin::Given {
                file.origin = Origin::Before;
                file.measure(0);
            }
        }
        let Some(fd) = self.free_slot(process)? else {
            return Ok(None);
        };
        process.place(fd, opening, 0);
        self.say(process, Command::Open { fd, name, mode })?;
        Ok(Some(fd))
    }

    /// A child has the ends of pipes that its parent has.
    pub fn share_pipes(&mut self, process: &Process) -> Taken {
        for slot in process.slots() {
            let Some(slot) = slot else {
                continue;
            };
            if let What::Pipe { pipe, writes } = self.what(slot.opening) {
                if let Some(pipe) = self.pipes.get_mut(pipe) {
                    pipe.open(writes);
                }
            }
        }
        Ok(())
    }
}
