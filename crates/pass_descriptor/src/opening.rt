//! The calls that open files and give descriptors.

use crate::run::{Run, What};
use pass_entry::Mode;
use pass_observed::{
    Held, Named, Origin, Process, Range, Shown, outside, own_descriptor, split_last, text_of,
};
use pass_syscall::{BAD, Fd, LineFault, Parts, Skip, Taken, fd_among};
use pass_trace::Command;

/// The flag of an opening that appends, as Linux answers it.
const O_APPEND: u64 = 0x400;

/// How a file is opened.
#[derive(Clone, Copy)]
pub(crate) struct Ways {
    mode: Mode,
    creates: bool,
    excludes: bool,
    cuts: bool,
    appends: bool,
    closes: bool,
    follows: bool,
}

impl Ways {
    // How `creat` opens a file.
    const CREAT: Ways = Ways {
        mode: Mode::Write,
        creates: true,
        excludes: false,
        cuts: true,
        appends: false,
        closes: false,
        follows: true,
    };

    fn of(parts: &Parts<'_>, place: usize) -> Ways {
        let mode = if parts.has(place, b"O_RDWR") {
            Mode::Both
        } else if parts.has(place, b"O_WRONLY") {
            Mode::Write
        } else {
            Mode::Read
        };
        let excludes = parts.has(place, b"O_EXCL") && parts.has(place, b"O_CREAT");
        Ways {
            mode,
            creates: parts.has(place, b"O_CREAT"),
            excludes,
            cuts: parts.has(place, b"O_TRUNC") && mode != Mode::Read,
            appends: parts.has(place, b"O_APPEND"),
            closes: parts.has(place, b"O_CLOEXEC"),
            follows: !excludes && !parts.has(place, b"O_NOFOLLOW"),
        }
    }
}

impl Run<'_> {
    pub fn open(&mut self, process: &mut Process, parts: &Parts<'_>, below: bool) -> Taken {
        let name = usize::from(below);
        let flags = name.saturating_add(1);
        let ways = Ways::of(parts, flags);
        let asked = self.spelled_path(process, parts, name, below)?;
        let fd = parts.given()?;
        if parts.has(flags, b"O_TMPFILE") || parts.has(flags, b"__O_TMPFILE") {
            return self.make_nameless(process, fd, ways);
        }
        if parts.has(flags, b"O_DIRECTORY") || parts.has(flags, b"O_PATH") {
            let real = self.real_path(fd, &asked, ways.follows)?;
            return self.open_folder(process, fd, real, ways);
        }
        self.open_path(process, fd, asked, ways)
    }

    pub fn creat(&mut self, process: &mut Process, parts: &Parts<'_>) -> Taken {
        let asked = self.spelled_path(process, parts, 0, false)?;
        self.open_path(process, parts.given()?, asked, Ways::CREAT)
    }

    // A folder, or what is opened for its path alone.
    fn open_folder(
        &mut self,
        process: &mut Process,
        fd: Fd<'_>,
        real: Vec<u8>,
        ways: Ways,
    ) -> Taken {
        let opening = self.add_opening(What::Folder, real, fd.path, Mode::Read)?;
        self.hold(process, fd.number, opening, ways.closes)
    }

    // The path that strace tells of what was opened, and else the one that was asked for, through the links that are known. Where these
    // lead elsewhere, there is another link, the path's own where it may be one and else its folder's.
    fn real_path(&mut self, fd: Fd<'_>, asked: &[u8], is_own: bool) -> Result<Vec<u8>, LineFault> {
        let path = self.links.resolved(&[], asked, is_own)?;
        let Some(said) = fd.path else {
            return Ok(path);
        };
        let real = self.told_path(said)?;
        let is_file = real.starts_with(b"/") && path.starts_with(b"/");
        if !is_file || outside(&path).is_some() || outside(&real).is_some() {
            return Ok(real);
        }
        if path == real {
            self.links.note_folder(split_last(&path).0)?;
        } else if asked == real.as_slice() {
            self.links.doubt(asked, true)?;
        } else if is_own {
            self.learn_again(asked, &real)?;
        } else {
            self.learn_folder(&path, &real)?;
        }
        Ok(real)
    }

    // A path that was opened leads to another than the links that are known let expect.
    fn learn_again(&mut self, asked: &[u8], real: &[u8]) -> Taken {
        let path = self.links.asked(asked)?;
        if split_last(&path).1 != split_last(real).1 {
            return self.learn(&path, real);
        }
        self.links.doubt(asked, false)?;
        let path = self.links.asked(asked)?;
        if path.as_slice() == real {
            return Ok(());
        }
        self.learn(&path, real)
    }

    // A path that leads to another is a link, unless both have the same last part: then its folder may be one.
    fn learn(&mut self, path: &[u8], real: &[u8]) -> Taken {
        let is_own = split_last(path).1 != split_last(real).1;
        self.note_link(path)?;
        let path = Vec::from_slice(self.alloc, path)?;
        let real = Vec::from_slice(self.alloc, real)?;
        if is_own {
            self.links.learn(path, real)?;
        } else {
            self.links.suppose(path, real)?;
        }
        Ok(())
    }

    /// What leads to another path is no link, but has a folder that leads to the other one's.
    pub(crate) fn learn_folder(&mut self, path: &[u8], real: &[u8]) -> Taken {
        let (folder, last) = split_last(path);
        let (real_folder, real_last) = split_last(real);
        if last == real_last && folder != real_folder {
            self.learn(folder, real_folder)?;
        }
        Ok(())
    }

    fn open_path(
        &mut self,
        process: &mut Process,
        fd: Fd<'_>,
        asked: Vec<u8>,
        ways: Ways,
    ) -> Taken {
        let path = self.links.resolved(&[], &asked, ways.follows)?;
        let real = self.real_path(fd, &asked, ways.follows)?;
        if let Some(pipe) = self.fifos.get(real.as_slice()) {
            let pipe = *pipe;
            return match pipe {
                Some(pipe) => self.open_fifo(process, fd, pipe, ways),
                None => self.hold_unsaid(process, fd, Skip::Fifo, real),
            };
        }
        if let Some(held) = self.own_opening(process, fd, &path) {
            return self.open_again(process, fd, held, real, ways);
        }
        if !real.starts_with(b"/") && fd.path.is_some() {
            return self.hold_unsaid(process, fd, Skip::Descriptor, real);
        }
        if let Some(skip) = outside(&real) {
            return self.hold_unsaid(process, fd, skip, real);
        }
        if self.is_folder(process, &real, ways)? {
            return self.open_folder(process, fd, real, ways);
        }
        self.open_file(process, fd, real, ways)
    }

    // Whether a path is that of a folder, as other names tell.
    fn is_folder(&self, process: &Process, path: &[u8], ways: Ways) -> Result<bool, LineFault> {
        if path == process.folder.as_slice() || path == b"/".as_slice() || self.opens_folder() {
            return Ok(true);
        }
        let may_be = ways.mode == Mode::Read && !ways.creates && path.starts_with(b"/");
        let is_unknown = matches!(self.files.named(path), Named::Unknown | Named::Absent);
        Ok(may_be && is_unknown && self.files.is_folder(self.alloc, path)?)
    }

    // The descriptor of its own that a process opens by a name such as /dev/fd/3.
    fn own_opening(&self, process: &Process, fd: Fd<'_>, path: &[u8]) -> Option<Held> {
        let number = own_descriptor(path)?;
        let held = process.held_at(number)?;
        let Some(said) = fd.path else {
            return Some(held);
        };
        let is_same = self.openings.get(held.opening)?.said.as_slice() == said;
        if is_same {
            return Some(held);
        }
        match (self.what(held.opening), self.alike(process, said)) {
            (_, Some(alike)) => Some(alike),
            (What::Given(_), None) => Some(held),
            (_, None) => None,
        }
    }

    // Opens what a descriptor is for: an end of a pipe is shared, a file is opened from its front.
    fn open_again(
        &mut self,
        process: &mut Process,
        fd: Fd<'_>,
        held: Held,
        path: Vec<u8>,
        ways: Ways,
    ) -> Taken {
        match self.what(held.opening) {
            What::File(file) if self.has_name(file) => {
                self.open_known(process, fd, file, path, ways)
            }
            What::Pipe { writes, .. } if writes == (ways.mode == Mode::Read) => {
                self.hold_unsaid(process, fd, Skip::Descriptor, path)
            }
            What::Given(_) if path.starts_with(b"/") && outside(&path).is_none() => {
                self.open_file(process, fd, path, ways)
            }
            // What was opened for its path alone is opened by that.
            What::Folder | What::Unsaid(_) if path.starts_with(b"/") => match outside(&path) {
                Some(skip) => self.hold_unsaid(process, fd, skip, path),
                None => self.open_file(process, fd, path, ways),
            },
            _ => self.hold(process, fd.number, held.opening, ways.closes),
        }
    }

    fn has_name(&self, file: usize) -> bool {
        match self.files.get(file) {
            Some(file) => file.shown.is_some(),
            None => false,
        }
    }

    fn open_fifo(&mut self, process: &mut Process, fd: Fd<'_>, pipe: usize, ways: Ways) -> Taken {
        let end = match self.pipes.get(pipe) {
            Some(pipe) => pipe.end(ways.mode == Mode::Write),
            None => return Ok(()),
        };
        if let (Some(said), Some(opening)) = (fd.path, self.openings.get_mut(end)) {
            opening.said = Vec::from_slice(self.alloc, said)?;
        }
        self.hold(process, fd.number, end, ways.closes)
    }

    fn open_file(&mut self, process: &mut Process, fd: Fd<'_>, path: Vec<u8>, ways: Ways) -> Taken {
        let mut named = self.files.named(&path);
        if let Named::File(file) = named {
            if !ways.excludes {
                return self.open_known(process, fd, file, path, ways);
            }
            // Its name must have gone by something that the text doesn't tell.
            self.unlink_path(process, file, &path)?;
            named = Named::Gone;
        }
        let is_stored = self.is_stored(&path)?;
        let was_there = match named {
            Named::Unknown => !ways.creates
                || !(ways.excludes || ways.cuts)
                || (is_stored && !ways.excludes),
            Named::Absent => !ways.creates,
            Named::Gone | Named::File(_) => false,
        };
        if was_there {
            let file = self.add_before(&path)?;
            return self.open_known(process, fd, file, path, ways);
        }
        if is_stored && !matches!(named, Named::Gone) {
            let name = self.spell(&path)?;
            self.stale.push(name)?;
        }
        self.make_file(process, fd, path, ways)
    }

    fn make_file(&mut self, process: &mut Process, fd: Fd<'_>, path: Vec<u8>, ways: Ways) -> Taken {
        let shown = self.shown(&path)?;
        let file = self.files.add(self.alloc, shown, Origin::Made)?;
        self.note_use(file, true, true)?;
        let own = path.clone()?;
        let Some(slot) = self.hold_file(process, fd, file, own, ways)? else {
            return Ok(());
        };
        if let Some(file) = self.files.get_mut(file) {
            file.written = ways.creates;
            file.unseen = !ways.creates;
            file.tagged = !ways.creates;
        }
        let Some(name) = self.name_in_trace(file)? else {
            return Ok(());
        };
        self.say(process, Command::Creat { fd: slot, name })?;
        if ways.creates {
            return Ok(());
        }
        // It was there, but process 1 can't make it, since it has made what had the name before.
        self.say_unknown(process, slot)?;
        self.skip_on(Skip::Descriptor, &path)
    }

    // Opens a file that is there.
    fn open_known(
        &mut self,
        process: &mut Process,
        fd: Fd<'_>,
        file: usize,
        path: Vec<u8>,
        ways: Ways,
    ) -> Taken {
        self.note_use(file, false, true)?;
        let Some(slot) = self.hold_file(process, fd, file, path, ways)? else {
            return Ok(());
        };
        let Some(name) = self.name_in_trace(file)? else {
            return self.skip(Skip::Descriptor);
        };
        let mode = ways.mode;
        self.say(
            process,
            Command::Open {
                fd: slot,
                name,
                mode,
            },
        )?;
        if !ways.cuts {
            return Ok(());
        }
        self.note_use(file, true, false)?;
        if let Some(file) = self.files.get_mut(file) {
            file.cut(0);
        }
        self.say(process, Command::Truncate { fd: slot, size: 0 })
    }

    // Gives a process a descriptor for a file, and a number in the trace.
    fn hold_file(
        &mut self,
        process: &mut Process,
        fd: Fd<'_>,
        file: usize,
        path: Vec<u8>,
        ways: Ways,
    ) -> Result<Option<u8>, LineFault> {
        let opening = self.add_opening(What::File(file), path, fd.path, ways.mode)?;
        if let Some(opening) = self.openings.get_mut(opening) {
            opening.appends = ways.appends;
        }
        self.hold(process, fd.number, opening, ways.closes)?;
        if self.is_left_out(file) {
            self.tell_left_out(file)?;
            return Ok(None);
        }
        let Some(slot) = self.free_slot(process)? else {
            self.skip(Skip::Descriptor)?;
            return Ok(None);
        };
        process.place(slot, opening, 0);
        Ok(Some(slot))
    }

    /// A file without a name, which the trace gives one that no path is spelled as.
    pub fn anonymous(&mut self, process: &mut Process, parts: &Parts<'_>) -> Taken {
        let ways = Ways {
            closes: parts.has(1, b"MFD_CLOEXEC"),
            ..Ways::CREAT
        };
        self.make_nameless(process, parts.given()?, ways)
    }

    fn make_nameless(&mut self, process: &mut Process, fd: Fd<'_>, ways: Ways) -> Taken {
        let mut name = Vec::from_slice(self.alloc, b"\0nameless ")?;
        let (alloc, count) = (self.alloc, self.files.files.len());
        let number = format!(in alloc; "{count}")?;
        name.extend_from_slice(number.as_bytes())?;
        let mut spelling = Vec::from_slice(self.alloc, b"%:n")?;
        spelling.extend_from_slice(number.as_bytes())?;
        let Some(text) = text_of(self.alloc, &spelling)? else {
            return Err(BAD);
        };
        let path = name.clone()?;
        let shown = Shown { path, name: text };
        let file = self.files.add(self.alloc, shown, Origin::Made)?;
        let Some(slot) = self.hold_file(process, fd, file, name, ways)? else {
            return Ok(());
        };
        match self.name_in_trace(file)? {
            Some(name) => self.say(process, Command::Creat { fd: slot, name }),
            None => Ok(()),
        }
    }

    pub fn duplicate(&mut self, process: &mut Process, parts: &Parts<'_>, closes: bool) -> Taken {
        let fd = parts.fd(0)?;
        let to = parts.given()?;
        if fd.number == to.number {
            return Ok(());
        }
        let Some(held) = self.held(process, fd)? else {
            return self.hold_unsaid(process, to, Skip::Descriptor, Vec::new(self.alloc));
        };
        self.hold(process, to.number, held.opening, closes)
    }

    pub fn control(&mut self, process: &mut Process, parts: &Parts<'_>) -> Taken {
        if parts.has(1, b"F_DUPFD") {
            return self.duplicate(process, parts, false);
        }
        if parts.has(1, b"F_DUPFD_CLOEXEC") {
            return self.duplicate(process, parts, true);
        }
        if parts.has(1, b"F_SETFD") {
            let fd = parts.fd(0)?.number;
            process.set_closes(fd, fd, parts.has(2, b"FD_CLOEXEC"));
        }
        if parts.has(1, b"F_SETFL") {
            return self.set_appends(process, parts.fd(0)?, parts.has(2, b"O_APPEND"));
        }
        if parts.has(1, b"F_GETFL") {
            let appends = parts.count()? & O_APPEND != 0;
            return self.set_appends(process, parts.fd(0)?, appends);
        }
        Ok(())
    }

    // Whether each write of an opening goes behind the file's end.
    fn set_appends(&mut self, process: &mut Process, fd: Fd<'_>, appends: bool) -> Taken {
        if let Some(held) = self.held(process, fd)? {
            if let Some(opening) = self.openings.get_mut(held.opening) {
                opening.appends = appends;
                opening.may_append = false;
            }
        }
        Ok(())
    }

    pub fn pipe(&mut self, process: &mut Process, parts: &Parts<'_>) -> Taken {
        let closes = parts.has(1, b"O_CLOEXEC");
        let pipe = self.pipes.len();
        let (mut ends, mut slots) = ([0usize; 2], [None; 2]);
        for end in 0..2usize {
            let fd = fd_among(parts.word(0), end).ok_or(BAD)?;
            let writes = end == 1;
            let path = self.told_path(fd.path.unwrap_or(&[]))?;
            let opening = self.add_opening(What::Pipe { pipe, writes }, path, fd.path, Mode::Both)?;
            self.hold(process, fd.number, opening, closes)?;
            ends[end] = opening;
            slots[end] = self.free_slot(process)?;
            if let Some(slot) = slots[end] {
                process.place(slot, opening, 0);
            }
        }
        self.pipes.add(ends[0], ends[1])?;
        match slots {
            [Some(reader), Some(writer)] => self.say(process, Command::Pipe { reader, writer }),
            [first, _] => {
                if let Some(slot) = first {
                    let _slot = process.vacate(slot);
                }
                self.skip(Skip::Descriptor)
            }
        }
    }

    pub fn close_one(&mut self, process: &mut Process, parts: &Parts<'_>) -> Taken {
        let fd = parts.fd(0)?.number;
        let (first, last, all) = (fd, fd, true);
        self.close(process, Range { first, last, all })
    }

    pub fn close_range(&mut self, process: &mut Process, parts: &Parts<'_>) -> Taken {
        // The last number may be written as one of 64 bits.
        let first = parts.fd(0)?.number;
        let last = match parts.fd(1) {
            Ok(fd) => fd.number,
            Err(_) => u32::MAX,
        };
        if parts.has(2, b"CLOSE_RANGE_CLOEXEC") {
            process.set_closes(first, last, true);
            return Ok(());
        }
        let all = true;
        self.close(process, Range { first, last, all })
    }
}
