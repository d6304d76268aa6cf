//! What is known of a run by its calls so far, and the lines that they are in the trace.

use crate::output::Output;
use pass_entry::{Mode, Text};
use pass_observed::{
    ATTRIBUTE, Files, Ledger, Links, Loaders, Named, Origin, Pipes, Process, Shown, Stored, Survey,
    Touch, UNKNOWN, below, joined, name_of, outside, text_of,
};
use pass_syscall::{BAD, Base, LineFault, Parts, Skip, Taken, unescaped};
use pass_trace::Command;
use std::alloc::{AllocError, Global};
use std::collections::{BTreeMap, BTreeSet};
use std::mem;

/// What a descriptor was opened as.
#[derive(Clone, Copy, PartialEq)]
pub enum What {
    /// What the run was given as the descriptor with this number, as long as it isn't known what that is.
    Given(u32),
    File(usize),
    Pipe { pipe: usize, writes: bool },
    Folder,
    Unsaid(Skip),
}

/// An opening, which descriptors of several processes share: its path, and its position where it is a file.
#[derive(Drop)]
pub struct Opening {
    pub what: What,
    pub path: Vec<u8>,
    /// The same as strace last wrote it.
    pub said: Vec<u8>,
    /// The line of the call that gave it.
    pub line: u64,
    pub at: u64,
    /// Its position isn't known, since no call of the run opened it.
    pub floats: bool,
    pub appends: bool,
    /// Whether it appends isn't known, for the same reason.
    pub may_append: bool,
    pub mode: Mode,
}

/// What an earlier reading of a run has shown: the files that are left out, since there are too many, those of which the run as a whole
/// shows all bytes that it used, and those that no longer ended where the store's do.
#[derive(Drop)]
pub struct Known {
    pub left_out: BTreeSet<usize>,
    pub shown: BTreeSet<usize>,
    pub changed: BTreeSet<usize>,
}

impl Known {
    pub fn nothing(alloc: Global) -> Known {
        Known {
            left_out: BTreeSet::new(alloc),
            shown: BTreeSet::new(alloc),
            changed: BTreeSet::new(alloc),
        }
    }

    pub fn is_empty(&self) -> bool {
        self.left_out.is_empty() && self.shown.is_empty() && self.changed.is_empty()
    }
}

/// What an earlier reading has shown of names that it had taken for those of files: the links that were there before the run, and the
/// lines of the calls that opened folders.
#[derive(Drop)]
pub struct Beginning {
    pub links: Links,
    pub folders: BTreeSet<u64>,
}

/// What is known of a run before its calls are taken.
#[derive(Clone, Copy)]
pub struct Setting<'a> {
    pub stored: &'a Stored,
    /// The folder below which names are relative, or no bytes.
    pub root: &'a [u8],
    /// The absolute path of where the run began, or no bytes.
    pub base: &'a [u8],
    /// What loads programs, as far as that was looked for.
    pub loaders: &'a Loaders,
    pub start: Option<&'a Beginning>,
    pub known: &'a Known,
}

impl<'a> Setting<'a> {
    pub fn of(
        survey: &'a Survey,
        stored: &'a Stored,
        root: &'a [u8],
        loaders: &'a Loaders,
        known: &'a Known,
    ) -> Setting<'a> {
        let base = survey.base.as_slice();
        Setting {
            stored,
            root,
            base,
            loaders,
            start: None,
            known,
        }
    }

    /// The same with what the reading before has shown of the start.
    pub fn from(&self, start: &'a Option<Beginning>) -> Setting<'a> {
        let start = start.as_ref();
        Setting { start, ..*self }
    }

    /// The same with what the reading before has shown.
    pub fn knowing(&self, known: &'a Known) -> Setting<'a> {
        Setting { known, ..*self }
    }
}

/// A program that a process ran, or the interpreter of a script.
#[derive(Drop)]
pub struct Program {
    /// Its path when it was run.
    pub path: Vec<u8>,
    /// It was written to since, or has another name.
    pub changed: bool,
}

// A file that was run: its path, and how often it had been written to.
#[derive(Drop)]
struct Ran {
    file: usize,
    path: Vec<u8>,
    writes: u64,
}

#[derive(Drop)]
pub struct Run<'a> {
    pub alloc: Global,
    pub setting: Setting<'a>,
    pub openings: Vec<Opening>,
    pub files: Files,
    pub pipes: Pipes,
    pub links: Links,
    /// The pipes of the FIFOs, by their paths; none where there are too many.
    pub fifos: BTreeMap<Vec<u8>, Option<usize>>,
    /// The names that the store has of files that were no longer there when the run began.
    pub stale: Vec<Text>,
    /// The line where the call stands that is told now, its lines and its process, and its name.
    pub line: u64,
    pub touch: Touch,
    pub call: &'static [u8],
    pub out: Output,
    pub ledger: Ledger,
    /// The files that were copied before their bytes were shown.
    pub copied: BTreeSet<usize>,
    /// How many changes there were of files that processes share in memory.
    pub changes: u64,
    /// The lines of the calls that opened folders which were taken for files.
    folders: BTreeSet<u64>,
    /// A file had a name that is a link's, or one below it, before that was told.
    was_led: bool,
    ran: Vec<Ran>,
}

impl<'a> Run<'a> {
    pub fn new(alloc: Global, setting: Setting<'a>) -> Run<'a> {
        Run {
            alloc,
            setting,
            openings: Vec::new(alloc),
            files: Files::new(alloc),
            pipes: Pipes::new(alloc),
            links: Links::new(alloc),
            fifos: BTreeMap::new(alloc),
            stale: Vec::new(alloc),
            line: 0,
            touch: Touch {
                process: 0,
                begun: 0,
                ended: 0,
            },
            call: b"",
            out: Output::new(alloc),
            ledger: Ledger::new(alloc),
            copied: BTreeSet::new(alloc),
            changes: 0,
            folders: BTreeSet::new(alloc),
            was_led: false,
            ran: Vec::new(alloc),
        }
    }

    /// Takes what was there at the start, as the reading before has shown.
    pub fn begin(&mut self) -> Taken {
        let Some(start) = self.setting.start else {
            return Ok(());
        };
        self.links = start.links.beginning()?;
        for path in &self.links.paths()? {
            if self.is_stored(path)? {
                self.ledger.tell(self.line, Skip::Link, path)?;
            }
        }
        Ok(())
    }

    /// What a further reading has to know from the front on, where this one took names for those of files.
    pub fn start(&mut self) -> Option<Beginning> {
        if !self.was_led && self.folders.is_empty() {
            return None;
        }
        let links = mem::replace(&mut self.links, Links::new(self.alloc));
        let folders = mem::replace(&mut self.folders, BTreeSet::new(self.alloc));
        Some(Beginning { links, folders })
    }

    /// A path turns out to be a link. What had its name before, here or in the store, is a file that has another one, too.
    pub(crate) fn note_link(&mut self, path: &[u8]) -> Taken {
        if self.links.is_known(path) {
            return Ok(());
        }
        let is_named = matches!(self.files.named(path), Named::File(_))
            || self.files.is_folder(self.alloc, path)?;
        let was_there = !self.links.has_changed(path);
        self.was_led = self.was_led || (is_named && was_there);
        if is_named || (was_there && self.is_stored(path)?) {
            self.ledger.tell(self.line, Skip::Link, path)?;
        }
        Ok(())
    }

    /// A descriptor turns out to be a folder's, and what it is for was taken for a file.
    pub(crate) fn note_folder(&mut self, opening: usize) -> Result<(), AllocError> {
        if self.file_of(opening).is_some() {
            if let Some(opened) = self.openings.get(opening) {
                self.folders.insert(opened.line)?;
            }
        }
        Ok(())
    }

    /// Whether the call that is told now opens a folder, as an earlier reading has shown.
    pub(crate) fn opens_folder(&self) -> bool {
        match self.setting.start {
            Some(start) => start.folders.contains(&self.line),
            None => false,
        }
    }

    /// A file is run as a program.
    pub fn note_program(&mut self, file: usize) -> Result<(), AllocError> {
        if let Some(one) = self.files.get(file) {
            let path = Vec::from_slice(self.alloc, one.path())?;
            let writes = one.writes;
            self.ran.push(Ran { file, path, writes })?;
        }
        Ok(())
    }

    /// The programs of the run, each as often as it was run.
    pub fn programs(&self) -> Result<Vec<Program>, AllocError> {
        let mut programs = Vec::new(self.alloc);
        for ran in &self.ran {
            let path = ran.path.clone()?;
            let changed = self.has_changed(ran);
            programs.push(Program { path, changed })?;
        }
        Ok(programs)
    }

    fn has_changed(&self, ran: &Ran) -> bool {
        match self.files.get(ran.file) {
            Some(file) => match &file.shown {
                Some(shown) => file.writes != ran.writes
                    || shown.path.as_slice() != ran.path.as_slice(),
                None => true,
            },
            None => true,
        }
    }

    pub fn say(&mut self, process: &Process, command: Command) -> Taken {
        Ok(self.out.push(self.line, process.number, command)?)
    }

    /// The version of a descriptor's file has bytes that the text doesn't show.
    pub fn say_unknown(&mut self, process: &Process, fd: u8) -> Taken {
        let attr = text_of(self.alloc, ATTRIBUTE.as_bytes())?.ok_or(BAD)?;
        let value = text_of(self.alloc, UNKNOWN.as_bytes())?.ok_or(BAD)?;
        self.say(process, Command::Tag { fd, attr, value })
    }

    /// The call that is told now is in no line of the trace.
    pub fn skip(&mut self, skip: Skip) -> Taken {
        Ok(self.ledger.skip(self.line, skip, self.call)?)
    }

    /// The same of one on a file.
    pub fn skip_on(&mut self, skip: Skip, path: &[u8]) -> Taken {
        if path.is_empty() {
            return self.skip(skip);
        }
        Ok(self.ledger.skip(self.line, skip, path)?)
    }

    /// The path that strace wrote behind a descriptor; what is no path isn't escaped.
    pub(crate) fn told_path(&self, said: &[u8]) -> Result<Vec<u8>, LineFault> {
        if said.starts_with(b"\\x") {
            unescaped(self.alloc, said)
        } else {
            Ok(Vec::from_slice(self.alloc, said)?)
        }
    }

    /// The path of the name at a place, through the links that are known; the last part's own only where it is followed.
    pub fn path_of(
        &mut self,
        process: &mut Process,
        parts: &Parts<'_>,
        place: usize,
        below: bool,
        follows: bool,
    ) -> Result<Vec<u8>, LineFault> {
        let path = self.spelled_path(process, parts, place, below)?;
        Ok(self.links.resolved(&[], &path, follows)?)
    }

    /// The same as it is spelled, which may stand behind its folder. No link leads to a folder that strace tells.
    pub(crate) fn spelled_path(
        &mut self,
        process: &mut Process,
        parts: &Parts<'_>,
        place: usize,
        below: bool,
    ) -> Result<Vec<u8>, LineFault> {
        let name = parts.bytes(self.alloc, place)?;
        let base = parts.base(place, below)?;
        if let Base::Own(Some(said)) = base {
            process.folder = self.told_path(said)?;
            self.links.note_folder(&process.folder)?;
        }
        let path = match base {
            Base::Own(_) => joined(self.alloc, &process.folder, &name)?,
            Base::Held(fd) => match (fd.path, process.held_at(fd.number)) {
                (Some(said), _) => {
                    let folder = self.told_path(said)?;
                    self.links.note_folder(&folder)?;
                    joined(self.alloc, &folder, &name)?
                }
                (None, Some(held)) => joined(self.alloc, self.opened_path(held.opening), &name)?,
                (None, None) => joined(self.alloc, &[], &name)?,
            },
        };
        Ok(path)
    }

    pub fn opened_path(&self, opening: usize) -> &[u8] {
        match self.openings.get(opening) {
            Some(opening) => opening.path.as_slice(),
            None => &[],
        }
    }

    /// The name of a path in the trace.
    pub(crate) fn spell(&self, path: &[u8]) -> Result<Text, LineFault> {
        let short = below(self.setting.root, path).unwrap_or(path);
        name_of(self.alloc, short)?.ok_or(BAD)
    }

    pub fn shown(&self, path: &[u8]) -> Result<Shown, LineFault> {
        Ok(Shown {
            path: Vec::from_slice(self.alloc, path)?,
            name: self.spell(path)?,
        })
    }

    /// Whether the store has a file of this path from before.
    pub(crate) fn is_stored(&self, path: &[u8]) -> Result<bool, LineFault> {
        let name = self.spell(path)?;
        Ok(self.setting.stored.named(name.as_bytes()).is_some())
    }

    /// Whether the store has no room for a file. What is known of it is kept all the same, so that both readings of a text find the
    /// same files.
    pub fn is_left_out(&self, file: usize) -> bool {
        self.setting.known.left_out.contains(&file)
    }

    /// Tells that the store has no room for a file.
    pub fn tell_left_out(&mut self, file: usize) -> Taken {
        match self.files.get(file) {
            Some(file) => Ok(self.ledger.skip(self.line, Skip::Files, file.path())?),
            None => Ok(()),
        }
    }

    /// The file of a path that is there: where nothing is known of it, one that was there before the run is added.
    pub fn find_or_add(&mut self, path: &[u8]) -> Result<Option<usize>, LineFault> {
        if let Some(skip) = outside(path) {
            self.skip_on(skip, path)?;
            return Ok(None);
        }
        match self.files.named(path) {
            Named::File(file) => Ok(Some(file)),
            Named::Unknown | Named::Absent => Ok(Some(self.add_before(path)?)),
            Named::Gone => {
                self.skip_on(Skip::Descriptor, path)?;
                Ok(None)
            }
        }
    }

    /// Adds a file that was there before the run, with the size that it has in the store.
    pub(crate) fn add_before(&mut self, path: &[u8]) -> Result<usize, LineFault> {
        let shown = self.shown(path)?;
        let stored = self.setting.stored.named(shown.name.as_bytes());
        let kept = stored.map(|stored| (stored.size, !stored.unseen, stored.ends));
        let place = self.files.add(self.alloc, shown, Origin::Before)?;
        let is_changed = self.setting.known.changed.contains(&place);
        if let (Some((size, is_seen, ends)), Some(file)) = (kept, self.files.get_mut(place)) {
            file.keep(size, is_seen && !is_changed, ends);
        }
        Ok(place)
    }

    /// The name of a file in the trace, where it has one.
    pub fn name_in_trace(&self, file: usize) -> Result<Option<Text>, AllocError> {
        match self.files.get(file) {
            Some(file) => match &file.shown {
                Some(shown) => Ok(Some(shown.name.clone()?)),
                None => Ok(None),
            },
            None => Ok(None),
        }
    }

    pub fn add_opening(
        &mut self,
        what: What,
        path: Vec<u8>,
        said: Option<&[u8]>,
        mode: Mode,
    ) -> Result<usize, AllocError> {
        let place = self.openings.len();
        self.openings.push(Opening {
            what,
            path,
            said: Vec::from_slice(self.alloc, said.unwrap_or(&[]))?,
            line: self.line,
            at: 0,
            floats: false,
            appends: false,
            may_append: false,
            mode,
        })?;
        Ok(place)
    }

    pub fn what(&self, opening: usize) -> What {
        match self.openings.get(opening) {
            Some(opening) => opening.what,
            None => What::Unsaid(Skip::Descriptor),
        }
    }

    pub fn file_of(&self, opening: usize) -> Option<usize> {
        match self.what(opening) {
            What::File(file) => Some(file),
            _ => None,
        }
    }

    /// Tells where a call on a file, or on its name, overlapped with another process's, and one of them changed it.
    pub fn note_use(&mut self, file: usize, changes: bool, name: bool) -> Taken {
        let touch = self.touch;
        let Some(one) = self.files.get_mut(file) else {
            return Ok(());
        };
        let meets = if name {
            one.naming.note(touch, changes)
        } else {
            one.content.note(touch, changes)
        };
        if one.shared && changes && !name {
            self.changes = self.changes.saturating_add(1);
        }
        if meets {
            let skip = if name {
                Skip::OverlapName
            } else {
                Skip::OverlapFile
            };
            self.ledger.tell(self.line, skip, one.path())?;
        }
        Ok(())
    }

    /// The same where two processes read a pipe, or two write to it.
    pub fn note_pipe(&mut self, pipe: usize, writes: bool) -> Taken {
        let touch = self.touch;
        let Some(one) = self.pipes.get_mut(pipe) else {
            return Ok(());
        };
        let opening = one.end(writes);
        let meets = if writes {
            one.writes.note(touch, true)
        } else {
            one.reads.note(touch, true)
        };
        if meets {
            self.tell_pipe(opening)?;
        }
        Ok(())
    }

    /// Tells of a pipe that the order of its calls isn't known.
    pub fn tell_pipe(&mut self, opening: usize) -> Taken {
        let mut what = Vec::from_slice(self.alloc, self.opened_path(opening))?;
        if what.is_empty() {
            what.extend_from_slice(b"pipe")?;
        }
        Ok(self.ledger.tell(self.line, Skip::OverlapPipe, &what)?)
    }
}
