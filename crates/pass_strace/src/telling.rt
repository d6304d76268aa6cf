//! What process 1 of a trace does before it begins the run: it makes what was there, and brings the store's files up to date.

use md5::{Digest, Md5};
use pass_descriptor::Output;
use pass_entry::{BLOCK_SIZE, Mode};
use pass_observed::{
    ATTRIBUTE, Before, Ending, File, Ledger, Origin, SIZE, Stored, StoredFile, UNKNOWN, text_of,
};
use pass_syscall::{BAD, LineFault, Skip, Taken};
use pass_trace::Command;
use pass_transfer::payload_of;
use std::alloc::{AllocError, Global};

#[derive(Drop)]
pub(crate) struct Telling<'a> {
    pub(crate) alloc: Global,
    pub(crate) stored: &'a Stored,
    pub(crate) out: &'a mut Output,
    pub(crate) ledger: &'a mut Ledger,
}

// Where a block begins.
fn start_of(block: usize) -> usize {
    block.saturating_mul(BLOCK_SIZE as usize)
}

impl Telling<'_> {
    fn say(&mut self, command: Command) -> Result<(), AllocError> {
        self.out.push(0, 1, command)
    }

    // The lines by which a file that was there before comes into being, or is what it was when the run read it.
    pub(crate) fn tell(&mut self, file: &File) -> Result<(), LineFault> {
        if file.origin != Origin::Before {
            return Ok(());
        }
        let before = file.image.before(self.alloc)?;
        match self.stored.named(file.first.name.as_bytes()) {
            Some(stored) => self.update(file, &before, stored),
            None => self.make(file, &before),
        }
    }

    // Bytes that nobody read are zeros, and the version says that they aren't known.
    fn make(&mut self, file: &File, before: &Before) -> Result<(), LineFault> {
        let name = file.first.name.clone()?;
        self.say(Command::Creat { fd: 0, name })?;
        self.fill(before)?;
        if !before.is_whole() || file.is_seen_in_memory() {
            self.tag(file)?;
        }
        self.say_more(file, before)?;
        Ok(self.say(Command::Close { fd: 0 })?)
    }

    // The version of a file of which process 1 has made a front says how long the file was.
    fn say_more(&mut self, file: &File, before: &Before) -> Taken {
        let kept = before.bytes.len() as u64;
        match file.ending(kept) {
            Some(Ending::Here) | None => Ok(()),
            Some(ending) => self.say_ending(ending, kept),
        }
    }

    // The version, with so many bytes, says where its file ended.
    fn say_ending(&mut self, ending: Ending, kept: u64) -> Taken {
        let alloc = self.alloc;
        let value = match ending {
            Ending::Here => text_of(alloc, format!(in alloc; "{kept}")?.as_bytes())?,
            Ending::Behind(size) => text_of(alloc, format!(in alloc; "{size}")?.as_bytes())?,
            Ending::Unknown => text_of(alloc, UNKNOWN.as_bytes())?,
        };
        let value = value.ok_or(BAD)?;
        let attr = text_of(alloc, SIZE.as_bytes())?.ok_or(BAD)?;
        Ok(self.say(Command::Tag { fd: 0, attr, value })?)
    }

    // What was read goes to a file without bytes.
    fn fill(&mut self, before: &Before) -> Result<(), AllocError> {
        let mut place = 0;
        for block in 0..before.count_blocks() {
            let at = start_of(block);
            if before.shows_any(at) {
                place = self.write(before, at, place)?;
            }
        }
        let size = before.bytes.len() as u64;
        if place != size {
            self.say(Command::Truncate { fd: 0, size })?;
        }
        Ok(())
    }

    // A file of which the store doesn't know all bytes, and the run shows all, is written anew.
    fn make_again(&mut self, file: &File, before: &Before) -> Taken {
        self.open(file)?;
        self.say(Command::Truncate { fd: 0, size: 0 })?;
        self.fill(before)?;
        self.say_more(file, before)?;
        Ok(self.say(Command::Close { fd: 0 })?)
    }

    // Writes a block at a place from another, and answers the place behind it.
    fn write(&mut self, before: &Before, at: usize, place: u64) -> Result<u64, AllocError> {
        let off = at as u64;
        if place != off {
            self.say(Command::Seek { fd: 0, off })?;
        }
        let piece = Vec::from_slice(self.alloc, before.piece(at))?;
        let end = off.saturating_add(piece.len() as u64);
        let payload = payload_of(piece);
        self.say(Command::Write { fd: 0, payload })?;
        Ok(end)
    }

    fn tag(&mut self, file: &File) -> Result<(), LineFault> {
        let attr = text_of(self.alloc, ATTRIBUTE.as_bytes())?.ok_or(BAD)?;
        let value = text_of(self.alloc, UNKNOWN.as_bytes())?.ok_or(BAD)?;
        self.say(Command::Tag { fd: 0, attr, value })?;
        Ok(self.ledger.tell(0, Skip::Bytes, file.path())?)
    }

    // What has changed since the store had it is written again; what hasn't stays as it is.
    fn update(
        &mut self,
        file: &File,
        before: &Before,
        stored: &StoredFile,
    ) -> Result<(), LineFault> {
        let size = before.bytes.len() as u64;
        let is_seen = before.is_whole() && !file.is_seen_in_memory();
        let is_known = is_seen && (before.most == size || stored.size <= size);
        if stored.unseen && is_seen && before.most == size {
            return self.make_again(file, before);
        }
        let is_changed = self.write_changes(file, before, stored)?;
        let is_shown = is_known && !stored.unseen;
        if is_changed && !is_shown {
            self.tag(file)?;
        }
        let is_open = self.correct_ending(file, before, stored, is_changed)?;
        if is_open {
            self.say(Command::Close { fd: 0 })?;
        }
        let is_used = 0 < size || file.is_seen_in_memory();
        if !is_changed && !file.written && is_used && !is_known {
            self.ledger.tell(0, Skip::Part, file.path())?;
        }
        Ok(())
    }

    // Writes what has changed, and cuts the file where it is shorter. Whether anything has, so that the file is open.
    fn write_changes(
        &mut self,
        file: &File,
        before: &Before,
        stored: &StoredFile,
    ) -> Result<bool, AllocError> {
        let size = before.bytes.len() as u64;
        let is_shorter = before.most < stored.size;
        let written = self.write_blocks(file, before, stored)?;
        let is_longer = stored.size.max(written.unwrap_or(0)) < size;
        if is_shorter || is_longer {
            if written.is_none() {
                self.open(file)?;
            }
            let size = if is_shorter { before.most } else { size };
            self.say(Command::Truncate { fd: 0, size })?;
        }
        Ok(written.is_some() || is_shorter || is_longer)
    }

    // Says where the file ends that is open or not, where the store's records say otherwise. Whether it is open then.
    fn correct_ending(
        &mut self,
        file: &File,
        before: &Before,
        stored: &StoredFile,
        is_open: bool,
    ) -> Result<bool, LineFault> {
        let size = before.bytes.len() as u64;
        let kept = stored.size.max(size).min(before.most);
        let taken = stored.ends.resized(stored.size, kept);
        let was_behind = matches!(stored.ends, Ending::Behind(end) if kept <= end);
        let ending = match file.ending(kept) {
            // Nothing tells that it has another end by now.
            Some(Ending::Unknown) if !is_open || was_behind => return Ok(is_open),
            Some(ending) if ending != taken => ending,
            _ => return Ok(is_open),
        };
        if !is_open {
            self.open(file)?;
        }
        self.say_ending(ending, kept)?;
        Ok(true)
    }

    // Writes the blocks that have changed. The place behind the last of them, where there is one, so that the file is open.
    fn write_blocks(
        &mut self,
        file: &File,
        before: &Before,
        stored: &StoredFile,
    ) -> Result<Option<u64>, AllocError> {
        let mut place = None;
        for block in 0..before.count_blocks() {
            let at = start_of(block);
            if self.has_changed(before, block, stored) {
                if place.is_none() {
                    self.open(file)?;
                }
                place = Some(self.write(before, at, place.unwrap_or(0))?);
            }
        }
        Ok(place)
    }

    fn open(&mut self, file: &File) -> Result<(), AllocError> {
        let name = file.first.name.clone()?;
        let mode = Mode::Write;
        self.say(Command::Open { fd: 0, name, mode })
    }

    // Whether a block isn't what the store has there. Of one that was read in part that isn't known.
    fn has_changed(&self, before: &Before, block: usize, stored: &StoredFile) -> bool {
        let at = start_of(block);
        let size = stored.size.max(before.bytes.len() as u64).min(before.most);
        let len = size.saturating_sub(at as u64).min(BLOCK_SIZE) as usize;
        if !before.shows_all(at, len) {
            return false;
        }
        let piece = before.piece(at);
        let block = u32::try_from(block).unwrap_or(u32::MAX);
        match stored.digest(block) {
            Some(digest) => Md5::digest(piece) != *digest
                || stored.size < at.saturating_add(len) as u64,
            None => !piece.is_empty(),
        }
    }
}
