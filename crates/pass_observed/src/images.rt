//! What a run tells of the bytes that were in a file before it.

use crate::endings::Ending;
use pass_entry::{BLOCK_SIZE, FILE_LIMIT};
use std::alloc::{AllocError, Global};

// A call that tells of bytes: those that it read, or that it wrote over what was there.
#[derive(Drop)]
enum Telling {
    Read { at: u64, bytes: Vec<u8> },
    Written { at: u64, end: u64 },
}

#[derive(Drop)]
pub struct Image {
    tellings: Vec<Telling>,
    /// How far bytes were read that had been there before.
    reached: u64,
    /// How far bytes are known from the front on without a gap.
    known: u64,
    /// The least size that the file was cut to.
    cut: u64,
    /// How far the run wrote, and from where on it wrote all bytes up to there.
    grown: u64,
    own: u64,
    /// Where a read met the end of what was there before.
    end: Option<u64>,
    /// Where it ended, as a call tells that moves no bytes.
    told: Option<u64>,
    /// Where it ended at most, as a read tells that found nothing behind what was reached.
    most: u64,
}

/// The bytes that were there before a run, as far as it reached, and those of them that it showed.
#[derive(Drop)]
pub struct Before {
    pub bytes: Vec<u8>,
    seen: Vec<bool>,
    /// Where they ended at most.
    pub most: u64,
}

impl Image {
    pub fn new(alloc: Global) -> Image {
        Image {
            tellings: Vec::new(alloc),
            reached: 0,
            known: 0,
            cut: FILE_LIMIT,
            grown: 0,
            own: 0,
            end: None,
            told: None,
            most: FILE_LIMIT,
        }
    }

    /// So many bytes were read at a place, where these are the first of them, and as many as were asked for or not.
    pub fn read(
        &mut self,
        at: u64,
        count: u64,
        bytes: Vec<u8>,
        short: bool,
    ) -> Result<(), AllocError> {
        let end = at.saturating_add(count).min(FILE_LIMIT);
        if self.cut < end || FILE_LIMIT <= at {
            return Ok(());
        }
        let is_end = short && self.grown < end && self.cut == FILE_LIMIT;
        if count == 0 && self.reached < at {
            if is_end {
                self.most = self.most.min(end);
            }
            return Ok(());
        }
        if is_end {
            self.end = Some(end);
        }
        let old = self.old_end(end);
        if at < old {
            self.reached = self.reached.max(old);
        }
        let shown = at.saturating_add(bytes.len() as u64);
        if at <= self.known {
            self.known = self.known.max(shown);
        }
        if !bytes.is_empty() {
            self.tellings.push(Telling::Read { at, bytes })?;
        }
        Ok(())
    }

    // Where those bytes end that were there before, of some that end at a place.
    fn old_end(&self, place: u64) -> u64 {
        let old = match self.size() {
            Some(size) if size < self.grown => place.min(size),
            _ => place,
        };
        if self.own < place && place <= self.grown {
            old.min(self.own)
        } else {
            old
        }
    }

    // The run writes a range: the bytes that it wrote last without a gap may begin there.
    fn grow(&mut self, at: u64, end: u64) {
        let is_apart = self.grown < at || self.grown == self.own;
        if is_apart || (at < self.own && self.own <= end) {
            self.own = at;
        }
        self.grown = self.grown.max(end);
    }

    pub fn write(&mut self, at: u64, count: u64) -> Result<(), AllocError> {
        let end = at.saturating_add(count).min(FILE_LIMIT);
        if at < end {
            if at <= self.known {
                self.known = self.known.max(end);
            }
            self.grow(at, end);
            self.tellings.push(Telling::Written { at, end })?;
        }
        Ok(())
    }

    pub fn cut(&mut self, size: u64) {
        self.cut = self.cut.min(size);
    }

    /// It had so many bytes, where the run hasn't changed that yet.
    pub fn measure(&mut self, size: u64) {
        if self.grown == 0 && self.cut == FILE_LIMIT {
            self.told = Some(size);
        }
    }

    /// Whether its end is known.
    pub(crate) fn has_end(&self) -> bool {
        self.end.is_some() || self.told.is_some() || self.cut < FILE_LIMIT
    }

    /// Where it ended before the run, as far as a call tells that.
    pub(crate) fn told(&self) -> Option<u64> {
        self.told
    }

    /// How many bytes it had before the run, as far as that is known.
    pub(crate) fn size(&self) -> Option<u64> {
        match self.told_size() {
            Some(size) if self.reached <= size => Some(size),
            _ => None,
        }
    }

    // How many it had when a call told that.
    fn told_size(&self) -> Option<u64> {
        match (self.end, self.told) {
            (Some(end), Some(told)) => Some(end.max(told)),
            (Some(size), None) | (None, Some(size)) => Some(size),
            (None, None) => None,
        }
    }

    /// Whether a store's file of this size, of which a front of the file before the run may be left, has all bytes that are left of it.
    pub(crate) fn is_kept(&self, size: u64, ends: Ending) -> bool {
        match self.size() {
            Some(known) => known == size,
            None => {
                let may_end_there = self.reached <= size && size <= self.most;
                may_end_there && (ends == Ending::Here || self.cut <= size)
            }
        }
    }

    /// Where it ended before the run, by the end of a store's file of this size; None where the run cut it.
    pub(crate) fn ending(&self, size: u64) -> Option<Ending> {
        if self.cut < FILE_LIMIT {
            return None;
        }
        match self.size() {
            Some(known) => Some(Ending::of(known, size)),
            None => Some(Ending::Unknown),
        }
    }

    /// Whether it may have bytes up to a place that were neither shown, nor written nor cut off by the run.
    pub fn hides(&self, place: u64) -> bool {
        let end = match (self.end, self.told) {
            (Some(end), _) | (None, Some(end)) => end,
            (None, None) => self.most,
        };
        self.known < place.min(end).min(self.cut)
    }

    /// Whether each byte of a range was shown, or written by the run.
    pub fn knows(&self, at: u64, count: u64) -> bool {
        at.saturating_add(count) <= self.known
    }

    /// The bytes as they were before the run: those that it read before it wrote over them.
    pub fn before(&self, alloc: Global) -> Result<Before, AllocError> {
        let len = self.reached as usize;
        let most = self.told_size().unwrap_or(self.most);
        let mut before = Before {
            bytes: vec![in alloc; 0u8; len]?,
            seen: vec![in alloc; false; len]?,
            most: most.max(self.reached),
        };
        let mut over = vec![in alloc; false; len]?;
        for telling in &self.tellings {
            match telling {
                Telling::Read { at, bytes } => before.show(&over, *at as usize, bytes),
                Telling::Written { at, end } => {
                    let (at, end) = (*at as usize, (*end as usize).min(over.len()));
                    if at < end {
                        over[at..end].fill(true);
                    }
                }
            }
        }
        Ok(before)
    }
}

impl Before {
    fn show(&mut self, over: &[bool], at: usize, bytes: &[u8]) {
        for (place, byte) in bytes.iter().enumerate() {
            let place = at.saturating_add(place);
            let hidden = place >= over.len() || over[place];
            if !hidden && place < self.seen.len() && place < self.bytes.len() {
                self.seen[place] = true;
                self.bytes[place] = *byte;
            }
        }
    }

    pub fn count_blocks(&self) -> usize {
        self.bytes.len().div_ceil(BLOCK_SIZE as usize)
    }

    pub fn is_whole(&self) -> bool {
        self.seen.iter().all(|seen| *seen)
    }

    /// A part of it, up to a block, from a place on.
    pub fn piece(&self, at: usize) -> &[u8] {
        let end = at.saturating_add(BLOCK_SIZE as usize).min(self.bytes.len());
        if at <= end { &self.bytes[at..end] } else { &[] }
    }

    pub fn shows_any(&self, at: usize) -> bool {
        let end = at.saturating_add(BLOCK_SIZE as usize).min(self.seen.len());
        at <= end && self.seen[at..end].iter().any(|seen| *seen)
    }

    /// Whether it shows so many bytes from a place on.
    pub fn shows_all(&self, at: usize, count: usize) -> bool {
        let end = at.saturating_add(count);
        at <= end && end <= self.seen.len() && self.seen[at..end].iter().all(|seen| *seen)
    }
}
