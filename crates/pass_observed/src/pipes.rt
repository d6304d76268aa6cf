//! How full the pipes of a trace are, and how many processes have their ends.

use crate::overlaps::Touches;
use pass_entry::PIPE_CAPACITY;
use std::alloc::{AllocError, Global};

/// How many bytes a pipe of the trace keeps for later readers, while the run's holds as many more.
const KEPT: u64 = 64;

/// What a read takes from a pipe of the trace.
#[derive(Clone, Copy)]
pub enum Taking {
    Bytes(u64),
    /// Nothing, as its process has taken what there is to know of.
    Enough,
    /// Nothing, as it would wait.
    Nothing,
}

#[derive(Drop)]
pub struct Pipe {
    /// The openings of its two ends.
    pub reader: usize,
    pub writer: usize,
    /// How many processes of the trace have these.
    readers: u64,
    writers: u64,
    /// How many bytes it holds in the trace, and how many it held in the run.
    bytes: u64,
    held: u64,
    /// The process that took last, where nothing was written since.
    taker: Option<u32>,
    pub reads: Touches,
    pub writes: Touches,
}

#[derive(Drop)]
pub struct Pipes {
    pipes: Vec<Pipe>,
}

impl Pipe {
    /// Takes what a process's read of so many bytes takes in the trace. As long as the run's pipe holds more, the trace's keeps some
    /// too, of which a process that hasn't taken what was written last takes one.
    pub fn take(&mut self, process: u32, count: u64) -> Taking {
        if count == 0 {
            return if self.bytes == 0 && self.writers == 0 {
                Taking::Bytes(0)
            } else {
                Taking::Nothing
            };
        }
        let is_held = count <= self.held;
        self.held = self.held.saturating_sub(count);
        let taken = count.min(self.bytes.saturating_sub(self.held.min(KEPT)));
        if taken == 0 && is_held && self.taker == Some(process) {
            return Taking::Enough;
        }
        let taken = taken.max(self.bytes.min(1));
        if taken == 0 {
            return Taking::Nothing;
        }
        self.bytes = self.bytes.saturating_sub(taken);
        self.taker = Some(process);
        Taking::Bytes(taken)
    }

    /// Takes a byte in the trace alone.
    pub fn show(&mut self) -> u64 {
        let taken = self.bytes.min(1);
        self.bytes = self.bytes.saturating_sub(taken);
        taken
    }

    /// Adds what a write of so many bytes adds in the trace: None where nobody may read it.
    pub fn add(&mut self, count: u64) -> Option<u64> {
        if self.readers == 0 {
            return None;
        }
        let added = count.min((PIPE_CAPACITY as u64).saturating_sub(self.bytes));
        self.held = self.held.saturating_add(count);
        self.bytes = self.bytes.saturating_add(added);
        self.taker = None;
        Some(added)
    }

    /// One more process has an end.
    pub fn open(&mut self, writes: bool) {
        if writes {
            self.writers = self.writers.saturating_add(1);
        } else {
            self.readers = self.readers.saturating_add(1);
        }
    }

    pub fn close(&mut self, writes: bool) {
        if writes {
            self.writers = self.writers.saturating_sub(1);
        } else {
            self.readers = self.readers.saturating_sub(1);
        }
    }

    /// The opening of one of its ends.
    pub fn end(&self, writes: bool) -> usize {
        if writes { self.writer } else { self.reader }
    }
}

impl Pipes {
    pub fn new(alloc: Global) -> Pipes {
        Pipes {
            pipes: Vec::new(alloc),
        }
    }

    pub fn len(&self) -> usize {
        self.pipes.len()
    }

    /// Adds an empty pipe, whose ends one process has.
    pub fn add(&mut self, reader: usize, writer: usize) -> Result<(), AllocError> {
        self.pipes.push(Pipe {
            reader,
            writer,
            readers: 1,
            writers: 1,
            bytes: 0,
            held: 0,
            taker: None,
            reads: Touches::NONE,
            writes: Touches::NONE,
        })?;
        Ok(())
    }

    pub fn get(&self, place: usize) -> Option<&Pipe> {
        self.pipes.get(place)
    }

    pub fn get_mut(&mut self, place: usize) -> Option<&mut Pipe> {
        self.pipes.get_mut(place)
    }
}
