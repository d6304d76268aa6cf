//! The processes of a run: their folders, their descriptors and what they have in memory.

use std::alloc::{AllocError, Global};
use std::collections::BTreeMap;

/// How many descriptors a process has in a trace.
const MOST_SLOTS: usize = 64;

/// A descriptor of the run. All those of a process for one opening are one in the trace.
#[derive(Clone, Copy)]
pub struct Held {
    pub opening: usize,
    /// It is closed by the next exec.
    pub closes: bool,
}

/// A descriptor of the trace: its opening, its position, and when it was last used.
#[derive(Clone, Copy)]
pub struct Slot {
    pub opening: usize,
    pub at: u64,
    used: u64,
}

/// Which descriptors are closed: those from one number to another, all or what an exec closes.
#[derive(Clone, Copy)]
pub struct Range {
    pub first: u32,
    pub last: u32,
    pub all: bool,
}

/// A part of a file that a process shares in memory.
#[derive(Clone, Copy)]
pub struct Mapping {
    pub start: u64,
    pub end: u64,
    pub opening: usize,
    pub file: usize,
    pub writes: bool,
    /// How often the file had been written to when the process last read it.
    pub seen: u64,
}

#[derive(Drop)]
pub struct Process {
    /// Its number in the trace, and its parent's.
    pub number: u32,
    pub parent: u32,
    pub waited: bool,
    pub ended: bool,
    pub folder: Vec<u8>,
    /// Its threads that haven't ended.
    threads: Vec<u32>,
    pub held: BTreeMap<u32, Held>,
    /// How many of its descriptors are for an opening.
    counts: BTreeMap<usize, u32>,
    slots: Vec<Option<Slot>>,
    clock: u64,
    pub mappings: Vec<Mapping>,
    /// How many changes of shared files there were when it last looked at what it shares.
    pub looked: u64,
    /// The file that it was last begun from, as long as its first bytes weren't read.
    pub program: Option<usize>,
}

impl Process {
    /// The first process of a run, in the folder where it begins.
    pub fn first(alloc: Global, pid: u32, folder: Vec<u8>) -> Result<Process, AllocError> {
        Ok(Process {
            number: 2,
            parent: 1,
            waited: false,
            ended: false,
            folder,
            threads: Vec::from_slice(alloc, &[pid])?,
            held: BTreeMap::new(alloc),
            counts: BTreeMap::new(alloc),
            slots: vec![in alloc; None; MOST_SLOTS]?,
            clock: 0,
            mappings: Vec::new(alloc),
            looked: 0,
            program: None,
        })
    }

    /// A child, which has the descriptors of its parent.
    pub fn child(&self, alloc: Global, number: u32, pid: u32) -> Result<Process, AllocError> {
        let mut held = BTreeMap::new(alloc);
        for (fd, one) in self.held.iter() {
            held.insert(*fd, *one)?;
        }
        let mut counts = BTreeMap::new(alloc);
        for (opening, count) in self.counts.iter() {
            counts.insert(*opening, *count)?;
        }
        Ok(Process {
            number,
            parent: self.number,
            waited: false,
            ended: false,
            folder: self.folder.clone()?,
            threads: Vec::from_slice(alloc, &[pid])?,
            held,
            counts,
            slots: self.slots.clone()?,
            clock: self.clock,
            mappings: self.mappings.clone()?,
            looked: self.looked,
            program: self.program,
        })
    }

    pub fn add_thread(&mut self, pid: u32) -> Result<(), AllocError> {
        self.threads.push(pid)?;
        Ok(())
    }

    /// Whether a thread was the last one.
    pub fn end_thread(&mut self, pid: u32) -> bool {
        self.threads.retain(|thread| *thread != pid);
        self.threads.is_empty()
    }

    pub fn held_at(&self, fd: u32) -> Option<Held> {
        self.held.get(&fd).copied()
    }

    pub fn first_of(&self, range: Range) -> Option<u32> {
        let Range { first, last, all } = range;
        for (fd, held) in self.held.range(first..) {
            if *fd > last {
                break;
            }
            if all || held.closes {
                return Some(*fd);
            }
        }
        None
    }

    pub fn count_held(&self) -> usize {
        self.held.len()
    }

    /// Lets a descriptor go; its number in the trace, where it was the last one with that.
    pub fn let_go(&mut self, fd: u32) -> Option<(u8, Slot)> {
        let held = self.held.remove(&fd)?;
        if let Some(count) = self.counts.get_mut(&held.opening) {
            *count = count.saturating_sub(1);
            if *count > 0 {
                return None;
            }
        }
        let _none = self.counts.remove(&held.opening);
        let number = self.slot_of(held.opening)?;
        let slot = self.vacate(number)?;
        Some((number, slot))
    }

    /// Gives it a descriptor.
    pub fn give(&mut self, fd: u32, held: Held) -> Result<(), AllocError> {
        self.held.insert(fd, held)?;
        self.keep(held.opening)
    }

    /// Counts a descriptor for an opening, or what stands for one until the process ends.
    pub fn keep(&mut self, opening: usize) -> Result<(), AllocError> {
        match self.counts.get_mut(&opening) {
            Some(count) => *count = count.saturating_add(1),
            None => {
                self.counts.insert(opening, 1)?;
            }
        }
        Ok(())
    }

    pub fn set_closes(&mut self, first: u32, last: u32, closes: bool) {
        for (fd, held) in self.held.range_mut(first..) {
            if *fd <= last {
                held.closes = closes;
            }
        }
    }

    /// A number is used again.
    pub fn touch(&mut self, number: u8) {
        self.clock = self.clock.saturating_add(1);
        let used = self.clock;
        if let Some(Some(slot)) = self.slots.get_mut(number as usize) {
            slot.used = used;
        }
    }

    /// The number in the trace that an opening has.
    pub fn slot_of(&self, opening: usize) -> Option<u8> {
        let place = self
            .slots
            .iter()
            .position(|slot| slot.is_some_and(|slot| slot.opening == opening))?;
        u8::try_from(place).ok()
    }

    /// The least number of the trace that no opening has.
    pub fn free_slot(&self) -> Option<u8> {
        let place = self.slots.iter().position(|slot| slot.is_none())?;
        u8::try_from(place).ok()
    }

    pub fn slot(&self, number: u8) -> Option<Slot> {
        let slot = self.slots.get(number as usize)?;
        *slot
    }

    pub fn count_free(&self) -> usize {
        self.slots.iter().filter(|slot| slot.is_none()).count()
    }

    /// What has the numbers.
    pub fn slots(&self) -> &[Option<Slot>] {
        self.slots.as_slice()
    }

    pub fn vacate(&mut self, number: u8) -> Option<Slot> {
        let place = self.slots.get_mut(number as usize)?;
        let slot = *place;
        *place = None;
        slot
    }

    /// Sets the opening of a number, and its position there.
    pub fn place(&mut self, number: u8, opening: usize, at: u64) {
        self.clock = self.clock.saturating_add(1);
        let used = self.clock;
        if let Some(place) = self.slots.get_mut(number as usize) {
            *place = Some(Slot { opening, at, used });
        }
    }
}

impl Slot {
    pub fn is_older(&self, other: &Slot) -> bool {
        self.used < other.used
    }
}
