//! What is told of calls that the trace can't say.

use crate::spelling::spelled;
use pass_syscall::Skip;
use std::alloc::{AllocError, Global};
use std::collections::BTreeMap;

/// A line of strace whose call is in no line of the trace.
#[derive(Clone, Copy)]
pub struct Skipped {
    pub line: u64,
    pub skip: Skip,
}

/// What can't be told of one file, or of calls of one name.
#[derive(Drop)]
pub struct Told {
    pub skip: Skip,
    /// The path of the file or the name of the call, spelled as names of a trace are.
    pub what: String,
    /// The first line of strace with it, and how many calls there are.
    pub line: u64,
    pub count: u64,
}

#[derive(Drop)]
pub struct Ledger {
    alloc: Global,
    pub skipped: Vec<Skipped>,
    pub told: Vec<Told>,
    /// The places of what was told, by the reason and what it is about.
    places: BTreeMap<Vec<u8>, usize>,
}

impl Ledger {
    pub fn new(alloc: Global) -> Ledger {
        Ledger {
            alloc,
            skipped: Vec::new(alloc),
            told: Vec::new(alloc),
            places: BTreeMap::new(alloc),
        }
    }

    /// Tells once what isn't known, and counts it then. What is quiet isn't told.
    pub fn tell(&mut self, line: u64, skip: Skip, what: &[u8]) -> Result<(), AllocError> {
        if skip == Skip::Quiet {
            return Ok(());
        }
        let mut key = Vec::from_slice(self.alloc, skip.word().as_bytes())?;
        key.push(b' ')?;
        key.extend_from_slice(what)?;
        let place = match self.places.get(key.as_slice()) {
            Some(place) => *place,
            None => {
                let place = self.told.len();
                self.places.insert(key, place)?;
                let what = spelled(self.alloc, what)?;
                self.told.push(Told {
                    skip,
                    what,
                    line,
                    count: 0,
                })?;
                place
            }
        };
        if let Some(told) = self.told.get_mut(place) {
            told.count = told.count.saturating_add(1);
        }
        Ok(())
    }

    /// Notes that a line is in no line of the trace, and tells why.
    pub fn skip(&mut self, line: u64, skip: Skip, what: &[u8]) -> Result<(), AllocError> {
        self.skipped.push(Skipped { line, skip })?;
        self.tell(line, skip, what)
    }
}
