//! A plain reading of a log's bytes: gates, frames, records.
use pass_record::RecordFault;
use std::alloc::{AllocFailed, Global};

/// An object at one of its versions.
#[derive(Clone, Copy, PartialEq, Eq)]
pub struct Version {
    pub object: u64,
    pub number: u64,
}

/// A record, with what the judge of lists looks at.
#[derive(Clone, Copy)]
pub enum Row<'a> {
    Object(u64, u64),
    Name(u64, &'a [u8]),
    Attr(Version),
    Input(Version, Version),
    Version(Version),
    Size(u64, u64),
    Digest(u64, u64),
    Ceiling(u64),
}

/// Why bytes have no list of records.
#[derive(Clone, Copy, PartialEq, Eq)]
pub enum Unread {
    Frame(u64),
    Record(u64, RecordFault),
    Memory,
}

impl<T: Drop> From<AllocFailed<T>> for Unread {
    fn from(_error: AllocFailed<T>) -> Unread {
        Unread::Memory
    }
}

/// Bytes, of which the first ones are taken off.
#[derive(Drop)]
struct Fields<'a> {
    rest: &'a [u8],
}

impl<'a> Fields<'a> {
    fn take(&mut self, count: usize) -> Result<&'a [u8], RecordFault> {
        if self.rest.len() < count {
            return Err(RecordFault::Short);
        }
        let (front, rest) = self.rest.split_at(count);
        self.rest = rest;
        Ok(front)
    }

    /// A number of that many bytes, at least the least and at most the most.
    fn number(&mut self, count: usize, least: u64, most: u64) -> Result<u64, RecordFault> {
        let mut number: u64 = 0;
        for byte in self.take(count)? {
            number = (number << 8) | u64::from(*byte);
        }
        if number < least || most < number {
            return Err(RecordFault::Value);
        }
        Ok(number)
    }

    /// An object's number, or a version's.
    fn counted(&mut self) -> Result<u64, RecordFault> {
        self.number(8, 1, (1 << 48) - 1)
    }

    fn version(&mut self) -> Result<Version, RecordFault> {
        let object = self.counted()?;
        let number = self.counted()?;
        Ok(Version { object, number })
    }

    /// A text of that many bytes, each from the first to `~`.
    fn text(&mut self, count: u64, first: u8) -> Result<&'a [u8], RecordFault> {
        let text = self.take(count as usize)?;
        for byte in text {
            if *byte < first || b'~' < *byte {
                return Err(RecordFault::Value);
            }
        }
        Ok(text)
    }

    fn attribute(&mut self) -> Result<Row<'a>, RecordFault> {
        let version = self.version()?;
        let count = self.number(1, 1, 255)?;
        self.text(count, b'!')?;
        let count = self.number(2, 1, 1024)?;
        self.text(count, b' ')?;
        Ok(Row::Attr(version))
    }

    fn row(&mut self) -> Result<Row<'a>, RecordFault> {
        match self.number(1, 0, 255)? {
            1 => Ok(Row::Object(self.counted()?, self.number(1, 1, 4)?)),
            2 => {
                let object = self.counted()?;
                let count = self.number(1, 0, 255)?;
                Ok(Row::Name(object, self.text(count, b'!')?))
            }
            3 => self.attribute(),
            4 => Ok(Row::Input(self.version()?, self.version()?)),
            5 => Ok(Row::Version(self.version()?)),
            6 => Ok(Row::Size(self.counted()?, self.number(8, 0, 4_194_304)?)),
            7 => {
                let object = self.counted()?;
                let block = self.number(4, 0, 1023)?;
                self.take(16)?;
                Ok(Row::Digest(object, block))
            }
            8 => Ok(Row::Ceiling(self.counted()?)),
            _ => Err(RecordFault::Tag),
        }
    }

    /// The bytes of a frame, of which the number stands first, if they and one byte more are there.
    fn frame(&mut self) -> Result<&'a [u8], RecordFault> {
        let count = self.number(4, 0, u64::MAX)?;
        let frame = self.take(count as usize)?;
        if self.rest.is_empty() {
            return Err(RecordFault::Short);
        }
        Ok(frame)
    }
}

/// The frames behind open gates.
fn frames(alloc: Global, log: &[u8]) -> Result<Vec<&[u8]>, Unread> {
    let mut frames = Vec::new(alloc);
    if log.len() < 2 {
        return Ok(frames);
    }
    let mut fields = Fields { rest: log };
    for _ in log {
        let at = log.len().saturating_sub(fields.rest.len()) as u64;
        let Ok([1]) = fields.take(1) else {
            return Ok(frames);
        };
        let Ok(frame) = fields.frame() else {
            return Err(Unread::Frame(at));
        };
        frames.push(frame)?;
    }
    Ok(frames)
}

/// The records of a log.
pub fn rows(alloc: Global, log: &[u8]) -> Result<Vec<Row<'_>>, Unread> {
    let mut rows = Vec::new(alloc);
    for frame in frames(alloc, log)? {
        let mut fields = Fields { rest: frame };
        for _ in frame {
            if fields.rest.is_empty() {
                break;
            }
            match fields.row() {
                Ok(row) => rows.push(row)?,
                Err(fault) => return Err(Unread::Record(rows.len() as u64, fault)),
            }
        }
    }
    Ok(rows)
}
