//! The first flaw of a list of records, by a look at all records before each one.
use crate::reading::{Row, Version};
use pass_entry::FlawReason;

const FILE: u64 = 2;

const APP: u64 = 4;

/// The records before one.
#[derive(Drop)]
struct Before<'a> {
    rows: &'a [Row<'a>],
}

impl Before<'_> {
    fn kind(&self, object: u64) -> Option<u64> {
        let mut kind = None;
        for row in self.rows {
            if let Row::Object(number, of) = row {
                if *number == object {
                    kind = Some(*of);
                }
            }
        }
        kind
    }

    fn is_known(&self, object: u64) -> bool {
        self.kind(object).is_some()
    }

    fn current(&self, object: u64) -> u64 {
        let mut current = 1;
        for row in self.rows {
            if let Row::Version(version) = row {
                if version.object == object {
                    current = version.number;
                }
            }
        }
        current
    }

    fn ceiling(&self) -> u64 {
        let mut ceiling = 0;
        for row in self.rows {
            if let Row::Ceiling(number) = row {
                ceiling = *number;
            }
        }
        ceiling
    }

    fn size(&self, object: u64) -> u64 {
        let mut size = 0;
        for row in self.rows {
            if let Row::Size(number, bytes) = row {
                if *number == object {
                    size = *bytes;
                }
            }
        }
        size
    }

    fn count(&self, kind: u64) -> usize {
        self.rows
            .iter()
            .filter(|row| match row {
                Row::Object(_, of) => *of == kind,
                _ => false,
            })
            .count()
    }

    fn name(&self, object: u64) -> &[u8] {
        let mut name = b"".as_slice();
        for row in self.rows {
            if let Row::Name(number, text) = row {
                if *number == object {
                    name = text;
                }
            }
        }
        name
    }

    /// Another file has the name.
    fn is_taken(&self, object: u64, name: &[u8]) -> bool {
        for row in self.rows {
            if let Row::Name(other, _) = row {
                if *other != object && self.name(*other) == name {
                    return true;
                }
            }
        }
        false
    }

    fn was_source(&self, version: Version) -> bool {
        for row in self.rows {
            if let Row::Input(_, source) = row {
                if *source == version {
                    return true;
                }
            }
        }
        false
    }

    fn has_input(&self, target: Version, source: Version) -> bool {
        for row in self.rows {
            if let Row::Input(to, from) = row {
                if *to == target && *from == source {
                    return true;
                }
            }
        }
        false
    }

    fn is_current(&self, version: Version) -> bool {
        version.number == self.current(version.object)
    }

    fn object_flaw(&self, object: u64, kind: u64) -> Option<FlawReason> {
        if self.is_known(object) {
            Some(FlawReason::Known)
        } else if self.ceiling() < object {
            Some(FlawReason::Ceiling)
        } else if (kind == FILE || kind == APP) && 1024 <= self.count(kind) {
            Some(FlawReason::Many)
        } else {
            None
        }
    }

    fn input_flaw(&self, target: Version, source: Version) -> Option<FlawReason> {
        let is_there = self.is_known(source.object) && source.number <= self.current(source.object);
        if !self.is_known(target.object) || !is_there {
            Some(FlawReason::Unknown)
        } else if !self.is_current(target) {
            Some(FlawReason::Version)
        } else if self.was_source(target) || target == source {
            Some(FlawReason::Source)
        } else if self.has_input(target, source) {
            Some(FlawReason::Repeat)
        } else {
            None
        }
    }

    fn file_flaw(&self, object: u64) -> Option<FlawReason> {
        match self.kind(object) {
            None => Some(FlawReason::Unknown),
            Some(FILE) => None,
            Some(_) => Some(FlawReason::Kind),
        }
    }

    fn flaw(&self, row: &Row<'_>) -> Option<FlawReason> {
        match *row {
            Row::Ceiling(number) => {
                let last = self.ceiling();
                (number <= last || last.saturating_add(8192) < number).then_some(
                    FlawReason::Ceiling,
                )
            }
            Row::Object(object, kind) => self.object_flaw(object, kind),
            Row::Name(object, name) => self.file_flaw(object).or(
                (!name.is_empty() && self.is_taken(object, name)).then_some(FlawReason::Name),
            ),
            Row::Attr(version) if !self.is_known(version.object) => Some(FlawReason::Unknown),
            Row::Attr(version) => (!self.is_current(version)).then_some(FlawReason::Version),
            Row::Input(target, source) => self.input_flaw(target, source),
            Row::Version(version) if !self.is_known(version.object) => Some(FlawReason::Unknown),
            Row::Version(version) => (version.number
                != self.current(version.object).saturating_add(1)).then_some(FlawReason::Version),
            Row::Size(object, _) => self.file_flaw(object),
            Row::Digest(object, block) => self.file_flaw(object).or(
                (self.size(object) <= block.saturating_mul(4096)).then_some(FlawReason::Block),
            ),
        }
    }
}

/// The place and the reason of the first flaw.
pub fn first_flaw(rows: &[Row<'_>]) -> Option<(u64, FlawReason)> {
    for place in 0..rows.len() {
        let before = Before {
            rows: &rows[..place],
        };
        if let Some(reason) = before.flaw(&rows[place]) {
            return Some((place as u64, reason));
        }
    }
    None
}
