//! Where files end of which a store may have a front only.

/// Where a file ends, by the end of the store's file.
#[derive(Clone, Copy, PartialEq)]
pub enum Ending {
    /// It ends there too.
    Here,
    /// It goes on, and has so many bytes.
    Behind(u64),
    /// Whether it goes on isn't known.
    Unknown,
}

impl Ending {
    /// The same of a file with a size, of which the store has so many bytes.
    pub(crate) fn of(size: u64, kept: u64) -> Ending {
        if kept < size {
            Ending::Behind(size)
        } else {
            Ending::Here
        }
    }

    /// The same once the store's file has another size. What was cut ends where it was cut.
    pub fn resized(self, old: u64, new: u64) -> Ending {
        if new == 0 || new < old {
            return Ending::Here;
        }
        match self {
            Ending::Behind(size) => Ending::of(size, new),
            Ending::Here | Ending::Unknown => self,
        }
    }
}
