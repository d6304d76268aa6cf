//! Why a text of strace isn't read.

use std::alloc::{AllocError, AllocFailed};

/// Why a line of strace is refused.
#[derive(Clone, Copy, PartialEq, Eq)]
pub enum StraceReason {
    /// It is none that strace writes of a call, a signal or an end.
    Form,
    /// It doesn't begin with the number of a process.
    Unnumbered,
    /// A text in it isn't written as `\x` and two digits for each byte.
    Unescaped,
    /// The text ends within it, or before some process has ended.
    Cut,
    /// It is of a process that no call began, or goes on with a call that hasn't begun.
    Process,
}

impl StraceReason {
    /// The word by which a report of a fault tells the reason.
    pub fn word(&self) -> &'static str {
        match self {
            StraceReason::Form | StraceReason::Unnumbered | StraceReason::Unescaped => "form",
            StraceReason::Cut => "cut",
            StraceReason::Process => "process",
        }
    }

    /// The word of strace's command line with which the line would have had another form.
    pub fn expected(&self) -> Option<&'static str> {
        match self {
            StraceReason::Unnumbered => Some("-f"),
            StraceReason::Unescaped => Some("-xx"),
            _ => None,
        }
    }
}

/// Why a text isn't read.
#[derive(Clone, Copy, PartialEq, Eq)]
pub enum StraceFault {
    /// A line that is refused, by its number from 1.
    BadStrace { line: u64, reason: StraceReason },
    NoMemory,
}

/// Why a line isn't read.
#[derive(Clone, Copy)]
pub enum LineFault {
    Bad(StraceReason),
    NoMemory,
}

/// Whether a line, or a part of it, was taken.
pub type Taken = Result<(), LineFault>;

impl LineFault {
    /// The fault of the text, where the line with this number is refused.
    pub fn at_line(self, line: u64) -> StraceFault {
        match self {
            LineFault::Bad(reason) => StraceFault::BadStrace { line, reason },
            LineFault::NoMemory => StraceFault::NoMemory,
        }
    }
}

impl From<AllocError> for LineFault {
    fn from(_refused: AllocError) -> LineFault {
        LineFault::NoMemory
    }
}

impl<T: Drop> From<AllocFailed<T>> for LineFault {
    fn from(_refused: AllocFailed<T>) -> LineFault {
        LineFault::NoMemory
    }
}

impl From<AllocError> for StraceFault {
    fn from(_refused: AllocError) -> StraceFault {
        StraceFault::NoMemory
    }
}
