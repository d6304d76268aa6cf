//! Why there is no trace of a text of strace.

use pass_syscall::{LineFault, StraceFault, StraceReason};
use pass_trace::TraceReason;
use std::alloc::AllocError;

/// Why a line of strace is refused.
#[derive(Clone, Copy, PartialEq, Eq)]
pub enum Refusal {
    /// It can't be read.
    Strace(StraceReason),
    /// What it does has no line that may stand in a trace, or one too many.
    Trace(TraceReason),
    /// Its call would be in no line of the trace, nor among those that are left out.
    Lost,
}

impl Refusal {
    /// The word by which a report of a fault tells the reason.
    pub fn word(&self) -> &'static str {
        match self {
            Refusal::Strace(reason) => reason.word(),
            Refusal::Trace(reason) => reason.word(),
            Refusal::Lost => "lost",
        }
    }

    /// The word of strace's command line with which the line would have had another form.
    pub fn expected(&self) -> Option<&'static str> {
        match self {
            Refusal::Strace(reason) => reason.expected(),
            Refusal::Trace(_) | Refusal::Lost => None,
        }
    }
}

/// Why there is no trace.
#[derive(Clone, Copy, PartialEq, Eq)]
pub enum TranslationFault {
    /// A line that is refused, by its number from 1.
    Refused { line: u64, reason: Refusal },
    NoMemory,
}

impl TranslationFault {
    // The fault of the text, where the line with this number is refused.
    pub(crate) fn at_line(line: u64, fault: LineFault) -> TranslationFault {
        match fault {
            LineFault::Bad(reason) => TranslationFault::Refused {
                line,
                reason: Refusal::Strace(reason),
            },
            LineFault::NoMemory => TranslationFault::NoMemory,
        }
    }
}

impl From<AllocError> for TranslationFault {
    fn from(_refused: AllocError) -> TranslationFault {
        TranslationFault::NoMemory
    }
}

impl From<StraceFault> for TranslationFault {
    fn from(fault: StraceFault) -> TranslationFault {
        match fault {
            StraceFault::BadStrace { line, reason } => TranslationFault::Refused {
                line,
                reason: Refusal::Strace(reason),
            },
            StraceFault::NoMemory => TranslationFault::NoMemory,
        }
    }
}
