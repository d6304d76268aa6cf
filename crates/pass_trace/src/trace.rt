//! A trace, and why bytes are none.
ghost use Rattle.std.specs.Prelude.{◌≡◌};
ghost use Rattle.pass_trace.specs.Reasons.{reason_word};

use pass_entry::{Bytes, Mode, Text};
use std::alloc::AllocError;
use std::fmt;

/// What a write writes.
#[derive(PartialEq, Drop)]
pub enum Payload {
    /// The bytes that the line names.
    Given(Bytes),
    /// The bytes that the process read last, written `buf` in a trace.
    Last,
}

/// A call of a process, as a line of a trace names it.
///
/// In what `parse` gives, a descriptor is 0 to 63, a length 1 to 4,096 bytes, an offset or a size at
/// most 4,294,967,295 bytes, a process 1 to 8,192, and the number of an object 1 to 2^48 - 1. A
/// name, an attribute or a value is a name of `Text`.
#[derive(PartialEq, Drop)]
pub enum Command {
    Creat { fd: u8, name: Text },
    Open { fd: u8, name: Text, mode: Mode },
    Close { fd: u8 },
    Read { fd: u8, len: u32 },
    Write { fd: u8, payload: Payload },
    Seek { fd: u8, off: u64 },
    Truncate { fd: u8, size: u64 },
    Pipe { reader: u8, writer: u8 },
    /// The child is a process of the trace, by its number there.
    Fork { child: u32 },
    /// The arguments are joined by single spaces.
    Exec { name: Text, args: Text },
    /// The child is a process of the trace, by its number there.
    Wait { child: u32 },
    /// A wait by which no data flows. The child is a process of the trace, by its number there.
    Await { child: u32 },
    Rename { from: Text, to: Text },
    Unlink { name: Text },
    MkObj { fd: u8 },
    Revive { fd: u8, pnode: u64 },
    Freeze { fd: u8 },
    Disclose { target: u8, source: u8 },
    Tag { fd: u8, attr: Text, value: Text },
    Sync { fd: u8 },
}

/// A line of a trace: its number in the text from 1, the process that makes the call, and the call.
#[derive(PartialEq, Drop)]
pub struct TraceLine {
    pub number: u32,
    pub process: u32,
    pub command: Command,
}

/// The lines of a trace in order, without those that say nothing.
#[derive(PartialEq, Drop)]
pub struct Trace {
    pub lines: Vec<TraceLine>,
}

/// Why a line is none of a trace. Where several apply, the first of this order counts: too many
/// lines, a line too long, `Form`, `Number`, the length of a word, `Process`, too many objects.
#[derive(Clone, Copy, PartialEq, Eq)]
pub enum TraceReason {
    /// A word hasn't its form, or no call has such words.
    Form,
    /// A number is outside its range.
    Number,
    /// The line, a name, a payload or the arguments are too long.
    Length,
    /// A process isn't there, is there already, or isn't a child of the caller.
    Process,
    /// There are too many lines, or too many that make objects.
    Many,
}

impl TraceReason {
    /// The word by which a report of a fault tells the reason.
    pub fn word(&self) -> &'static str
        ensures { result.now ≡ reason_word self.now }
    {
        match self {
            TraceReason::Form => "form",
            TraceReason::Number => "number",
            TraceReason::Length => "length",
            TraceReason::Process => "process",
            TraceReason::Many => "many",
        }
    }
}

impl fmt::Display for TraceReason {
    ghost use Rattle.std.specs.Prelude.{Some};
    ghost use Rattle.pass_trace.specs.Reasons.{reason_word};

    ghost output = { λ value. Some (reason_word value) };

    fn fmt<W: fmt::Write>(&self, f: &mut fmt::Formatter<W>) -> fmt::Result {
        f.write_str(self.word())
    }
}

/// Why there is no trace.
#[derive(Clone, Copy, PartialEq, Eq)]
pub enum TraceFault {
    /// The first line that is at fault, by its number from 1.
    BadTrace { line: u32, reason: TraceReason },
    NoMemory,
}

impl From<AllocError> for TraceFault {
    ghost use Rattle.std.specs.Prelude.{◌≡◌};
    ghost use Rattle.pass_trace.specs.declared.trace.TraceFault.TheVariants.{NoMemory};

    ghost from_gives = { λ _ fault. fault ≡ NoMemory };

    fn from(_refused: AllocError) -> TraceFault {
        TraceFault::NoMemory
    }
}
