//! How a run of the program ended.
ghost use Rattle.std.specs.Prelude.{◌≡◌, [], ◌∷◌, ◌++◌, IfOk, codes, decimal, string_bytes};
ghost use Rattle.pass_trace.specs.Reasons.{reason_word};
ghost use Rattle.pass_status.specs.Statuses.{pattern_text, record_word, store_text, status_of_opening};

use pass_entry::Node;
use pass_pattern::PatternFault;
use pass_record::RecordFault;
use pass_recover::OpenFault;
use pass_trace::TraceReason;
use std::alloc::{AllocError, Global};

/// How a run of the program ended.
#[derive(Clone, Copy, PartialEq, Eq)]
pub enum Status {
    /// The trace was run to its end, and the whole report was written.
    Done,
    /// Some process has a line left and none can go on. The whole report was written.
    Stuck,
    /// The words aren't those of a command.
    BadWords,
    /// The source failed.
    ReadFault,
    /// The first line of the text that is at fault, counted from 1, and its first reason.
    BadTrace { line: u32, reason: TraceReason },
    /// A call of the disk failed: its count of faults as the run began, and a later one.
    DiskFault { opened: u64, now: u64 },
    /// The store that the disk has doesn't open: `BadFrame`, `BadRecord` or `Flaw`.
    BadStore(OpenFault),
    /// The text that a question gives as a pattern is none: `Long` or `Bad`.
    BadPattern(PatternFault),
    /// A question names a node that the graph of the store doesn't have: the first one given.
    NoObject(Node),
    /// What a standby follows has a bad frame: the place of that frame in the log.
    BadStream { at: u64 },
    /// The place from which a log was asked for is neither a frame's nor its end.
    NoFrame(u64),
    /// The log of a standby has a bad frame as it is opened: the place of that frame.
    BadLog { at: u64 },
    /// The sink failed. It may have taken the beginning of another status's text.
    WriteFault,
    /// Memory was refused.
    NoMemory,
}

impl Status {
    ghost use Rattle.pass_status.specs.Statuses.{number_of_status, status_text};

    /// The program's exit status.
    pub fn number(&self) -> u8
        ensures { result ≡ number_of_status self.now }
    {
        match self {
            Status::Done => 0,
            Status::Stuck => 4,
            Status::BadWords => 2,
            Status::ReadFault => 6,
            Status::BadTrace { .. } => 3,
            Status::DiskFault { .. } => 8,
            Status::BadStore(_) => 5,
            Status::BadPattern(_) => 17,
            Status::NoObject(_) => 9,
            Status::BadStream { .. } => 18,
            Status::NoFrame(_) => 19,
            Status::BadLog { .. } => 21,
            Status::WriteFault => 7,
            Status::NoMemory => 10,
        }
    }

    /// The text of a status that stands on no report; nothing for the others.
    pub fn text(&self, alloc: Global) -> Result<String, AllocError>
        ensures { IfOk result (λ text. string_bytes text ≡ status_text self.now) }
    {
        match self {
            Status::BadWords => String::from_str(alloc, "fault words\n"),
            Status::ReadFault => String::from_str(alloc, "fault read\n"),
            Status::BadTrace { line, reason } => trace_text(alloc, *line, *reason),
            Status::DiskFault { .. } => String::from_str(alloc, "fault disk\n"),
            Status::BadStore(fault) => text_of_store(alloc, *fault),
            Status::BadPattern(fault) => text_of_pattern(alloc, *fault),
            Status::NoObject(node) => format!(in alloc; "fault object {node}\n"),
            Status::BadStream { at } => format!(in alloc; "fault stream {at}\n"),
            Status::NoFrame(from) => format!(in alloc; "fault frame {from}\n"),
            Status::BadLog { at } => format!(in alloc; "fault log {at}\n"),
            Status::Done | Status::Stuck | Status::WriteFault | Status::NoMemory => {
                Ok(String::new(alloc))
            }
        }
    }
}

// The text of a bad trace.
fn trace_text(alloc: Global, line: u32, reason: TraceReason) -> Result<String, AllocError>
    ensures { IfOk result (λ text. string_bytes text ≡ codes "fault trace " ++ decimal line ++ codes " " ++ reason_word reason ++ 10 ∷ []) }
{
    format!(in alloc; "fault trace {line} {reason}\n")
}

/// The status of a store that didn't open, with the disk's counts of faults as the opening began and now.
pub fn opening_status(fault: OpenFault, opened: u64, now: u64) -> Status
    ensures { result ≡ status_of_opening opened now fault }
{
    match fault {
        OpenFault::DiskFault => Status::DiskFault { opened, now },
        OpenFault::NoMemory => Status::NoMemory,
        OpenFault::BadFrame { .. } | OpenFault::BadRecord { .. } | OpenFault::Flaw { .. } => {
            Status::BadStore(fault)
        }
    }
}

// The text of a pattern that is none.
fn text_of_pattern(alloc: Global, fault: PatternFault) -> Result<String, AllocError>
    ensures { IfOk result (λ text. string_bytes text ≡ pattern_text fault) }
{
    match fault {
        PatternFault::Bad { at } => format!(in alloc; "fault pattern {at}\n"),
        PatternFault::Long => String::from_str(alloc, "fault pattern long\n"),
        PatternFault::NoMemory => String::from_str(alloc, "fault pattern\n"),
    }
}

// The text of a store that doesn't open.
fn text_of_store(alloc: Global, fault: OpenFault) -> Result<String, AllocError>
    ensures { IfOk result (λ text. string_bytes text ≡ store_text fault) }
{
    match fault {
        OpenFault::BadFrame { at } => format!(in alloc; "fault store frame {at}\n"),
        OpenFault::BadRecord { place, fault } => text_of_record(alloc, place, fault),
        OpenFault::Flaw { place, reason } => {
            format!(in alloc; "fault store flaw {place} {reason}\n")
        }
        OpenFault::DiskFault | OpenFault::NoMemory => String::from_str(alloc, "fault store\n"),
    }
}

// The text of bytes that aren't the record of that number.
fn text_of_record(alloc: Global, place: u64, fault: RecordFault) -> Result<String, AllocError>
    ensures { IfOk result (λ text. string_bytes text ≡ codes "fault store record " ++ decimal place ++ codes " " ++ record_word fault ++ 10 ∷ []) }
{
    let word = word_of_record(fault);
    format!(in alloc; "fault store record {place} {word}\n")
}

// The word of a record's fault.
fn word_of_record(fault: RecordFault) -> &'static str
    ensures { result.now ≡ record_word fault }
{
    match fault {
        RecordFault::Short => "short",
        RecordFault::Tag => "tag",
        RecordFault::Value => "value",
        RecordFault::NoMemory => "",
    }
}
