//! Reads a source to its end.
ghost use Rattle.std.specs.Prelude.{◌≡◌, ◌≤◌, ◌↔◌, ◌++◌, [], false, IsTrue, IsErrOf, IfOk, OnOk, fold};
ghost use Rattle.pass_outside.specs.Faults.{HasRisen};
ghost use Rattle.pass_status.specs.Reading.{StopsInTime};
ghost use Rattle.pass_trace.specs.Lines.{is_too_long};

use pass_outside::{Failed, Source};
use pass_trace::Scale;
use pass_trace::limits::LONGEST_LINE;
use std::alloc::{AllocError, Global};

/// How many bytes are asked of the source at once.
const PIECE: usize = 4096;

/// Why a source wasn't read to its end.
#[derive(Clone, Copy, PartialEq, Eq)]
pub enum ReadEnd {
    /// The source failed.
    ReadFault,
    NoMemory,
}

impl From<AllocError> for ReadEnd {
    ghost use Rattle.pass_status.specs.declared.reading.ReadEnd.TheVariants.{NoMemory};

    ghost from_gives = { λ e r. r ≡ NoMemory };

    fn from(_refused: AllocError) -> ReadEnd {
        ReadEnd::NoMemory
    }
}

impl From<Failed> for ReadEnd {
    ghost use Rattle.pass_status.specs.declared.reading.ReadEnd.TheVariants as end;

    ghost from_gives = { λ e r. r ≡ end.ReadFault };

    fn from(_failed: Failed) -> ReadEnd {
        ReadEnd::ReadFault
    }
}

/// The lines of a text that were read, the bytes of the line that hasn't ended, and whether there is more of one of them than
/// a trace may have.
#[derive(Clone, Copy)]
struct Limits {
    lines: u32,
    bytes: u32,
    over: bool,
}

impl Limits {
    ghost use Rattle.pass_status.specs.Reading.{counted, none_counted};

    fn new() -> Limits
        ensures { result ≡ none_counted }
    {
        Limits {
            lines: 0,
            bytes: 0,
            over: false,
        }
    }

    // One more byte.
    fn count(&mut self, scale: Scale, byte: u8)
        ensures { self.new ≡ counted scale self.old byte }
    {
        if self.over {
            return;
        }
        if self.lines >= scale.most_lines() {
            self.over = true;
        } else if byte == b'\n' {
            self.lines += 1;
            self.bytes = 0;
        } else if self.bytes >= LONGEST_LINE {
            self.over = true;
        } else {
            self.bytes += 1;
        }
    }

    // One more piece.
    fn take(&mut self, scale: Scale, piece: &[u8])
        ensures { self.new ≡ fold (counted scale) self.old piece.now }
    {
        'bytes: for byte in piece {
            self.count(scale, *byte);
        }
    }
}

/// The bytes that a source has left, read to their end, but no further than the piece in which a line is seen to be longer
/// than one of a trace may be, or to be one too many for a trace of the scale.
pub fn read_source<S: Source>(
    alloc: Global,
    scale: Scale,
    source: &mut S,
) -> Result<Vec<u8>, ReadEnd>
    ensures front { IfOk result (λ text. IsTrue S.tells → S.left source.old ≡ text.items ++ S.left source.new) }
    ensures whole { IfOk result (λ text. IsTrue S.tells → is_too_long scale text.items ≡ false → S.left source.new ≡ []) }
    ensures stops { IfOk result (λ text. StopsInTime scale text.items) }
    ensures fault { IsErrOf result ReadEnd.ReadFault ↔ HasRisen (S.fault_count source.old) (S.fault_count source.new) }
{
    let mut text = Vec::new(alloc);
    let mut limits = Limits::new();
    let mut piece = [0u8; PIECE];
    'pieces: while !limits.over {
        let count = source.read(&mut piece)?;
        if count == 0 {
            break;
        }
        text.extend_from_slice(&piece[..count])?;
        limits.take(scale, &piece[..count]);
    }
    Ok(text)
}
