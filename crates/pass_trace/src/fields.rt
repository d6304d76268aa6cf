//! What single words stand for.
ghost use Rattle.std.specs.Prelude.{◌≡◌, ◌<◌, ◌≤◌, [], ◌∷◌, min, map, IfOk};
ghost use Rattle.std.specs.List.{join_with_byte};
ghost use Rattle.pass_trace.specs.Limits.{last_process};
ghost use Rattle.pass_trace.specs.Words.{value_of};
ghost use Rattle.pass_trace.specs.Commands.{number_in, process_of, fd_of, name_of, mode_of, given, decoded, repeated_of, hex_of, payload_of, args_of};
ghost use Rattle.pass_trace.specs.Gives.{Gives, fault_at_line};
ghost use Rattle.hex.specs.Hex.{decode_sized};

use crate::limits::Scale;
use crate::trace::{Payload, TraceFault, TraceReason};
use hex::{FromHex, FromHexError};
use pass_entry::{Bytes, Mode, TRANSFER_LIMIT, Text, TextFault};
use std::alloc::{AllocError, AllocFailed, Global};

// Why a line isn't read.
#[derive(Drop)]
pub(crate) enum LineFault {
    Bad(TraceReason),
    NoMemory,
}

impl LineFault {
    // The fault of the whole text, where the line with this number is the first at fault.
    pub(crate) fn at_line(self, line: u32) -> TraceFault
        ensures { result ≡ fault_at_line line self }
    {
        match self {
            LineFault::Bad(reason) => TraceFault::BadTrace { line, reason },
            LineFault::NoMemory => TraceFault::NoMemory,
        }
    }
}

impl From<AllocError> for LineFault {
    ghost use Rattle.std.specs.Prelude.{◌≡◌};
    ghost use Rattle.pass_trace.specs.declared.fields.LineFault.TheVariants.{NoMemory};

    ghost from_gives = { λ _ fault. fault ≡ NoMemory };

    fn from(_refused: AllocError) -> LineFault {
        LineFault::NoMemory
    }
}

impl<T: Drop> From<AllocFailed<T>> for LineFault {
    ghost use Rattle.std.specs.Prelude.{◌≡◌};
    ghost use Rattle.pass_trace.specs.declared.fields.LineFault.TheVariants.{NoMemory};

    ghost from_gives = { λ _ fault. fault ≡ NoMemory };

    fn from(_refused: AllocFailed<T>) -> LineFault {
        LineFault::NoMemory
    }
}

// The number that decimal digits write, or the greatest one where it is greater.
fn value_of(word: &[u8]) -> u64
    ensures { result ≡ min (value_of word.now) u64.MAX }
{
    let mut value: u64 = 0;
    for byte in word {
        let digit = u64::from(byte.saturating_sub(b'0'));
        value = value.saturating_mul(10).saturating_add(digit);
    }
    value
}

#[tactic(auto, unfolding(crate::specs::Commands::number_in))]
pub(crate) fn number_in(word: &[u8], low: u64, high: u64) -> Result<u64, LineFault>
    requires { high < u64.MAX }
    ensures value { Gives (λ n. n) result (number_in low high word.now) }
    ensures within { IfOk result (λ n. (low ≤ n) × (n ≤ high)) }
{
    let value = value_of(word);
    if low <= value && value <= high {
        Ok(value)
    } else {
        Err(LineFault::Bad(TraceReason::Number))
    }
}

// The number of a process of the trace.
pub(crate) fn process_of(scale: Scale, word: &[u8]) -> Result<u32, LineFault>
    ensures value { Gives (λ n. n) result (process_of scale word.now) }
    ensures within { IfOk result (λ n. (1 ≤ n) × (n ≤ last_process scale)) }
{
    let process = number_in(word, 1, u64::from(scale.last_process()))?;
    Ok(process as u32)
}

pub(crate) fn fd_of(word: &[u8]) -> Result<u8, LineFault>
    ensures { Gives (λ n. n) result (fd_of word.now) }
{
    let fd = number_in(word, 0, 63)?;
    Ok(fd as u8)
}

#[tactic(auto, unfolding(crate::specs::Commands::name_of))]
pub(crate) fn name_of(alloc: Global, word: &[u8]) -> Result<Text, LineFault>
    ensures { Gives (λ t. t) result (name_of word.now) }
{
    match Text::name(alloc, word) {
        Ok(name) => Ok(name),
        Err(TextFault::NoMemory) => Err(LineFault::NoMemory),
        Err(TextFault::BadLength) | Err(TextFault::BadByte) => {
            Err(LineFault::Bad(TraceReason::Length))
        }
    }
}

#[tactic(auto, unfolding(crate::specs::Commands::mode_of))]
pub(crate) fn mode_of(word: &[u8]) -> Mode
    ensures { result ≡ mode_of word.now }
{
    if word == b"r".as_slice() {
        Mode::Read
    } else if word == b"w".as_slice() {
        Mode::Write
    } else {
        Mode::Both
    }
}

fn given(bytes: Vec<u8>) -> Result<Payload, LineFault>
    ensures { Gives (λ p. p) result (given bytes.items) }
{
    match Bytes::from_vec(bytes) {
        Ok(bytes) => Ok(Payload::Given(bytes)),
        Err(TextFault::NoMemory) => Err(LineFault::NoMemory),
        Err(TextFault::BadLength) | Err(TextFault::BadByte) => {
            Err(LineFault::Bad(TraceReason::Length))
        }
    }
}

#[tactic(auto, unfolding(crate::specs::Commands::hex_of))]
fn hex_of(alloc: Global, digits: &[u8]) -> Result<Payload, LineFault>
    ensures { Gives (λ p. p) result (hex_of digits.now) }
{
    match hex::decode(alloc, digits) {
        Ok(bytes) => given(bytes),
        Err(FromHexError::OutOfMemory) => Err(LineFault::NoMemory),
        Err(_) => Err(LineFault::Bad(TraceReason::Form)),
    }
}

fn byte_of(digits: &[u8]) -> Result<u8, LineFault>
    ensures { Gives (λ b. b ∷ []) result (decoded (decode_sized digits.now 1)) }
{
    match <[u8; 1]>::from_hex(digits) {
        Ok(bytes) => Ok(bytes[0]),
        Err(_) => Err(LineFault::Bad(TraceReason::Form)),
    }
}

#[tactic(auto, unfolding(crate::specs::Commands::repeated_of))]
fn repeated_of(alloc: Global, bytes: &[u8]) -> Result<Payload, LineFault>
    ensures { Gives (λ p. p) result (repeated_of bytes.now) }
{
    let colon = bytes.len().saturating_sub(3);
    let digits = bytes.len().saturating_sub(2);
    let count = number_in(&bytes[..colon], 0, TRANSFER_LIMIT as u64)?;
    let byte = byte_of(&bytes[digits..])?;
    let bytes = vec![in alloc; byte; count as usize]?;
    given(bytes)
}

#[tactic(auto, unfolding(crate::specs::Commands::payload_of))]
pub(crate) fn payload_of(alloc: Global, word: &[u8]) -> Result<Payload, LineFault>
    ensures { Gives (λ p. p) result (payload_of word.now) }
{
    if word == b"buf".as_slice() {
        return Ok(Payload::Last);
    }
    if word.len() < 2 {
        return Err(LineFault::Bad(TraceReason::Form));
    }
    let (kind, bytes) = word.split_at(2);
    if kind == b"t:".as_slice() {
        given(Vec::from_slice(alloc, bytes)?)
    } else if kind == b"x:".as_slice() {
        hex_of(alloc, bytes)
    } else if kind == b"r:".as_slice() {
        repeated_of(alloc, bytes)
    } else {
        Err(LineFault::Bad(TraceReason::Form))
    }
}
