//! How names and words are spelled in a trace.
ghost use Rattle.std.specs.Prelude.{◌≡◌, ◌++◌, true, IfOk, IfSome, OnOk, length, string_bytes};
ghost use Rattle.percent_encoding.specs.AsciiSet.{contains};
ghost use Rattle.percent_encoding.specs.Percent.{percent_decode};
ghost use Rattle.pass_observed.specs.Spellings.{fitting, is_kept_byte, spelled_byte, whole_spelling, word_spelling};

use md5::{Digest, Md5};
use pass_entry::{LINE_LIMIT, NAME_LIMIT, Text, TextFault};
use pass_syscall::{ahead, behind};
use percent_encoding::{AsciiSet, CONTROLS, percent_decode, percent_encode, percent_encode_byte};
use std::alloc::{AllocError, Global};

// The bytes that are spelled as `%` and two digits in base 16: each outside `!` to `~`, and `%` itself.
fn escaped() -> AsciiSet
    ensures { contains result 37 ≡ true }
{
    CONTROLS.add(b' ').add(b'%')
}

/// How a name or a word of bytes is spelled.
pub fn spelled(alloc: Global, bytes: &[u8]) -> Result<String, AllocError>
    // It can be turned back.
    ensures { IfOk result (λ text. percent_decode (string_bytes text) ≡ bytes.now) }
{
    let mut text = String::new(alloc);
    percent_encode(bytes, escaped()).append_to(&mut text)?;
    Ok(text)
}

/// The bytes that are spelled so; none where the spelling doesn't have all of them.
pub fn unspelled(alloc: Global, spelling: &[u8]) -> Result<Option<Vec<u8>>, AllocError>
    ensures { IfOk result (λ found. IfSome found (λ bytes. bytes.items ≡ percent_decode spelling.now)) }
{
    let is_cut = spelling
        .split(|byte| *byte == b'%')
        .any(|part| part.starts_with(b":"));
    if is_cut {
        return Ok(None);
    }
    let mut bytes = Vec::new(alloc);
    percent_decode(spelling).append_to(&mut bytes)?;
    Ok(Some(bytes))
}

/// The attribute of a version whose bytes the text doesn't show.
pub const ATTRIBUTE: &str = "BYTES";

/// The attribute of a version where its file doesn't end, with the size that the file had.
pub const SIZE: &str = "SIZE";

pub const UNKNOWN: &str = "unknown";

/// No byte is spelled `%:`, which no other word is.
const EMPTY: &str = "%:";

/// What stands behind the front of words that are too many or too long for a line.
const MORE: &str = "%:more";

/// How many bytes the digest of a long name takes, with `%:` before it.
const DIGEST_LENGTH: usize = 34;

/// The spelling of the file that a run was given as its standard input, output or error output.
pub fn given_name(number: u32) -> &'static str {
    match number {
        0 => "%:0",
        1 => "%:1",
        _ => "%:2",
    }
}

// The front of a spelling that has at most so many bytes, and no part of an escape at its end.
fn front_of(spelling: &[u8], most: usize) -> &[u8] {
    if spelling.len() <= most {
        return spelling;
    }
    let front = ahead(spelling, most);
    let start = most.saturating_sub(2);
    let tail = behind(front, start);
    match tail.iter().position(|byte| *byte == b'%') {
        Some(place) => ahead(front, start.saturating_add(place)),
        None => front,
    }
}

/// The name of a file in a trace. One that is too long is its front and a digest of the whole.
pub fn name_of(alloc: Global, path: &[u8]) -> Result<Option<Text>, AllocError> {
    if path.is_empty() {
        return text_of(alloc, EMPTY.as_bytes());
    }
    let whole = spelled(alloc, path)?;
    if whole.len() <= NAME_LIMIT {
        return text_of(alloc, whole.as_bytes());
    }
    let front = front_of(whole.as_bytes(), NAME_LIMIT.saturating_sub(DIGEST_LENGTH));
    let mut name = Vec::from_slice(alloc, front)?;
    name.extend_from_slice(EMPTY.as_bytes())?;
    let digest = hex::encode(alloc, Md5::digest(path).as_slice())?;
    name.extend_from_slice(digest.as_bytes())?;
    text_of(alloc, &name)
}

// A text that was taken; None where it has a length or a byte that it may not have.
fn taken(text: Result<Text, TextFault>) -> Result<Option<Text>, AllocError> {
    match text {
        Ok(text) => Ok(Some(text)),
        Err(TextFault::NoMemory) => Err(AllocError),
        Err(TextFault::BadLength) | Err(TextFault::BadByte) => Ok(None),
    }
}

/// A name of letters that are spelled already; None where it is none.
pub fn text_of(alloc: Global, name: &[u8]) -> Result<Option<Text>, AllocError>
    ensures { IfOk result (λ found. IfSome found (λ text. text ≡ name.now)) }
{
    match Text::name(alloc, name) {
        Ok(text) => Ok(Some(text)),
        Err(TextFault::NoMemory) => Err(AllocError),
        Err(TextFault::BadLength) | Err(TextFault::BadByte) => Ok(None),
    }
}

// Whether a byte stands for itself.
fn is_kept_byte(byte: u8) -> bool
    ensures { result ≡ is_kept_byte byte }
{
    (b'!'..=b'~').contains(&byte) && byte != b'%'
}

fn push_byte(out: &mut Vec<u8>, byte: u8) -> Result<(), AllocError>
    ensures { OnOk result (out.new.items ≡ out.old.items ++ spelled_byte byte) }
{
    if is_kept_byte(byte) {
        out.push(byte)?;
        Ok(())
    } else {
        out.extend_from_slice(percent_encode_byte(byte).as_bytes())
    }
}

// All bytes, spelled.
fn whole_spelling(alloc: Global, bytes: &[u8]) -> Result<Vec<u8>, AllocError>
    ensures { IfOk result (λ text. text.items ≡ whole_spelling bytes.now) }
{
    let mut text = Vec::new(alloc);
    for byte in bytes {
        push_byte(&mut text, *byte)?;
    }
    Ok(text)
}

// How many bytes the spelling of a byte has.
fn length_of(byte: u8) -> usize
    ensures { result ≡ length (spelled_byte byte) }
{
    if is_kept_byte(byte) {
        1
    } else {
        percent_encode_byte(byte).len()
    }
}

// The bytes from the front, spelled, as many as there is room for.
#[tactic(auto, using(crate::proofs::Fittings::fitting_step, crate::proofs::Fittings::fitting_stop))]
fn fitting(alloc: Global, bytes: &[u8], most: usize) -> Result<Vec<u8>, AllocError>
    ensures { IfOk result (λ text. text.items ≡ fitting most bytes.now) }
{
    let mut text = Vec::new(alloc);
    let mut room = most;
    for i in 0..bytes.len() {
        let byte = bytes[i];
        let length = length_of(byte);
        if length > room {
            return Ok(text);
        }
        room -= length;
        push_byte(&mut text, byte)?;
    }
    Ok(text)
}

/// A word as an attribute or a value of a trace. One that is too long is its front and a mark.
pub fn word_spelling(alloc: Global, bytes: &[u8]) -> Result<Vec<u8>, AllocError>
    ensures { IfOk result (λ text. text.items ≡ word_spelling bytes.now) }
{
    if bytes.is_empty() {
        return Vec::from_slice(alloc, EMPTY.as_bytes());
    }
    let whole = whole_spelling(alloc, bytes)?;
    if whole.len() <= NAME_LIMIT {
        return Ok(whole);
    }
    let mut text = fitting(alloc, bytes, NAME_LIMIT.saturating_sub(MORE.len()))?;
    text.extend_from_slice(MORE.as_bytes())?;
    Ok(text)
}

/// The words of a program behind its name. Where the line hasn't room for all of them, it has the front of them and a mark.
pub fn line_of(alloc: Global, words: &[Vec<u8>], cut: bool) -> Result<Option<Text>, AllocError> {
    let mut line = Vec::new(alloc);
    for (place, word) in words.iter().enumerate() {
        if line.len() > LINE_LIMIT {
            break;
        }
        if place > 1 {
            line.push(b' ')?;
        }
        if place > 0 {
            let text = spelled(alloc, word)?;
            let spelling = if word.is_empty() {
                EMPTY
            } else {
                text.as_str()
            };
            line.extend_from_slice(spelling.as_bytes())?;
        }
    }
    if cut || line.len() > LINE_LIMIT {
        let front = front_of(&line, LINE_LIMIT.saturating_sub(MORE.len()));
        line = Vec::from_slice(alloc, front)?;
        line.extend_from_slice(MORE.as_bytes())?;
    }
    taken(Text::line(alloc, &line))
}
