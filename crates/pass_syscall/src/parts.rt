//! The parts of a call: its name, its arguments and its answer, as strace writes them by `-xx`, and by `-y` too.

use crate::fault::{LineFault, StraceReason};
use std::alloc::Global;
use std::str;

pub const BAD: LineFault = LineFault::Bad(StraceReason::Form);

const UNESCAPED: LineFault = LineFault::Bad(StraceReason::Unescaped);

/// A descriptor, and what it is open for, where `-y` tells that.
#[derive(Clone, Copy)]
pub struct Fd<'a> {
    pub number: u32,
    pub path: Option<&'a [u8]>,
}

/// A folder before a name: that of the process, or that of a descriptor.
#[derive(Clone, Copy)]
pub enum Base<'a> {
    Own(Option<&'a [u8]>),
    Held(Fd<'a>),
}

/// How a call ended.
#[derive(Clone, Copy)]
pub enum Answer<'a> {
    /// A number, and what it is open for where it is a descriptor.
    Given(u64, Option<&'a [u8]>),
    /// The name of a fault.
    Failed(&'a [u8]),
    Unknown,
}

#[derive(Drop)]
pub struct Parts<'a> {
    pub name: &'a [u8],
    words: Vec<&'a [u8]>,
    pub answer: Answer<'a>,
}

/// The bytes of an argument, and whether strace has cut them.
#[derive(Drop)]
pub struct Shown {
    pub bytes: Vec<u8>,
    pub cut: bool,
}

impl<'a> Parts<'a> {
    /// An argument by its place, or no bytes where there is none.
    pub fn word(&self, place: usize) -> &'a [u8] {
        if place < self.words.len() {
            self.words[place]
        } else {
            &[]
        }
    }

    pub fn number(&self, place: usize) -> Result<u64, LineFault> {
        number_of(self.word(place)).ok_or(BAD)
    }

    pub fn fd(&self, place: usize) -> Result<Fd<'a>, LineFault> {
        fd_of(self.word(place)).ok_or(BAD)
    }

    /// The folder at a place, where one stands before each name; else that of the process.
    pub fn base(&self, place: usize, below: bool) -> Result<Base<'a>, LineFault> {
        let word = self.word(place.saturating_sub(1));
        if !below {
            return Ok(Base::Own(None));
        }
        match word.strip_prefix(b"AT_FDCWD") {
            Some(said) => Ok(Base::Own(between_angles(said))),
            None => Ok(Base::Held(fd_of(word).ok_or(BAD)?)),
        }
    }

    pub fn has(&self, place: usize, flag: &[u8]) -> bool {
        has_flag(self.word(place), flag)
    }

    /// The texts between quotation marks of an argument, up to the first that strace has cut, and whether it has.
    pub fn texts(&self, alloc: Global, place: usize) -> Result<(Vec<Vec<u8>>, bool), LineFault> {
        let mut texts = Vec::new(alloc);
        let (mut inside, mut cut) = (true, false);
        for piece in self.word(place).split(|byte| *byte == b'"') {
            inside = !inside;
            if inside && !cut {
                texts.push(unescaped(alloc, piece)?)?;
            }
            cut = cut || (!inside && piece.starts_with(b"..."));
        }
        if inside { Err(BAD) } else { Ok((texts, cut)) }
    }

    /// Its texts, one behind the other.
    pub fn shown(&self, alloc: Global, place: usize) -> Result<Shown, LineFault> {
        let (texts, cut) = self.texts(alloc, place)?;
        let mut bytes = Vec::new(alloc);
        for text in &texts {
            bytes.extend_from_slice(text)?;
        }
        Ok(Shown { bytes, cut })
    }

    pub fn bytes(&self, alloc: Global, place: usize) -> Result<Vec<u8>, LineFault> {
        let Shown { bytes, .. } = self.shown(alloc, place)?;
        Ok(bytes)
    }

    pub fn count(&self) -> Result<u64, LineFault> {
        match self.answer {
            Answer::Given(count, _) => Ok(count),
            Answer::Failed(_) | Answer::Unknown => Err(BAD),
        }
    }

    /// The answer, where it is a descriptor or a process.
    pub fn given(&self) -> Result<Fd<'a>, LineFault> {
        match self.answer {
            Answer::Given(number, path) => Ok(Fd {
                number: narrow(number).ok_or(BAD)?,
                path,
            }),
            Answer::Failed(_) | Answer::Unknown => Err(BAD),
        }
    }

    pub fn is_answered(&self) -> bool {
        matches!(self.answer, Answer::Given(..))
    }

    pub fn failed_by(&self, fault: &[u8]) -> bool {
        match self.answer {
            Answer::Failed(name) => name == fault,
            Answer::Given(..) | Answer::Unknown => false,
        }
    }
}

// The number that decimal digits write, or hexadecimal ones behind 0x.
fn number_of(word: &[u8]) -> Option<u64> {
    let text = str::from_utf8(word).ok()?;
    match text.strip_prefix("0x") {
        Some(digits) => u64::from_str_radix(digits, 16).ok(),
        None => text.parse::<u64>().ok(),
    }
}

/// A number of 32 bits: a descriptor or a process.
pub fn narrow(number: u64) -> Option<u32> {
    if number > u64::from(u32::MAX) {
        None
    } else {
        Some(number as u32)
    }
}

pub fn small_of(word: &[u8]) -> Option<u32> {
    narrow(number_of(word)?)
}

// What `-y` tells behind a descriptor: the path between angle brackets.
fn between_angles(word: &[u8]) -> Option<&[u8]> {
    let inside = word.strip_prefix(b"<")?;
    Some(before(before(inside, b'>'), b'<'))
}

fn fd_of(word: &[u8]) -> Option<Fd<'_>> {
    let digits = before(word, b'<');
    Some(Fd {
        number: small_of(digits)?,
        path: between_angles(behind(word, digits.len())),
    })
}

/// The bytes from a place on.
pub fn behind(text: &[u8], start: usize) -> &[u8] {
    if start <= text.len() {
        &text[start..]
    } else {
        &[]
    }
}

/// The bytes before a place.
pub fn ahead(text: &[u8], end: usize) -> &[u8] {
    if end <= text.len() {
        &text[..end]
    } else {
        text
    }
}

pub fn behind_spaces(text: &[u8]) -> &[u8] {
    match text.iter().position(|byte| *byte != b' ') {
        Some(start) => behind(text, start),
        None => &[],
    }
}

/// The bytes before the first one of this value, or all.
pub fn before(text: &[u8], end: u8) -> &[u8] {
    match text.iter().position(|byte| *byte == end) {
        Some(place) => &text[..place],
        None => text,
    }
}

// The fields of a word: flags, items in brackets, or members in braces.
fn is_between_fields(byte: u8) -> bool {
    matches!(
        byte,
        b'|' | b',' | b'=' | b'{' | b'}' | b'[' | b']' | b'(' | b')' | b' '
    )
}

pub(crate) fn has_flag(flags: &[u8], flag: &[u8]) -> bool {
    flags
        .split(|byte| is_between_fields(*byte))
        .any(|word| word == flag)
}

/// The descriptors or numbers of a list or a struct, the first field that is one behind `skipped` others.
pub fn fd_among(fields: &[u8], skipped: usize) -> Option<Fd<'_>> {
    fields
        .split(|byte| is_between_fields(*byte))
        .filter_map(fd_of)
        .nth(skipped)
}

/// The first number of a list or a struct.
pub fn number_among(fields: &[u8]) -> Option<u64> {
    fields
        .split(|byte| is_between_fields(*byte))
        .filter_map(number_of)
        .next()
}

/// The number of a struct's field.
pub fn number_of_field(fields: &[u8], name: &[u8]) -> Option<u64> {
    let mut is_next = false;
    for word in fields.split(|byte| is_between_fields(*byte)) {
        if is_next {
            return number_of(word);
        }
        is_next = word == name;
    }
    None
}

fn digit_of(byte: u8) -> Option<u8> {
    match byte {
        b'0'..=b'9' => Some(byte - b'0'),
        b'a'..=b'f' => Some(byte - b'a' + 10),
        _ => None,
    }
}

// The byte that `\x` and two digits write.
fn byte_of(escape: &[u8]) -> Option<u8> {
    let [b'\\', b'x', high, low] = escape else {
        return None;
    };
    let high = digit_of(*high)?.wrapping_mul(16);
    Some(high.wrapping_add(digit_of(*low)?))
}

/// The bytes of a text, each written so.
pub fn unescaped(alloc: Global, text: &[u8]) -> Result<Vec<u8>, LineFault> {
    let mut bytes = Vec::with_capacity(alloc, text.len() / 4)?;
    for escape in text.chunks(4) {
        let Some(byte) = byte_of(escape) else {
            return Err(UNESCAPED);
        };
        bytes.push(byte)?;
    }
    Ok(bytes)
}

// The arguments behind an opening parenthesis, and what stands behind the closing one.
#[derive(Drop)]
struct Words<'a> {
    words: Vec<&'a [u8]>,
    rest: &'a [u8],
}

fn between(text: &[u8], start: usize, end: usize) -> &[u8] {
    if start <= end && end <= text.len() {
        behind_spaces(&text[start..end])
    } else {
        &[]
    }
}

fn split_words(alloc: Global, text: &[u8]) -> Result<Words<'_>, LineFault> {
    let mut words = Vec::new(alloc);
    let mut depth: usize = 0;
    let mut start: usize = 0;
    for (place, byte) in text.iter().enumerate() {
        let ends = depth == 0 && (*byte == b',' || *byte == b')');
        if ends {
            words.push(between(text, start, place))?;
            start = place.saturating_add(1);
        }
        match *byte {
            b'(' | b'[' | b'{' => depth = depth.saturating_add(1),
            b')' if ends => {
                let rest = behind(text, start);
                return Ok(Words { words, rest });
            }
            b')' | b']' | b'}' => depth = depth.saturating_sub(1),
            _ => {}
        }
    }
    Err(BAD)
}

// The answer behind the arguments: spaces, `= ` and a number, a fault or `?`.
fn answer_of(text: &[u8]) -> Result<Answer<'_>, LineFault> {
    let answer = behind_spaces(text).strip_prefix(b"= ").ok_or(BAD)?;
    let word = before(answer, b' ');
    if word.starts_with(b"?") {
        return Ok(Answer::Unknown);
    }
    if word.starts_with(b"-") {
        let fault = behind_spaces(behind(answer, word.len()));
        return Ok(Answer::Failed(before(fault, b' ')));
    }
    let digits = before(word, b'<');
    let path = between_angles(behind(word, digits.len()));
    Ok(Answer::Given(number_of(digits).ok_or(BAD)?, path))
}

fn is_in_name(byte: u8) -> bool {
    byte.is_ascii_alphanumeric() || byte == b'_' || byte == b'?'
}

/// The name of a call, which stands before its arguments.
pub fn name_of_call(text: &[u8]) -> Option<&[u8]> {
    let name = before(text, b'(');
    if name.is_empty() || !name.iter().all(|byte| is_in_name(*byte)) {
        return None;
    }
    Some(name)
}

/// The parts of a call with its answer.
pub fn split_call(alloc: Global, text: &[u8]) -> Result<Parts<'_>, LineFault> {
    let name = name_of_call(text).ok_or(BAD)?;
    let Words { words, rest } = split_words(alloc, behind(text, name.len().saturating_add(1)))?;
    let answer = answer_of(rest)?;
    Ok(Parts {
        name,
        words,
        answer,
    })
}
