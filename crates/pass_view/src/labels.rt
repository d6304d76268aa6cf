//! What is written of a node.
ghost use Rattle.std.specs.Prelude.{◌≡◌, ◌==◌, ◌++◌, IfOk, OnOk, map, option_map, string_bytes};
ghost use Rattle.std.specs.List.{flat_map, list_all, slice_split};
ghost use Rattle.pass_view.specs.Labels.{arguments_text, attribute_text, command_text, is_activity, is_in_plain_range, is_plain_byte, is_plain_sign, is_plain_word, label_text, name_text, next_word, quoted_byte, shell_word, shortened, shown_byte, spaced, title_of, value_among, word_bytes};

use crate::picture::Shown;
use pass_entry::{Kind, Text};
use percent_encoding::{percent_decode, percent_encode_byte};
use std::alloc::{AllocError, Global};

/// How many bytes of an attribute's value a label has, and how many of a longer one.
const VALUE: usize = 100;

const FRONT: usize = 97;

/// The text as a string: its bytes are ASCII.
#[tactic(auto, using(crate::proofs::Ascii::line_utf8))]
pub fn str_of(text: &Text) -> &str
    ensures { result.now ≡ text.now }
{
    match std::str::from_utf8(text.as_bytes()) {
        Ok(text) => text,
        Err(_) => unreachable!(),
    }
}

/// The first value of the attribute among these.
#[tactic(auto, using(crate::proofs::Finding::none_more, crate::proofs::Finding::found_here))]
pub(crate) fn value_among<'a>(tags: &'a [(Text, Text)], attr: &[u8]) -> Option<&'a Text>
    ensures { option_map (λ t. t.now) result ≡ value_among tags.now attr.now }
{
    for (name, value) in tags {
        if name.as_bytes() == attr {
            return Some(value);
        }
    }
    None
}

// Words of a shell's line

fn is_plain_byte(byte: u8) -> bool
    ensures { result ≡ is_plain_byte byte }
{
    is_in_plain_range(byte) || is_plain_sign(byte)
}

fn is_in_plain_range(byte: u8) -> bool
    ensures { result ≡ is_in_plain_range byte }
{
    (b'+'..=b':').contains(&byte)
        || ((b'@'..=b'Z').contains(&byte) || (b'a'..=b'z').contains(&byte))
}

fn is_plain_sign(byte: u8) -> bool
    ensures { result ≡ is_plain_sign byte }
{
    byte == b'%' || (byte == b'=' || byte == b'_')
}

fn is_plain_word(bytes: &[u8]) -> bool
    ensures { result ≡ is_plain_word bytes.now }
{
    !bytes.is_empty() && are_plain(bytes)
}

fn are_plain(bytes: &[u8]) -> bool
    ensures { result ≡ list_all is_plain_byte bytes.now }
{
    bytes.iter().all(|byte| is_plain_byte(*byte))
}

#[tactic(auto, using(crate::proofs::Ascii::low))]
fn push_shown_byte(out: &mut String, byte: u8) -> Result<(), AllocError>
    ensures { OnOk result (string_bytes out.new ≡ string_bytes out.old ++ shown_byte byte) }
{
    if (b' '..=b'~').contains(&byte) {
        out.push(char::from(byte))
    } else {
        out.push_str(percent_encode_byte(byte))
    }
}

// A byte between single quotes.
fn push_byte(out: &mut String, byte: u8) -> Result<(), AllocError>
    ensures { OnOk result (string_bytes out.new ≡ string_bytes out.old ++ quoted_byte byte) }
{
    if byte == b'\'' {
        return out.push_str("'\\''");
    }
    push_shown_byte(out, byte)
}

fn push_bytes(out: &mut String, bytes: &[u8]) -> Result<(), AllocError>
    ensures { OnOk result (string_bytes out.new ≡ string_bytes out.old ++ flat_map quoted_byte bytes.now) }
{
    for byte in bytes {
        push_byte(out, *byte)?;
    }
    Ok(())
}

// The word as it stands, or in quotes.
fn push_shell_word(out: &mut String, bytes: &[u8]) -> Result<(), AllocError>
    ensures { OnOk result (string_bytes out.new ≡ string_bytes out.old ++ shell_word bytes.now) }
{
    if is_plain_word(bytes) {
        return push_bytes(out, bytes);
    }
    out.push_str("'")?;
    push_bytes(out, bytes)?;
    out.push_str("'")
}

// The bytes of a word of a trace.
fn word_bytes(alloc: Global, word: &[u8]) -> Result<Vec<u8>, AllocError>
    ensures { IfOk result (λ v. v.items ≡ word_bytes word.now) }
{
    let mut bytes = Vec::new(alloc);
    if word == b"%:".as_slice() {
        return Ok(bytes);
    }
    percent_decode(word).append_to(&mut bytes)?;
    Ok(bytes)
}

// A word of a trace, as a shell has it.
fn push_word(alloc: Global, out: &mut String, word: &[u8]) -> Result<(), AllocError>
    ensures { OnOk result (string_bytes out.new ≡ string_bytes out.old ++ shell_word (word_bytes word.now)) }
{
    let bytes = word_bytes(alloc, word)?;
    push_shell_word(out, &bytes)
}

fn words_of(alloc: Global, words: &[u8]) -> Result<Vec<&[u8]>, AllocError>
    ensures { IfOk result (λ list. map (λ w. w.now) list.items ≡ slice_split (λ b. b == 32) words.now) }
{
    words.split(|byte| *byte == b' ').collect(alloc)
}

// Each word behind a space.
fn push_words(alloc: Global, out: &mut String, words: &[&[u8]]) -> Result<(), AllocError>
    ensures { OnOk result (string_bytes out.new ≡ string_bytes out.old ++ flat_map (λ w. next_word w.now) words.now) }
{
    for word in words {
        push_next(alloc, out, word)?;
    }
    Ok(())
}

fn push_next(alloc: Global, out: &mut String, word: &[u8]) -> Result<(), AllocError>
    ensures { OnOk result (string_bytes out.new ≡ string_bytes out.old ++ next_word word.now) }
{
    out.push_str(" ")?;
    push_word(alloc, out, word)
}

// The arguments, where there are some.
#[tactic(auto, using(crate::proofs::Spelling::each_word))]
fn push_arguments(alloc: Global, out: &mut String, words: Option<&Text>) -> Result<(), AllocError>
    ensures { OnOk result (string_bytes out.new ≡ string_bytes out.old ++ arguments_text (option_map (λ t. t.now) words.entry)) }
{
    if let Some(text) = words {
        let list = words_of(alloc, text.as_bytes())?;
        push_words(alloc, out, &list)?;
    }
    Ok(())
}

// The program and its arguments as a person writes them.
fn push_command(
    alloc: Global,
    out: &mut String,
    program: Option<&Text>,
    arguments: Option<&Text>,
) -> Result<(), AllocError>
    ensures { OnOk result (string_bytes out.new ≡ string_bytes out.old
        ++ command_text (option_map (λ t. t.now) program.entry) (option_map (λ t. t.now) arguments.entry)) }
{
    if let Some(program) = program {
        push_word(alloc, out, program.as_bytes())?;
        push_arguments(alloc, out, arguments)?;
    }
    Ok(())
}

// Labels

// The name, or the last one that was given.
fn push_name(out: &mut String, name: Option<&Text>, was: Option<&Text>) -> Result<(), AllocError>
    ensures { OnOk result (string_bytes out.new ≡ string_bytes out.old
        ++ name_text (option_map (λ t. t.now) name.entry) (option_map (λ t. t.now) was.entry)) }
{
    if let Some(name) = name {
        return out.push_str(str_of(name));
    }
    if let Some(was) = was {
        out.push_str("was ")?;
        out.push_str(str_of(was))?;
    }
    Ok(())
}

/// Whether the node is a version of a process.
pub(crate) fn is_activity(shown: &Shown) -> bool
    ensures { result ≡ is_activity shown.now }
{
    match shown.kind {
        Kind::Process => true,
        Kind::File | Kind::Pipe | Kind::App => false,
    }
}

/// What a process ran, and what any other object is called; empty where that isn't known.
pub(crate) fn title(alloc: Global, shown: &Shown) -> Result<String, AllocError>
    ensures { IfOk result (λ text. string_bytes text ≡ title_of shown.now) }
{
    let mut text = String::new(alloc);
    if is_activity(shown) {
        let program = value_among(&shown.tags, "EXE".as_bytes());
        let arguments = value_among(&shown.tags, "ARGV".as_bytes());
        push_command(alloc, &mut text, program, arguments)?;
    } else {
        push_name(&mut text, shown.name.as_ref(), shown.was.as_ref())?;
    }
    Ok(text)
}

/// An attribute, and the front of its value.
pub(crate) fn attribute(alloc: Global, attr: &Text, value: &Text) -> Result<String, AllocError>
    ensures { IfOk result (λ text. string_bytes text ≡ attribute_text (attr.now, value.now)) }
{
    let bytes = word_bytes(alloc, value.as_bytes())?;
    let mut text = String::from_str(alloc, str_of(attr))?;
    text.push_str(" ")?;
    push_shortened(&mut text, &bytes)?;
    Ok(text)
}

fn push_shortened(out: &mut String, bytes: &[u8]) -> Result<(), AllocError>
    ensures { OnOk result (string_bytes out.new ≡ string_bytes out.old ++ shortened bytes.now) }
{
    if bytes.len() <= VALUE {
        return push_shown(out, bytes);
    }
    push_shown(out, &bytes[..FRONT])?;
    out.push_str("...")
}

fn push_shown(out: &mut String, bytes: &[u8]) -> Result<(), AllocError>
    ensures { OnOk result (string_bytes out.new ≡ string_bytes out.old ++ flat_map shown_byte bytes.now) }
{
    for byte in bytes {
        push_shown_byte(out, *byte)?;
    }
    Ok(())
}

/// The node's number and kind, and its title.
pub(crate) fn label(alloc: Global, shown: &Shown) -> Result<String, AllocError>
    ensures { IfOk result (λ text. string_bytes text ≡ label_text shown.now) }
{
    let title = title(alloc, shown)?;
    let mut text = format!(in alloc; "{} {}", shown.node, shown.kind)?;
    push_spaced(&mut text, title.as_str())?;
    Ok(text)
}

// A text behind a space, where there is one.
fn push_spaced(out: &mut String, text: &str) -> Result<(), AllocError>
    ensures { OnOk result (string_bytes out.new ≡ string_bytes out.old ++ spaced text.now) }
{
    if !text.is_empty() {
        out.push_str(" ")?;
        out.push_str(text)?;
    }
    Ok(())
}
