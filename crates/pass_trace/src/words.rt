//! The words of a line and their forms.
ghost use Rattle.std.specs.Prelude.{◌≡◌, map, option_map, IfOk};
ghost use Rattle.std.specs.List.{list_all};
ghost use Rattle.pass_entry.specs.Texts.{is_name_byte};
ghost use Rattle.pass_trace.specs.Lines.{words_of};
ghost use Rattle.pass_trace.specs.Words.{is_digit, is_hex, is_number, is_word, is_mode, is_repeated, is_payload, has_form, have_forms, have_these};

use crate::call::Form;
use std::alloc::{AllocError, Global};

// The words of a line, between which one space stands.
pub(crate) fn words_of(alloc: Global, line: &[u8]) -> Result<Vec<&[u8]>, AllocError>
    ensures { IfOk result (λ words. map (λ w. w.now) words.items ≡ words_of line.now) }
{
    line.split(|byte| *byte == b' ').collect(alloc)
}

fn are_digits(bytes: &[u8]) -> bool
    ensures { result ≡ list_all is_digit bytes.now }
{
    bytes.iter().all(|byte| (b'0'..=b'9').contains(byte))
}

fn is_hex(byte: u8) -> bool
    ensures { result ≡ is_hex byte }
{
    (b'0'..=b'9').contains(&byte) || (b'a'..=b'f').contains(&byte)
}

fn are_hex(bytes: &[u8]) -> bool
    ensures { result ≡ list_all is_hex bytes.now }
{
    bytes.iter().all(|byte| is_hex(*byte))
}

fn are_graphic(bytes: &[u8]) -> bool
    ensures { result ≡ list_all is_name_byte bytes.now }
{
    bytes.iter().all(|byte| (b'!'..=b'~').contains(byte))
}

pub(crate) fn is_number(word: &[u8]) -> bool
    ensures { result ≡ is_number word.now }
{
    !word.is_empty() && word.len() <= 19 && are_digits(word) && (word.len() == 1 || word[0] > b'0')
}

fn is_word(word: &[u8]) -> bool
    ensures { result ≡ is_word word.now }
{
    !word.is_empty() && are_graphic(word)
}

fn is_mode(word: &[u8]) -> bool
    ensures { result ≡ is_mode word.now }
{
    word == b"r".as_slice() || word == b"w".as_slice() || word == b"rw".as_slice()
}

// A number, a colon and two digits in base 16.
fn is_repeated(bytes: &[u8]) -> bool
    ensures { result ≡ is_repeated bytes.now }
{
    if bytes.len() < 4 {
        return false;
    }
    let colon = bytes.len() - 3;
    is_number(&bytes[..colon]) && bytes[colon] == b':' && are_hex(&bytes[colon + 1..])
}

fn is_payload(word: &[u8]) -> bool
    ensures { result ≡ is_payload word.now }
{
    if word == b"buf".as_slice() {
        return true;
    }
    if word.len() < 2 {
        return false;
    }
    let (kind, bytes) = word.split_at(2);
    if kind == b"t:".as_slice() {
        are_graphic(bytes)
    } else if kind == b"x:".as_slice() {
        bytes.len() % 2 == 0 && are_hex(bytes)
    } else if kind == b"r:".as_slice() {
        is_repeated(bytes)
    } else {
        false
    }
}

fn has_form(form: Form, word: &[u8]) -> bool
    ensures { result ≡ has_form form word.now }
{
    match form {
        Form::Number => is_number(word),
        Form::Name | Form::Rest => is_word(word),
        Form::Mode => is_mode(word),
        Form::Payload => is_payload(word),
    }
}

fn are_words(words: &[&[u8]]) -> bool
    ensures { result ≡ list_all is_word (map (λ w. w.now) words.now) }
{
    words.iter().all(|word| is_word(word))
}

// There are forms, and the words have them.
pub(crate) fn have_these(forms: Option<&[Form]>, words: &[&[u8]]) -> bool
    ensures { result ≡ have_these (option_map (λ f. f.now) forms.entry) (map (λ w. w.now) words.now) }
{
    match forms {
        Some(forms) => have_forms(forms, words),
        None => false,
    }
}

// Whether the words have the forms, one each.
fn have_forms(forms: &[Form], words: &[&[u8]]) -> bool
    ensures { result ≡ have_forms forms.now (map (λ w. w.now) words.now) }
{
    let mut left = words;
    for form in forms {
        if *form == Form::Rest {
            return are_words(left);
        }
        match left {
            [] => return false,
            [word, after @ ..] => {
                if !has_form(*form, word) {
                    return false;
                }
                left = after;
            }
        }
    }
    left.is_empty()
}
