//! Words that give a node by the name of a file, or ask for an answer with names.
ghost use Rattle.std.specs.Prelude.{◌≡◌, ◌<◌, [], ◌∷◌, true, Err, IfSome, Option, length, map, option_map};
ghost use Rattle.pass_ask.specs.Telling.{called, called_at, called_by, choice_of, inputs_in, inquiry_in, is_called, last_at, lineage_on, named_in, outputs_in, spelled_in, tells, told_path_of, told_path_on};
ghost use Rattle.pass_files.specs.declared.inquiry.Inquiry.{Inquiry};
ghost use Rattle.pass_files.specs.declared.spelled.Spelled.{Spelled};
ghost use Rattle.pass_ask.specs.Words.{Reads};

use crate::numbers::{LAST_NUMBER, node_in, number_in};
use pass_entry::{Text, TextFault};
use pass_files::{Choice, Inquiry, Spelled};
use pass_status::Status;
use std::alloc::Global;

/// What flags ask of names.
#[derive(Clone, Copy)]
pub struct Flags {
    /// `--names`: the answer tells the kind and the name of each node.
    pub names: bool,
    /// `--data`: only flows of data count.
    pub flows: bool,
    /// `--plain`: files of the system are left out.
    pub plain: bool,
}

/// Whether the words ask for names.
pub fn tells(flags: Flags, name: &[u8]) -> bool
    ensures { result ≡ tells flags name.now }
{
    name == b"inputs".as_slice()
        || (name == b"outputs".as_slice() || (flags.names || (flags.flows || flags.plain)))
}

/// The question of the words that ask for names.
pub fn inquiry_in(
    alloc: Global,
    flags: Flags,
    name: &[u8],
    words: &[&str],
) -> Result<Inquiry, Status>
    ensures { Reads result (inquiry_in flags name.now (map (λ w. w.now) words.now)) }
{
    if name == b"inputs".as_slice() {
        return inputs_in(alloc, flags, words);
    }
    if name == b"outputs".as_slice() {
        return outputs_in(alloc, flags, words);
    }
    if flags.names && !(flags.flows || flags.plain) {
        return named_in(alloc, name, words);
    }
    Err(Status::BadWords)
}

fn choice_of(flags: Flags) -> Choice
    ensures { result ≡ choice_of flags }
{
    Choice {
        flows: flags.flows,
        plain: flags.plain,
    }
}

#[tactic(auto, using(crate::proofs::NamedWords::inputs_too_few, crate::proofs::NamedWords::inputs_too_many))]
fn inputs_in(alloc: Global, flags: Flags, words: &[&str]) -> Result<Inquiry, Status>
    ensures { Reads result (inputs_in flags (map (λ w. w.now) words.now)) }
{
    match words {
        [] => Err(Status::BadWords),
        [word] => inputs_of(alloc, flags, word.as_bytes()),
        [_, _, ..] => Err(Status::BadWords),
    }
}

fn inputs_of(alloc: Global, flags: Flags, word: &[u8]) -> Result<Inquiry, Status>
    ensures { Reads result (inputs_in flags (word.now ∷ [])) }
{
    if flags.names {
        return Err(Status::BadWords);
    }
    match spelled_in(alloc, word) {
        Ok(node) => Ok(Inquiry::Inputs(node, choice_of(flags))),
        Err(status) => Err(status),
    }
}

#[tactic(auto, using(crate::proofs::NamedWords::outputs_too_few, crate::proofs::NamedWords::outputs_too_many))]
fn outputs_in(alloc: Global, flags: Flags, words: &[&str]) -> Result<Inquiry, Status>
    ensures { Reads result (outputs_in flags (map (λ w. w.now) words.now)) }
{
    match words {
        [] => Err(Status::BadWords),
        [word] => outputs_of(alloc, flags, word.as_bytes()),
        [_, _, ..] => Err(Status::BadWords),
    }
}

fn outputs_of(alloc: Global, flags: Flags, word: &[u8]) -> Result<Inquiry, Status>
    ensures { Reads result (outputs_in flags (word.now ∷ [])) }
{
    if flags.names {
        return Err(Status::BadWords);
    }
    match spelled_in(alloc, word) {
        Ok(node) => Ok(Inquiry::Outputs(node, choice_of(flags))),
        Err(status) => Err(status),
    }
}

#[tactic(auto, using(crate::proofs::NamedWords::named_too_few, crate::proofs::NamedWords::named_too_many))]
fn named_in(alloc: Global, name: &[u8], words: &[&str]) -> Result<Inquiry, Status>
    ensures { Reads result (named_in name.now (map (λ w. w.now) words.now)) }
{
    match words {
        [] => Err(Status::BadWords),
        [word] => lineage_on(alloc, name, word.as_bytes()),
        [from, to] => told_path_on(alloc, name, from.as_bytes(), to.as_bytes()),
        [_, _, _, ..] => Err(Status::BadWords),
    }
}

fn lineage_on(alloc: Global, name: &[u8], word: &[u8]) -> Result<Inquiry, Status>
    ensures { Reads result (lineage_on name.now word.now) }
{
    if name == b"ancestors".as_slice() {
        return ancestors_of(spelled_in(alloc, word));
    }
    if name == b"descendants".as_slice() {
        return descendants_of(spelled_in(alloc, word));
    }
    Err(Status::BadWords)
}

fn ancestors_of(node: Result<Spelled, Status>) -> Result<Inquiry, Status>
    ensures { (read : Option Spelled) → Reads node read → Reads result (option_map Inquiry.Ancestors read) }
{
    match node {
        Ok(node) => Ok(Inquiry::Ancestors(node)),
        Err(status) => Err(status),
    }
}

fn descendants_of(node: Result<Spelled, Status>) -> Result<Inquiry, Status>
    ensures { (read : Option Spelled) → Reads node read → Reads result (option_map Inquiry.Descendants read) }
{
    match node {
        Ok(node) => Ok(Inquiry::Descendants(node)),
        Err(status) => Err(status),
    }
}

#[tactic(auto, unfolding(crate::specs::Telling::told_path_on))]
fn told_path_on(alloc: Global, name: &[u8], from: &[u8], to: &[u8]) -> Result<Inquiry, Status>
    ensures { Reads result (told_path_on name.now from.now to.now) }
{
    if name != b"path".as_slice() {
        return Err(Status::BadWords);
    }
    told_path_of(spelled_in(alloc, from), spelled_in(alloc, to))
}

fn told_path_of(
    from: Result<Spelled, Status>,
    to: Result<Spelled, Status>,
) -> Result<Inquiry, Status>
    ensures { (one other : Option Spelled) → Reads from one → Reads to other → Reads result (told_path_of one other) }
{
    match from {
        Ok(from) => path_from(from, to),
        Err(status) => Err(status),
    }
}

fn path_from(from: Spelled, to: Result<Spelled, Status>) -> Result<Inquiry, Status>
    ensures { (other : Option Spelled) → Reads to other → Reads result (option_map (Inquiry.Path from) other) }
{
    match to {
        Ok(to) => Ok(Inquiry::Path(from, to)),
        Err(status) => Err(status),
    }
}

// NODE

/// The node that the word gives, by its numbers or by a name. Only a name needs memory.
#[tactic(auto, unfolding(crate::specs::Telling::spelled_in))]
pub fn spelled_in(alloc: Global, word: &[u8]) -> Result<Spelled, Status>
    ensures node { Reads result (spelled_in word.now) }
    ensures starved { result ≡ Err Status.NoMemory → is_called (spelled_in word.now) ≡ true }
{
    match node_in(word) {
        Some(node) => Ok(Spelled::Numbered(node)),
        None => called_at(alloc, word, last_at(word)),
    }
}

// The place of the last `@`.
fn last_at(word: &[u8]) -> Option<usize>
    ensures place { result ≡ last_at word.now }
    ensures within { IfSome result (λ at. at < length word.now) }
{
    for place in (0..word.len()).rev() {
        if word[place] == b'@' {
            return Some(place);
        }
    }
    None
}

fn called_at(alloc: Global, word: &[u8], place: Option<usize>) -> Result<Spelled, Status>
    requires { IfSome place (λ at. at < length word.now) }
    ensures node { Reads result (called_at word.now place) }
    ensures starved { result ≡ Err Status.NoMemory → is_called (called_at word.now place) ≡ true }
{
    match place {
        Some(at) => called_by(alloc, word, &word[..at], &word[at + 1..]),
        None => called(alloc, word, None),
    }
}

fn called_by(alloc: Global, word: &[u8], name: &[u8], behind: &[u8]) -> Result<Spelled, Status>
    ensures node { Reads result (called_by word.now name.now behind.now) }
    ensures starved { result ≡ Err Status.NoMemory → is_called (called_by word.now name.now behind.now) ≡ true }
{
    if behind.is_empty() {
        return called(alloc, name, None);
    }
    match number_in(behind, 1, LAST_NUMBER) {
        Some(version) => called(alloc, name, Some(version)),
        None => called(alloc, word, None),
    }
}

fn called(alloc: Global, name: &[u8], version: Option<u64>) -> Result<Spelled, Status>
    ensures node { Reads result (called name.now version) }
    ensures starved { result ≡ Err Status.NoMemory → is_called (called name.now version) ≡ true }
{
    match Text::name(alloc, name) {
        Ok(name) => Ok(Spelled::Called { name, version }),
        Err(TextFault::NoMemory) => Err(Status::NoMemory),
        Err(TextFault::BadLength | TextFault::BadByte) => Err(Status::BadWords),
    }
}
