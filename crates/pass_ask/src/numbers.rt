//! Numbers and nodes among the words.
ghost use Rattle.std.specs.Prelude.{◌≡◌, ◌≤◌, ◌<◌, ◌==◌, IfSome, length, min};
ghost use Rattle.std.specs.List.{list_all, position};
ghost use Rattle.pass_trace.specs.Words.{is_digit, value_of};
ghost use Rattle.pass_ask.specs.Numbers.{is_number_to, last_number, number_in, node_in, node_of, seed_in};

use pass_entry::{NUMBER_LIMIT, Node, Pnode};

/// The greatest number of an object, and of a version.
pub const LAST_NUMBER: u64 = NUMBER_LIMIT - 1;

fn are_digits(word: &[u8]) -> bool
    ensures { result ≡ list_all is_digit word.now }
{
    word.iter().all(|byte| (b'0'..=b'9').contains(byte))
}

// The word is a number of at most so many digits, without leading zeros.
fn is_number(word: &[u8], most: usize) -> bool
    ensures { result ≡ is_number_to most word.now }
{
    !word.is_empty()
        && word.len() <= most
        && are_digits(word)
        && (word.len() == 1 || word[0] > b'0')
}

// The number that decimal digits write, or the greatest one where it is greater.
fn value_of(word: &[u8]) -> u128
    ensures { result ≡ min (value_of word.now) u128.MAX }
{
    let mut value: u128 = 0;
    for byte in word {
        let digit = u128::from(byte.saturating_sub(b'0'));
        value = value.saturating_mul(10).saturating_add(digit);
    }
    value
}

/// The number that the word writes in decimal digits without leading zeros, where it is from `low` to `high`.
pub fn number_in(word: &[u8], low: u64, high: u64) -> Option<u64>
    ensures value { result ≡ number_in low high word.now }
    ensures within { IfSome result (λ n. (low ≤ n) × (n ≤ high)) }
{
    if !is_number(word, 19) {
        return None;
    }
    let value = value_of(word);
    if u128::from(low) <= value && value <= u128::from(high) {
        Some(value as u64)
    } else {
        None
    }
}

/// The number below 2^64 that the word writes in decimal digits without leading zeros.
pub fn seed_in(word: &[u8]) -> Option<u64>
    ensures { result ≡ seed_in word.now }
{
    if !is_number(word, 20) {
        return None;
    }
    let value = value_of(word);
    if value <= u128::from(u64::MAX) {
        Some(value as u64)
    } else {
        None
    }
}

// The place of the first dot.
fn dot_in(word: &[u8]) -> Option<usize>
    ensures place { result ≡ position (λ b. b == 46) word.now }
    ensures within { IfSome result (λ dot. dot < length word.now) }
{
    word.iter().position(|byte| *byte == b'.')
}

// The number of an object, or a version.
fn counted(word: &[u8]) -> Option<u64>
    ensures { result ≡ number_in 1 last_number word.now }
{
    number_in(word, 1, LAST_NUMBER)
}

// The node of an object's number and a version.
fn node_of(pnode: Option<u64>, version: Option<u64>) -> Option<Node>
    ensures { result ≡ node_of pnode version }
{
    match (pnode, version) {
        (Some(pnode), Some(version)) => Some(Node {
            pnode: Pnode(pnode),
            version,
        }),
        _ => None,
    }
}

/// The node that the word writes as `P.V`.
pub fn node_in(word: &[u8]) -> Option<Node>
    ensures { result ≡ node_in word.now }
{
    match dot_in(word) {
        Some(dot) => node_of(counted(&word[..dot]), counted(&word[dot + 1..])),
        None => None,
    }
}
