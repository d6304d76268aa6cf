//! Where two contents differ.
ghost use Rattle.std.specs.Prelude.{◌≡◌, ◌≤◌, ◌<◌, ◌++◌, ◌↔◌, ℕ, IsTrue, IfOk, OnOk, length, slice_get, string_bytes};
ghost use Rattle.pass_old.specs.Diffs.{Differs, AreDifferences, range_line, range_lines};

use std::alloc::{AllocError, Global};
use std::fmt::Write;

/// The bytes of a content from a place on, up to another one, which isn't among them.
#[derive(Clone, Copy, PartialEq, Eq)]
pub struct ByteRange {
    pub begin: u64,
    pub end: u64,
}

// The contents have the same byte at a place, or both have none.
fn is_same_at(a: &[u8], b: &[u8], place: usize) -> bool
    ensures { IsTrue result ↔ (slice_get a.now place ≡ slice_get b.now place) }
{
    a.get(place) == b.get(place)
}

// The first place from `from` on, and below `end`, at which the contents differ.
fn first_other(a: &[u8], b: &[u8], from: usize, end: usize) -> usize
    requires { from ≤ end }
    ensures least { from ≤ result }
    ensures most { result ≤ end }
    ensures before { (p : ℕ) → from ≤ p → p < result → slice_get a.now p ≡ slice_get b.now p }
    ensures found { result < end → Differs a.now b.now result }
{
    for place in from..end {
        if !is_same_at(a, b, place) {
            return place;
        }
    }
    end
}

// The first place from `from` on, and below `end`, at which they are the same.
fn first_same(a: &[u8], b: &[u8], from: usize, end: usize) -> usize
    requires { from ≤ end }
    ensures least { from ≤ result }
    ensures most { result ≤ end }
    ensures before { (p : ℕ) → from ≤ p → p < result → Differs a.now b.now p }
    ensures found { result < end → slice_get a.now result ≡ slice_get b.now result }
{
    for place in from..end {
        if is_same_at(a, b, place) {
            return place;
        }
    }
    end
}

/// The ranges of bytes in which two contents differ, ascending.
pub fn differences(alloc: Global, a: &[u8], b: &[u8]) -> Result<Vec<ByteRange>, AllocError>
    ensures { IfOk result (λ ranges. AreDifferences a.now b.now ranges.items) }
{
    let end = a.len().max(b.len());
    let mut ranges = Vec::new(alloc);
    let mut place = first_other(a, b, 0, end);
    while place < end {
        let behind = first_same(a, b, place, end);
        ranges.push(ByteRange {
            begin: place as u64,
            end: behind as u64,
        })?;
        place = first_other(a, b, behind, end);
    }
    Ok(ranges)
}

// Adds the line of a range.
fn write_range(text: &mut String, range: ByteRange) -> Result<(), AllocError>
    ensures { OnOk result (string_bytes text.new ≡ string_bytes text.old ++ range_line range) }
{
    writeln!(text, "bytes {} {}", range.begin, range.end)
}

/// A line for each range.
pub(crate) fn range_text(alloc: Global, ranges: &[ByteRange]) -> Result<String, AllocError>
    ensures { IfOk result (λ text. string_bytes text ≡ range_lines ranges.now) }
{
    let mut text = String::new(alloc);
    for range in ranges {
        write_range(&mut text, *range)?;
    }
    Ok(text)
}
