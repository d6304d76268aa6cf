//! The headers of an ELF file, of 32 or of 64 bits, the least byte of each number first.
ghost use Rattle.std.specs.List.{position};
ghost use Rattle.std.specs.Prelude.{◌≡◌, ◌≤◌, ◌<◌, ◌+◌, ◌==◌, true, length, option_map, slice_index_or, IfSome};
ghost use Rattle.pass_loader.specs.Elf.{address, count_at, field, in_file, is_known, is_marked, is_wide, length_at, loaded, loader_in, name_in, offset_at, path_of, seen, size_at, table_at, tail};

use byteorder::{ByteOrder, LittleEndian};

/// What loads a program.
#[derive(Clone, Copy)]
pub enum Found<'a> {
    /// The program with this path.
    Named(&'a [u8]),
    /// The system alone.
    Nothing,
    /// The bytes don't have all of the headers, or no path where one has to be.
    Unknown,
}

/// The type of the program header that has the path of a loader.
const PT_INTERP: u64 = 3;

// What stands from a place on, where that has so many bytes.
fn tail(bytes: &[u8], at: u64, need: u64) -> Option<&[u8]>
    ensures tail { option_map (λ t. t.now) result ≡ tail need bytes.now at }
    ensures long { IfSome result (λ t. need ≤ length t.now) }
    ensures within { IfSome result (λ t. at + need ≤ length bytes.now) }
{
    let length = bytes.len() as u64;
    if at > length || need > length - at {
        return None;
    }
    Some(&bytes[at as usize..])
}

fn number16(bytes: &[u8], at: u64) -> Option<u64>
    ensures { result ≡ field 2 bytes.now at }
{
    let rest = tail(bytes, at, 2)?;
    Some(u64::from(LittleEndian::read_u16(rest)))
}

fn number32(bytes: &[u8], at: u64) -> Option<u64>
    ensures number { result ≡ field 4 bytes.now at }
    ensures within { IfSome result (λ n. at + 4 ≤ length bytes.now) }
{
    let rest = tail(bytes, at, 4)?;
    Some(u64::from(LittleEndian::read_u32(rest)))
}

fn number64(bytes: &[u8], at: u64) -> Option<u64>
    ensures { result ≡ field 8 bytes.now at }
{
    let rest = tail(bytes, at, 8)?;
    Some(LittleEndian::read_u64(rest))
}

fn address(wide: bool, bytes: &[u8], at: u64) -> Option<u64>
    ensures { result ≡ address wide bytes.now at }
{
    if wide {
        number64(bytes, at)
    } else {
        number32(bytes, at)
    }
}

fn first_zero(bytes: &[u8]) -> Option<usize>
    ensures place { result ≡ position (λ b. b == 0) bytes.now }
    ensures within { IfSome result (λ place. place < length bytes.now) }
{
    bytes.iter().position(|byte| *byte == 0)
}

// The path in a piece, which ends before its first zero byte.
fn name_in(piece: &[u8]) -> Found<'_>
    ensures { seen result ≡ name_in piece.now }
{
    match first_zero(piece) {
        Some(0) | None => Found::Unknown,
        Some(end) => Found::Named(&piece[..end]),
    }
}

// The path of a program header.
fn path_of(wide: bool, bytes: &[u8], at: u64) -> Found<'_>
    requires { at ≤ length bytes.now }
    ensures { seen result ≡ path_of wide bytes.now at }
{
    let (offset, length) = if wide { (8, 32) } else { (4, 16) };
    let Some(start) = address(wide, bytes, at + offset) else {
        return Found::Unknown;
    };
    let Some(length) = address(wide, bytes, at + length) else {
        return Found::Unknown;
    };
    match tail(bytes, start, length) {
        Some(rest) => name_in(&rest[..length as usize]),
        None => Found::Unknown,
    }
}

// The path of the first program header that has one, of so many from a place on.
fn loader_in(wide: bool, bytes: &[u8], table: u64, size: u64, count: u64) -> Found<'_>
    requires { size ≤ 65535 }
    ensures { seen result ≡ loader_in wide bytes.now table size count }
{
    let mut at = table;
    for _header in 0..count {
        match number32(bytes, at) {
            Some(PT_INTERP) => return path_of(wide, bytes, at),
            Some(_) => at += size,
            None => return Found::Unknown,
        }
    }
    Found::Nothing
}

fn in_file(wide: bool, bytes: &[u8]) -> Found<'_>
    ensures { seen result ≡ in_file wide bytes.now }
{
    let (table, size, count) = if wide { (32, 54, 56) } else { (28, 42, 44) };
    let Some(table) = address(wide, bytes, table) else {
        return Found::Unknown;
    };
    let Some(size) = number16(bytes, size) else {
        return Found::Unknown;
    };
    match number16(bytes, count) {
        Some(count) => loader_in(wide, bytes, table, size, count),
        None => Found::Unknown,
    }
}

fn is_marked(bytes: &[u8]) -> bool
    ensures { result ≡ is_marked bytes.now }
{
    bytes.starts_with(&[127, b'E', b'L', b'F'])
}

// The byte at a place, or 0 where there is none.
fn byte_at(bytes: &[u8], at: usize) -> u8
    ensures { result ≡ slice_index_or bytes.now at 0 }
{
    if at < bytes.len() { bytes[at] } else { 0 }
}

/// What loads the program whose file begins with these bytes.
pub fn loader_of(front: &[u8]) -> Found<'_>
    ensures { seen result ≡ loaded front.now }
{
    if !is_marked(front) {
        return Found::Nothing;
    }
    let class = byte_at(front, 4);
    if (class == 1 || class == 2) && byte_at(front, 5) == 1 {
        in_file(class == 2, front)
    } else {
        Found::Unknown
    }
}
