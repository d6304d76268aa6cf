//! Whether calls of a text are lost in its trace.
ghost use Rattle.std.specs.List.{position};
ghost use Rattle.std.specs.BTreeMap.{get};
ghost use Rattle.std.specs.Ordering.{nat_cmp};
ghost use Rattle.std.specs.Prelude.{◌≡◌, ◌⊎◌, ◌<◌, ◌+◌, ◌==◌, ◌^◌, not, true, length, map, reverse, None, IfOk, IfSome, OnOk, IsTrue, Contains, drop};
ghost use Rattle.pass_strace.specs.Calls.{HasBegin, HasLine, IsBegunAt, IsLastOpen, KeepsCalls, KeepsRest, KeepsWhole, before, behind_last, behind_spaces, is_answered, is_beginning, is_begun, is_kept_call, is_kept_name, is_kept_rest, is_left_open, is_number, is_opening, is_reading, is_resumed_call, is_said_call, is_superseded, is_unfinished, is_writing, line_at, lines_of, name_of, process_of, resumed_name, resumed_rest, said_of, superseder_of};
ghost use Rattle.pass_strace.specs.Openings.{AreLast, key_of};

use pass_observed::Skipped;
use std::alloc::{AllocError, Global};
use std::collections::BTreeMap;

fn first_of(text: &[u8], value: u8) -> Option<usize>
    ensures place { result ≡ position (λ b. b == value) text.now }
    ensures within { IfSome result (λ place. place < length text.now) }
{
    text.iter().position(|byte| *byte == value)
}

fn first_beside(text: &[u8], value: u8) -> Option<usize>
    ensures place { result ≡ position (λ b. not (b == value)) text.now }
    ensures within { IfSome result (λ place. place < length text.now) }
{
    text.iter().position(|byte| *byte != value)
}

fn before(text: &[u8], mark: u8) -> &[u8]
    ensures { result.now ≡ before mark text.now }
{
    match first_of(text, mark) {
        Some(place) => &text[..place],
        None => text,
    }
}

fn behind_spaces(text: &[u8]) -> &[u8]
    ensures { result.now ≡ behind_spaces text.now }
{
    match first_beside(text, b' ') {
        Some(place) => &text[place..],
        None => &[],
    }
}

fn behind(text: &[u8], start: usize) -> &[u8]
    ensures { result.now ≡ drop start text.now }
{
    if start <= text.len() {
        &text[start..]
    } else {
        &[]
    }
}

fn process_of(line: &[u8]) -> &[u8]
    ensures { result.now ≡ process_of line.now }
{
    before(line, b' ')
}

fn said_of(line: &[u8]) -> &[u8]
    ensures { result.now ≡ said_of line.now }
{
    behind_spaces(behind(line, process_of(line).len()))
}

fn name_of(said: &[u8]) -> &[u8]
    ensures { result.now ≡ name_of said.now }
{
    before(said, b'(')
}

fn is_opening(name: &[u8]) -> bool
    ensures { result ≡ is_opening name.now }
{
    name == b"open".as_slice()
        || name == b"openat".as_slice()
        || name == b"openat2".as_slice()
        || name == b"creat".as_slice()
        || name == b"close".as_slice()
        || name == b"close_range".as_slice()
        || name == b"dup".as_slice()
        || name == b"dup2".as_slice()
        || name == b"dup3".as_slice()
        || name == b"fcntl".as_slice()
        || name == b"pipe".as_slice()
        || name == b"pipe2".as_slice()
}

fn is_reading(name: &[u8]) -> bool
    ensures { result ≡ is_reading name.now }
{
    name == b"read".as_slice()
        || name == b"readv".as_slice()
        || name == b"pread64".as_slice()
        || name == b"preadv".as_slice()
        || name == b"preadv2".as_slice()
}

fn is_writing(name: &[u8]) -> bool
    ensures { result ≡ is_writing name.now }
{
    name == b"write".as_slice()
        || name == b"writev".as_slice()
        || name == b"pwrite64".as_slice()
        || name == b"pwritev".as_slice()
        || name == b"pwritev2".as_slice()
        || name == b"vmsplice".as_slice()
        || name == b"sendfile".as_slice()
        || name == b"copy_file_range".as_slice()
        || name == b"splice".as_slice()
        || name == b"tee".as_slice()
}

fn is_beginning(name: &[u8]) -> bool
    ensures { result ≡ is_beginning name.now }
{
    name == b"fork".as_slice()
        || name == b"vfork".as_slice()
        || name == b"clone".as_slice()
        || name == b"clone3".as_slice()
        || name == b"execve".as_slice()
        || name == b"execveat".as_slice()
}

fn is_kept_name(name: &[u8]) -> bool
    ensures { result ≡ is_kept_name name.now }
{
    is_opening(name) || is_reading(name) || is_writing(name) || is_beginning(name)
}

fn is_unfinished(said: &[u8]) -> bool
    ensures { result ≡ is_unfinished said.now }
{
    said.ends_with(b" <unfinished ...>")
}

// How many bytes stand behind the last one of this value.
fn count_behind(text: &[u8], value: u8) -> Option<usize>
    ensures place { result ≡ position (λ b. b == value) (reverse text.now) }
    ensures within { IfSome result (λ count. count < length text.now) }
{
    text.iter().rev().position(|byte| *byte == value)
}

fn behind_last(text: &[u8], mark: u8) -> &[u8]
    ensures { result.now ≡ behind_last mark text.now }
{
    match count_behind(text, mark) {
        Some(count) => &text[text.len() - count..],
        None => &[],
    }
}

fn is_number(answer: &[u8]) -> bool
    ensures { result ≡ is_number answer.now }
{
    answer.len() > 1 && answer[0] == b' ' && b'0' <= answer[1] && answer[1] <= b'9'
}

fn is_answered(said: &[u8]) -> bool
    ensures { result ≡ is_answered said.now }
{
    is_number(behind_last(said, b'='))
}

fn is_said_call(said: &[u8]) -> bool
    ensures { result ≡ is_said_call said.now }
{
    is_kept_name(name_of(said)) && !is_unfinished(said) && is_answered(said)
}

fn is_kept_call(line: &[u8]) -> bool
    ensures { result ≡ is_kept_call line.now }
{
    is_said_call(said_of(line))
}

fn resumed_name(said: &[u8]) -> &[u8]
    ensures { result.now ≡ resumed_name said.now }
{
    before(behind(said, 5), b' ')
}

fn resumed_rest(said: &[u8]) -> &[u8]
    ensures { result.now ≡ resumed_rest said.now }
{
    behind(said, before(said, b'>').len() + 1)
}

fn is_resumed_call(said: &[u8]) -> bool
    ensures { result ≡ is_resumed_call said.now }
{
    said.starts_with(b"<... ")
        && is_kept_name(resumed_name(said))
        && is_answered(resumed_rest(said))
}

fn is_kept_rest(line: &[u8]) -> bool
    ensures { result ≡ is_kept_rest line.now }
{
    is_resumed_call(said_of(line))
}

fn is_superseded(said: &[u8]) -> bool
    ensures { result ≡ is_superseded said.now }
{
    said.starts_with(b"+++ superseded by execve in pid ")
}

fn superseder_of(said: &[u8]) -> &[u8]
    ensures { result.now ≡ superseder_of said.now }
{
    before(behind(said, 32), b' ')
}

fn is_left_open(said: &[u8]) -> bool
    ensures { result ≡ is_left_open said.now }
{
    is_unfinished(said) || is_superseded(said)
}

fn is_begun(name: &[u8], said: &[u8]) -> bool
    ensures { result ≡ is_begun name.now said.now }
{
    name_of(said) == name && is_unfinished(said)
}

fn key_of(process: &[u8]) -> u64
    ensures { result ≡ key_of process.now }
{
    process.iter().fold(
        0,
        |key: u64, byte| key.wrapping_mul(256).wrapping_add(u64::from(*byte)),
    )
}

// The lines of a text, between which LF stands.
fn lines_of(alloc: Global, text: &[u8]) -> Result<Vec<&[u8]>, AllocError>
    ensures { IfOk result (λ lines. map (λ l. l.now) lines.items ≡ lines_of text.now) }
{
    text.split(|byte| *byte == b'\n').collect(alloc)
}

fn is_origin(origins: &[u64], place: usize, number: u64) -> bool
    ensures { IsTrue result → Contains origins.now number }
{
    place < origins.len() && origins[place] == number
}

fn is_skipped(skipped: &[Skipped], place: usize, number: u64) -> bool
    ensures { IsTrue result → Contains (map (λ s. s.line) skipped.now) number }
{
    place < skipped.len() && skipped[place].line == number
}

fn place_of(skipped: &[Skipped], number: u64) -> usize {
    skipped.partition_point(|one| one.line < number)
}

// Both lists ascend.
fn has_line(origins: &[u64], skipped: &[Skipped], number: u64) -> bool
    ensures { IsTrue result → HasLine origins.now skipped.now number }
{
    let place = origins.partition_point(|origin| *origin < number);
    is_origin(origins, place, number) || is_skipped(skipped, place_of(skipped, number), number)
}

// A line by its place, or no bytes.
fn line_at<'a>(lines: &[&'a [u8]], place: usize) -> &'a [u8]
    ensures { result.now ≡ line_at (map (λ l. l.now) lines.now) place }
{
    if place < lines.len() {
        lines[place]
    } else {
        &[]
    }
}

fn keeps_whole(lines: &[&[u8]], place: usize, origins: &[u64], skipped: &[Skipped]) -> bool
    requires { place < 2 ^ 63 }
    ensures { IsTrue result → KeepsWhole (map (λ l. l.now) lines.now) origins.now skipped.now place }
{
    !is_kept_call(line_at(lines, place)) || has_line(origins, skipped, place as u64 + 1)
}

// The last line that leaves a call of a thread open.
fn last_open(table: &BTreeMap<u64, usize>, process: &[u8]) -> Option<usize>
    ensures { result ≡ get nat_cmp table.now (key_of process.now) }
{
    table.get(&key_of(process)).copied()
}

fn is_of(line: &[u8], process: &[u8]) -> bool
    ensures { IsTrue result → process_of line.now ≡ process.now }
{
    process_of(line) == process
}

// The same, where that line is one of the thread.
fn own_open(
    lines: &[&[u8]],
    place: usize,
    table: &BTreeMap<u64, usize>,
    process: &[u8],
) -> Option<usize>
    requires { AreLast (map (λ l. l.now) lines.now) table.now place }
    ensures last { IfSome result (λ j. IsLastOpen (map (λ l. l.now) lines.now) process.now place j) }
    ensures earlier { IfSome result (λ j. j < place) }
{
    let last = last_open(table, process)?;
    if is_of(line_at(lines, last), process) {
        Some(last)
    } else {
        None
    }
}

fn begins(lines: &[&[u8]], place: usize, name: &[u8]) -> bool
    ensures { result ≡ is_begun name.now (said_of (line_at (map (λ l. l.now) lines.now) place)) }
{
    is_begun(name, said_of(line_at(lines, place)))
}

fn hands_over(lines: &[&[u8]], place: usize) -> bool
    ensures { result ≡ is_superseded (said_of (line_at (map (λ l. l.now) lines.now) place)) }
{
    is_superseded(said_of(line_at(lines, place)))
}

// Where the call of this name began with which a thread goes on.
fn begun_at(
    lines: &[&[u8]],
    place: usize,
    table: &BTreeMap<u64, usize>,
    name: &[u8],
    process: &[u8],
) -> Option<usize>
    requires { AreLast (map (λ l. l.now) lines.now) table.now place }
    ensures begun { IfSome result (λ j. IsBegunAt (map (λ l. l.now) lines.now) name.now process.now place j) }
    ensures earlier { IfSome result (λ j. j < place) }
{
    let last = own_open(lines, place, table, process)?;
    if begins(lines, last, name) {
        return Some(last);
    }
    if !hands_over(lines, last) {
        return None;
    }
    let other = superseder_of(said_of(line_at(lines, last)));
    let begun = own_open(lines, place, table, other)?;
    if begins(lines, begun, name) {
        Some(begun)
    } else {
        None
    }
}

fn has_begin(
    lines: &[&[u8]],
    place: usize,
    table: &BTreeMap<u64, usize>,
    origins: &[u64],
    skipped: &[Skipped],
) -> bool
    requires small { place < 2 ^ 63 }
    requires walked { AreLast (map (λ l. l.now) lines.now) table.now place }
    ensures { IsTrue result → HasBegin (map (λ l. l.now) lines.now) origins.now skipped.now place }
{
    let line = line_at(lines, place);
    match begun_at(
        lines,
        place,
        table,
        resumed_name(said_of(line)),
        process_of(line),
    ) {
        Some(begun) => has_line(origins, skipped, begun as u64 + 1),
        None => false,
    }
}

fn keeps_rest(
    lines: &[&[u8]],
    place: usize,
    table: &BTreeMap<u64, usize>,
    origins: &[u64],
    skipped: &[Skipped],
) -> bool
    requires small { place < 2 ^ 63 }
    requires walked { AreLast (map (λ l. l.now) lines.now) table.now place }
    ensures { IsTrue result → KeepsRest (map (λ l. l.now) lines.now) origins.now skipped.now place }
{
    !is_kept_rest(line_at(lines, place))
        || has_line(origins, skipped, place as u64 + 1)
        || has_begin(lines, place, table, origins, skipped)
}

fn note_open(
    table: &mut BTreeMap<u64, usize>,
    lines: &[&[u8]],
    place: usize,
) -> Result<(), AllocError>
    requires { AreLast (map (λ l. l.now) lines.now) table.old place }
    ensures { OnOk result (AreLast (map (λ l. l.now) lines.now) table.new (place + 1)) }
{
    let line = line_at(lines, place);
    if is_left_open(said_of(line)) {
        table.insert(key_of(process_of(line)), place)?;
    }
    Ok(())
}

// The number of the first line whose call a trace has to keep, and that is neither one of its lines nor among those that are left out.
fn lost_call(
    alloc: Global,
    lines: &[&[u8]],
    origins: &[u64],
    skipped: &[Skipped],
) -> Result<Option<u64>, AllocError>
    ensures { IfOk result (λ lost. lost ≡ None → KeepsCalls (map (λ l. l.now) lines.now) origins.now skipped.now) }
{
    let mut table = BTreeMap::new(alloc);
    for i in 0..lines.len() {
        if !keeps_whole(lines, i, origins, skipped) {
            return Ok(Some(i as u64 + 1));
        }
        if !keeps_rest(lines, i, &table, origins, skipped) {
            return Ok(Some(i as u64 + 1));
        }
        note_open(&mut table, lines, i)?;
    }
    Ok(None)
}

/// The same of the lines of a text.
pub(crate) fn lost_line(
    alloc: Global,
    text: &[u8],
    origins: &[u64],
    skipped: &[Skipped],
) -> Result<Option<u64>, AllocError>
    ensures { IfOk result (λ lost. lost ≡ None → KeepsCalls (lines_of text.now) origins.now skipped.now) }
{
    let lines = lines_of(alloc, text)?;
    lost_call(alloc, &lines, origins, skipped)
}
