//! Bytes that move between processes, files and pipes.

use crate::executing::interpret;
use crate::mappings::{close_aside, look_into_mappings, open_aside};
use pass_descriptor::{Run, What};
use pass_entry::{Bytes, FILE_LIMIT, Mode, TRANSFER_LIMIT};
use pass_observed::{Process, Taking};
use pass_syscall::{
    BAD, Fd, LineFault, Parts, Shown, Skip, Taken, ahead, behind, fd_among, number_among,
    number_of_field,
};
use pass_trace::limits::GREATEST_OFFSET;
use pass_trace::{Command, Payload};
use std::alloc::{AllocError, Global};

/// A descriptor that bytes come from or go to, at an offset or at its position.
#[derive(Clone, Copy)]
pub(crate) struct Side<'a> {
    pub fd: Fd<'a>,
    pub at: Option<u64>,
}

/// A side in the trace.
#[derive(Clone, Copy)]
pub(crate) struct End {
    pub(crate) slot: u8,
    pub(crate) opening: usize,
    pub what: What,
    pub at: u64,
    /// The opening's position moves on.
    pub(crate) moves: bool,
}

/// What a transfer moved: how many bytes, which of them strace told, and how many were asked for.
#[derive(Clone, Copy)]
pub(crate) struct Moved<'a> {
    pub count: u64,
    pub bytes: &'a [u8],
    pub(crate) asked: u64,
}

/// What a copy moved: how many bytes, which are all that the source has or not.
#[derive(Clone, Copy)]
struct Copied {
    count: u64,
    is_whole: bool,
}

impl Copied {
    fn part(count: u64) -> Copied {
        let is_whole = false;
        Copied { count, is_whole }
    }
}

impl Moved<'_> {
    /// So many bytes of which strace tells none.
    pub(crate) fn unseen(count: u64) -> Moved<'static> {
        let (bytes, asked) = (&[], count);
        Moved {
            count,
            bytes,
            asked,
        }
    }
}

/// The payload of a piece; one that is too long is none, and no piece is.
pub fn payload_of(piece: Vec<u8>) -> Payload {
    match Bytes::from_vec(piece) {
        Ok(bytes) => Payload::Given(bytes),
        Err(_) => Payload::Last,
    }
}

// How many bytes the piece has that begins at a place of a transfer.
fn piece_length(count: u64, start: u64) -> u32 {
    count.saturating_sub(start).min(TRANSFER_LIMIT as u64) as u32
}

// A piece of what a transfer moves: the bytes that strace told, and zeros for others.
fn piece_of(alloc: Global, bytes: &[u8], start: u64, len: u32) -> Result<Vec<u8>, AllocError> {
    let told = ahead(behind(bytes, start as usize), len as usize);
    let mut piece = Vec::from_slice(alloc, told)?;
    piece.resize(len as usize, 0)?;
    Ok(piece)
}

// The offset at a place: NULL, or one that is negative, stands for the position.
fn offset_of(word: &[u8]) -> Result<Option<u64>, LineFault> {
    if word == b"NULL".as_slice() || word.starts_with(b"-") {
        return Ok(None);
    }
    let at = number_among(word).ok_or(BAD)?;
    Ok(Some(at))
}

/// The side of a transfer in the trace, where one can say it.
pub(crate) fn end_of(
    run: &mut Run<'_>,
    process: &mut Process,
    side: Side<'_>,
    writes: bool,
) -> Result<Option<End>, LineFault> {
    let Some(held) = run.held(process, side.fd)? else {
        run.skip(Skip::Descriptor)?;
        return Ok(None);
    };
    let opening = match run.what(held.opening) {
        What::Unsaid(skip) => return no_end(run, held.opening, skip),
        // What is read or written is no folder.
        What::Folder => return no_end(run, held.opening, Skip::Descriptor),
        What::Given(number) => {
            let what = run.given_file(number)?;
            if let Some(opening) = run.openings.get_mut(held.opening) {
                opening.what = what;
            }
            held.opening
        }
        What::Pipe { pipe, writes: end } if end != writes => match run.pipes.get(pipe) {
            Some(pipe) => pipe.end(writes),
            None => held.opening,
        },
        What::File(_) | What::Pipe { .. } => held.opening,
    };
    let what = run.what(opening);
    let Some(slot) = run.slot_for(process, opening)? else {
        let skip = match what {
            What::File(file) if run.is_left_out(file) => Skip::Files,
            _ => Skip::Descriptor,
        };
        return no_end(run, opening, skip);
    };
    Ok(Some(End {
        slot,
        opening,
        what,
        at: position(run, opening, side.at, writes),
        moves: side.at.is_none(),
    }))
}

fn no_end(run: &mut Run<'_>, opening: usize, skip: Skip) -> Result<Option<End>, LineFault> {
    let path = Vec::from_slice(run.alloc, run.opened_path(opening))?;
    run.skip_on(skip, &path)?;
    Ok(None)
}

/// Where a transfer begins: at an offset, behind the file's end, or at the opening's position.
pub(crate) fn position(run: &Run<'_>, opening: usize, at: Option<u64>, writes: bool) -> u64 {
    let Some(opening) = run.openings.get(opening) else {
        return at.unwrap_or(0);
    };
    let file = match opening.what {
        What::File(file) => run.files.get(file),
        _ => None,
    };
    match file {
        Some(file) if writes && opening.appends => file.size,
        _ => at.unwrap_or(opening.at),
    }
}

/// Moves the descriptor of the trace to where a transfer begins; one that begins behind what a file may have begins there.
pub(crate) fn seek_to(run: &mut Run<'_>, process: &mut Process, end: End) -> Taken {
    let off = end.at.min(FILE_LIMIT);
    let is_there = process.slot(end.slot).is_some_and(|slot| slot.at == off);
    if !matches!(end.what, What::File(_)) || is_there {
        return Ok(());
    }
    process.place(end.slot, end.opening, off);
    run.say(process, Command::Seek { fd: end.slot, off })
}

// Moves the positions behind what was moved, where the trace moved so many.
fn advance(run: &mut Run<'_>, process: &mut Process, end: End, count: u64, said: u64) {
    let at = end.at.min(FILE_LIMIT).saturating_add(said);
    process.place(end.slot, end.opening, at);
    if let Some(opening) = run.openings.get_mut(end.opening) {
        if end.moves {
            opening.at = end.at.saturating_add(count);
        }
    }
}

// How many bytes the trace takes from where a transfer begins.
fn taken(run: &mut Run<'_>, process: &Process, end: End, count: u64) -> Taking {
    match end.what {
        What::Pipe { pipe, .. } => match run.pipes.get_mut(pipe) {
            Some(pipe) => pipe.take(process.number, count),
            None => Taking::Nothing,
        },
        _ => Taking::Bytes(count.min(FILE_LIMIT.saturating_sub(end.at))),
    }
}

// How many bytes it puts there: None where nobody may read them.
fn room(run: &mut Run<'_>, end: End, count: u64) -> Option<u64> {
    match end.what {
        What::Pipe { pipe, .. } => run.pipes.get_mut(pipe)?.add(count),
        _ => Some(count.min(FILE_LIMIT.saturating_sub(end.at))),
    }
}

// Where a descriptor stands that no call of the run opened isn't known, unless its file was empty or read as a whole; nor whether it
// appends, which makes no difference at the file's end.
fn note_floating(run: &mut Run<'_>, end: End, moved: &Moved<'_>, writes: bool) -> Taken {
    let What::File(file) = end.what else {
        return Ok(());
    };
    let (Some(opening), Some(one)) = (run.openings.get_mut(end.opening), run.files.get_mut(file))
    else {
        return Ok(());
    };
    let may_append = writes && opening.may_append && !one.ends_at(end.at);
    let floats = opening.floats && end.moves && !(writes && opening.appends);
    if !floats && !may_append {
        return Ok(());
    }
    let is_whole = !writes && one.ended_at(end.at.saturating_add(moved.count));
    if is_whole || (end.at == 0 && one.ends_at(0)) {
        opening.floats = false;
        return Ok(());
    }
    if !writes {
        return tell_of(run, Skip::Part, file);
    }
    one.unseen = true;
    tell_of(run, Skip::Bytes, file)
}

// A read of more than a file of the run's can have shows that the text lacks a write.
fn note_lack(run: &mut Run<'_>, process: &Process, end: End, count: u64) -> Taken {
    let What::File(file) = end.what else {
        return Ok(());
    };
    let Some(one) = run.files.get_mut(file) else {
        return Ok(());
    };
    if !one.lacks(end.at, count) {
        return Ok(());
    }
    one.unseen = true;
    tell_of(run, Skip::Bytes, file)?;
    tag(run, process, end)
}

// What is known of a file, or of a pipe, by a transfer from it.
fn take_from(run: &mut Run<'_>, end: End, moved: &Moved<'_>) -> Taken {
    match end.what {
        What::File(file) => {
            run.note_use(file, false, false)?;
            if FILE_LIMIT < end.at.saturating_add(moved.count) {
                tell_of(run, Skip::Size, file)?;
            }
            let short = moved.count < moved.asked;
            if let Some(file) = run.files.get_mut(file) {
                file.read(run.alloc, end.at, moved.count, moved.bytes, short)?;
            }
            Ok(())
        }
        What::Pipe { pipe, .. } => run.note_pipe(pipe, false),
        What::Given(_) | What::Folder | What::Unsaid(_) => Ok(()),
    }
}

// The same by one to it, which shows its bytes or not.
fn put_to(run: &mut Run<'_>, end: End, count: u64, shown: bool) -> Taken {
    match end.what {
        What::File(file) => {
            run.note_use(file, true, false)?;
            let beyond = end.at.saturating_add(count) > FILE_LIMIT;
            if let Some(one) = run.files.get_mut(file) {
                one.write(end.at, count)?;
                one.unseen = one.unseen || !shown || beyond;
            }
            if beyond {
                tell_of(run, Skip::Size, file)?;
            } else if !shown {
                tell_of(run, Skip::Bytes, file)?;
            }
            note_hidden(run, file)
        }
        What::Pipe { pipe, .. } => run.note_pipe(pipe, true),
        What::Given(_) | What::Folder | What::Unsaid(_) => Ok(()),
    }
}

// A version of a file has bytes from before the run of which nothing is known.
fn note_hidden(run: &mut Run<'_>, file: usize) -> Taken {
    let Some(one) = run.files.get_mut(file) else {
        return Ok(());
    };
    if one.unseen || !one.hides() {
        return Ok(());
    }
    one.unseen = true;
    tell_of(run, Skip::Bytes, file)
}

pub(crate) fn tell_of(run: &mut Run<'_>, skip: Skip, file: usize) -> Taken {
    if let Some(file) = run.files.get(file) {
        run.ledger.tell(run.line, skip, file.path())?;
    }
    Ok(())
}

/// Says of the version of a file that its bytes aren't known, where that isn't said yet.
pub(crate) fn tag(run: &mut Run<'_>, process: &Process, end: End) -> Taken {
    let What::File(file) = end.what else {
        return Ok(());
    };
    let Some(file) = run.files.get_mut(file) else {
        return Ok(());
    };
    if !file.unseen || file.tagged {
        return Ok(());
    }
    file.tagged = true;
    run.say_unknown(process, end.slot)
}

// The pieces of a transfer from a descriptor of the trace.
fn say_reads(run: &mut Run<'_>, process: &Process, fd: u8, count: u64) -> Taken {
    for piece in 0..count.div_ceil(TRANSFER_LIMIT as u64).max(1) {
        if run.out.is_full() {
            break;
        }
        let start = piece.saturating_mul(TRANSFER_LIMIT as u64);
        let len = piece_length(count, start).max(1);
        run.say(process, Command::Read { fd, len })?;
    }
    Ok(())
}

// The pieces of one to a descriptor.
fn say_writes(run: &mut Run<'_>, process: &Process, fd: u8, count: u64, bytes: &[u8]) -> Taken {
    for piece in 0..count.div_ceil(TRANSFER_LIMIT as u64).max(1) {
        if run.out.is_full() {
            break;
        }
        let start = piece.saturating_mul(TRANSFER_LIMIT as u64);
        let len = piece_length(count, start);
        let payload = payload_of(piece_of(run.alloc, bytes, start, len)?);
        run.say(process, Command::Write { fd, payload })?;
    }
    Ok(())
}

/// Many bytes come from a descriptor.
pub(crate) fn read(
    run: &mut Run<'_>,
    process: &mut Process,
    side: Side<'_>,
    moved: Moved<'_>,
) -> Taken {
    let Some(end) = end_of(run, process, side, false)? else {
        return Ok(());
    };
    note_floating(run, end, &moved, false)?;
    note_lack(run, process, end, moved.count)?;
    take_from(run, end, &moved)?;
    let said = match taken(run, process, end, moved.count) {
        Taking::Bytes(said) => said,
        Taking::Enough => return Ok(()),
        Taking::Nothing => return tell_untold(run, end, moved.count),
    };
    seek_to(run, process, end)?;
    say_reads(run, process, end.slot, said)?;
    advance(run, process, end, moved.count, said);
    Ok(())
}

// Where bytes come from a pipe that has none in the trace, their write stands later, or isn't known: that flow isn't said.
fn tell_untold(run: &mut Run<'_>, end: End, count: u64) -> Taken {
    if count > 0 && matches!(end.what, What::Pipe { .. }) {
        run.tell_pipe(end.opening)?;
    }
    Ok(())
}

/// Many bytes go to one.
pub(crate) fn write(
    run: &mut Run<'_>,
    process: &mut Process,
    side: Side<'_>,
    moved: Moved<'_>,
) -> Taken {
    look_into_mappings(run, process)?;
    let Some(end) = end_of(run, process, side, true)? else {
        return Ok(());
    };
    let shown = moved.count <= moved.bytes.len() as u64;
    note_floating(run, end, &moved, true)?;
    put_to(run, end, moved.count, shown)?;
    let Some(said) = room(run, end, moved.count) else {
        return Ok(());
    };
    seek_to(run, process, end)?;
    say_writes(run, process, end.slot, said, moved.bytes)?;
    tag(run, process, end)?;
    advance(run, process, end, moved.count, said);
    Ok(())
}

/// A copy within the system, of which strace tells no bytes. What the source had there is known where the text shows it elsewhere.
fn copy(
    run: &mut Run<'_>,
    process: &mut Process,
    from: Side<'_>,
    to: Side<'_>,
    copied: Copied,
) -> Taken {
    let moved = Moved::unseen(copied.count);
    look_into_mappings(run, process)?;
    let Some(source) = end_of(run, process, from, false)? else {
        return write(run, process, to, moved);
    };
    let Some(target) = end_of(run, process, to, true)? else {
        return read(run, process, from, moved);
    };
    if is_lost(process, source) {
        run.skip(Skip::Descriptor)?;
        return write(run, process, to, moved);
    }
    note_floating(run, source, &moved, false)?;
    note_floating(run, target, &moved, true)?;
    note_lack(run, process, source, moved.count)?;
    let known = knows(run, source, copied)?;
    take_from(run, source, &moved)?;
    put_to(run, target, moved.count, known)?;
    let taken = taken(run, process, source, moved.count);
    copy_between(run, process, (source, taken), target, moved.count)
}

// Whether the number of a side went to another one, since the process holds too many ends of pipes.
fn is_lost(process: &Process, end: End) -> bool {
    process.slot_of(end.opening) != Some(end.slot)
}

// Whether the bytes that a copy takes are shown, here or elsewhere.
fn knows(run: &mut Run<'_>, source: End, copied: Copied) -> Result<bool, LineFault> {
    let Copied { count, is_whole } = copied;
    if count == 0 && !is_whole {
        return Ok(true);
    }
    let What::File(file) = source.what else {
        return Ok(false);
    };
    let Some(one) = run.files.get(file) else {
        return Ok(false);
    };
    if one.unseen || (is_whole && !one.has_end()) {
        return Ok(false);
    }
    if one.knows(source.at, count) {
        return Ok(true);
    }
    run.copied.insert(file)?;
    Ok(run.setting.known.shown.contains(&file))
}

// A copy from a side that gives so many bytes in the trace.
fn copy_between(
    run: &mut Run<'_>,
    process: &mut Process,
    from: (End, Taking),
    target: End,
    count: u64,
) -> Taken {
    let (source, taking) = from;
    let taken = match taking {
        Taking::Bytes(taken) => taken,
        Taking::Enough => 0,
        Taking::Nothing => {
            tell_untold(run, source, count)?;
            0
        }
    };
    let added = room(run, target, count);
    seek_to(run, process, source)?;
    seek_to(run, process, target)?;
    say_copies(run, process, (source, taken), (target, added))?;
    tag(run, process, target)?;
    advance(run, process, source, count, taken);
    advance(run, process, target, count, added.unwrap_or(0));
    Ok(())
}

// The pieces of a copy: what was read is written, as long as both sides have so many bytes.
fn say_copies(
    run: &mut Run<'_>,
    process: &Process,
    from: (End, u64),
    to: (End, Option<u64>),
) -> Taken {
    let (source, taken) = from;
    let (target, added) = to;
    let is_empty_pipe = matches!(source.what, What::Pipe { .. }) && taken == 0;
    let most = taken.max(added.unwrap_or(0));
    for piece in 0..most.div_ceil(TRANSFER_LIMIT as u64).max(1) {
        if run.out.is_full() {
            break;
        }
        let start = piece.saturating_mul(TRANSFER_LIMIT as u64);
        let len = piece_length(taken, start);
        if (len > 0 || start == 0) && !is_empty_pipe {
            let (fd, len) = (source.slot, len.max(1));
            run.say(process, Command::Read { fd, len })?;
        }
        let more = piece_length(added.unwrap_or(0), start);
        if added.is_some() && (more > 0 || start == 0) {
            let payload = copied_piece(run.alloc, len, more)?;
            let fd = target.slot;
            run.say(process, Command::Write { fd, payload })?;
        }
    }
    Ok(())
}

// What a piece of a copy writes: what was read last, where that has its length.
fn copied_piece(alloc: Global, read: u32, len: u32) -> Result<Payload, AllocError> {
    if read == len && read > 0 {
        return Ok(Payload::Last);
    }
    Ok(payload_of(piece_of(alloc, &[], 0, len)?))
}

/// A read or a write of the descriptor at the first place, whose bytes stand at the second and its offset at the fourth.
pub fn transfer(
    run: &mut Run<'_>,
    process: &mut Process,
    parts: &Parts<'_>,
    offset: bool,
    writes: bool,
) -> Taken {
    let at = if offset {
        offset_of(parts.word(3))?
    } else {
        None
    };
    let fd = parts.fd(0)?;
    let count = parts.count()?;
    let Shown { bytes, .. } = parts.shown(run.alloc, 1)?;
    let asked = number_among(parts.word(2)).unwrap_or(count);
    let asked = if parts.word(1).starts_with(b"[") {
        count
    } else {
        asked
    };
    let moved = Moved {
        count,
        bytes: &bytes,
        asked,
    };
    let side = Side { fd, at };
    if writes {
        return write(run, process, side, moved);
    }
    interpret(run, process, side, &bytes)?;
    read(run, process, side, moved)
}

/// Pages of memory go to a pipe, or from it.
pub fn pour(run: &mut Run<'_>, process: &mut Process, parts: &Parts<'_>) -> Taken {
    let (fd, at) = (parts.fd(0)?, None);
    let count = parts.count()?;
    let is_reader = match run.held(process, fd)? {
        Some(held) => matches!(run.what(held.opening), What::Pipe { writes: false, .. }),
        None => false,
    };
    if is_reader {
        read(run, process, Side { fd, at }, Moved::unseen(count))
    } else {
        write(run, process, Side { fd, at }, Moved::unseen(count))
    }
}

/// A copy that takes its source at the first place and its target at the third, each with an offset behind it.
pub fn copy_range(run: &mut Run<'_>, process: &mut Process, parts: &Parts<'_>) -> Taken {
    let (fd, at) = (parts.fd(0)?, offset_of(parts.word(1))?);
    let from = Side { fd, at };
    let (fd, at) = (parts.fd(2)?, offset_of(parts.word(3))?);
    let copied = Copied::part(parts.count()?);
    copy(run, process, from, Side { fd, at }, copied)
}

/// A copy that takes its target first, and then its source with an offset.
pub fn send_file(run: &mut Run<'_>, process: &mut Process, parts: &Parts<'_>) -> Taken {
    let (fd, at) = (parts.fd(1)?, offset_of(parts.word(2))?);
    let from = Side { fd, at };
    let (fd, at) = (parts.fd(0)?, None);
    let copied = Copied::part(parts.count()?);
    copy(run, process, from, Side { fd, at }, copied)
}

/// A copy from a pipe to another, after which the first one holds what it did: in the trace it gives a byte.
pub fn tee(run: &mut Run<'_>, process: &mut Process, parts: &Parts<'_>) -> Taken {
    let count = parts.count()?;
    let (fd, at) = (parts.fd(0)?, None);
    look_into_mappings(run, process)?;
    let Some(source) = end_of(run, process, Side { fd, at }, false)? else {
        return Ok(());
    };
    let fd = parts.fd(1)?;
    let Some(target) = end_of(run, process, Side { fd, at }, true)? else {
        return Ok(());
    };
    let shown = match source.what {
        What::Pipe { pipe, .. } => match run.pipes.get_mut(pipe) {
            Some(pipe) => pipe.show(),
            None => 0,
        },
        _ => 0,
    };
    let taken = if shown == 0 {
        Taking::Nothing
    } else {
        Taking::Bytes(shown)
    };
    put_to(run, target, count, false)?;
    copy_between(run, process, (source, taken), target, count)
}

/// What a descriptor is asked for beside what it is read or written.
pub fn device(run: &mut Run<'_>, process: &mut Process, parts: &Parts<'_>) -> Taken {
    let closes = parts.has(1, b"FIOCLEX");
    if closes || parts.has(1, b"FIONCLEX") {
        let fd = parts.fd(0)?.number;
        process.set_closes(fd, fd, closes);
    }
    if parts.has(1, b"FICLONE") || parts.has(1, b"FICLONERANGE") {
        return reflink(run, process, parts);
    }
    Ok(())
}

// A file shares the blocks of another, all or some.
fn reflink(run: &mut Run<'_>, process: &mut Process, parts: &Parts<'_>) -> Taken {
    let target = parts.fd(0)?;
    let range = parts.word(2);
    let Some(source) = fd_among(range, 0) else {
        return run.skip(Skip::Bytes);
    };
    let start = number_of_field(range, b"src_offset").unwrap_or(0);
    let place = number_of_field(range, b"dest_offset").unwrap_or(0);
    let length = number_of_field(range, b"src_length").unwrap_or(0);
    let file = run
        .held(process, source)?
        .and_then(|held| run.file_of(held.opening));
    let size = match file.and_then(|file| run.files.get(file)) {
        Some(file) => file.size,
        None => 0,
    };
    // A length of 0 stands for all up to the end.
    let is_whole = length == 0;
    let count = if is_whole {
        size.saturating_sub(start)
    } else {
        length
    };
    let (fd, at) = (source, Some(start));
    let from = Side { fd, at };
    let (fd, at) = (target, Some(place));
    copy(
        run,
        process,
        from,
        Side { fd, at },
        Copied { count, is_whole },
    )
}

pub fn seek(run: &mut Run<'_>, process: &mut Process, parts: &Parts<'_>) -> Taken {
    let Some(held) = run.held(process, parts.fd(0)?)? else {
        return Ok(());
    };
    let at = parts.count()?;
    if let Some(opening) = run.openings.get_mut(held.opening) {
        opening.at = at;
        opening.floats = false;
    }
    let is_end = parts.has(2, b"SEEK_END") && parts.word(1) == b"0".as_slice();
    let file = run.file_of(held.opening);
    if let (Some(file), true) = (file.and_then(|file| run.files.get_mut(file)), is_end) {
        file.measure(at);
    }
    Ok(())
}

pub fn cut(run: &mut Run<'_>, process: &mut Process, parts: &Parts<'_>) -> Taken {
    let (fd, at) = (parts.fd(0)?, Some(0));
    let size = parts.number(1)?;
    let Some(end) = end_of(run, process, Side { fd, at }, true)? else {
        return Ok(());
    };
    cut_end(run, process, end, size)
}

fn cut_end(run: &mut Run<'_>, process: &mut Process, end: End, size: u64) -> Taken {
    let What::File(file) = end.what else {
        return Ok(());
    };
    run.note_use(file, true, false)?;
    if size > FILE_LIMIT {
        tell_of(run, Skip::Size, file)?;
    }
    if let Some(file) = run.files.get_mut(file) {
        file.cut(size);
        file.unseen = file.unseen || size > FILE_LIMIT;
    }
    note_hidden(run, file)?;
    let size = size.min(FILE_LIMIT).min(GREATEST_OFFSET);
    run.say(process, Command::Truncate { fd: end.slot, size })?;
    tag(run, process, end)
}

/// Cuts the file of a name, which is opened for it.
pub fn cut_name(run: &mut Run<'_>, process: &mut Process, parts: &Parts<'_>) -> Taken {
    let path = run.path_of(process, parts, 0, false, true)?;
    let size = parts.number(1)?;
    let Some(file) = run.find_or_add(&path)? else {
        return Ok(());
    };
    let Some(end) = open_aside(run, process, file, Mode::Write)? else {
        return Ok(());
    };
    cut_end(run, process, end, size)?;
    close_aside(run, process, end)
}
