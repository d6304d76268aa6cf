//! Files in the memory of processes.

use crate::transfers::{End, Side, end_of, payload_of, seek_to, tag, tell_of};
use pass_descriptor::{Run, What};
use pass_entry::{Mode, TRANSFER_LIMIT};
use pass_observed::{Mapping, Process};
use pass_syscall::{Fd, LineFault, Parts, Skip, Taken};
use pass_trace::Command;
use std::collections::BTreeSet;

/// A file in memory, of which its process may read any byte: it reads once where the part begins. What it shares it may write too.
pub fn map(run: &mut Run<'_>, process: &mut Process, parts: &Parts<'_>) -> Taken {
    let is_shared = parts.has(3, b"MAP_SHARED") || parts.has(3, b"MAP_SHARED_VALIDATE");
    let Ok(fd) = parts.fd(4) else {
        return if is_shared {
            run.skip(Skip::Memory)
        } else {
            Ok(())
        };
    };
    let at = Some(parts.number(5)?);
    if is_shared && is_memory(run, process, fd)? {
        return run.skip(Skip::Memory);
    }
    let Some(end) = end_of(run, process, Side { fd, at }, false)? else {
        return Ok(());
    };
    let What::File(file) = end.what else {
        return Ok(());
    };
    run.note_use(file, false, false)?;
    seek_to(run, process, end)?;
    let part = end.at.saturating_add(parts.number(1)?);
    if let Some(file) = run.files.get_mut(file) {
        file.tagged = false;
        if is_data(parts) {
            file.map(part);
        }
    }
    let len = TRANSFER_LIMIT as u32;
    run.say(process, Command::Read { fd: end.slot, len })?;
    // How far it moves isn't known, since the file may be shorter.
    process.place(end.slot, end.opening, u64::MAX);
    if is_shared {
        share(run, process, parts, end, file)
    } else {
        Ok(())
    }
}

// Whether what a descriptor is for has no bytes but those in memory, as /dev/zero.
fn is_memory(run: &mut Run<'_>, process: &mut Process, fd: Fd<'_>) -> Result<bool, LineFault> {
    let held = run.held(process, fd)?;
    Ok(held.is_some_and(|held| run.what(held.opening) == What::Unsaid(Skip::Quiet)))
}

// Whether a part is no program's, of whose bytes the first tell enough.
fn is_data(parts: &Parts<'_>) -> bool {
    !parts.has(2, b"PROT_EXEC") && !parts.has(3, b"MAP_DENYWRITE")
}

// A part that a process shares, and may write to where both its opening and the part allow that.
fn share(
    run: &mut Run<'_>,
    process: &mut Process,
    parts: &Parts<'_>,
    end: End,
    file: usize,
) -> Taken {
    let writes = parts.has(2, b"PROT_WRITE") && may_write(run, end.opening);
    let seen = writes_to(run, file);
    let start = parts.count()?;
    if let Some(file) = run.files.get_mut(file) {
        file.shared = true;
    }
    process.mappings.push(Mapping {
        start,
        end: start.saturating_add(parts.number(1)?),
        opening: end.opening,
        file,
        writes,
        seen,
    })?;
    if writes {
        store(run, process, end)
    } else {
        Ok(())
    }
}

fn may_write(run: &Run<'_>, opening: usize) -> bool {
    match run.openings.get(opening) {
        Some(opening) => opening.mode != Mode::Read,
        None => false,
    }
}

/// A process may write from now on to parts of what it shares in memory.
pub fn protect(run: &mut Run<'_>, process: &mut Process, parts: &Parts<'_>) -> Taken {
    if !parts.has(2, b"PROT_WRITE") {
        return Ok(());
    }
    let start = parts.number(0)?;
    let end = start.saturating_add(parts.number(1)?);
    for place in 0..process.mappings.len() {
        let Some(mapping) = process.mappings.get_mut(place) else {
            break;
        };
        let is_in = start < mapping.end && mapping.start < end;
        if is_in && !mapping.writes && may_write(run, mapping.opening) {
            mapping.writes = true;
            let mapping = *mapping;
            store_mapped(run, process, mapping)?;
        }
    }
    Ok(())
}

// How often a file was written to.
fn writes_to(run: &Run<'_>, file: usize) -> u64 {
    match run.files.get(file) {
        Some(file) => file.writes,
        None => 0,
    }
}

// Bytes that a process wrote to memory that it shares, of which no call tells.
fn store(run: &mut Run<'_>, process: &mut Process, end: End) -> Taken {
    let What::File(file) = end.what else {
        return Ok(());
    };
    run.note_use(file, true, false)?;
    if let Some(file) = run.files.get_mut(file) {
        file.written = true;
        file.unseen = true;
        file.writes = file.writes.saturating_add(1);
    }
    tell_of(run, Skip::Bytes, file)?;
    let payload = payload_of(Vec::new(run.alloc));
    run.say(
        process,
        Command::Write {
            fd: end.slot,
            payload,
        },
    )?;
    tag(run, process, end)?;
    let seen = writes_to(run, file);
    for mapping in process.mappings.iter_mut() {
        if mapping.file == file {
            mapping.seen = seen;
        }
    }
    Ok(())
}

pub fn unmap_part(run: &mut Run<'_>, process: &mut Process, parts: &Parts<'_>) -> Taken {
    let start = parts.number(0)?;
    let end = start.saturating_add(parts.number(1)?);
    unmap(run, process, start, end)?;
    if parts.name == b"munmap".as_slice() {
        process
            .mappings
            .retain(|mapping| mapping.start < start || end <= mapping.start);
    }
    Ok(())
}

/// What a process wrote to the parts that begin in a range is in their files by now.
pub(crate) fn unmap(run: &mut Run<'_>, process: &mut Process, start: u64, end: u64) -> Taken {
    let mut stored = BTreeSet::new(run.alloc);
    for place in 0..process.mappings.len() {
        let Some(mapping) = process.mappings.get(place).copied() else {
            break;
        };
        let is_in = start <= mapping.start && mapping.start < end;
        if is_in && mapping.writes && !stored.contains(&mapping.file) {
            stored.insert(mapping.file)?;
            store_mapped(run, process, mapping)?;
        }
    }
    Ok(())
}

// The same of one part.
fn store_mapped(run: &mut Run<'_>, process: &mut Process, mapping: Mapping) -> Taken {
    let Some(end) = mapped_end(run, process, mapping, Mode::Write)? else {
        return Ok(());
    };
    store(run, process, end)?;
    close_mapped(run, process, mapping, end)
}

/// Before a process writes, it may have read what others wrote to the files that it shares in memory.
pub(crate) fn look_into_mappings(run: &mut Run<'_>, process: &mut Process) -> Taken {
    if process.looked == run.changes {
        return Ok(());
    }
    process.looked = run.changes;
    for place in 0..process.mappings.len() {
        let Some(mapping) = process.mappings.get(place).copied() else {
            break;
        };
        let writes = writes_to(run, mapping.file);
        if writes == mapping.seen {
            continue;
        }
        if let Some(mapping) = process.mappings.get_mut(place) {
            mapping.seen = writes;
        }
        if let Some(end) = mapped_end(run, process, mapping, Mode::Read)? {
            say_look(run, process, end, mapping.file)?;
            close_mapped(run, process, mapping, end)?;
        }
    }
    Ok(())
}

/// A read of a file of which no call tells the bytes.
pub(crate) fn say_look(run: &mut Run<'_>, process: &mut Process, end: End, file: usize) -> Taken {
    if let Some(file) = run.files.get_mut(file) {
        file.tagged = false;
    }
    process.place(end.slot, end.opening, u64::MAX);
    let (fd, len) = (end.slot, 1);
    run.say(process, Command::Read { fd, len })
}

// A descriptor of the trace for what a process shares: its own, or one for this call.
fn mapped_end(
    run: &mut Run<'_>,
    process: &mut Process,
    mapping: Mapping,
    mode: Mode,
) -> Result<Option<End>, LineFault> {
    let Mapping { opening, file, .. } = mapping;
    match process.slot_of(opening) {
        Some(slot) => Ok(Some(End {
            slot,
            opening,
            what: What::File(file),
            at: 0,
            moves: false,
        })),
        None => open_aside(run, process, file, mode),
    }
}

fn close_mapped(run: &mut Run<'_>, process: &mut Process, mapping: Mapping, end: End) -> Taken {
    if end.opening == mapping.opening {
        return Ok(());
    }
    close_aside(run, process, end)
}

/// Opens a file by its name for one call, or tells that it can't.
pub(crate) fn open_aside(
    run: &mut Run<'_>,
    process: &mut Process,
    file: usize,
    mode: Mode,
) -> Result<Option<End>, LineFault> {
    if run.is_left_out(file) {
        run.tell_left_out(file)?;
        return Ok(None);
    }
    let (Some(name), Some(slot)) = (run.name_in_trace(file)?, run.free_slot(process)?) else {
        run.skip(Skip::Descriptor)?;
        return Ok(None);
    };
    let what = What::File(file);
    let opening = run.add_opening(what, Vec::new(run.alloc), None, mode)?;
    process.place(slot, opening, 0);
    run.say(
        process,
        Command::Open {
            fd: slot,
            name,
            mode,
        },
    )?;
    Ok(Some(End {
        slot,
        opening,
        what,
        at: 0,
        moves: false,
    }))
}

pub(crate) fn close_aside(run: &mut Run<'_>, process: &mut Process, end: End) -> Taken {
    let _slot = process.vacate(end.slot);
    run.say(process, Command::Close { fd: end.slot })
}
