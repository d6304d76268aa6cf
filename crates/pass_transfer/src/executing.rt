//! Programs that a process runs, with the interpreters of scripts and what loads programs.

use crate::mappings::{close_aside, open_aside, say_look, unmap};
use crate::transfers::{Side, position, tell_of};
use pass_descriptor::Run;
use pass_entry::Mode;
use pass_observed::{Held, Loader, Process, Range, line_of, own_descriptor};
use pass_syscall::{Base, LineFault, Parts, Skip, Taken, before, behind, behind_spaces};
use pass_trace::Command;

// The descriptor by which a program is run: that of a name such as /dev/fd/3, or of a folder where the name behind it is empty.
fn held_program(
    run: &mut Run<'_>,
    process: &mut Process,
    parts: &Parts<'_>,
    path: &[u8],
    name: usize,
) -> Result<Option<Held>, LineFault> {
    if let Some(number) = own_descriptor(path) {
        return Ok(process.held_at(number));
    }
    if name == 0 || !parts.bytes(run.alloc, name)?.is_empty() {
        return Ok(None);
    }
    match parts.base(name, true)? {
        Base::Held(fd) => run.held(process, fd),
        Base::Own(_) => Ok(None),
    }
}

/// The program's own file is what its process reads.
pub fn exec(run: &mut Run<'_>, process: &mut Process, parts: &Parts<'_>, below: bool) -> Taken {
    let name = usize::from(below);
    let place = name.saturating_add(1);
    let (words, cut) = parts.texts(run.alloc, place)?;
    let cut = cut || parts.word(place).ends_with(b"...]");
    let path = run.path_of(process, parts, name, below, true)?;
    let file = match held_program(run, process, parts, &path, name)? {
        Some(held) => run.held_file(held)?,
        None if path.as_slice() == b"/proc/self/exe".as_slice() => {
            // The same program again, which its process comes from already.
            run.skip(Skip::Descriptor)?;
            None
        }
        None => run.find_or_add(&path)?,
    };
    unmap(run, process, 0, u64::MAX)?;
    process.mappings.clear();
    let (first, last, all) = (0, u32::MAX, false);
    run.close(process, Range { first, last, all })?;
    process.program = file;
    let Some(file) = file else {
        return Ok(());
    };
    run.note_use(file, false, false)?;
    if run.is_left_out(file) {
        return run.tell_left_out(file);
    }
    let args = line_of(run.alloc, &words, cut)?;
    let (Some(name), Some(args)) = (run.name_in_trace(file)?, args) else {
        return run.skip(Skip::Descriptor);
    };
    if let Some(file) = run.files.get_mut(file) {
        file.tagged = false;
    }
    run.say(process, Command::Exec { name, args })?;
    load(run, process, file)
}

// What loads a program is run before it, and no call tells it.
fn load(run: &mut Run<'_>, process: &mut Process, program: usize) -> Taken {
    run.note_program(program)?;
    let loaders = run.setting.loaders;
    let found = match run.files.get(program) {
        Some(file) => loaders.of(file.path()),
        None => None,
    };
    match found {
        Some(Loader::Named(path)) => {
            let path = run.links.resolved(&process.folder, path.as_slice(), true)?;
            match run.find_or_add(&path)? {
                Some(file) => read_once(run, process, file),
                None => Ok(()),
            }
        }
        Some(Loader::Unknown) => tell_of(run, Skip::Loader, program),
        Some(Loader::Nothing) | None => Ok(()),
    }
}

/// A program that begins with `#!` is a script, whose interpreter reads it: that is what the system ran.
pub(crate) fn interpret(
    run: &mut Run<'_>,
    process: &mut Process,
    side: Side<'_>,
    bytes: &[u8],
) -> Taken {
    if process.program.is_none() {
        return Ok(());
    }
    let Some(held) = run.held(process, side.fd)? else {
        return Ok(());
    };
    let is_program = run.file_of(held.opening) == process.program;
    if !is_program || position(run, held.opening, side.at, false) != 0 {
        return Ok(());
    }
    process.program = None;
    let Some(line) = bytes.strip_prefix(b"#!") else {
        return Ok(());
    };
    let words = behind_spaces(before(line, b'\n'));
    let path = before(before(words, b' '), b'\t');
    if path.starts_with(b"/") && behind(path, 1).len() > 0 {
        let path = run.links.resolved(&[], path, true)?;
        if let Some(file) = run.find_or_add(&path)? {
            read_once(run, process, file)?;
            load(run, process, file)?;
        }
    }
    Ok(())
}

// Reads of a file by its name, of which no call tells the bytes.
fn read_once(run: &mut Run<'_>, process: &mut Process, file: usize) -> Taken {
    let Some(end) = open_aside(run, process, file, Mode::Read)? else {
        return Ok(());
    };
    say_look(run, process, end, file)?;
    close_aside(run, process, end)
}
