//! The command of a line.
ghost use Rattle.std.specs.Prelude.{◌≡◌, ◌∷◌, ◌++◌, map, drop, IfOk, OnOk};
ghost use Rattle.std.specs.List.{flat_map, join_with_byte};
ghost use Rattle.pass_trace.specs.Commands.{args_of, command_of, word_at, creat_of, open_of, close_of, read_of, write_of, seek_of, truncate_of, pipe_of, fork_of, exec_of, wait_of, await_of, rename_of, unlink_of, mkobj_of, revive_of, freeze_of, disclose_of, tag_of, sync_of};
ghost use Rattle.pass_trace.specs.Gives.{Gives};
ghost use Rattle.pass_trace.specs.Traces.{line_of};

use crate::call::forms_of;
use crate::fields::{LineFault, fd_of, mode_of, name_of, number_in, payload_of, process_of};
use crate::limits::{GREATEST_OFFSET, Scale};
use crate::trace::{Command, TraceLine, TraceReason};
use crate::words::{have_these, is_number};
use pass_entry::{CallName, NUMBER_LIMIT, TRANSFER_LIMIT, Text, TextFault};
use std::alloc::{AllocError, Global};

// The word at a place, or no bytes where there is none.
fn word_at<'a>(words: &[&'a [u8]], place: usize) -> &'a [u8]
    ensures { result.now ≡ word_at (map (λ w. w.now) words.now) place }
{
    if place < words.len() {
        words[place]
    } else {
        &[]
    }
}

fn behind_first<'a, 'b>(words: &'b [&'a [u8]]) -> &'b [&'a [u8]]
    ensures { map (λ w. w.now) result.now ≡ drop 1 (map (λ w. w.now) words.now) }
{
    match words {
        [] => words,
        [_, rest @ ..] => rest,
    }
}

// Puts each word behind a space.
fn push_words(out: &mut Vec<u8>, words: &[&[u8]]) -> Result<(), AllocError>
    ensures { OnOk result (out.new.items ≡ out.old.items ++ flat_map (λ w. 32 ∷ w.now) words.now) }
{
    for word in words {
        out.push(b' ')?;
        out.extend_from_slice(word)?;
    }
    Ok(())
}

fn joined(alloc: Global, words: &[&[u8]]) -> Result<Vec<u8>, AllocError>
    ensures { IfOk result (λ bytes. bytes.items ≡ join_with_byte 32 (map (λ w. w.now) words.now)) }
{
    let mut bytes = Vec::new(alloc);
    let [first, rest @ ..] = words else {
        return Ok(bytes);
    };
    bytes.extend_from_slice(first)?;
    push_words(&mut bytes, rest)?;
    Ok(bytes)
}

// Words joined by single spaces.
#[tactic(auto, unfolding(crate::specs::Commands::args_of))]
fn args_of(alloc: Global, words: &[&[u8]]) -> Result<Text, LineFault>
    ensures { Gives (λ t. t) result (args_of (map (λ w. w.now) words.now)) }
{
    let bytes = joined(alloc, words)?;
    match Text::line(alloc, bytes.as_slice()) {
        Ok(args) => Ok(args),
        Err(TextFault::NoMemory) => Err(LineFault::NoMemory),
        Err(TextFault::BadLength) | Err(TextFault::BadByte) => {
            Err(LineFault::Bad(TraceReason::Length))
        }
    }
}

#[tactic(auto, unfolding(crate::specs::Commands::creat_of))]
fn creat_of(alloc: Global, words: &[&[u8]]) -> Result<Command, LineFault>
    ensures { Gives (λ c. c) result (creat_of (map (λ w. w.now) words.now)) }
{
    let fd = fd_of(word_at(words, 0))?;
    let name = name_of(alloc, word_at(words, 1))?;
    Ok(Command::Creat { fd, name })
}

#[tactic(auto, unfolding(crate::specs::Commands::open_of))]
fn open_of(alloc: Global, words: &[&[u8]]) -> Result<Command, LineFault>
    ensures { Gives (λ c. c) result (open_of (map (λ w. w.now) words.now)) }
{
    let fd = fd_of(word_at(words, 0))?;
    let name = name_of(alloc, word_at(words, 1))?;
    let mode = mode_of(word_at(words, 2));
    Ok(Command::Open { fd, name, mode })
}

#[tactic(auto, unfolding(crate::specs::Commands::close_of))]
fn close_of(words: &[&[u8]]) -> Result<Command, LineFault>
    ensures { Gives (λ c. c) result (close_of (map (λ w. w.now) words.now)) }
{
    let fd = fd_of(word_at(words, 0))?;
    Ok(Command::Close { fd })
}

#[tactic(auto, unfolding(crate::specs::Commands::read_of))]
fn read_of(words: &[&[u8]]) -> Result<Command, LineFault>
    ensures { Gives (λ c. c) result (read_of (map (λ w. w.now) words.now)) }
{
    let fd = fd_of(word_at(words, 0))?;
    let len = number_in(word_at(words, 1), 1, TRANSFER_LIMIT as u64)? as u32;
    Ok(Command::Read { fd, len })
}

#[tactic(auto, unfolding(crate::specs::Commands::write_of))]
fn write_of(alloc: Global, words: &[&[u8]]) -> Result<Command, LineFault>
    ensures { Gives (λ c. c) result (write_of (map (λ w. w.now) words.now)) }
{
    let fd = fd_of(word_at(words, 0))?;
    let payload = payload_of(alloc, word_at(words, 1))?;
    Ok(Command::Write { fd, payload })
}

#[tactic(auto, unfolding(crate::specs::Commands::seek_of))]
fn seek_of(words: &[&[u8]]) -> Result<Command, LineFault>
    ensures { Gives (λ c. c) result (seek_of (map (λ w. w.now) words.now)) }
{
    let fd = fd_of(word_at(words, 0))?;
    let off = number_in(word_at(words, 1), 0, GREATEST_OFFSET)?;
    Ok(Command::Seek { fd, off })
}

#[tactic(auto, unfolding(crate::specs::Commands::truncate_of))]
fn truncate_of(words: &[&[u8]]) -> Result<Command, LineFault>
    ensures { Gives (λ c. c) result (truncate_of (map (λ w. w.now) words.now)) }
{
    let fd = fd_of(word_at(words, 0))?;
    let size = number_in(word_at(words, 1), 0, GREATEST_OFFSET)?;
    Ok(Command::Truncate { fd, size })
}

#[tactic(auto, unfolding(crate::specs::Commands::pipe_of))]
fn pipe_of(words: &[&[u8]]) -> Result<Command, LineFault>
    ensures { Gives (λ c. c) result (pipe_of (map (λ w. w.now) words.now)) }
{
    let reader = fd_of(word_at(words, 0))?;
    let writer = fd_of(word_at(words, 1))?;
    Ok(Command::Pipe { reader, writer })
}

#[tactic(auto, unfolding(crate::specs::Commands::fork_of))]
fn fork_of(scale: Scale, words: &[&[u8]]) -> Result<Command, LineFault>
    ensures { Gives (λ c. c) result (fork_of scale (map (λ w. w.now) words.now)) }
{
    let child = process_of(scale, word_at(words, 0))?;
    Ok(Command::Fork { child })
}

#[tactic(auto, unfolding(crate::specs::Commands::exec_of))]
fn exec_of(alloc: Global, words: &[&[u8]]) -> Result<Command, LineFault>
    ensures { Gives (λ c. c) result (exec_of (map (λ w. w.now) words.now)) }
{
    let name = name_of(alloc, word_at(words, 0))?;
    let args = args_of(alloc, behind_first(words))?;
    Ok(Command::Exec { name, args })
}

#[tactic(auto, unfolding(crate::specs::Commands::wait_of))]
fn wait_of(scale: Scale, words: &[&[u8]]) -> Result<Command, LineFault>
    ensures { Gives (λ c. c) result (wait_of scale (map (λ w. w.now) words.now)) }
{
    let child = process_of(scale, word_at(words, 0))?;
    Ok(Command::Wait { child })
}

#[tactic(auto, unfolding(crate::specs::Commands::await_of))]
fn await_of(scale: Scale, words: &[&[u8]]) -> Result<Command, LineFault>
    ensures { Gives (λ c. c) result (await_of scale (map (λ w. w.now) words.now)) }
{
    let child = process_of(scale, word_at(words, 0))?;
    Ok(Command::Await { child })
}

#[tactic(auto, unfolding(crate::specs::Commands::rename_of))]
fn rename_of(alloc: Global, words: &[&[u8]]) -> Result<Command, LineFault>
    ensures { Gives (λ c. c) result (rename_of (map (λ w. w.now) words.now)) }
{
    let from = name_of(alloc, word_at(words, 0))?;
    let to = name_of(alloc, word_at(words, 1))?;
    Ok(Command::Rename { from, to })
}

#[tactic(auto, unfolding(crate::specs::Commands::unlink_of))]
fn unlink_of(alloc: Global, words: &[&[u8]]) -> Result<Command, LineFault>
    ensures { Gives (λ c. c) result (unlink_of (map (λ w. w.now) words.now)) }
{
    let name = name_of(alloc, word_at(words, 0))?;
    Ok(Command::Unlink { name })
}

#[tactic(auto, unfolding(crate::specs::Commands::mkobj_of))]
fn mkobj_of(words: &[&[u8]]) -> Result<Command, LineFault>
    ensures { Gives (λ c. c) result (mkobj_of (map (λ w. w.now) words.now)) }
{
    let fd = fd_of(word_at(words, 0))?;
    Ok(Command::MkObj { fd })
}

#[tactic(auto, unfolding(crate::specs::Commands::revive_of))]
fn revive_of(words: &[&[u8]]) -> Result<Command, LineFault>
    ensures { Gives (λ c. c) result (revive_of (map (λ w. w.now) words.now)) }
{
    let fd = fd_of(word_at(words, 0))?;
    let pnode = number_in(word_at(words, 1), 1, NUMBER_LIMIT - 1)?;
    Ok(Command::Revive { fd, pnode })
}

#[tactic(auto, unfolding(crate::specs::Commands::freeze_of))]
fn freeze_of(words: &[&[u8]]) -> Result<Command, LineFault>
    ensures { Gives (λ c. c) result (freeze_of (map (λ w. w.now) words.now)) }
{
    let fd = fd_of(word_at(words, 0))?;
    Ok(Command::Freeze { fd })
}

#[tactic(auto, unfolding(crate::specs::Commands::disclose_of))]
fn disclose_of(words: &[&[u8]]) -> Result<Command, LineFault>
    ensures { Gives (λ c. c) result (disclose_of (map (λ w. w.now) words.now)) }
{
    let target = fd_of(word_at(words, 0))?;
    let source = fd_of(word_at(words, 1))?;
    Ok(Command::Disclose { target, source })
}

#[tactic(auto, unfolding(crate::specs::Commands::tag_of))]
fn tag_of(alloc: Global, words: &[&[u8]]) -> Result<Command, LineFault>
    ensures { Gives (λ c. c) result (tag_of (map (λ w. w.now) words.now)) }
{
    let fd = fd_of(word_at(words, 0))?;
    let attr = name_of(alloc, word_at(words, 1))?;
    let value = name_of(alloc, word_at(words, 2))?;
    Ok(Command::Tag { fd, attr, value })
}

#[tactic(auto, unfolding(crate::specs::Commands::sync_of))]
fn sync_of(words: &[&[u8]]) -> Result<Command, LineFault>
    ensures { Gives (λ c. c) result (sync_of (map (λ w. w.now) words.now)) }
{
    let fd = fd_of(word_at(words, 0))?;
    Ok(Command::Sync { fd })
}

// The command of a call and the words behind it, which have their forms.
fn command_of(
    alloc: Global,
    scale: Scale,
    call: CallName,
    words: &[&[u8]],
) -> Result<Command, LineFault>
    ensures { Gives (λ c. c) result (command_of scale call (map (λ w. w.now) words.now)) }
{
    match call {
        CallName::Start | CallName::Exit => Err(LineFault::Bad(TraceReason::Form)),
        CallName::Creat => creat_of(alloc, words),
        CallName::OpenName => open_of(alloc, words),
        CallName::CloseFd => close_of(words),
        CallName::Read => read_of(words),
        CallName::Write => write_of(alloc, words),
        CallName::Seek => seek_of(words),
        CallName::Truncate => truncate_of(words),
        CallName::MakePipe => pipe_of(words),
        CallName::Fork => fork_of(scale, words),
        CallName::Exec => exec_of(alloc, words),
        CallName::WaitChild => wait_of(scale, words),
        CallName::Await => await_of(scale, words),
        CallName::Rename => rename_of(alloc, words),
        CallName::Unlink => unlink_of(alloc, words),
        CallName::MakeObj => mkobj_of(words),
        CallName::Revive => revive_of(words),
        CallName::FreezeObj => freeze_of(words),
        CallName::Disclose => disclose_of(words),
        CallName::TagObj => tag_of(alloc, words),
        CallName::Sync => sync_of(words),
    }
}

// What the words of a line say.
#[tactic(auto, unfolding(crate::specs::Traces::line_of, crate::specs::Traces::call_line_of))]
pub(crate) fn line_of(
    alloc: Global,
    scale: Scale,
    number: u32,
    words: &[&[u8]],
) -> Result<TraceLine, LineFault>
    ensures { Gives (λ l. l) result (line_of scale number (map (λ w. w.now) words.now)) }
{
    let [process, call, words @ ..] = words else {
        return Err(LineFault::Bad(TraceReason::Form));
    };
    let Some(call) = CallName::of_word(call) else {
        return Err(LineFault::Bad(TraceReason::Form));
    };
    if !is_number(process) || !have_these(forms_of(call), words) {
        return Err(LineFault::Bad(TraceReason::Form));
    }
    let process = process_of(scale, process)?;
    let command = command_of(alloc, scale, call, words)?;
    Ok(TraceLine {
        number,
        process,
        command,
    })
}
