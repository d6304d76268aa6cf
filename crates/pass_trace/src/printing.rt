//! The text of a trace.
ghost use Rattle.std.specs.Prelude.{◌≡◌, [], ◌∷◌, ◌++◌, map, decimal, OnOk, IfOk};
ghost use Rattle.std.specs.List.{flat_map};
ghost use Rattle.pass_entry.specs.Words.{call_word};
ghost use Rattle.pass_trace.specs.Texts.{spaced, payload_word, mode_word, args_words, command_words, line_text, text_of};

use crate::trace::{Command, Payload, Trace, TraceLine};
use itoa::Buffer;
use pass_entry::{CallName, Mode, Text};
use std::alloc::{AllocError, Global};

fn push_word(out: &mut Vec<u8>, word: &[u8]) -> Result<(), AllocError>
    ensures { OnOk result (out.new.items ≡ out.old.items ++ 32 ∷ word.now) }
{
    out.push(b' ')?;
    out.extend_from_slice(word)?;
    Ok(())
}

fn push_decimal(out: &mut Vec<u8>, number: u64) -> Result<(), AllocError>
    ensures { OnOk result (out.new.items ≡ out.old.items ++ decimal number) }
{
    let mut buffer = Buffer::new();
    out.extend_from_slice(buffer.format(number).as_bytes())?;
    Ok(())
}

// A call and the numbers behind it.
fn push_numbers(out: &mut Vec<u8>, call: CallName, numbers: &[u64]) -> Result<(), AllocError>
    ensures { OnOk result (out.new.items ≡ out.old.items ++ spaced (call_word call ∷ map decimal numbers.now)) }
{
    push_word(out, call.word().as_bytes())?;
    for number in numbers {
        out.push(b' ')?;
        push_decimal(out, *number)?;
    }
    Ok(())
}

// A call and the names behind it.
fn push_names(out: &mut Vec<u8>, call: CallName, names: &[&Text]) -> Result<(), AllocError>
    ensures { OnOk result (out.new.items ≡ out.old.items ++ spaced (call_word call ∷ map (λ n. n.now) names.now)) }
{
    push_word(out, call.word().as_bytes())?;
    for name in names {
        push_word(out, name.as_bytes())?;
    }
    Ok(())
}

fn push_payload(alloc: Global, out: &mut Vec<u8>, payload: &Payload) -> Result<(), AllocError>
    ensures { OnOk result (out.new.items ≡ out.old.items ++ spaced (payload_word payload.now ∷ [])) }
{
    match payload {
        Payload::Given(bytes) => {
            let digits = hex::encode(alloc, bytes.as_bytes())?;
            push_word(out, b"x:")?;
            out.extend_from_slice(digits.as_bytes())?;
            Ok(())
        }
        Payload::Last => push_word(out, b"buf"),
    }
}

fn word_of_mode(mode: Mode) -> &'static [u8]
    ensures { result.now ≡ mode_word mode }
{
    match mode {
        Mode::Read => b"r",
        Mode::Write => b"w",
        Mode::Both => b"rw",
        Mode::App => b"app",
    }
}

fn push_args(out: &mut Vec<u8>, args: &[u8]) -> Result<(), AllocError>
    ensures { OnOk result (out.new.items ≡ out.old.items ++ spaced (args_words args.now)) }
{
    match args {
        [] => Ok(()),
        [_, ..] => push_word(out, args),
    }
}

fn push_command(alloc: Global, out: &mut Vec<u8>, command: &Command) -> Result<(), AllocError>
    ensures { OnOk result (out.new.items ≡ out.old.items ++ spaced (command_words command.now)) }
{
    match command {
        Command::Creat { fd, name } => {
            push_numbers(out, CallName::Creat, &[u64::from(*fd)])?;
            push_word(out, name.as_bytes())
        }
        Command::Open { fd, name, mode } => {
            push_numbers(out, CallName::OpenName, &[u64::from(*fd)])?;
            push_word(out, name.as_bytes())?;
            push_word(out, word_of_mode(*mode))
        }
        Command::Close { fd } => push_numbers(out, CallName::CloseFd, &[u64::from(*fd)]),
        Command::Read { fd, len } => {
            push_numbers(out, CallName::Read, &[u64::from(*fd), u64::from(*len)])
        }
        Command::Write { fd, payload } => {
            push_numbers(out, CallName::Write, &[u64::from(*fd)])?;
            push_payload(alloc, out, payload)
        }
        Command::Seek { fd, off } => push_numbers(out, CallName::Seek, &[u64::from(*fd), *off]),
        Command::Truncate { fd, size } => {
            push_numbers(out, CallName::Truncate, &[u64::from(*fd), *size])
        }
        Command::Pipe { reader, writer } => {
            push_numbers(
                out,
                CallName::MakePipe,
                &[u64::from(*reader), u64::from(*writer)],
            )
        }
        Command::Fork { child } => push_numbers(out, CallName::Fork, &[u64::from(*child)]),
        Command::Exec { name, args } => {
            push_names(out, CallName::Exec, &[name])?;
            push_args(out, args.as_bytes())
        }
        Command::Wait { child } => push_numbers(out, CallName::WaitChild, &[u64::from(*child)]),
        Command::Await { child } => push_numbers(out, CallName::Await, &[u64::from(*child)]),
        Command::Rename { from, to } => push_names(out, CallName::Rename, &[from, to]),
        Command::Unlink { name } => push_names(out, CallName::Unlink, &[name]),
        Command::MkObj { fd } => push_numbers(out, CallName::MakeObj, &[u64::from(*fd)]),
        Command::Revive { fd, pnode } => push_numbers(
            out,
            CallName::Revive,
            &[u64::from(*fd), *pnode],
        ),
        Command::Freeze { fd } => push_numbers(out, CallName::FreezeObj, &[u64::from(*fd)]),
        Command::Disclose { target, source } => {
            push_numbers(
                out,
                CallName::Disclose,
                &[u64::from(*target), u64::from(*source)],
            )
        }
        Command::Tag { fd, attr, value } => {
            push_numbers(out, CallName::TagObj, &[u64::from(*fd)])?;
            push_word(out, attr.as_bytes())?;
            push_word(out, value.as_bytes())
        }
        Command::Sync { fd } => push_numbers(out, CallName::Sync, &[u64::from(*fd)]),
    }
}

fn push_line(alloc: Global, out: &mut Vec<u8>, line: &TraceLine) -> Result<(), AllocError>
    ensures { OnOk result (out.new.items ≡ out.old.items ++ (line_text line.now ++ 10 ∷ [])) }
{
    push_decimal(out, u64::from(line.process))?;
    push_command(alloc, out, &line.command)?;
    out.push(b'\n')?;
    Ok(())
}

/// The text of a trace: its lines in order, with the bytes of each write in base 16.
///
/// `parse` reads the text of a trace that it gave as the same processes and commands, with the
/// lines numbered from 1.
pub fn print(alloc: Global, trace: &Trace) -> Result<Vec<u8>, AllocError>
    ensures { IfOk result (λ bytes. bytes.items ≡ text_of trace.now.lines.items) }
{
    let mut out = Vec::new(alloc);
    for line in &trace.lines {
        push_line(alloc, &mut out, line)?;
    }
    Ok(out)
}
