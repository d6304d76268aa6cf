//! What is said of a run as a whole, and the lines by which its trace says it.
ghost use Rattle.std.specs.Prelude.{◌≡◌, ◌==◌, ◌++◌, IfOk, IfSome, OnOk, not, option_map};
ghost use Rattle.std.specs.List.{find};
ghost use Rattle.pass_observed.specs.Spellings.{word_spelling};
ghost use Rattle.pass_strace.specs.Facts.{begins_told, fact_lines, first_lines, is_told, last_lines, line_of, tag_lines};

use pass_entry::Text;
use pass_observed::{text_of, word_spelling};
use pass_trace::{Command, TraceLine};
use std::alloc::{AllocError, Global};

/// What is said of a run: an attribute of its app object, and the value.
#[derive(Drop)]
pub struct Fact {
    pub name: Text,
    pub value: Text,
}

/// The descriptor by which the run's first process is told of the app object.
pub(crate) const TOLD: u8 = 63;

impl Fact {
    ghost use Rattle.std.specs.Prelude.{◌≡◌, IfOk, IfSome};
    ghost use Rattle.pass_observed.specs.Spellings.{word_spelling};

    /// Each spelled as a word of a trace. It comes for all bytes; no proof says so.
    pub fn of(alloc: Global, name: &[u8], value: &[u8]) -> Result<Option<Fact>, AllocError>
        ensures name { IfOk result (λ found. IfSome found (λ f. f.name ≡ word_spelling name.now)) }
        ensures value { IfOk result (λ found. IfSome found (λ f. f.value ≡ word_spelling value.now)) }
    {
        let name = word_spelling(alloc, name)?;
        let value = word_spelling(alloc, value)?;
        let (Some(name), Some(value)) = (text_of(alloc, &name)?, text_of(alloc, &value)?) else {
            return Ok(None);
        };
        Ok(Some(Fact { name, value }))
    }
}

// A line of process 1. No line is printed with its number.
fn line(command: Command) -> TraceLine
    ensures { result ≡ line_of command }
{
    TraceLine {
        number: 0,
        process: 1,
        command,
    }
}

fn push_first(lines: &mut Vec<TraceLine>) -> Result<(), AllocError>
    ensures { OnOk result (lines.new.items ≡ lines.old.items ++ first_lines) }
{
    lines.push(line(Command::MkObj { fd: 0 }))?;
    Ok(())
}

fn push_tags(lines: &mut Vec<TraceLine>, facts: &[Fact]) -> Result<(), AllocError>
    ensures { OnOk result (lines.new.items ≡ lines.old.items ++ tag_lines facts.now) }
{
    for fact in facts {
        let attr = fact.name.clone()?;
        let value = fact.value.clone()?;
        lines.push(line(Command::Tag { fd: 0, attr, value }))?;
    }
    Ok(())
}

// The pipe tells of the object: nobody writes to it, so a read of it ends at once.
fn push_last(lines: &mut Vec<TraceLine>) -> Result<(), AllocError>
    ensures { OnOk result (lines.new.items ≡ lines.old.items ++ last_lines) }
{
    let (target, source) = (1, 0);
    lines.push(line(Command::Pipe {
        reader: TOLD,
        writer: target,
    }))?;
    lines.push(line(Command::Disclose { target, source }))?;
    lines.push(line(Command::Close { fd: target }))?;
    lines.push(line(Command::Close { fd: source }))?;
    Ok(())
}

/// The lines with which a trace begins where something is said of the run.
pub(crate) fn fact_lines(alloc: Global, facts: &[Fact]) -> Result<Vec<TraceLine>, AllocError>
    ensures { IfOk result (λ lines. lines.items ≡ fact_lines facts.now) }
{
    let mut lines = Vec::new(alloc);
    if facts.is_empty() {
        return Ok(lines);
    }
    push_first(&mut lines)?;
    push_tags(&mut lines, facts)?;
    push_last(&mut lines)?;
    Ok(lines)
}

// Whether a line reads the pipe, as the run's first process.
fn is_told(line: &TraceLine) -> bool
    ensures { result ≡ is_told line.now }
{
    match &line.command {
        Command::Read { fd, .. } => line.process == 2 && *fd == TOLD,
        _ => false,
    }
}

// The first line of another process than 1.
fn first_other(lines: &[TraceLine]) -> Option<&TraceLine>
    ensures { option_map (λ l. l.now) result ≡ find (λ line. not (line.process == 1)) lines.now }
{
    lines.iter().find(|line| line.process != 1)
}

/// Whether the first line of another process than 1 does.
pub(crate) fn begins_told(lines: &[TraceLine]) -> bool
    ensures { result ≡ begins_told lines.now }
{
    match first_other(lines) {
        Some(line) => is_told(line),
        None => true,
    }
}
