//! Traces that are drawn from a number, so that anybody can make the same work again.
//!
//! `generate` gives exactly the trace of its number and its count of lines, line by line (`trace`): the file, the seven forks, for
//! each drawn line the next word of the generator PCG XSH RR 64/32, which the number seeds, and the seven waits. What that
//! generator draws is `rand_pcg`'s contract. With 15 lines, and up to as many as a scale allows, it is the trace of the text that is written of it
//! (`laws::generated_is_read`), so a run may take it as a trace that was read. Beside the proof the first hundred lines for 0, 1
//! and 2^64 - 1 are compared with what a short program draws that shares no code with this crate (`crates/tests_gen/draw.py`).
#![tactic(auto)]

ghost use Rattle.std.specs.Prelude.{◌≡◌, ◌+◌, ◌-◌, ◌≤◌, ◌<◌, ◌++◌, IfOk, OnOk, codes, replicate};
ghost use Rattle.pass_entry.specs.Limits.{transfer_limit};
ghost use Rattle.pass_trace.specs.declared.limits.Scale.TheVariants.{Long};
ghost use Rattle.pass_trace.specs.Limits.{most_lines};
ghost use Rattle.pass_gen.specs.Generated.{line, command_of, transfer_of, first_lines, drawn_lines, last_lines, generated};

pub mod laws;

use pass_entry::{Bytes, Text};
use pass_trace::{Command, Payload, Trace, TraceLine};
use rand_core::SeedableRng;
use rand_core::utils::NextWord;
use rand_pcg::Pcg32;
use std::alloc::{AllocError, Global};

/// The fewest lines of a generated trace: the file, seven forks and seven waits.
pub const LEAST_LINES: u32 = 15;

/// The processes beside the first one, which share a file.
const CHILDREN: u32 = 7;

/// The descriptor of the shared file, in each process.
const SHARED: u8 = 3;

fn line_of(number: u32, process: u32, command: Command) -> TraceLine
    ensures { result ≡ line number process command }
{
    TraceLine {
        number,
        process,
        command,
    }
}

fn name(alloc: Global) -> Result<Text, AllocError>
    ensures { IfOk result (λ name. name ≡ codes "shared") }
{
    match Text::name(alloc, b"shared") {
        Ok(name) => Ok(name),
        Err(_) => Err(AllocError),
    }
}

// The same byte so many times.
fn repeated(alloc: Global, byte: u8, len: usize) -> Result<Bytes, AllocError>
    requires { len ≤ transfer_limit }
    ensures { IfOk result (λ bytes. bytes ≡ replicate len byte) }
{
    match Bytes::from_vec(vec![in alloc; byte; len]?) {
        Ok(bytes) => Ok(bytes),
        Err(_) => Err(AllocError),
    }
}

fn transfer(alloc: Global, word: u32) -> Result<Command, AllocError>
    ensures { IfOk result (λ command. command ≡ transfer_of word) }
{
    let len = 1 + word / 2 % 4096;
    if word % 2 == 0 {
        return Ok(Command::Read { fd: SHARED, len });
    }
    let bytes = repeated(alloc, (word / 8192 % 256) as u8, len as usize)?;
    Ok(Command::Write {
        fd: SHARED,
        payload: Payload::Given(bytes),
    })
}

fn command(alloc: Global, place: u32, word: u32) -> Result<Command, AllocError>
    ensures { IfOk result (λ command. command ≡ command_of place word) }
{
    if place % 2 == 0 {
        return Ok(Command::Seek {
            fd: SHARED,
            off: u64::from(word % 65536),
        });
    }
    transfer(alloc, word)
}

// The file, and the processes that have it open.
fn begin(alloc: Global) -> Result<Vec<TraceLine>, AllocError>
    ensures { IfOk result (λ lines. lines.items ≡ first_lines) }
{
    let name = name(alloc)?;
    let mut lines = Vec::new(alloc);
    lines.push(line_of(1, 1, Command::Creat { fd: SHARED, name }))?;
    for made in 0..CHILDREN {
        let child = 2 + made;
        lines.push(line_of(child, 1, Command::Fork { child }))?;
    }
    Ok(lines)
}

// The children's lines, each by the generator's next word.
fn draw(
    alloc: Global,
    number: u64,
    count: u32,
    lines: &mut Vec<TraceLine>,
) -> Result<(), AllocError>
    requires { count ≤ 999985 }
    ensures { OnOk result (lines.new.items ≡ lines.old.items ++ drawn_lines number count) }
{
    let mut generator = Pcg32::seed_from_u64(number);
    for place in 0..count {
        let word = generator.next_word();
        let command = command(alloc, place, word)?;
        lines.push(line_of(9 + place, 2 + place / 2 % 7, command))?;
    }
    Ok(())
}

// The waits, behind so many drawn lines.
fn wait(count: u32, lines: &mut Vec<TraceLine>) -> Result<(), AllocError>
    requires { count ≤ 999985 }
    ensures { OnOk result (lines.new.items ≡ lines.old.items ++ last_lines count) }
{
    for waited in 0..CHILDREN {
        let child = 2 + waited;
        lines.push(line_of(7 + count + child, 1, Command::Wait { child }))?;
    }
    Ok(())
}

/// The trace of a number, with 15 lines and more: the first process makes a file and forks seven children; each of
/// them in turn seeks in it and reads or writes there; then the first one waits for all of them. Where they seek, whether they
/// read or write, how much and what, is drawn from PCG XSH RR 64/32, which the number seeds. The rule is this project's own.
pub fn generate(alloc: Global, number: u64, lines: u32) -> Result<Trace, AllocError>
    requires lines { (15 ≤ lines) × (lines ≤ most_lines Long) }
    ensures trace { IfOk result (λ trace. trace.lines.items ≡ generated number lines) }
{
    let count = lines - LEAST_LINES;
    let mut drawn = begin(alloc)?;
    draw(alloc, number, count, &mut drawn)?;
    wait(count, &mut drawn)?;
    Ok(Trace { lines: drawn })
}
