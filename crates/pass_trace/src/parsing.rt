//! The trace of a text.
ghost use Rattle.std.specs.Prelude.{◌≡◌, ℕ, ◌<◌, ◌≤◌, ◌++◌, ◌∷◌, ◌==◌, length, IfOk, OnOk, IfErr, None, Err};
ghost use Rattle.std.specs.List.{position};
ghost use Rattle.pass_trace.specs.declared.trace.TraceReason.{TraceReason};
ghost use Rattle.pass_trace.specs.declared.limits.Scale.TheVariants.{Usual, Long};
ghost use Rattle.pass_trace.specs.Limits.{most_lines};
ghost use Rattle.pass_trace.specs.Lines.{lines_of, is_skipped};
ghost use Rattle.pass_trace.specs.Gives.{Gives, IsReason};
ghost use Rattle.pass_trace.specs.Traces.{text_line_of, reason_behind, said, trace_of, IsTraceText, IsFirstFault};

use crate::earlier::Earlier;
use crate::fields::LineFault;
use crate::limits::{LONGEST_LINE, Scale};
use crate::line::line_of;
use crate::trace::{Trace, TraceFault, TraceLine, TraceReason};
use crate::words::words_of;
use std::alloc::Global;

fn line_end(bytes: &[u8]) -> Option<usize>
    ensures { result ≡ position (λ b. b == 10) bytes.now }
{
    bytes.iter().position(|byte| *byte == b'\n')
}

// The first line, and the bytes behind its end.
fn first_line(bytes: &[u8]) -> (&[u8], &[u8])
    requires { 0 < length bytes.now }
    ensures lines { lines_of bytes.now ≡ result.0.now ∷ lines_of result.1.now }
    ensures shorter { length result.1.now < length bytes.now }
{
    match line_end(bytes) {
        Some(end) => (&bytes[..end], &bytes[end + 1..]),
        None => (bytes, &[]),
    }
}

fn is_skipped(text: &[u8]) -> bool
    ensures { result ≡ is_skipped text.now }
{
    match text {
        [] => true,
        [first, ..] => *first == b'#',
    }
}

// What a line of the text says by itself.
#[tactic(auto, unfolding(crate::specs::Traces::text_line_of))]
fn text_line_of(
    alloc: Global,
    scale: Scale,
    number: u32,
    text: &[u8],
) -> Result<Option<TraceLine>, LineFault>
    ensures value { Gives (λ l. l) result (text_line_of scale number text.now) }
    ensures within { OnOk result (number ≤ most_lines Long) }
{
    if number > scale.most_lines() {
        return Err(LineFault::Bad(TraceReason::Many));
    }
    if text.len() > LONGEST_LINE as usize {
        return Err(LineFault::Bad(TraceReason::Length));
    }
    if is_skipped(text) {
        return Ok(None);
    }
    let words = words_of(alloc, text)?;
    let line = line_of(alloc, scale, number, words.as_slice())?;
    Ok(Some(line))
}

// Puts what a line of the text says behind the earlier lines.
fn read_line(
    alloc: Global,
    scale: Scale,
    earlier: &mut Earlier,
    number: u32,
    text: &[u8],
) -> Result<(), LineFault>
    ensures fits { OnOk result (reason_behind scale earlier.old (text_line_of scale number text.now) ≡ None) }
    ensures says { OnOk result (earlier.new ≡ earlier.old ++ said (text_line_of scale number text.now)) }
    ensures within { OnOk result (number ≤ most_lines Long) }
    ensures fault { IfErr result (λ f. IsReason f (reason_behind scale earlier.old (text_line_of scale number text.now))) }
{
    let Some(line) = text_line_of(alloc, scale, number, text)? else {
        return Ok(());
    };
    if let Some(reason) = earlier.rule_of(scale, &line) {
        return Err(LineFault::Bad(reason));
    }
    earlier.push(scale, line)?;
    Ok(())
}

/// The trace of a text of the usual scale.
///
/// A text of a trace is lines that end with LF. Each makes a call of a process, but for those that
/// are empty or begin with `#`, which say nothing and count as lines.
pub fn parse(alloc: Global, bytes: &[u8]) -> Result<Trace, TraceFault>
    // What is read is the trace of the text, and the text has no fault.
    ensures text { OnOk result (IsTraceText Usual bytes.now) }
    ensures trace { IfOk result (λ t. t.lines.items ≡ trace_of bytes.now) }

    // The fault is the first one, so a text with none is read unless memory is refused.
    ensures fault { (line : ℕ) (reason : TraceReason) →
        result ≡ Err (TraceFault.BadTrace line reason) → IsFirstFault Usual bytes.now line reason }
{
    parse_within(alloc, Scale::Usual, bytes)
}

/// The trace of a text of a scale.
pub fn parse_within(alloc: Global, scale: Scale, bytes: &[u8]) -> Result<Trace, TraceFault>
    ensures text { OnOk result (IsTraceText scale bytes.now) }
    ensures trace { IfOk result (λ t. t.lines.items ≡ trace_of bytes.now) }
    ensures fault { (line : ℕ) (reason : TraceReason) →
        result ≡ Err (TraceFault.BadTrace line reason) → IsFirstFault scale bytes.now line reason }
{
    let mut earlier = Earlier::new(alloc)?;
    let mut rest = bytes;
    let mut number: u32 = 0;
    while !rest.is_empty() {
        let (text, after) = first_line(rest);
        number += 1;
        if let Err(fault) = read_line(alloc, scale, &mut earlier, number, text) {
            return Err(fault.at_line(number));
        }
        rest = after;
    }
    Ok(Trace {
        lines: earlier.into_lines(),
    })
}
