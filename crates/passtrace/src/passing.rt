//! Passes the trace of what a source has left on to a sink.
ghost use Rattle.std.specs.Prelude.{◌≡◌, ◌≢◌, ◌+◌, ◌⊎◌, ◌++◌, Err, IsTrue, IsErrOf, IfOk, OnOk, OnErr, false, length};
ghost use Rattle.pass_outside.specs.Faults.{HasRisen};
ghost use Rattle.pass_trace.specs.declared.limits.Scale.TheVariants.{Usual, Long};
ghost use Rattle.pass_trace.specs.Traces.{IsTraceText, trace_of};
ghost use Rattle.pass_syscall.specs.declared.fault.StraceReason.TheVariants.{Cut};
ghost use Rattle.pass_strace.specs.declared.fault.Refusal.TheVariants.{Strace};
ghost use Rattle.pass_strace.specs.Calls.{KeepsCalls, lines_of};
ghost use Rattle.pass_strace.specs.Facts.{BeginsWith, IsTold};
ghost use Rattle.pass_strace.specs.Translations.{IsInOrder, count_lines, is_whole};
ghost use Rattle.passtrace.specs.declared.passing.Fault.TheVariants.{NoMemory, Refused, Unread, Unwritten};

use crate::programs::{Programs, loaders_of};
use pass_outside::{Failed, Sink, Source};
use pass_strace::{
    Loaders, Refusal, Request, Translated, TranslationFault, programs_of, translate,
};
use std::alloc::{AllocError, Global};

/// How many bytes are asked of the source at once.
const PIECE: usize = 4_096;

/// Why no trace was written, or not the whole one.
#[derive(Clone, Copy, PartialEq, Eq)]
pub(crate) enum Fault {
    /// The source failed.
    Unread,
    /// The text is none of strace, or can't be translated.
    Refused { line: u64, reason: Refusal },
    /// The sink failed.
    Unwritten,
    NoMemory,
}

impl From<AllocError> for Fault {
    ghost use Rattle.passtrace.specs.declared.passing.Fault.TheVariants.{NoMemory};

    ghost from_gives = { λ _ fault. fault ≡ NoMemory };

    fn from(_refused: AllocError) -> Fault {
        Fault::NoMemory
    }
}

impl From<Failed> for Fault {
    ghost use Rattle.passtrace.specs.declared.passing.Fault.TheVariants.{Unread};

    ghost from_gives = { λ _ fault. fault ≡ Unread };

    fn from(_failed: Failed) -> Fault {
        Fault::Unread
    }
}

// All bytes that the source has left.
fn read_all<S: Source>(alloc: Global, source: &mut S) -> Result<Vec<u8>, Fault>
    ensures whole { IfOk result (λ text. IsTrue S.tells → S.left source.old ≡ text.items) }
    ensures fault { IsErrOf result Unread → HasRisen (S.fault_count source.old) (S.fault_count source.new) }
    ensures either { OnErr result (IsErrOf result Unread ⊎ IsErrOf result NoMemory) }
    ensures stayed { OnOk result (S.fault_count source.new ≡ S.fault_count source.old) }
    ensures kept { (fault : Fault) → IsErrOf result fault → fault ≢ Unread → S.fault_count source.new ≡ S.fault_count source.old }
{
    let mut text = Vec::new(alloc);
    let mut piece = [0u8; PIECE];
    'pieces: for _ in 0..u64::MAX {
        let count = source.read(&mut piece)?;
        if count == 0 {
            return Ok(text);
        }
        text.extend_from_slice(&piece[..count])?;
    }
    Err(Fault::NoMemory)
}

fn write_all<K: Sink>(sink: &mut K, text: &[u8]) -> Result<(), Failed>
    ensures whole { OnOk result (IsTrue K.tells → K.taken sink.new ≡ K.taken sink.old ++ text.now) }
    ensures fault { OnErr result (HasRisen (K.fault_count sink.old) (K.fault_count sink.new)) }
    ensures stayed { OnOk result (K.fault_count sink.new ≡ K.fault_count sink.old) }
{
    let mut written = 0;
    'pieces: while written < text.len() {
        let count = sink.write(&text[written..])?;
        written += count;
    }
    Ok(())
}

// What loads the programs of the run, where that is looked for.
fn loaders<P: Programs>(
    alloc: Global,
    text: &[u8],
    request: Request<'_>,
    programs: Option<&P>,
) -> Result<Loaders, AllocError> {
    match programs {
        Some(programs) => loaders_of(alloc, programs, &programs_of(alloc, text, request)?),
        None => Ok(Loaders::none(alloc)),
    }
}

fn translated<'a>(
    alloc: Global,
    text: &[u8],
    request: Request<'a>,
    loaders: &'a Loaders,
) -> Result<Translated, Fault>
    ensures text { IfOk result (λ t. IsTraceText t.scale t.text.items) }
    ensures scale { IfOk result (λ t. t.scale ≡ Long → ¬ IsTraceText Usual t.text.items) }
    ensures lines { IfOk result (λ t. t.lines.items ≡ trace_of t.text.items) }
    ensures origins { IfOk result (λ t. length t.origins.items ≡ length t.lines.items) }
    ensures order { IfOk result (λ t. IsInOrder t.origins.items (count_lines text.now)) }
    ensures kept { IfOk result (λ t. KeepsCalls (lines_of text.now) t.origins.items t.skipped.items) }
    ensures cut { is_whole text.now ≡ false → result ≡ Err (Refused (count_lines text.now + 1) (Strace Cut)) }
    ensures facts { IfOk result (λ t. BeginsWith request.entry.facts.now t.text.items) }
    ensures told { IfOk result (λ t. IsTold request.entry.facts.now t.lines.items) }
    ensures unread { IsErrOf result Unread → ⊥ }
    ensures unwritten { IsErrOf result Unwritten → ⊥ }
{
    match translate(alloc, text, request, loaders) {
        Ok(translated) => Ok(translated),
        Err(TranslationFault::Refused { line, reason }) => Err(Fault::Refused { line, reason }),
        Err(TranslationFault::NoMemory) => Err(Fault::NoMemory),
    }
}

/// Reads all that the source has left, and writes its trace to the sink. Where programs are handed in, what loads them is read too.
pub(crate) fn pass_on<S: Source, K: Sink, P: Programs>(
    alloc: Global,
    source: &mut S,
    sink: &mut K,
    request: Request<'_>,
    programs: Option<&P>,
) -> Result<Translated, Fault>
    // What is written is the text of a trace, whose lines stand in the order of those from which they come, one for each.
    ensures text { IfOk result (λ t. IsTraceText t.scale t.text.items) }
    ensures scale { IfOk result (λ t. t.scale ≡ Long → ¬ IsTraceText Usual t.text.items) }
    ensures lines { IfOk result (λ t. t.lines.items ≡ trace_of t.text.items) }
    ensures origins { IfOk result (λ t. length t.origins.items ≡ length t.lines.items) }
    ensures order { IfOk result (λ t. IsTrue S.tells → IsInOrder t.origins.items (count_lines (S.left source.old))) }
    ensures written { IfOk result (λ t. IsTrue K.tells → K.taken sink.new ≡ K.taken sink.old ++ t.text.items) }
    // No answered call that reads, writes, opens, closes, doubles, forks or execs is lost.
    ensures kept { IfOk result (λ t. IsTrue S.tells → KeepsCalls (lines_of (S.left source.old)) t.origins.items t.skipped.items) }
    // In front stands what is said of the run, and its first process begins by reading of it.
    ensures facts { IfOk result (λ t. BeginsWith request.entry.facts.now t.text.items) }
    ensures told { IfOk result (λ t. IsTold request.entry.facts.now t.lines.items) }
    // A text that ends within a line is refused with that line, as far as it could be read.
    ensures cut { IsTrue S.tells → is_whole (S.left source.old) ≡ false
        → (result ≡ Err (Refused (count_lines (S.left source.old) + 1) (Strace Cut))) ⊎ (IsErrOf result Unread ⊎ IsErrOf result NoMemory) }
    // Where there is no trace, nothing is written.
    ensures untouched { (fault : Fault) → IsErrOf result fault → fault ≢ Unwritten → sink.new ≡ sink.old }
    // A fault of a stream is told exactly where its count of faults rose.
    ensures read { IsErrOf result Unread → HasRisen (S.fault_count source.old) (S.fault_count source.new) }
    ensures read_ok { OnOk result (S.fault_count source.new ≡ S.fault_count source.old) }
    ensures read_kept { (fault : Fault) → IsErrOf result fault → fault ≢ Unread → S.fault_count source.new ≡ S.fault_count source.old }
    ensures write { IsErrOf result Unwritten → HasRisen (K.fault_count sink.old) (K.fault_count sink.new) }
    ensures write_ok { OnOk result (K.fault_count sink.new ≡ K.fault_count sink.old) }
{
    let text = read_all(alloc, source)?;
    let loaders = loaders(alloc, &text, request, programs)?;
    let translated = translated(alloc, &text, request, &loaders)?;
    match write_all(sink, &translated.text) {
        Ok(()) => Ok(translated),
        Err(Failed) => Err(Fault::Unwritten),
    }
}
