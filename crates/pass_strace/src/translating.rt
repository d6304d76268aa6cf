//! The trace of what strace wrote.
ghost use Rattle.std.specs.Prelude.{◌≡◌, ◌+◌, false, Err, IsTrue, IfOk, OnOk, length};
ghost use Rattle.pass_strace.specs.declared.fault.TranslationFault.TheVariants.{Refused};
ghost use Rattle.pass_strace.specs.declared.fault.Refusal.TheVariants.{Strace};
ghost use Rattle.pass_syscall.specs.declared.fault.StraceReason.TheVariants.{Cut};
ghost use Rattle.pass_trace.specs.declared.limits.Scale.TheVariants.{Usual, Long};
ghost use Rattle.pass_trace.specs.Traces.{trace_of, IsTraceText};
ghost use Rattle.pass_strace.specs.Calls.{KeepsCalls, lines_of};
ghost use Rattle.pass_strace.specs.Facts.{BeginsWith, IsTold};
ghost use Rattle.pass_strace.specs.Translations.{count_lines, is_whole, IsInOrder};

use crate::acting::{Tracing, Waits};
use crate::facts::{Fact, TOLD, begins_told, fact_lines};
use crate::fault::{Refusal, TranslationFault};
use crate::keeping::lost_line;
use crate::telling::Telling;
use pass_descriptor::{Known, Output, Program, Run, Setting};
use pass_entry::KIND_LIMIT;
use pass_observed::{Ledger, Loaders, Origin, Skipped, Stored, Survey, Told, below};
use pass_syscall::{Joining, LineFault, Skip, Step, StraceReason, join};
use pass_trace::laws::text_or_one_fault;
use pass_trace::{
    Command, Scale, Trace, TraceFault, TraceLine, TraceReason, parse, parse_within, print,
};
use std::alloc::{AllocError, Global};
use std::collections::BTreeSet;

/// What a trace is for: the files that its store has, the folder below which names are relative, what is said of the run, and what a
/// wait is.
#[derive(Clone, Copy)]
pub struct Request<'a> {
    pub stored: &'a Stored,
    pub root: &'a [u8],
    pub facts: &'a [Fact],
    pub waits: Waits,
}

/// The trace of a run.
#[derive(Drop)]
pub struct Translated {
    /// The text of the trace.
    pub text: Vec<u8>,
    /// Of which scale it is one: the long one, where it isn't one of the usual scale.
    pub scale: Scale,
    /// What it says.
    pub lines: Vec<TraceLine>,
    /// For each of its lines the line of strace, from 1, from which it comes; 0 where it comes from none.
    pub origins: Vec<u64>,
    /// The lines of strace whose calls are in none of its lines, and why.
    pub skipped: Vec<Skipped>,
    /// What can't be told, by files and calls.
    pub told: Vec<Told>,
}

// The lines of the trace: what was there before the run, and the calls of its processes.
fn assemble(alloc: Global, run: Run<'_>, has_facts: bool) -> Result<(Output, Ledger), LineFault> {
    let Run {
        setting,
        files,
        stale,
        out,
        ledger,
        ..
    } = run;
    let (mut whole, mut ledger, mut out) = (Output::new(alloc), ledger, out);
    for name in &stale {
        let name = name.clone()?;
        whole.push(0, 1, Command::Unlink { name })?;
    }
    let mut telling = Telling {
        alloc,
        stored: setting.stored,
        out: &mut whole,
        ledger: &mut ledger,
    };
    for (place, file) in files.files.iter().enumerate() {
        if !setting.known.left_out.contains(&place) {
            telling.tell(file)?;
        }
    }
    begin_run(&mut out, has_facts)?;
    whole.lines.append(&mut out.lines)?;
    whole.origins.append(&mut out.origins)?;
    Ok((whole, ledger))
}

// Process 1 begins the first process of the run, behind the FIFOs' pipes. That process is told of the run first, where something is
// said of it.
fn begin_run(out: &mut Output, has_facts: bool) -> Result<(), AllocError> {
    let Some(begun) = out.lines.iter().position(|line| line.process != 1) else {
        return Ok(());
    };
    if has_facts {
        insert(out, begun, 2, Command::Close { fd: TOLD })?;
        insert(out, begun, 2, Command::Read { fd: TOLD, len: 1 })?;
    }
    insert(out, begun, 1, Command::Fork { child: 2 })
}

// Puts a line in that comes from none of the text.
fn insert(
    out: &mut Output,
    place: usize,
    process: u32,
    command: Command,
) -> Result<(), AllocError> {
    let line = TraceLine {
        number: 0,
        process,
        command,
    };
    let at = place.min(out.lines.len());
    out.lines.insert(at, line)?;
    // There are as many origins as lines.
    let at = place.min(out.origins.len());
    out.origins.insert(at, 0)?;
    Ok(())
}

// The lines of the text, where it is one of a trace, and of which scale: the long one, where it isn't one of the usual scale.
fn read_again(
    alloc: Global,
    text: &[u8],
    origins: &[u64],
) -> Result<(Scale, Vec<TraceLine>), TranslationFault>
    ensures text { IfOk result (λ r. IsTraceText r.0 text.now) }
    ensures scale { IfOk result (λ r. r.0 ≡ Long → ¬ IsTraceText Usual text.now) }
    ensures lines { IfOk result (λ r. r.1.items ≡ trace_of text.now) }
{
    text_or_one_fault();
    match parse(alloc, text) {
        Ok(Trace { lines }) => Ok((Scale::Usual, lines)),
        Err(TraceFault::BadTrace { .. }) => Ok((Scale::Long, read_long(alloc, text, origins)?)),
        Err(TraceFault::NoMemory) => Err(TranslationFault::NoMemory),
    }
}

// The lines of the text, where it is one of a long trace.
fn read_long(
    alloc: Global,
    text: &[u8],
    origins: &[u64],
) -> Result<Vec<TraceLine>, TranslationFault>
    ensures text { OnOk result (IsTraceText Long text.now) }
    ensures lines { IfOk result (λ ls. ls.items ≡ trace_of text.now) }
{
    match parse_within(alloc, Scale::Long, text) {
        Ok(Trace { lines }) => Ok(lines),
        Err(TraceFault::BadTrace { line, reason }) => Err(refused(origins, line, reason)),
        Err(TraceFault::NoMemory) => Err(TranslationFault::NoMemory),
    }
}

// The fault of the line of strace from which a line of the trace comes.
fn refused(origins: &[u64], line: u32, reason: TraceReason) -> TranslationFault {
    let place = (line as usize).saturating_sub(1);
    let line = match origins.get(place) {
        Some(origin) => (*origin).max(1),
        None => 1,
    };
    let reason = Refusal::Trace(reason);
    TranslationFault::Refused { line, reason }
}

fn are_in_order(origins: &[u64], count: u64) -> bool
    ensures { IsTrue result → IsInOrder origins.now count }
{
    let mut before = 0;
    for i in 0..origins.len() {
        let origin = origins[i];
        if origin < before || count < origin {
            return false;
        }
        before = origin;
    }
    true
}

// The text of lines, which begins with that of the facts.
#[tactic(auto, using(crate::proofs::Fronts::begins_with))]
fn text_with(alloc: Global, facts: &[Fact], rest: Vec<TraceLine>) -> Result<Vec<u8>, AllocError>
    ensures { IfOk result (λ text. BeginsWith facts.now text.items) }
{
    let mut rest = rest;
    let mut lines = fact_lines(alloc, facts)?;
    lines.append(&mut rest)?;
    let text = print(alloc, &Trace { lines })?;
    Ok(text)
}

// The origins of the facts' lines, and those of the lines behind them.
fn origins_with(alloc: Global, facts: &[Fact], rest: Vec<u64>) -> Result<Vec<u64>, AllocError> {
    let mut rest = rest;
    let lines = fact_lines(alloc, facts)?;
    let mut origins = vec![in alloc; 0; lines.len()]?;
    origins.append(&mut rest)?;
    Ok(origins)
}

// The text of the lines, which is read again: so it is one of a trace.
fn checked(
    alloc: Global,
    out: Output,
    ledger: Ledger,
    source: &[u8],
    facts: &[Fact],
) -> Result<Translated, TranslationFault>
    ensures text { IfOk result (λ t. IsTraceText t.scale t.text.items) }
    ensures scale { IfOk result (λ t. t.scale ≡ Long → ¬ IsTraceText Usual t.text.items) }
    ensures lines { IfOk result (λ t. t.lines.items ≡ trace_of t.text.items) }
    ensures origins { IfOk result (λ t. length t.origins.items ≡ length t.lines.items) }
    ensures order { IfOk result (λ t. IsInOrder t.origins.items (count_lines source.now)) }
    ensures kept { IfOk result (λ t. KeepsCalls (lines_of source.now) t.origins.items t.skipped.items) }
    ensures facts { IfOk result (λ t. BeginsWith facts.now t.text.items) }
    ensures told { IfOk result (λ t. IsTold facts.now t.lines.items) }
{
    let Output { lines, origins } = out;
    let Ledger { skipped, told, .. } = ledger;
    let text = text_with(alloc, facts, lines)?;
    let origins = origins_with(alloc, facts, origins)?;
    let (scale, lines) = read_again(alloc, &text, &origins)?;
    let count = count_lines(source) as u64;
    if lines.len() != origins.len() || !are_in_order(&origins, count) || !is_told(facts, &lines) {
        return Err(refused(&origins, 1, TraceReason::Process));
    }
    if let Some(line) = lost_line(alloc, source, &origins, &skipped)? {
        let reason = Refusal::Lost;
        return Err(TranslationFault::Refused { line, reason });
    }
    Ok(Translated {
        text,
        scale,
        lines,
        origins,
        skipped,
        told,
    })
}

// Whether the run's first process begins by what is said of the run.
fn is_told(facts: &[Fact], lines: &[TraceLine]) -> bool
    ensures { IsTrue result → IsTold facts.now lines.now }
{
    facts.is_empty() || begins_told(lines)
}

// Each line ends with LF.
fn is_whole(text: &[u8]) -> bool
    ensures { result ≡ is_whole text.now }
{
    text.is_empty() || text[text.len() - 1] == b'\n'
}

// How many lines end in the text.
fn count_lines(text: &[u8]) -> usize
    ensures { result ≡ count_lines text.now }
{
    text.iter().filter(|byte| **byte == b'\n').count()
}

// What the run is in a trace.
fn traced<'a>(
    alloc: Global,
    steps: &[Step<'_>],
    survey: &'a Survey,
    setting: Setting<'a>,
    waits: Waits,
) -> Result<Run<'a>, TranslationFault> {
    let mut tracing = Tracing::new(alloc, survey, setting, waits);
    for step in steps {
        if let Err(fault) = tracing.take(alloc, step) {
            return Err(TranslationFault::at_line(step.place, fault));
        }
    }
    let Tracing { run, .. } = tracing;
    Ok(run)
}

// The files that a store has no room for. What the run wrote stays, and what lies below the user's folder, before what a system brings.
fn without_room(alloc: Global, run: &Run<'_>) -> Result<BTreeSet<usize>, AllocError> {
    let Setting {
        stored,
        root,
        base,
        ..
    } = run.setting;
    let folder = if root.is_empty() { base } else { root };
    let mut left_out = BTreeSet::new(alloc);
    let mut room = (KIND_LIMIT as usize).saturating_sub(stored.len());
    for prefers in [true, false] {
        for (place, file) in run.files.files.iter().enumerate() {
            let is_ours = file.written || below(folder, &file.first.path).is_some();
            let is_there = file.origin == Origin::Before
                && stored.named(file.first.name.as_bytes()).is_some();
            if is_ours != prefers || is_there || file.origin == Origin::Given {
                continue;
            }
            if room == 0 {
                left_out.insert(place)?;
            }
            room = room.saturating_sub(1);
        }
    }
    Ok(left_out)
}

// The files that were copied before their bytes were shown, and of which all bytes that the run used are shown somewhere.
fn shown_later(alloc: Global, run: &Run<'_>) -> Result<BTreeSet<usize>, AllocError> {
    let mut shown = BTreeSet::new(alloc);
    for place in run.copied.iter() {
        if let Some(file) = run.files.get(*place) {
            if file.image.before(alloc)?.is_whole() {
                shown.insert(*place)?;
            }
        }
    }
    Ok(shown)
}

// The files that ended elsewhere than the store's, as the run shows after it wrote to them.
fn changed_before(alloc: Global, run: &Run<'_>) -> Result<BTreeSet<usize>, AllocError> {
    let mut changed = BTreeSet::new(alloc);
    for (place, file) in run.files.files.iter().enumerate() {
        if file.has_moved() {
            changed.insert(place)?;
        }
    }
    Ok(changed)
}

// What is known of a run by a reading of all its steps.
fn learned(alloc: Global, run: &Run<'_>) -> Result<Known, AllocError> {
    Ok(Known {
        left_out: without_room(alloc, run)?,
        shown: shown_later(alloc, run)?,
        changed: changed_before(alloc, run)?,
    })
}

// The lines of a reading. Without paths beside the descriptors some things can't be known.
fn output_of(
    alloc: Global,
    survey: &Survey,
    run: Run<'_>,
    has_facts: bool,
) -> Result<(Output, Ledger), TranslationFault> {
    let (out, mut ledger) = assemble(alloc, run, has_facts).map_err(at_front)?;
    if !survey.has_paths && !out.lines.is_empty() {
        ledger.tell(1, Skip::Paths, b"-y")?;
    }
    Ok((out, ledger))
}

// A fault of none of the text's lines.
fn at_front(fault: LineFault) -> TranslationFault {
    TranslationFault::at_line(1, fault)
}

// The lines of a reading, or of one more where it shows that some files have no room, or that bytes are shown later than they are copied.
fn completed(
    alloc: Global,
    steps: &[Step<'_>],
    survey: &Survey,
    setting: Setting<'_>,
    waits: Waits,
    has_facts: bool,
    run: Run<'_>,
) -> Result<(Output, Ledger), TranslationFault> {
    let known = learned(alloc, &run)?;
    if known.is_empty() {
        return output_of(alloc, survey, run, has_facts);
    }
    let run = traced(alloc, steps, survey, setting.knowing(&known), waits)?;
    output_of(alloc, survey, run, has_facts)
}

// The lines of a trace of all steps. Where a first reading shows that names were links' or folders' from the front on, they are read once
// more before.
fn translated_steps<'a>(
    alloc: Global,
    steps: &[Step<'_>],
    request: Request<'a>,
    loaders: &'a Loaders,
) -> Result<(Output, Ledger), TranslationFault> {
    let Request {
        stored,
        root,
        facts,
        waits,
    } = request;
    let has_facts = !facts.is_empty();
    let survey = Survey::of(alloc, steps)?;
    let nothing = Known::nothing(alloc);
    let first = Setting::of(&survey, stored, root, loaders, &nothing);
    let mut run = traced(alloc, steps, &survey, first, waits)?;
    let start = run.start();
    match &start {
        Some(_) => {
            let second = first.from(&start);
            let run = traced(alloc, steps, &survey, second, waits)?;
            completed(alloc, steps, &survey, second, waits, has_facts, run)
        }
        None => completed(alloc, steps, &survey, first, waits, has_facts, run),
    }
}

// The programs of a reading.
fn run_programs(
    alloc: Global,
    lines: &[u8],
    request: Request<'_>,
) -> Result<Vec<Program>, TranslationFault> {
    let Joining { steps, .. } = join(alloc, lines)?;
    let survey = Survey::of(alloc, &steps)?;
    let nothing = Known::nothing(alloc);
    let loaders = Loaders::none(alloc);
    let first = Setting::of(&survey, request.stored, request.root, &loaders, &nothing);
    let mut run = traced(alloc, &steps, &survey, first, request.waits)?;
    let start = run.start();
    match &start {
        Some(_) => {
            let run = traced(alloc, &steps, &survey, first.from(&start), request.waits)?;
            Ok(run.programs()?)
        }
        None => Ok(run.programs()?),
    }
}

/// The programs of a run, and the interpreters of its scripts; none of a text that isn't translated.
pub fn programs_of(
    alloc: Global,
    text: &[u8],
    request: Request<'_>,
) -> Result<Vec<Program>, AllocError> {
    match run_programs(alloc, text.strip_suffix(b"\n").unwrap_or(text), request) {
        Ok(programs) => Ok(programs),
        Err(TranslationFault::NoMemory) => Err(AllocError),
        Err(TranslationFault::Refused { .. }) => Ok(Vec::new(alloc)),
    }
}

/// The trace of a run of which `strace -f -y -xx -s 1073741823 -o` wrote this text, to be recorded in a store that has these files.
///
/// The calls that move bytes, open, close, name or cut files, and begin, end or wait for processes are lines of the trace. Process
/// 1 makes the files that were there before the run, with the bytes that are read of them, and begins the run's first process. Names
/// of files below the root are relative to it, and others absolute. What is said of the run are attributes of an app object, which its
/// first process is told of.
pub fn translate<'a>(
    alloc: Global,
    text: &[u8],
    request: Request<'a>,
    loaders: &'a Loaders,
) -> Result<Translated, TranslationFault>
    // A text that ends within a line is refused with that line.
    ensures cut { is_whole text.now ≡ false → result ≡ Err (Refused (count_lines text.now + 1) (Strace Cut)) }
    // What is to be written is the text of a trace, of the smaller scale that it can be of, and its lines are those that it says.
    ensures text { IfOk result (λ t. IsTraceText t.scale t.text.items) }
    ensures scale { IfOk result (λ t. t.scale ≡ Long → ¬ IsTraceText Usual t.text.items) }
    ensures lines { IfOk result (λ t. t.lines.items ≡ trace_of t.text.items) }
    // They stand in the order of the lines of strace from which they come.
    ensures origins { IfOk result (λ t. length t.origins.items ≡ length t.lines.items) }
    ensures order { IfOk result (λ t. IsInOrder t.origins.items (count_lines text.now)) }
    // No answered call that reads, writes, opens, closes, doubles, forks or execs is lost: a line of the trace comes from its line, or
    // that is among those that are left out. Of a call in two lines it is one of these.
    ensures kept { IfOk result (λ t. KeepsCalls (lines_of text.now) t.origins.items t.skipped.items) }
    // In front are the facts, spelled as they were given, and the run's first process begins by reading of them.
    ensures facts { IfOk result (λ t. BeginsWith request.entry.facts.now t.text.items) }
    ensures told { IfOk result (λ t. IsTold request.entry.facts.now t.lines.items) }
{
    let facts = request.facts;
    let count = count_lines(text) as u64;
    if !is_whole(text) {
        let line = count.saturating_add(1);
        let reason = Refusal::Strace(StraceReason::Cut);
        return Err(TranslationFault::Refused { line, reason });
    }
    if text.is_empty() {
        return checked(alloc, Output::new(alloc), Ledger::new(alloc), text, facts);
    }
    let Joining { steps, alive, .. } = join(alloc, &text[..text.len() - 1])?;
    let (out, ledger) = translated_steps(alloc, &steps, request, loaders)?;
    if !alive.is_empty() {
        let reason = Refusal::Strace(StraceReason::Cut);
        return Err(TranslationFault::Refused {
            line: count,
            reason,
        });
    }
    checked(alloc, out, ledger, text, facts)
}
