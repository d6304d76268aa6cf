//! What a drawn run came to, as text.
ghost use Rattle.std.specs.Prelude.{◌≡◌, ◌+◌, ◌<◌, ◌≤◌, ◌^◌, IfOk, if◌then◌else◌, string_bytes};
ghost use Rattle.pass_entry.specs.Limits.{transfer_limit};
ghost use Rattle.pass_plain.specs.Histories.{is_fault as is_fault_of};
ghost use Rattle.pass_plain.specs.Processes.{new_process};
ghost use Rattle.pass_plain.specs.Runs.{IsRun};
ghost use Rattle.pass_plain.specs.Sessions.{Session};
ghost use Rattle.pass_plain.specs.declared.start.Start.{Start};
ghost use Rattle.pass_drawn.specs.Lawful.{IsFreshRun};
ghost use Rattle.pass_drawn.specs.Runs.{drawn_trace};
ghost use Rattle.pass_drawn.specs.Tallies.{ends as ends_of, wrote as wrote_of, IsTally};
ghost use Rattle.pass_drawn.specs.Texts.{is_write as is_write_of, length_written as length_written_of, drawn_text, run_text, writes_drawn, bytes_drawn};

use pass_entry::{Act, CallName, Entry, Reply};
use pass_plain::ProcessState;
use pass_plain::steps::is_last;
use std::alloc::{AllocError, Global};
use std::fmt::Write;

/// How many calls ended, how many of them wrote, and how many bytes they wrote.
#[derive(Clone, Copy)]
pub struct Tally {
    calls: u64,
    writes: u64,
    bytes: u128,
}

fn is_write(name: CallName) -> bool
    ensures { result ≡ is_write_of name }
{
    matches!(name, CallName::Write)
}

fn is_fault(reply: &Reply) -> bool
    ensures { result ≡ is_fault_of reply.now }
{
    matches!(reply, Reply::Fault(_))
}

fn length_written(act: &Act) -> u64
    ensures exact { result ≡ length_written_of act.now }
    ensures short { result ≤ transfer_limit }
{
    match act {
        Act::Put { bytes, .. } => bytes.as_bytes().len() as u64,
        Act::Push { bytes, .. } => bytes.as_bytes().len() as u64,
        _ => 0,
    }
}

// The entry ends a call. `idle` is the state of a process that has done nothing.
fn ends(idle: &ProcessState, entry: &Entry) -> bool
    requires { idle.now ≡ new_process }
    ensures { result ≡ ends_of entry.now }
{
    match entry.call {
        CallName::Start => false,
        _ => is_last(idle, entry),
    }
}

fn wrote(idle: &ProcessState, entry: &Entry) -> bool
    requires { idle.now ≡ new_process }
    ensures { result ≡ wrote_of entry.now }
{
    ends(idle, entry) && (is_write(entry.call) && !is_fault(&entry.reply))
}

impl Tally {
    fn note(&mut self, idle: &ProcessState, entry: &Entry)
        requires idle { idle.now ≡ new_process }
        requires room { (self.old.calls < 2 ^ 63) × (self.old.writes < 2 ^ 63) × (self.old.bytes + transfer_limit < 2 ^ 128) }
        ensures calls { self.new.calls ≡ self.old.calls + (if ends_of entry.now then 1 else 0) }
        ensures writes { self.new.writes ≡ self.old.writes + (if wrote_of entry.now then 1 else 0) }
        ensures bytes { self.new.bytes ≡ self.old.bytes + (if wrote_of entry.now then length_written_of entry.now.act else 0) }
        ensures few { (self.new.calls ≤ self.old.calls + 1) × (self.new.writes ≤ self.old.writes + 1) × (self.new.bytes ≤ self.old.bytes + transfer_limit) }
    {
        if ends(idle, entry) {
            self.calls += 1;
        }
        if wrote(idle, entry) {
            self.writes += 1;
            self.bytes += u128::from(length_written(&entry.act));
        }
    }
}

fn counted(idle: &ProcessState, history: &[Entry]) -> Tally
    requires { idle.now ≡ new_process }
    ensures { IsTally history.now result }
{
    let mut tally = Tally {
        calls: 0,
        writes: 0,
        bytes: 0,
    };
    for place in 0..history.len() {
        tally.note(idle, &history[place]);
    }
    tally
}

fn lines_of(alloc: Global, number: u64, lines: u32, tally: &Tally) -> Result<String, AllocError>
    ensures { IfOk result (λ text. string_bytes text ≡ drawn_text number lines tally.now.calls tally.now.writes tally.now.bytes) }
{
    let mut text = String::new(alloc);
    writeln!(text, "gen {number} {lines}")?;
    writeln!(text, "answered {}", tally.calls)?;
    writeln!(text, "wrote {} {}", tally.writes, tally.bytes)?;
    text.push_str("acyclic yes\n")?;
    Ok(text)
}

/// The four lines of a run of the trace that `number` draws with so many `lines`, counted in its history: the calls that were
/// answered, and the writes among them that had no fault, with the number of their bytes. The graph of every legal history is
/// acyclic.
pub fn report(
    alloc: Global,
    number: u64,
    lines: u32,
    history: &[Entry],
) -> Result<Vec<u8>, AllocError>
    ensures text { IfOk result (λ text. (session : Session) → IsRun session (drawn_trace number lines) history.now → text.items ≡ run_text number lines history.now) }
    ensures fresh { IfOk result (λ text. (start full : Start) → 15 ≤ lines → IsFreshRun start number lines history.now full
        → text.items ≡ drawn_text number lines (lines + 8) (writes_drawn number lines) (bytes_drawn number lines)) }
{
    let idle = ProcessState::new(alloc);
    let tally = counted(&idle, history);
    let text = lines_of(alloc, number, lines, &tally)?;
    Ok(text.into_bytes())
}
