//! Writes the text of what was judged.
ghost use Rattle.std.specs.Prelude.{◌≡◌, ◌≢◌, ◌↔◌, ◌⊎◌, ◌++◌, IsTrue, OnErr, OnOk};
ghost use Rattle.pass_outside.specs.Faults.{FailsByCount, HasRisen, HasStayed};
ghost use Rattle.pass_status.specs.Writing.{IsPartOfText};
ghost use Rattle.pass_ask.specs.Answers.{is_reported, text_with};

use pass_outside::{Failed, Sink};
use pass_status::{Status, write_text};
use std::alloc::{AllocError, Global};

/// Writes the text of a status: the report of a run that ended, and else the status's own. A fault of the sink replaces it.
pub fn write_answer<K: Sink>(alloc: Global, sink: &mut K, status: Status, report: &[u8]) -> Status
    requires { status ≢ Status.WriteFault }
    ensures stands { (result ≡ status) ⊎ ((result ≡ Status.WriteFault) ⊎ (result ≡ Status.NoMemory)) }
    ensures whole { result ≢ Status.WriteFault → result ≢ Status.NoMemory → IsTrue K.tells → K.taken sink.new ≡ K.taken sink.old ++ text_with status report.now }
    ensures part { result ≡ Status.WriteFault → IsTrue K.tells → IsPartOfText (text_with status report.now) (K.taken sink.old) (K.taken sink.new) }
    ensures fault { result ≢ Status.NoMemory → (result ≡ Status.WriteFault ↔ HasRisen (K.fault_count sink.old) (K.fault_count sink.new)) }
    ensures stays { result ≢ Status.WriteFault → result ≢ Status.NoMemory → HasStayed (K.fault_count sink.old) (K.fault_count sink.new) }
    ensures starved { status ≡ Status.NoMemory → result ≡ Status.NoMemory }
    ensures refused { result ≡ Status.NoMemory → ¬ IsTrue (is_reported status) }
    ensures unwritten { result ≡ Status.NoMemory → sink.new ≡ sink.old }
{
    match status {
        Status::NoMemory => status,
        Status::Done | Status::Stuck => written(sink, report, status),
        _ => match status.text(alloc) {
            Ok(text) => written(sink, text.as_str().as_bytes(), status),
            Err(AllocError) => Status::NoMemory,
        },
    }
}

// The status whose text was written, which a fault of the sink replaces.
fn written<K: Sink>(sink: &mut K, text: &[u8], status: Status) -> Status
    requires { status ≢ Status.WriteFault }
    ensures stands { (result ≡ status) ⊎ (result ≡ Status.WriteFault) }
    ensures whole { result ≢ Status.WriteFault → IsTrue K.tells → K.taken sink.new ≡ K.taken sink.old ++ text.now }
    ensures part { result ≡ Status.WriteFault → IsTrue K.tells → IsPartOfText text.now (K.taken sink.old) (K.taken sink.new) }
    ensures fault { result ≡ Status.WriteFault ↔ HasRisen (K.fault_count sink.old) (K.fault_count sink.new) }
    ensures stays { result ≢ Status.WriteFault → HasStayed (K.fault_count sink.old) (K.fault_count sink.new) }
{
    match write_all(sink, text) {
        Ok(()) => status,
        Err(Failed) => Status::WriteFault,
    }
}

// Writes the text, an empty one by one piece: so a sink that fails is seen there too.
fn write_all<K: Sink>(sink: &mut K, text: &[u8]) -> Result<(), Failed>
    ensures whole { OnOk result (IsTrue K.tells → K.taken sink.new ≡ K.taken sink.old ++ text.now) }
    ensures part { OnErr result (IsTrue K.tells → IsPartOfText text.now (K.taken sink.old) (K.taken sink.new)) }
    ensures faults { FailsByCount (K.fault_count sink.old) (K.fault_count sink.new) result }
{
    if text.is_empty() {
        let _none = sink.write(text)?;
        return Ok(());
    }
    write_text(sink, text)
}
