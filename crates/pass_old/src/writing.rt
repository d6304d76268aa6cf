//! Writes what was judged.
ghost use Rattle.std.specs.Prelude.{None, ◌≡◌, ◌≢◌, ◌↔◌, ◌⊎◌, ◌++◌, IsTrue};
ghost use Rattle.pass_outside.specs.Faults.{HasRisen};
ghost use Rattle.pass_status.specs.Writing.{IsPartOfText};
ghost use Rattle.pass_old.specs.Answers.{same_of, old_text_with};
ghost use Rattle.pass_old.specs.Statuses.{old_text};

use crate::status::OldStatus;
use pass_ask::write_answer;
use pass_outside::Sink;
use pass_status::Status;
use std::alloc::{AllocError, Global};

// The status of a run or a question, where it is one of these.
fn same(judged: &OldStatus) -> Option<Status>
    ensures { result ≡ same_of judged.now }
{
    match judged {
        OldStatus::Same(status) => Some(*status),
        _ => None,
    }
}

// Writes a status's own text, as an answer: so a sink that fails is seen where there is none, too.
fn write_own<K: Sink>(alloc: Global, sink: &mut K, judged: OldStatus) -> OldStatus
    requires { same_of judged ≡ None }
    ensures stands { (result ≡ judged) ⊎ ((result ≡ OldStatus.Same Status.WriteFault) ⊎ (result ≡ OldStatus.Same Status.NoMemory)) }
    ensures whole { result ≢ OldStatus.Same Status.WriteFault → result ≢ OldStatus.Same Status.NoMemory → IsTrue K.tells → K.taken sink.new ≡ K.taken sink.old ++ old_text judged }
    ensures part { result ≡ OldStatus.Same Status.WriteFault → IsTrue K.tells → IsPartOfText (old_text judged) (K.taken sink.old) (K.taken sink.new) }
    ensures fault { result ≢ OldStatus.Same Status.NoMemory → (result ≡ OldStatus.Same Status.WriteFault ↔ HasRisen (K.fault_count sink.old) (K.fault_count sink.new)) }
    ensures unwritten { judged ≢ OldStatus.Same Status.NoMemory → result ≡ OldStatus.Same Status.NoMemory → sink.new ≡ sink.old }
{
    let own = match judged.text(alloc) {
        Ok(own) => own,
        Err(AllocError) => return OldStatus::Same(Status::NoMemory),
    };
    match write_answer(alloc, sink, Status::Done, own.as_str().as_bytes()) {
        Status::WriteFault => OldStatus::Same(Status::WriteFault),
        _ => judged,
    }
}

/// Writes the text of a status: that of what was asked for, and else the status's own. A fault of the sink replaces it.
pub(crate) fn write_old<K: Sink>(
    alloc: Global,
    sink: &mut K,
    judged: OldStatus,
    text: &[u8],
) -> OldStatus
    requires { judged ≢ OldStatus.Same Status.WriteFault }
    ensures stands { (result ≡ judged) ⊎ ((result ≡ OldStatus.Same Status.WriteFault) ⊎ (result ≡ OldStatus.Same Status.NoMemory)) }
    ensures whole { result ≢ OldStatus.Same Status.WriteFault → result ≢ OldStatus.Same Status.NoMemory → IsTrue K.tells → K.taken sink.new ≡ K.taken sink.old ++ old_text_with judged text.now }
    ensures part { result ≡ OldStatus.Same Status.WriteFault → IsTrue K.tells → IsPartOfText (old_text_with judged text.now) (K.taken sink.old) (K.taken sink.new) }
    ensures fault { result ≢ OldStatus.Same Status.NoMemory → (result ≡ OldStatus.Same Status.WriteFault ↔ HasRisen (K.fault_count sink.old) (K.fault_count sink.new)) }
    ensures unwritten { result ≡ OldStatus.Same Status.NoMemory → sink.new ≡ sink.old }
    ensures starved { judged ≡ OldStatus.Same Status.NoMemory → result ≡ OldStatus.Same Status.NoMemory }
    ensures unlike { result ≡ OldStatus.Unlike → judged ≡ OldStatus.Unlike }
{
    match same(&judged) {
        Some(status) => OldStatus::Same(write_answer(alloc, sink, status, text)),
        None => write_own(alloc, sink, judged),
    }
}
