//! The records of a frame.
ghost use Rattle.std.specs.Prelude.{◌≡◌, List, None, OnOk, IfErr};
ghost use Rattle.pass_entry.specs.declared.record.Record.{Record as AnyRecord};
ghost use Rattle.pass_graph.specs.Logged.{Summarizes};
ghost use Rattle.pass_standby.specs.declared.batch.BatchFault.TheVariants as faults;
ghost use Rattle.pass_standby.specs.Streams.{batch_in};
ghost use Rattle.pass_standby.specs.Logs.{IsBatch};

use pass_entry::Record;
use pass_graph::Logged;
use pass_record::{RecordFault, decode};
use std::alloc::{AllocError, AllocFailed, Global};

/// Why a frame gives no records.
#[derive(Clone, Copy, PartialEq, Eq, Drop)]
pub(crate) enum BatchFault {
    /// Its bytes aren't whole records, or one has a flaw.
    Bad,
    /// Memory was refused.
    NoMemory,
}

impl From<AllocError> for BatchFault {
    ghost from_gives = { λ _ e. e ≡ faults.NoMemory };

    fn from(_error: AllocError) -> BatchFault {
        BatchFault::NoMemory
    }
}

impl<T: Drop> From<AllocFailed<T>> for BatchFault {
    ghost from_gives = { λ _ e. e ≡ faults.NoMemory };

    fn from(_error: AllocFailed<T>) -> BatchFault {
        BatchFault::NoMemory
    }
}

// The fault of bytes that aren't a record.
fn fault_of(fault: RecordFault) -> BatchFault
    ensures memory { fault ≡ RecordFault.NoMemory → result ≡ BatchFault.NoMemory }
    ensures bytes { (fault ≡ RecordFault.NoMemory → ⊥) → result ≡ BatchFault.Bad }
{
    match fault {
        RecordFault::NoMemory => BatchFault::NoMemory,
        _ => BatchFault::Bad,
    }
}

/// Puts the records of a frame's bytes behind those of a list. Each is judged by the tables of all records before it, and taken
/// into them.
pub(crate) fn read_batch(
    alloc: Global,
    judge: &mut Logged,
    frame: &[u8],
    list: &mut Vec<Record>,
) -> Result<(), BatchFault>
    ensures ok { OnOk result ((before : List AnyRecord) → Summarizes judge.old before → IsBatch before frame.now list.old.items list.new.items judge.new) }
    // Where it isn't want of memory.
    ensures bad { IfErr result (λ e. e ≡ BatchFault.Bad → (before : List AnyRecord) → Summarizes judge.old before → batch_in before frame.now ≡ None) }
{
    let mut rest = frame;
    while !rest.is_empty() {
        let (one, len) = match decode(alloc, rest) {
            Ok(found) => found,
            Err(fault) => return Err(fault_of(fault)),
        };
        if judge.flaw(&one).is_some() {
            return Err(BatchFault::Bad);
        }
        judge.add(&one)?;
        list.push(one)?;
        rest = &rest[len..];
    }
    Ok(())
}
