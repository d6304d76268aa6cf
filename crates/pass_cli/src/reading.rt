//! Reads the trace of a source.
ghost use Rattle.std.specs.Prelude.{◌≢◌, Err, IsTrue};
ghost use Rattle.pass_outside.specs.Faults.{HasRisen};
ghost use Rattle.pass_cli.specs.Answers.{OfBytes, IsTraceRead, IsReadInTime};

use pass_outside::Source;
use pass_status::{ReadEnd, Status, read_source};
use pass_trace::{Scale, Trace, TraceFault, parse_within};
use std::alloc::Global;

/// The trace of a source, of this scale, or the first status that refuses it: by the source, then by its bytes.
pub fn read_trace<S: Source>(alloc: Global, scale: Scale, source: &mut S) -> Result<Trace, Status>
    ensures read { OfBytes S.tells (S.left source.old)
        (λ bytes. IsTraceRead scale bytes (S.fault_count source.old) (S.fault_count source.new) result) }
    ensures stops { IsTrue S.tells → result ≢ Err Status.NoMemory → ¬ HasRisen (S.fault_count source.old) (S.fault_count source.new)
        → IsReadInTime scale (S.left source.old) (S.left source.new) }
{
    let text = match read_source(alloc, scale, source) {
        Ok(text) => text,
        Err(ReadEnd::ReadFault) => return Err(Status::ReadFault),
        Err(ReadEnd::NoMemory) => return Err(Status::NoMemory),
    };
    match parse_within(alloc, scale, &text) {
        Ok(trace) => Ok(trace),
        Err(TraceFault::BadTrace { line, reason }) => Err(Status::BadTrace { line, reason }),
        Err(TraceFault::NoMemory) => Err(Status::NoMemory),
    }
}
