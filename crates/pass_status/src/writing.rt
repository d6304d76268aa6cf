//! Writes a text to a sink.
ghost use Rattle.std.specs.Prelude.{◌≡◌, ◌<◌, ◌++◌, IsTrue, OnOk, OnErr, IsOk, length};
ghost use Rattle.pass_outside.specs.Faults.{FailsByCount};
ghost use Rattle.pass_status.specs.Writing.{IsPartOfText};

use pass_outside::{Failed, Sink};

/// Writes a text, piece after piece; of an empty one there is nothing to write. Where the sink fails, it took a beginning of the text.
pub fn write_text<K: Sink>(sink: &mut K, text: &[u8]) -> Result<(), Failed>
    ensures whole { OnOk result (IsTrue K.tells → K.taken sink.new ≡ K.taken sink.old ++ text.now) }
    ensures part { OnErr result (IsTrue K.tells → IsPartOfText text.now (K.taken sink.old) (K.taken sink.new)) }
    ensures empty { length text.now ≡ 0 → IsOk result × (sink.new ≡ sink.old) }
    ensures faults { 0 < length text.now → FailsByCount (K.fault_count sink.old) (K.fault_count sink.new) result }
{
    let mut written = 0;
    'pieces: while written < text.len() {
        let count = sink.write(&text[written..])?;
        written += count;
    }
    Ok(())
}
