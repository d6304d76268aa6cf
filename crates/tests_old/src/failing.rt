//! Runs of whose archive each device call fails in turn.
use crate::running::{new_disk, run_over};
use pass_old::OldStatus;
use std::process::Abort;
use std::test::Fail;

#[test]
fn each_device_call_fails_in_turn(rt: HostRuntime) -> Result<(), Fail> {
    for call in 1..9 {
        // Nothing is run over an archive that doesn't open, which takes the first four.
        let entries = if call < 5 { 0 } else { 11 };
        let ended = run_over(&rt, new_disk(&rt, &[call], None)?)?;
        let failed = ended.status == OldStatus::ArchiveFault;
        assert!(rt; failed && ended.history.len() == entries, "call {call}");
    }
    Ok(())
}
