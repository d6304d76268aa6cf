//! The end of a process.

use crate::mappings::unmap;
use pass_descriptor::{Run, What};
use pass_observed::Process;
use pass_syscall::Taken;

/// A process is over: what it shares in memory is written, and its ends of pipes are closed.
pub fn leave(run: &mut Run<'_>, process: &mut Process) -> Taken {
    if process.ended {
        return Ok(());
    }
    process.ended = true;
    unmap(run, process, 0, u64::MAX)?;
    for number in 0..64u8 {
        let opening = match process.slot(number) {
            Some(slot) => slot.opening,
            None => continue,
        };
        if matches!(run.what(opening), What::Pipe { .. }) {
            let _slot = process.vacate(number);
            run.say_close(process, number, opening)?;
        }
    }
    Ok(())
}
