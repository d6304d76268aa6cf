//! The lines of a trace, and from where they come.

use pass_trace::{Command, Scale, TraceLine};
use std::alloc::{AllocError, Global};

/// The lines of the trace so far, as many as a long one may have and one more; and for each the line of strace from which it comes, or 0.
#[derive(Drop)]
pub struct Output {
    pub lines: Vec<TraceLine>,
    pub origins: Vec<u64>,
}

impl Output {
    pub fn new(alloc: Global) -> Output {
        Output {
            lines: Vec::new(alloc),
            origins: Vec::new(alloc),
        }
    }

    pub fn is_full(&self) -> bool {
        self.lines.len() > Scale::Long.most_lines() as usize
    }

    pub fn push(&mut self, origin: u64, process: u32, command: Command) -> Result<(), AllocError> {
        if self.is_full() {
            return Ok(());
        }
        self.origins.push(origin)?;
        // No line is printed with its number.
        self.lines.push(TraceLine {
            number: 0,
            process,
            command,
        })?;
        Ok(())
    }
}
