//! The state of a pipe.
ghost use Rattle.std.specs.Prelude.{◌≡◌, ◌≤◌, ◌+◌, ◌^◌, OnOk, IfOk, drop};
ghost use Rattle.pass_plain.specs.Pipes.{new_pipe, joined_by, left_by, pipe_act};
ghost use Rattle.pass_reference.specs.States.{pipe_of, pipe_step, IsPipe};

use pass_entry::{Act, End, Entry, Pnode};
use pass_plain::registry::is_own;
use std::alloc::{AllocError, Global};

/// The bytes that are not read yet, the oldest first, and how many descriptors each end has.
#[derive(Drop)]
pub struct PipeState {
    pub bytes: Vec<u8>,
    pub readers: u64,
    pub writers: u64,
}

impl PipeState {
    pub fn new(alloc: Global) -> PipeState
        ensures { pipe_of result ≡ new_pipe }
    {
        PipeState {
            bytes: Vec::new(alloc),
            readers: 1,
            writers: 1,
        }
    }

    fn join(&mut self, end: End)
        requires readers { self.old.readers ≤ 2 ^ 63 }
        requires writers { self.old.writers ≤ 2 ^ 63 }
        ensures after { pipe_of self.new ≡ joined_by (pipe_of self.old) end }
        ensures readers { self.new.readers ≤ self.old.readers + 1 }
        ensures writers { self.new.writers ≤ self.old.writers + 1 }
    {
        match end {
            End::Reader => self.readers += 1,
            End::Writer => self.writers += 1,
        }
    }

    fn leave(&mut self, end: End)
        ensures after { pipe_of self.new ≡ left_by (pipe_of self.old) end }
        ensures readers { self.new.readers ≤ self.old.readers }
        ensures writers { self.new.writers ≤ self.old.writers }
    {
        match end {
            End::Reader => self.readers = self.readers.saturating_sub(1),
            End::Writer => self.writers = self.writers.saturating_sub(1),
        }
    }

    /// What an entry with this act makes of the pipe.
    pub fn apply(&mut self, alloc: Global, act: &Act) -> Result<(), AllocError>
        requires readers { self.old.readers ≤ 2 ^ 63 }
        requires writers { self.old.writers ≤ 2 ^ 63 }
        ensures ok { OnOk result (pipe_of self.new ≡ pipe_act (pipe_of self.old) act.now) }
        ensures readers { self.new.readers ≤ self.old.readers + 1 }
        ensures writers { self.new.writers ≤ self.old.writers + 1 }
    {
        match act {
            Act::Take { len } => {
                let rest = rest_of(alloc, &self.bytes, *len as usize)?;
                self.bytes = rest;
            }
            Act::Push { bytes, .. } => self.bytes.extend_from_slice(bytes.as_bytes())?,
            Act::Join { end } => self.join(*end),
            Act::Leave { end } => self.leave(*end),
            _ => {}
        }
        Ok(())
    }

    /// The pipe after one more entry of a history.
    pub fn follow(&mut self, alloc: Global, object: Pnode, e: &Entry) -> Result<(), AllocError>
        requires readers { self.old.readers ≤ 2 ^ 63 }
        requires writers { self.old.writers ≤ 2 ^ 63 }
        ensures ok { OnOk result (pipe_of self.new ≡ pipe_step object (pipe_of self.old) e.now) }
        ensures readers { self.new.readers ≤ self.old.readers + 1 }
        ensures writers { self.new.writers ≤ self.old.writers + 1 }
    {
        if is_own(object, e) {
            self.apply(alloc, &e.act)?;
        }
        Ok(())
    }

    /// A pipe after a history.
    pub fn after(alloc: Global, history: &[Entry], object: Pnode) -> Result<PipeState, AllocError>
        ensures { IfOk result (IsPipe history.now object) }
    {
        let mut state = PipeState::new(alloc);
        for i in 0..history.len() {
            state.follow(alloc, object, &history[i])?;
        }
        Ok(state)
    }
}

fn rest_of(alloc: Global, bytes: &[u8], len: usize) -> Result<Vec<u8>, AllocError>
    ensures { IfOk result (λ v. v.items ≡ drop len bytes.now) }
{
    if len < bytes.len() {
        Vec::from_slice(alloc, &bytes[len..])
    } else {
        Ok(Vec::new(alloc))
    }
}
