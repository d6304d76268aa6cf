//! The state of one pipe.
ghost use Rattle.std.specs.Prelude.{◌≡◌, ◌<◌, ◌≤◌, ◌-◌, ◌^◌, ◌++◌, ◌↔◌, ℕ, [], Some, None, is_some, not, length, take, drop, min, OnOk, OnErr, IfOk, IsErrOf};
ghost use Rattle.std.specs.Option.{option_map_or};
ghost use Rattle.pass_entry.specs.declared.entry.Act.TheVariants as act;
ghost use Rattle.pass_entry.specs.declared.entry.Reply.TheVariants as answer;
ghost use Rattle.pass_plain.specs.Pipes.{new_pipe, pipe_act};
ghost use Rattle.pass_entry.specs.Limits.{pipe_capacity};
ghost use Rattle.pass_plain.specs.Replies.{pushed, taken};
ghost use Rattle.pass_pipe.specs.Ends.{count_at};

use circular_buffer::HeapCircularBuffer;
use pass_entry::{Bytes, End, PIPE_CAPACITY};
use std::alloc::{AllocError, Global};
use std::marker::Model;

/// Why a transfer didn't come about.
#[derive(Clone, Copy, PartialEq, Eq)]
pub enum PipeEnd {
    /// Nobody can read what would be given, as POSIX's EPIPE.
    BrokenPipe,
    /// There is too little room, or nothing to take yet, as POSIX's EAGAIN.
    Again,
}

/// The bytes that were given and not taken yet, the oldest first, and how many descriptors each end has.
#[derive(Drop)]
pub struct PipeState {
    buffer: HeapCircularBuffer<u8>,
    readers: u32,
    writers: u32,
}

impl Model for PipeState {
    ghost use Rattle.std.specs.Prelude.{◌≡◌};
    ghost use Rattle.pass_plain.specs.Pipes.{Pipe};
    ghost use Rattle.pass_entry.specs.Limits.{pipe_capacity};

    ghost Value = { Pipe };

    ghost view = { λ p. record { bytes = p.buffer.items; readers = p.readers; writers = p.writers } };

    ghost invariant = { λ p. p.buffer.capacity ≡ pipe_capacity };
}

impl PipeState {
    ghost use Rattle.pass_pipe.specs.Transfers.{reply_to_give, reply_to_take};

    /// An empty pipe with one reader and one writer. No later call takes memory.
    pub fn new(alloc: Global) -> Result<PipeState, AllocError>
        ensures { IfOk result (λ pipe. pipe ≡ new_pipe) }
    {
        let buffer = HeapCircularBuffer::with_capacity(alloc, PIPE_CAPACITY)?;
        Ok(PipeState {
            buffer,
            readers: 1,
            writers: 1,
        })
    }

    /// Puts the bytes behind those that are there, all of them or none.
    pub fn give(&mut self, bytes: &[u8]) -> Result<(), PipeEnd>
        ensures answer { reply_to_give result ≡ pushed self.old (length bytes.now) }
        ensures ok { (out : ℕ) → OnOk result (self.new ≡ pipe_act self.old (act.Push out bytes.now)) }

        ensures broken { IsErrOf result PipeEnd.BrokenPipe ↔ (self.old.readers ≡ 0) }
        ensures again { IsErrOf result PipeEnd.Again ↔ ((0 < self.old.readers) × (pipe_capacity - length self.old.bytes < length bytes.now)) }
        ensures err { OnErr result (self.new ≡ self.old) }
    {
        if self.readers == 0 {
            return Err(PipeEnd::BrokenPipe);
        }
        if PIPE_CAPACITY - self.buffer.len() < bytes.len() {
            return Err(PipeEnd::Again);
        }
        self.buffer.fill_from_slice(bytes);
        Ok(())
    }

    /// Moves the oldest bytes to the front of the slice, as many as it holds and there are, and returns their number. No
    /// program here makes this call: a read is lent the bytes.
    pub fn take_into(&mut self, into: &mut [u8]) -> Result<usize, PipeEnd>
        ensures answer { reply_to_take result into.new ≡ taken self.old (length into.old) }
        ensures count { IfOk result (λ count. count ≡ min (length into.old) (length self.old.bytes)) }
        ensures slice { IfOk result (λ count. into.new ≡ take count self.old.bytes ++ drop count into.old) }
        ensures ok { OnOk result (self.new ≡ pipe_act self.old (act.Take (length into.old))) }

        ensures again { IsErrOf result PipeEnd.Again ↔ ((self.old.bytes ≡ []) × (0 < self.old.writers)) }
        ensures broken { ¬ IsErrOf result PipeEnd.BrokenPipe }
        ensures err { OnErr result (self.new ≡ self.old) }
        ensures untouched { OnErr result (into.new ≡ into.old) }
    {
        if self.buffer.is_empty() && self.writers > 0 {
            return Err(PipeEnd::Again);
        }
        Ok(self.buffer.read_into(into))
    }

    /// What `take_into` would give now, at most so many bytes; None where it would answer `Again`.
    pub fn peek(&self, alloc: Global, len: u32) -> Result<Option<Bytes>, AllocError>
        ensures { IfOk result (λ o. option_map_or (λ b. Some (answer.Took b)) o None ≡ taken self.now len) }
    {
        if self.writers > 0 && self.buffer.is_empty() {
            return Ok(None);
        }
        let bytes = self.first(alloc, len as usize)?;
        match Bytes::from_vec(bytes) {
            Ok(bytes) => Ok(Some(bytes)),
            Err(_) => Err(AllocError),
        }
    }

    /// A copy of the oldest bytes, at most so many.
    fn first(&self, alloc: Global, len: usize) -> Result<Vec<u8>, AllocError>
        ensures { IfOk result (λ v. v.items ≡ take len self.now.bytes) }
    {
        let (front, back) = self.buffer.as_slices();
        let from_front = front.len().min(len);
        let from_back = back.len().min(len - from_front);
        let mut bytes = Vec::with_capacity(alloc, from_front + from_back)?;
        bytes.extend_from_slice(&front[..from_front])?;
        bytes.extend_from_slice(&back[..from_back])?;
        Ok(bytes)
    }

    /// Whether `give` would answer `Again` now to so many bytes.
    pub fn is_full_for(&self, len: u32) -> bool
        ensures { result ≡ not (is_some (pushed self.now len)) }
    {
        self.readers > 0 && PIPE_CAPACITY - self.buffer.len() < len as usize
    }

    /// Drops the oldest bytes, so many of them.
    pub fn skip(&mut self, len: usize)
        ensures { self.new ≡ pipe_act self.old (act.Take len) }
    {
        let left = self.buffer.len().saturating_sub(len);
        self.buffer.truncate_front(left);
    }

    /// One more descriptor is on the end.
    pub fn hold(&mut self, end: End)
        requires { count_at self.old end < 2 ^ 32 - 1 }
        ensures { self.new ≡ pipe_act self.old (act.Join end) }
    {
        match end {
            End::Reader => self.readers += 1,
            End::Writer => self.writers += 1,
        }
    }

    /// One descriptor less is on the end.
    pub fn drop_end(&mut self, end: End)
        requires { 1 ≤ count_at self.old end }
        ensures { self.new ≡ pipe_act self.old (act.Leave end) }
    {
        match end {
            End::Reader => self.readers -= 1,
            End::Writer => self.writers -= 1,
        }
    }

    /// How many bytes were given and not taken yet.
    pub fn len(&self) -> u32
        ensures len { result ≡ length self.now.bytes }
        ensures within { result ≤ pipe_capacity }
    {
        self.buffer.len() as u32
    }

    /// How many descriptors the reading end has.
    pub fn readers(&self) -> u32
        ensures { result ≡ self.now.readers }
    {
        self.readers
    }

    /// How many descriptors the writing end has.
    pub fn writers(&self) -> u32
        ensures { result ≡ self.now.writers }
    {
        self.writers
    }
}
