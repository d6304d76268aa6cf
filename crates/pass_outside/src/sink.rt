//! A sink in memory.
ghost use Rattle.std.specs.Prelude.{◌≡◌, ◌+◌, ◌≤◌, Some, None};
ghost use Rattle.std.specs.Option.{ForSome};
ghost use Rattle.pass_outside.specs.Scripts.{due_among};
ghost use Rattle.pass_outside.specs.Pieces.{in_step};

use crate::due::is_to_fail;
use crate::step::of_step;
use crate::{Failed, Sink};
use std::alloc::Global;

/// Keeps the bytes that it takes. The calls whose numbers, from 1, are listed fail and change nothing.
#[derive(Drop)]
pub struct MemSink {
    taken: Vec<u8>,
    step: Option<u32>,
    fail: Vec<u64>,
    calls: u64,
    faults: u64,
    starved: u64,
    ghost counted: { faults ≡ due_among fail.items None calls + starved },
    ghost moves: { ForSome step (λ n. 1 ≤ n) },
}

impl MemSink {
    ghost use Rattle.std.specs.Prelude.{[]};
    ghost use Rattle.pass_outside.specs.Scripts.{IsCounted};
    ghost use Rattle.pass_outside.specs.Streams.{bytes_taken, sink_script, sink_step};

    /// An empty sink, which fails at the listed calls. A call takes its piece whole. Its bytes will lie in memory of that allocator.
    pub fn new(alloc: Global, fail: Vec<u64>) -> MemSink
        ensures taken { bytes_taken result ≡ [] }
        ensures script { sink_script result ≡ record { fail = fail.items; stop = None; calls = 0; faults = 0; starved = 0 } }
        ensures step { sink_step result ≡ None }
    {
        MemSink {
            taken: Vec::new(alloc),
            step: None,
            fail,
            calls: 0,
            faults: 0,
            starved: 0,
        }
    }

    /// An empty sink, which fails at the listed calls. A call takes no more bytes than the step. They will lie in memory of that
    /// allocator.
    pub fn in_steps(alloc: Global, step: u32, fail: Vec<u64>) -> MemSink
        requires { 1 ≤ step }
        ensures taken { bytes_taken result ≡ [] }
        ensures script { sink_script result ≡ record { fail = fail.items; stop = None; calls = 0; faults = 0; starved = 0 } }
        ensures step { sink_step result ≡ Some step }
    {
        MemSink {
            taken: Vec::new(alloc),
            step: Some(step),
            fail,
            calls: 0,
            faults: 0,
            starved: 0,
        }
    }

    /// The bytes taken so far.
    pub fn taken(&self) -> &[u8]
        ensures { result.now ≡ bytes_taken self.now }
    {
        &self.taken
    }

    /// How many calls failed because no memory was found.
    pub fn starved(&self) -> u64
        ensures count { result ≡ (sink_script self.now).starved }
        ensures counted { IsCounted (sink_script self.now) }
    {
        self.starved
    }
}

#[tactic(auto, using(crate::proofs::Dues::one_due, crate::proofs::Dues::none_due))]
impl Sink for MemSink {
    ghost use Rattle.std.specs.Prelude.{true, ◌<◌, ◌++◌, IfOk, OnErr, length, take};
    ghost use Rattle.pass_outside.specs.Faults.{FailsByCount, count_end};
    ghost use Rattle.pass_outside.specs.Scripts.{IsOver, GoesOn};
    ghost use Rattle.pass_outside.specs.Streams.{bytes_taken, sink_script, sink_step};

    ghost tells = { true };

    ghost taken = { bytes_taken };

    ghost fault_count = { λ s. s.faults };

    fn write(&mut self, bytes: &[u8]) -> Result<usize, Failed>
        // It takes each piece whole, but where it goes in steps.
        ensures whole { IfOk result (λ n. sink_step self.old ≡ None → n ≡ length bytes.now) }
        ensures within { IfOk result (λ n. n ≤ length bytes.now) }
        ensures some { IfOk result (λ n. 0 < length bytes.now → 0 < n) }
        ensures taken { IfOk result (λ n. bytes_taken self.new ≡ bytes_taken self.old ++ take n bytes.now) }
        ensures err { OnErr result (bytes_taken self.new ≡ bytes_taken self.old) }
        ensures faults { FailsByCount (sink_script self.old).faults (sink_script self.new).faults result }
        ensures stands { (sink_script self.old).faults ≡ count_end → self.new ≡ self.old }
        // Besides the end of a count, it fails exactly where it is listed or finds no memory.
        ensures script { (IsOver (sink_script self.old) → ⊥) → GoesOn (sink_script self.old) (sink_script self.new) result }
        // It takes a piece up to its step, which stays.
        ensures count { IfOk result (λ n. n ≡ in_step (sink_step self.old) (length bytes.now)) }
        ensures step { sink_step self.new ≡ sink_step self.old }
    {
        if self.faults == u64::MAX {
            return Err(Failed);
        }
        // Past the last number no call is listed.
        if self.calls < u64::MAX {
            self.calls += 1;
            if is_to_fail(&self.fail, None, self.calls) {
                self.faults += 1;
                return Err(Failed);
            }
        }
        let count = of_step(self.step, bytes.len());
        match self.taken.extend_from_slice(&bytes[..count]) {
            Ok(()) => Ok(count),
            Err(_) => {
                self.starved += 1;
                self.faults += 1;
                Err(Failed)
            }
        }
    }
}
