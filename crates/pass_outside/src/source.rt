//! A source in memory.
ghost use Rattle.std.specs.Prelude.{◌≡◌, ◌-◌, ◌+◌, ◌++◌, ◌≤◌, ◌<◌, length, take, drop, min, Some, None};
ghost use Rattle.std.specs.Option.{ForSome};
ghost use Rattle.pass_outside.specs.Scripts.{due_among};
ghost use Rattle.pass_outside.specs.Pieces.{in_step};

use crate::due::is_to_fail;
use crate::step::of_step;
use crate::{Failed, Source};

/// Gives its bytes from the front. The calls whose numbers, from 1, are listed fail and change nothing.
#[derive(Drop)]
pub struct MemSource {
    bytes: Vec<u8>,
    at: usize,
    step: Option<u32>,
    fail: Vec<u64>,
    calls: u64,
    faults: u64,
    ghost counted: { faults ≡ due_among fail.items None calls },
    ghost inside: { at ≤ length bytes.items },
    ghost moves: { ForSome step (λ n. 1 ≤ n) },
}

impl MemSource {
    ghost use Rattle.pass_outside.specs.Streams.{bytes_left, source_script, source_step};

    /// A source with these bytes left, which fails at the listed calls. A call moves as much as there is.
    pub fn new(bytes: Vec<u8>, fail: Vec<u64>) -> MemSource
        ensures left { bytes_left result ≡ bytes.items }
        ensures script { source_script result ≡ record { fail = fail.items; stop = None; calls = 0; faults = 0; starved = 0 } }
        ensures step { source_step result ≡ None }
    {
        MemSource {
            bytes,
            at: 0,
            step: None,
            fail,
            calls: 0,
            faults: 0,
        }
    }

    /// A source with these bytes left, which fails at the listed calls. A call moves no more bytes than the step.
    pub fn in_steps(bytes: Vec<u8>, step: u32, fail: Vec<u64>) -> MemSource
        requires { 1 ≤ step }
        ensures left { bytes_left result ≡ bytes.items }
        ensures script { source_script result ≡ record { fail = fail.items; stop = None; calls = 0; faults = 0; starved = 0 } }
        ensures step { source_step result ≡ Some step }
    {
        MemSource {
            bytes,
            at: 0,
            step: Some(step),
            fail,
            calls: 0,
            faults: 0,
        }
    }
}

#[tactic(auto, using(crate::proofs::Dues::one_due, crate::proofs::Dues::none_due))]
impl Source for MemSource {
    ghost use Rattle.std.specs.Prelude.{true, [], IfOk, OnErr};
    ghost use Rattle.pass_outside.specs.Faults.{FailsByCount, count_end};
    ghost use Rattle.pass_outside.specs.Scripts.{IsOver, GoesOn, IsCounted};
    ghost use Rattle.pass_outside.specs.Streams.{bytes_left, source_script, source_step};

    ghost tells = { true };

    ghost left = { bytes_left };

    ghost fault_count = { λ s. s.faults };

    fn read(&mut self, into: &mut [u8]) -> Result<usize, Failed>
        ensures within { IfOk result (λ n. n ≤ length into.old) }
        ensures available { IfOk result (λ n. n ≤ length (bytes_left self.old)) }
        ensures moved { IfOk result (λ n. into.new ≡ take n (bytes_left self.old) ++ drop n into.old) }
        ensures rest { IfOk result (λ n. bytes_left self.new ≡ drop n (bytes_left self.old)) }
        ensures end { IfOk result (λ n. 0 < length into.old → n ≡ 0 → bytes_left self.old ≡ []) }
        ensures err { OnErr result (bytes_left self.new ≡ bytes_left self.old) }
        ensures faults { FailsByCount (source_script self.old).faults (source_script self.new).faults result }
        ensures stands { (source_script self.old).faults ≡ count_end → self.new ≡ self.old }
        // Besides the end of a count, it fails exactly where it is listed.
        ensures script { (IsOver (source_script self.old) → ⊥) → GoesOn (source_script self.old) (source_script self.new) result }
        ensures counted { IsCounted (source_script self.new) }
        // It moves as much as there is and fits, up to its step, which stays.
        ensures count { IfOk result (λ n. n ≡ in_step (source_step self.old) (min (length into.old) (length (bytes_left self.old)))) }
        ensures step { source_step self.new ≡ source_step self.old }
    {
        if self.faults == u64::MAX {
            return Err(Failed);
        }
        // No number is left that could be listed.
        if self.calls == u64::MAX {
            return Ok(give(&self.bytes, &mut self.at, self.step, into));
        }
        self.calls += 1;
        if is_to_fail(&self.fail, None, self.calls) {
            self.faults += 1;
            return Err(Failed);
        }
        Ok(give(&self.bytes, &mut self.at, self.step, into))
    }
}

// Moves the bytes from a place on into the front of a slice, as many as there are and the step allows, and the place behind them.
fn give(bytes: &[u8], at: &mut usize, step: Option<u32>, into: &mut [u8]) -> usize
    requires inside { at.old ≤ length bytes.now }
    requires moves { ForSome step (λ n. 1 ≤ n) }
    ensures count { result ≡ in_step step (min (length into.old) (length bytes.now - at.old)) }
    ensures within { result ≤ min (length into.old) (length bytes.now - at.old) }
    ensures some { 0 < min (length into.old) (length bytes.now - at.old) → 0 < result }
    ensures moved { into.new ≡ take result (drop at.old bytes.now) ++ drop result into.old }
    ensures rest { at.new ≡ at.old + result }
{
    let count = of_step(step, into.len().min(bytes.len() - *at));
    into[..count].copy_from_slice(&bytes[*at..*at + count]);
    *at += count;
    count
}
