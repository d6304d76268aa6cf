//! Which device calls of a disk in memory fail, and its counts.
use crate::Failed;
use crate::due::is_to_fail;
use std::marker::Model;

/// The listed calls and the stop, and the counts of calls, of faults and of calls that found no memory.
#[derive(Drop)]
pub struct Plan {
    fail: Vec<u64>,
    stop: Option<u64>,
    calls: u64,
    faults: u64,
    starved: u64,
}

impl Model for Plan {
    ghost use Rattle.std.specs.Prelude.{◌≡◌, ◌+◌};
    ghost use Rattle.pass_outside.specs.Scripts.{Script, due_among};
    ghost use Rattle.pass_outside.specs.Codes.{script_code};

    ghost Value = { Script };

    ghost coded = { script_code };

    ghost view = { λ p. record { fail = p.fail.items; stop = p.stop; calls = p.calls; faults = p.faults; starved = p.starved } };

    ghost invariant = { λ p. p.faults ≡ due_among p.fail.items p.stop p.calls + p.starved };
}

#[tactic(auto, using(crate::proofs::Dues::one_due, crate::proofs::Dues::none_due))]
impl Plan {
    ghost use Rattle.std.specs.Prelude.{◌≡◌, ◌⊎◌, ◌+◌, ◌<◌, true, false, OnOk, OnErr};
    ghost use Rattle.pass_outside.specs.Faults.{count_end};
    ghost use Rattle.pass_outside.specs.Scripts.{IsOver, IsCounted, HasBegun, IsRefused, is_due};

    pub fn new(fail: Vec<u64>, stop: Option<u64>) -> Plan
        ensures { result ≡ record { fail = fail.items; stop = stop; calls = 0; faults = 0; starved = 0 } }
    {
        Plan {
            fail,
            stop,
            calls: 0,
            faults: 0,
            starved: 0,
        }
    }

    /// Counts a device call, and answers whether it goes on.
    pub fn begin(&mut self) -> Result<(), Failed>
        ensures ok { OnOk result (HasBegun self.old self.new) }
        ensures err { OnErr result (IsRefused self.old self.new) }
    {
        if self.calls == u64::MAX || self.faults == u64::MAX {
            return Err(Failed);
        }
        self.calls += 1;
        if is_to_fail(&self.fail, self.stop, self.calls) {
            self.faults += 1;
            return Err(Failed);
        }
        Ok(())
    }

    /// Counts the fault of a call that found no memory.
    pub fn starve(&mut self) -> Failed
        requires { self.old.faults < count_end }
        ensures { self.new ≡ record self.old { faults = self.old.faults + 1; starved = self.old.starved + 1 } }
    {
        self.starved += 1;
        self.faults += 1;
        Failed
    }

    pub fn calls(&self) -> u64
        ensures { result ≡ self.now.calls }
    {
        self.calls
    }

    pub fn faults(&self) -> u64
        ensures { result ≡ self.now.faults }
    {
        self.faults
    }

    pub fn starved(&self) -> u64
        ensures count { result ≡ self.now.starved }
        ensures counted { IsCounted self.now }
    {
        self.starved
    }
}
