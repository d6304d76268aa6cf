//! The counts of a disk's calls and faults.
ghost use Rattle.std.specs.Prelude.{◌≡◌, ◌⊎◌, ◌+◌, ◌<◌, OnOk, OnErr, IfOk, IsOk, IsErr};
ghost use Rattle.pass_outside.specs.Faults.{count_end};

use pass_outside::Failed;
use std::io;

/// How many device calls there were, and how many of them failed.
#[derive(Drop)]
pub struct Counts {
    pub calls: u64,
    pub faults: u64,
}

impl Counts {
    pub fn new() -> Counts
        ensures calls { result.calls ≡ 0 }
        ensures faults { result.faults ≡ 0 }
    {
        Counts {
            calls: 0,
            faults: 0,
        }
    }

    /// Counts a device call. None goes on where a count stands at its end.
    pub fn begin(&mut self) -> Result<(), Failed>
        ensures ok { OnOk result ((self.old.calls < count_end) × (self.old.faults < count_end) × (self.new ≡ record self.old { calls = self.old.calls + 1 })) }
        ensures err { OnErr result (((self.old.calls ≡ count_end) ⊎ (self.old.faults ≡ count_end)) × (self.new ≡ self.old)) }
    {
        if self.calls == u64::MAX || self.faults == u64::MAX {
            return Err(Failed);
        }
        self.calls += 1;
        Ok(())
    }

    /// Counts a fault where the system's call failed.
    pub fn judge<T>(&mut self, done: io::Result<T>) -> Result<T, Failed>
        requires { self.old.faults < count_end }
        ensures ok { IfOk result (λ x. (done ≡ Ok x) × (self.new ≡ self.old)) }
        ensures err { OnErr result (IsErr done × (self.new ≡ record self.old { faults = self.old.faults + 1 })) }
    {
        match done {
            Ok(value) => Ok(value),
            Err(_) => {
                self.faults += 1;
                Err(Failed)
            }
        }
    }
}
