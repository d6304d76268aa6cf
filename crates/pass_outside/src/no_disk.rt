//! A disk that isn't there.
ghost use Rattle.std.specs.Prelude.{◌≡◌, ◌⊎◌, ◌+◌, ◌<◌};
ghost use Rattle.pass_outside.specs.Faults.{count_end};

use crate::{Area, Disk, Failed};

/// Stands where a call takes a disk and there is none: every device call fails.
#[derive(Drop)]
pub struct NoDisk {
    calls: u64,
}

impl NoDisk {
    ghost use Rattle.pass_outside.specs.NoDisk.{no_disk};

    pub fn new() -> NoDisk
        ensures calls { (no_disk result).calls ≡ 0 }
        ensures faults { (no_disk result).faults ≡ 0 }
    {
        NoDisk { calls: 0 }
    }

    // Counts a call, which is a fault too.
    fn count(&mut self)
        ensures { ((self.old.calls ≡ count_end) × (self.new ≡ self.old)) ⊎ ((self.old.calls < count_end) × (self.new.calls ≡ self.old.calls + 1)) }
    {
        if self.calls < u64::MAX {
            self.calls += 1;
        }
    }
}

impl Disk for NoDisk {
    ghost use Rattle.pass_outside.specs.NoDisk.{no_disk};

    ghost view = { no_disk };

    ghost reads_one = { λ d tells. absurd (Prim.cc tells) };

    ghost counts_more = { λ d t u c le left. left };

    ghost counts_now = { λ d t c le now. now };

    fn len(&mut self, _area: Area) -> Result<u64, Failed> {
        self.count();
        Err(Failed)
    }

    fn read(&mut self, _area: Area, _at: u64, _into: &mut [u8]) -> Result<usize, Failed> {
        self.count();
        Err(Failed)
    }

    fn write_at(&mut self, _area: Area, _at: u64, _bytes: &[u8]) -> Result<(), Failed> {
        self.count();
        Err(Failed)
    }

    fn cut(&mut self, _area: Area, _len: u64) -> Result<(), Failed> {
        self.count();
        Err(Failed)
    }

    fn sync(&mut self, _area: Area) -> Result<(), Failed> {
        self.count();
        Err(Failed)
    }

    fn calls(&self) -> u64 {
        self.calls
    }

    fn faults(&self) -> u64 {
        self.calls
    }
}
