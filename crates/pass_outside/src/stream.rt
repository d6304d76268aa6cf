//! A source of bytes, and a sink for them.
ghost use Rattle.std.specs.Prelude.{◌≡◌, ◌≤◌, ◌<◌, ◌++◌, List, ℕ, [], Bool, IsTrue, length, take, drop, IfOk, OnErr};
ghost use Rattle.pass_outside.specs.Faults.{FailsByCount, count_end};

use crate::Failed;

/// Bytes that come in, as from standard input.
pub trait Source {
    /// Whether contracts may speak of its bytes.
    ghost tells: { Bool };

    /// The bytes left, where it tells them.
    ghost left: { Self → List ℕ };

    /// The count of its faults, which never falls.
    ghost fault_count: { Self → ℕ };

    /// Moves the first bytes left into the front of `into`. For a slice that isn't empty, 0 means the end of the input.
    fn read(&mut self, into: &mut [u8]) -> Result<usize, Failed>
        ensures within { IfOk result (λ n. n ≤ length into.old) }
        ensures available { IfOk result (λ n. IsTrue tells → n ≤ length (left self.old)) }
        ensures moved { IfOk result (λ n. IsTrue tells → into.new ≡ take n (left self.old) ++ drop n into.old) }
        ensures rest { IfOk result (λ n. IsTrue tells → left self.new ≡ drop n (left self.old)) }
        ensures end { IfOk result (λ n. IsTrue tells → 0 < length into.old → n ≡ 0 → left self.old ≡ []) }
        ensures err { OnErr result (IsTrue tells → left self.new ≡ left self.old) }
        ensures faults { FailsByCount (fault_count self.old) (fault_count self.new) result }
        ensures stands { fault_count self.old ≡ count_end → self.new ≡ self.old };
}

/// Where bytes go, as standard output.
pub trait Sink {
    /// Whether contracts may speak of what it took.
    ghost tells: { Bool };

    /// The bytes taken so far, where it tells them.
    ghost taken: { Self → List ℕ };

    /// The count of its faults, which never falls.
    ghost fault_count: { Self → ℕ };

    /// Takes the first bytes of a piece, at least one where there is one, and answers how many.
    fn write(&mut self, bytes: &[u8]) -> Result<usize, Failed>
        ensures within { IfOk result (λ n. n ≤ length bytes.now) }
        ensures some { IfOk result (λ n. 0 < length bytes.now → 0 < n) }
        ensures taken { IfOk result (λ n. IsTrue tells → taken self.new ≡ taken self.old ++ take n bytes.now) }
        ensures err { OnErr result (IsTrue tells → taken self.new ≡ taken self.old) }
        ensures faults { FailsByCount (fault_count self.old) (fault_count self.new) result }
        ensures stands { fault_count self.old ≡ count_end → self.new ≡ self.old };
}
