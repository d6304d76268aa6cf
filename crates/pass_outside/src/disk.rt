//! A disk of two areas: what a read gives, what a crash may leave, and the counts of calls and faults.
ghost use Rattle.std.specs.Prelude.{◌≡◌, ◌≤◌, ◌-◌, ◌++◌, ℕ, IsTrue, length, take, drop, min, IfOk, OnOk};

use crate::Failed;

/// The log, and the area of the files' data.
#[derive(Clone, Copy, PartialEq, Eq)]
pub enum Area {
    Log,
    Store,
}

/// Two areas that outlive a crash. Each call but the last two is a device call, and counts as one.
pub trait Disk {
    ghost use Rattle.pass_outside.specs.Areas.{Image, area_of, other, written, Torn, CutBack, OnArea};
    ghost use Rattle.pass_outside.specs.Moments.{Moment, IsAtEnd, IsDeviceCall, Follows, Reaches};

    /// What it means now.
    ghost view: { Self → Moment };

    /// The length of an area, in bytes.
    fn len(&mut self, area: Area) -> Result<u64, Failed>
        ensures length { IfOk result (λ n. IsTrue (view self.old).tells → n ≡ length (area_of area (view self.old).seen)) }
        ensures content { (view self.new).seen ≡ (view self.old).seen }
        ensures crash { (c : Image) → (view self.new).may_leave c → (view self.old).may_leave c }
        ensures reaches { (c : Image) → (view self.old).may_leave c → (view self.new).may_leave c }
        ensures call { IsDeviceCall (view self.old) (view self.new) result }
        ensures stands { IsAtEnd (view self.old) → self.new ≡ self.old };

    /// Fills the front of `into` with the bytes from `at` on: as many as lie there, at most its length.
    fn read(&mut self, area: Area, at: u64, into: &mut [u8]) -> Result<usize, Failed>
        ensures within { IfOk result (λ n. n ≤ length into.old) }
        ensures count { IfOk result (λ n. IsTrue (view self.old).tells → n ≡ min (length into.old) (length (area_of area (view self.old).seen) - at)) }
        ensures bytes { IfOk result (λ n. IsTrue (view self.old).tells → into.new ≡ take n (drop at (area_of area (view self.old).seen)) ++ drop n into.old) }
        ensures content { (view self.new).seen ≡ (view self.old).seen }
        ensures crash { (c : Image) → (view self.new).may_leave c → (view self.old).may_leave c }
        ensures reaches { (c : Image) → (view self.old).may_leave c → (view self.new).may_leave c }
        ensures call { IsDeviceCall (view self.old) (view self.new) result }
        ensures stands { IsAtEnd (view self.old) → self.new ≡ self.old };

    /// Writes over what is there, and past the end. Until a sync, a crash may leave any bytes in the range.
    fn write_at(&mut self, area: Area, at: u64, bytes: &[u8]) -> Result<(), Failed>
        ensures written { OnOk result (IsTrue (view self.old).tells → area_of area (view self.new).seen ≡ written (area_of area (view self.old).seen) at bytes.now) }
        ensures content { IsTrue (view self.old).tells → OnArea area (Torn at (length bytes.now)) (view self.old).seen (view self.new).seen }
        ensures crash { Follows (OnArea area (Torn at (length bytes.now))) (view self.old) (view self.new) }
        ensures reaches { OnOk result (IsTrue (view self.old).tells → Reaches (OnArea area (Torn at (length bytes.now))) (view self.old) (view self.new)) }
        ensures call { IsDeviceCall (view self.old) (view self.new) result }
        ensures stands { IsAtEnd (view self.old) → self.new ≡ self.old };

    /// Cuts an area to a length, where it is longer. Until a sync, it may end anywhere from there on.
    fn cut(&mut self, area: Area, len: u64) -> Result<(), Failed>
        ensures cut { OnOk result (IsTrue (view self.old).tells → area_of area (view self.new).seen ≡ take len (area_of area (view self.old).seen)) }
        ensures content { IsTrue (view self.old).tells → OnArea area (CutBack len) (view self.old).seen (view self.new).seen }
        ensures crash { Follows (OnArea area (CutBack len)) (view self.old) (view self.new) }
        ensures reaches { OnOk result (IsTrue (view self.old).tells → Reaches (OnArea area (CutBack len)) (view self.old) (view self.new)) }
        ensures call { IsDeviceCall (view self.old) (view self.new) result }
        ensures stands { IsAtEnd (view self.old) → self.new ≡ self.old };

    /// After it, a crash leaves of this area what a read gives. One that failed promises nothing.
    fn sync(&mut self, area: Area) -> Result<(), Failed>
        ensures durable { OnOk result ((c : Image) → (view self.new).may_leave c → area_of area c ≡ area_of area (view self.new).seen) }
        ensures content { OnOk result ((view self.new).seen ≡ (view self.old).seen) }
        ensures elsewhere { IsTrue (view self.old).tells → area_of (other area) (view self.new).seen ≡ area_of (other area) (view self.old).seen }
        ensures crash { (c : Image) → (view self.new).may_leave c → (view self.old).may_leave c }
        ensures reaches { OnOk result (IsTrue (view self.old).tells → (c : Image) → (view self.old).may_leave c → area_of area c ≡ area_of area (view self.old).seen → (view self.new).may_leave c) }
        ensures call { IsDeviceCall (view self.old) (view self.new) result }
        ensures stands { IsAtEnd (view self.old) → self.new ≡ self.old };

    /// The count of device calls. What a crash since this moment may leave is what one now may leave.
    fn calls(&self) -> u64
        ensures count { result ≡ (view self.now).calls }
        ensures now { (c : Image) → (view self.now).left_since (view self.now).calls c → (view self.now).may_leave c };

    /// The count of faults.
    fn faults(&self) -> u64
        ensures { result ≡ (view self.now).faults };

    /// What it reads is one of the images that a crash now may leave.
    ghost reads_one: { (d : Self) → IsTrue (view d).tells → (view d).may_leave (view d).seen };

    /// A moment since a call is one since each call before.
    ghost counts_more: { (d : Self) (t u : ℕ) (c : Image) → t ≤ u → (view d).left_since u c → (view d).left_since t c };

    /// This moment is one of those since each call so far.
    ghost counts_now: { (d : Self) (t : ℕ) (c : Image) → t ≤ (view d).calls → (view d).may_leave c → (view d).left_since t c };
}
