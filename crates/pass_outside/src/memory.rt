//! A disk in memory, which keeps all its changes.
ghost use Rattle.std.specs.Prelude.{◌≡◌, ◌≤◌};
ghost use Rattle.pass_outside.specs.History.{beginning, after_all, latest};

use crate::areas::Areas;
use crate::change::{Change, Event};
use crate::changes::{cut_change, push_event, write_change};
use crate::keep::{Keep, keep_all};
use crate::plan::Plan;
use crate::{Area, Disk, Failed};
use std::alloc::{AllocError, Global};

/// Two areas in memory, in blocks, and a list of all writes, cuts and syncs, from which a crash image is made.
#[derive(Drop)]
pub struct MemDisk {
    alloc: Global,
    first: Areas,
    current: Areas,
    changes: Vec<Event>,
    plan: Plan,
    ghost log_is: { current.log ≡ (after_all (beginning first) changes.items).seen.log },
    ghost store_is: { current.store ≡ (after_all (beginning first) changes.items).seen.store },
    ghost ordered: { latest changes.items ≤ plan.calls },
}

impl MemDisk {
    ghost use Rattle.std.specs.Prelude.{[], None, IfOk};
    ghost use Rattle.pass_outside.specs.Areas.{Image};
    ghost use Rattle.pass_outside.specs.Scripts.{IsCounted};
    ghost use Rattle.pass_outside.specs.declared.keep.Keep.{Keep};
    ghost use Rattle.pass_outside.specs.Memory.{memory_view, disk_script, image_kept};

    /// A disk with these bytes, all of them synced. The device calls whose numbers, from 1, are listed fail, and so
    /// does each one after the stop.
    pub fn new(
        alloc: Global,
        log: Vec<u8>,
        store: Vec<u8>,
        fail: Vec<u64>,
        stop: Option<u64>,
    ) -> Result<MemDisk, AllocError>
        ensures seen { IfOk result (λ d. (memory_view d).seen ≡ record { log = log.items; store = store.items }) }
        ensures synced { IfOk result (λ d. (c : Image) → (memory_view d).may_leave c → c ≡ (memory_view d).seen) }
        ensures kept_first { IfOk result (λ d. (how : Keep) → image_kept how d ≡ (memory_view d).seen) }
        ensures script { IfOk result (λ d. disk_script d ≡ record { fail = fail.items; stop = stop; calls = 0; faults = 0; starved = 0 }) }
    {
        let first = Areas::of(alloc, &log, &store)?;
        MemDisk::begin(alloc, first, Plan::new(fail, stop))
    }

    fn begin(alloc: Global, first: Areas, plan: Plan) -> Result<MemDisk, AllocError>
        ensures first { IfOk result (λ d. d.first ≡ first) }
        ensures changes { IfOk result (λ d. d.changes.items ≡ []) }
        ensures plan { IfOk result (λ d. d.plan ≡ plan) }
    {
        let current = first.copy(alloc)?;
        Ok(MemDisk {
            alloc,
            first,
            current,
            changes: Vec::new(alloc),
            plan,
        })
    }

    /// A new disk with the image of a crash now that keeps the changes in that way. Its calls don't fail.
    pub fn after_crash(self, keep: Keep) -> Result<MemDisk, AllocError>
        ensures kept { IfOk result (λ d. (memory_view d).seen ≡ image_kept keep self) }
        ensures image { IfOk result (λ d. (memory_view self).may_leave (memory_view d).seen) }
        ensures synced { IfOk result (λ d. (c : Image) → (memory_view d).may_leave c → c ≡ (memory_view d).seen) }
        ensures kept_first { IfOk result (λ d. (how : Keep) → image_kept how d ≡ (memory_view d).seen) }
        ensures script { IfOk result (λ d. disk_script d ≡ record { fail = []; stop = None; calls = 0; faults = 0; starved = 0 }) }
    {
        let alloc = self.alloc;
        let mut areas = self.first;
        keep_all(alloc, &mut areas, &self.changes, keep)?;
        MemDisk::begin(alloc, areas, Plan::new(Vec::new(alloc), None))
    }

    /// What a read of the log area gives. No program here makes this call.
    pub fn log_bytes(&self) -> Result<Vec<u8>, AllocError>
        ensures { IfOk result (λ v. v.items ≡ (memory_view self.now).seen.log) }
    {
        self.current.to_vec(self.alloc, Area::Log)
    }

    /// How many calls failed because no memory was found.
    pub fn starved(&self) -> u64
        ensures count { result ≡ (disk_script self.now).starved }
        ensures counted { IsCounted (disk_script self.now) }
    {
        self.plan.starved()
    }
}

impl Disk for MemDisk {
    ghost use Rattle.std.specs.Prelude.{◌-◌, ◌++◌, length, take, drop, min, IfOk, OnOk, OnErr};
    ghost use Rattle.pass_outside.specs.Areas.{Image, area_of, other, with_area, written, Torn, CutBack, OnArea};
    ghost use Rattle.pass_outside.specs.Moments.{IsAtEnd, IsDeviceCall, Follows, Reaches};
    ghost use Rattle.pass_outside.specs.Scripts.{IsOver, GoesOn};
    ghost use Rattle.pass_outside.specs.declared.keep.Keep.{Keep};
    ghost use Rattle.pass_outside.specs.Keeping.{kept_write, kept_cut};
    ghost use Rattle.pass_outside.specs.Memory.{memory_view, disk_script, history, image_kept};
    ghost use Rattle.pass_outside.specs.Laws.{sees_one, leaves_now, leaves_more};

    ghost view = { memory_view };

    ghost reads_one = { λ d tells. sees_one d };

    ghost counts_more = { λ d t u c le left. leaves_more d t u c le left };

    ghost counts_now = { λ d t c le now. leaves_now d t c now };

    fn len(&mut self, area: Area) -> Result<u64, Failed>
        ensures length { IfOk result (λ n. n ≡ length (area_of area (memory_view self.old).seen)) }
        ensures content { (memory_view self.new).seen ≡ (memory_view self.old).seen }
        ensures crash { (c : Image) → (memory_view self.new).may_leave c → (memory_view self.old).may_leave c }
        ensures reaches { (c : Image) → (memory_view self.old).may_leave c → (memory_view self.new).may_leave c }
        ensures call { IsDeviceCall (memory_view self.old) (memory_view self.new) result }
        ensures stands { IsAtEnd (memory_view self.old) → self.new ≡ self.old }
        ensures script { (IsOver (disk_script self.old) → ⊥) → GoesOn (disk_script self.old) (disk_script self.new) result }
        ensures kept { (keep : Keep) → image_kept keep self.new ≡ image_kept keep self.old }
    {
        self.plan.begin()?;
        Ok(self.current.len(area) as u64)
    }

    fn read(&mut self, area: Area, at: u64, into: &mut [u8]) -> Result<usize, Failed>
        ensures within { IfOk result (λ n. n ≤ length into.old) }
        ensures count { IfOk result (λ n. n ≡ min (length into.old) (length (area_of area (memory_view self.old).seen) - at)) }
        ensures bytes { IfOk result (λ n. into.new ≡ take n (drop at (area_of area (memory_view self.old).seen)) ++ drop n into.old) }
        ensures content { (memory_view self.new).seen ≡ (memory_view self.old).seen }
        ensures crash { (c : Image) → (memory_view self.new).may_leave c → (memory_view self.old).may_leave c }
        ensures reaches { (c : Image) → (memory_view self.old).may_leave c → (memory_view self.new).may_leave c }
        ensures call { IsDeviceCall (memory_view self.old) (memory_view self.new) result }
        ensures stands { IsAtEnd (memory_view self.old) → self.new ≡ self.old }
        ensures script { (IsOver (disk_script self.old) → ⊥) → GoesOn (disk_script self.old) (disk_script self.new) result }
        ensures kept { (keep : Keep) → image_kept keep self.new ≡ image_kept keep self.old }
    {
        self.plan.begin()?;
        Ok(self.current.read_into(area, at, into))
    }

    fn write_at(&mut self, area: Area, at: u64, bytes: &[u8]) -> Result<(), Failed>
        ensures written { OnOk result (area_of area (memory_view self.new).seen ≡ written (area_of area (memory_view self.old).seen) at bytes.now) }
        ensures content { OnArea area (Torn at (length bytes.now)) (memory_view self.old).seen (memory_view self.new).seen }
        ensures crash { Follows (OnArea area (Torn at (length bytes.now))) (memory_view self.old) (memory_view self.new) }
        ensures reaches { OnOk result (Reaches (OnArea area (Torn at (length bytes.now))) (memory_view self.old) (memory_view self.new)) }
        ensures call { IsDeviceCall (memory_view self.old) (memory_view self.new) result }
        ensures stands { IsAtEnd (memory_view self.old) → self.new ≡ self.old }
        ensures script { (IsOver (disk_script self.old) → ⊥) → GoesOn (disk_script self.old) (disk_script self.new) result }
        ensures kept { OnOk result ((keep : Keep) → image_kept keep self.new ≡ with_area area (kept_write keep (area_of area (image_kept keep self.old)) at bytes.now) (image_kept keep self.old)) }
        ensures err { OnErr result (history self.new ≡ history self.old) }
    {
        self.plan.begin()?;
        let call = self.plan.calls();
        match write_change(
            self.alloc,
            &mut self.current,
            &mut self.changes,
            call,
            area,
            at,
            bytes,
        ) {
            Ok(()) => Ok(()),
            Err(_) => Err(self.plan.starve()),
        }
    }

    fn cut(&mut self, area: Area, len: u64) -> Result<(), Failed>
        ensures cut { OnOk result (area_of area (memory_view self.new).seen ≡ take len (area_of area (memory_view self.old).seen)) }
        ensures content { OnArea area (CutBack len) (memory_view self.old).seen (memory_view self.new).seen }
        ensures crash { Follows (OnArea area (CutBack len)) (memory_view self.old) (memory_view self.new) }
        ensures reaches { OnOk result (Reaches (OnArea area (CutBack len)) (memory_view self.old) (memory_view self.new)) }
        ensures call { IsDeviceCall (memory_view self.old) (memory_view self.new) result }
        ensures stands { IsAtEnd (memory_view self.old) → self.new ≡ self.old }
        ensures script { (IsOver (disk_script self.old) → ⊥) → GoesOn (disk_script self.old) (disk_script self.new) result }
        ensures kept { OnOk result ((keep : Keep) → image_kept keep self.new ≡ with_area area (kept_cut keep (area_of area (image_kept keep self.old)) len) (image_kept keep self.old)) }
        ensures err { OnErr result (history self.new ≡ history self.old) }
    {
        self.plan.begin()?;
        let call = self.plan.calls();
        match cut_change(&mut self.current, &mut self.changes, call, area, len) {
            Ok(()) => Ok(()),
            Err(_) => Err(self.plan.starve()),
        }
    }

    fn sync(&mut self, area: Area) -> Result<(), Failed>
        ensures durable { OnOk result ((c : Image) → (memory_view self.new).may_leave c → area_of area c ≡ area_of area (memory_view self.new).seen) }
        ensures content { (memory_view self.new).seen ≡ (memory_view self.old).seen }
        ensures elsewhere { area_of (other area) (memory_view self.new).seen ≡ area_of (other area) (memory_view self.old).seen }
        ensures crash { (c : Image) → (memory_view self.new).may_leave c → (memory_view self.old).may_leave c }
        ensures reaches { OnOk result ((c : Image) → (memory_view self.old).may_leave c → area_of area c ≡ area_of area (memory_view self.old).seen → (memory_view self.new).may_leave c) }
        ensures call { IsDeviceCall (memory_view self.old) (memory_view self.new) result }
        ensures stands { IsAtEnd (memory_view self.old) → self.new ≡ self.old }
        ensures script { (IsOver (disk_script self.old) → ⊥) → GoesOn (disk_script self.old) (disk_script self.new) result }
        // What is read now is kept whatever comes.
        ensures kept { OnOk result ((keep : Keep) → image_kept keep self.new ≡ with_area area (area_of area (memory_view self.old).seen) (image_kept keep self.old)) }
        ensures err { OnErr result (history self.new ≡ history self.old) }
    {
        self.plan.begin()?;
        let call = self.plan.calls();
        match push_event(&mut self.changes, call, area, Change::Synced) {
            Ok(()) => Ok(()),
            Err(_) => Err(self.plan.starve()),
        }
    }

    fn calls(&self) -> u64 {
        self.plan.calls()
    }

    fn faults(&self) -> u64 {
        self.plan.faults()
    }
}
