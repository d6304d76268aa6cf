//! The parts of an archive that is open to keep versions.
ghost use Rattle.std.specs.Prelude.{◌≡◌, ◌≢◌, ◌<◌, ◌≤◌, ◌^◌, length, IsTrue, IfOk, OnOk, OnErr, IfErr, Err};
ghost use Rattle.pass_leaf.specs.Keeping.{is_above};
ghost use Rattle.pass_leaf.specs.Gatherings.{with_batch, with_version, settled};
ghost use Rattle.pass_leaf.specs.Open.{IsOpen, archive_of, gathering_of, all_leaves, whole_end, with_next, IsUnkept, EndsAfter, HasMoved};

use crate::OldFault;
use crate::stock::Stock;
use crate::tail::Tail;
use pass_entry::Node;
use pass_outside::Disk;
use std::alloc::Global;

// An archive ends below this place, in bytes.
const FURTHEST: u64 = 1 << 39;

// Once the frames of gathered leaves have so many bytes they are written.
const BATCH: usize = 16 << 20;

/// The disk, the leaves, and the archive's end.
#[derive(Drop)]
pub(crate) struct Shelf<A> {
    pub(crate) alloc: Global,
    pub(crate) disk: A,
    pub(crate) stock: Stock,
    pub(crate) tail: Tail,
}

impl<A: Disk> Shelf<A> {
    // Gathers the leaf of a version that is above its file's last one.
    fn gather(&mut self, node: Node, content: &[u8]) -> Result<(), OldFault>
        requires open { IsOpen (A.view self.old.disk) self.old.stock self.old.tail }
        requires pnode { 1 ≤ node.pnode }
        requires size { length content.now ≤ 2 ^ 28 }
        requires above { IsTrue (is_above (all_leaves (archive_of self.old)) node) }
        ensures open { IsOpen (A.view self.new.disk) self.new.stock self.new.tail }
        ensures gathered { OnOk result (archive_of self.new ≡ with_next (archive_of self.old) (record { node = node; bytes = content.now })) }
        ensures some { OnOk result (0 < length self.new.stock.frames.items) }
        ensures same { OnErr result (archive_of self.new ≡ archive_of self.old) }
        ensures other { IfErr result (λ e. e ≢ OldFault.DiskFault) }
        ensures fault { IfErr result (IsUnkept (all_leaves (archive_of self.old)) (whole_end (archive_of self.old)) (record { node = node; bytes = content.now })) }
    {
        let made = match self.stock.make(self.alloc, node, content) {
            Ok(made) => made,
            Err(_refused) => return Err(OldFault::NoMemory),
        };
        let end = self.tail.end + self.stock.frames.len() as u64;
        let next_end = end + made.frame.len() as u64;
        if next_end >= FURTHEST {
            drop(made);
            return Err(OldFault::BadFrame { at: end });
        }
        match self.stock.add(self.alloc, made) {
            Ok(()) => Ok(()),
            Err(_refused) => Err(OldFault::NoMemory),
        }
    }

    // Writes the leaves that are gathered, as one batch.
    fn write(&mut self) -> Result<(), OldFault>
        requires open { IsOpen (A.view self.old.disk) self.old.stock self.old.tail }
        requires healthy { (A.view self.old.disk).faults ≤ self.old.tail.opened }
        requires some { 0 < length self.old.stock.frames.items }
        ensures open { IsOpen (A.view self.new.disk) self.new.stock self.new.tail }
        ensures moved { HasMoved A.view (archive_of self.old) (archive_of self.new) (with_batch (gathering_of (archive_of self.old))) result }
        ensures whole { whole_end (archive_of self.new) ≡ whole_end (archive_of self.old) }
        ensures fault { IfErr result (λ e. (e ≡ OldFault.DiskFault) × (all_leaves (archive_of self.new) ≡ all_leaves (archive_of self.old))) }
    {
        if let Err(fault) = self.tail.append(&mut self.disk, &self.stock.frames) {
            return Err(fault);
        }
        self.stock.settle();
        Ok(())
    }

    /// Keeps a version of a file with its content, where it is above the file's last leaf. The answer says whether it was.
    pub(crate) fn keep(&mut self, node: Node, content: &[u8]) -> Result<bool, OldFault>
        requires open { IsOpen (A.view self.old.disk) self.old.stock self.old.tail }
        requires pnode { 1 ≤ node.pnode }
        requires size { length content.now ≤ 2 ^ 28 }
        ensures open { IsOpen (A.view self.new.disk) self.new.stock self.new.tail }
        ensures moved { HasMoved A.view (archive_of self.old) (archive_of self.new) (with_version (gathering_of (archive_of self.old)) (record { node = node; bytes = content.now })) result }
        ensures answer { IfOk result (λ kept. kept ≡ is_above (all_leaves (archive_of self.old)) node) }
        ensures ends { IfOk result (EndsAfter (all_leaves (archive_of self.old)) (whole_end (archive_of self.old)) (record { node = node; bytes = content.now }) (whole_end (archive_of self.new))) }
        ensures broken { self.old.tail.opened < (A.view self.old.disk).faults → result ≡ Err (OldFault.Broken self.old.tail.opened (A.view self.old.disk).faults) }
        ensures unbroken { (A.view self.old.disk).faults ≤ self.old.tail.opened → IfErr result (λ e. IsTrue (is_above (all_leaves (archive_of self.old)) node)
            × IsUnkept (all_leaves (archive_of self.old)) (whole_end (archive_of self.old)) (record { node = node; bytes = content.now }) e) }
    {
        if let Err(fault) = self.tail.check(&self.disk) {
            return Err(fault);
        }
        if !self.stock.is_new(&node) {
            return Ok(false);
        }
        if let Err(fault) = self.gather(node, content) {
            return Err(fault);
        }
        let gathered = self.stock.frames.len();
        if gathered < BATCH {
            return Ok(true);
        }
        match self.write() {
            Ok(()) => Ok(true),
            Err(fault) => Err(fault),
        }
    }

    /// Writes the leaves that are gathered.
    pub(crate) fn settle(&mut self) -> Result<(), OldFault>
        requires open { IsOpen (A.view self.old.disk) self.old.stock self.old.tail }
        ensures open { IsOpen (A.view self.new.disk) self.new.stock self.new.tail }
        ensures moved { HasMoved A.view (archive_of self.old) (archive_of self.new) (settled (gathering_of (archive_of self.old))) result }
        ensures ends { OnOk result (self.new.tail.end ≡ whole_end (archive_of self.old)) }
        ensures broken { self.old.tail.opened < (A.view self.old.disk).faults → result ≡ Err (OldFault.Broken self.old.tail.opened (A.view self.old.disk).faults) }
        ensures unbroken { (A.view self.old.disk).faults ≤ self.old.tail.opened → IfErr result (λ e. (e ≡ OldFault.DiskFault) × (whole_end (archive_of self.old) < 2 ^ 39)) }
    {
        if let Err(fault) = self.tail.check(&self.disk) {
            return Err(fault);
        }
        let gathered = self.stock.frames.len();
        if gathered == 0 {
            return Ok(());
        }
        self.write()
    }
}
