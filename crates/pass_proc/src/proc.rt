//! A process between its calls.
ghost use Rattle.std.specs.Prelude.{◌≡◌, ◌+◌, ◌<◌, ◌≤◌, ◌^◌, None, Some, IsErrOf, IsOk, ◌↔◌, length, OnOk, OnErr};
ghost use Rattle.std.specs.FinMap as finite_map;
ghost use Rattle.pass_plain.specs.Processes.{new_process, refusal};
ghost use Rattle.pass_hold.specs.Callings.{HasLooked};
ghost use Rattle.pass_proc.specs.Procs.{IsCallerOf, is_way, proc_with};
ghost use Rattle.pass_proc.specs.Views.{IsProcess, process_of};

use crate::desk::ProcessDesk;
use crate::way::Way;
use pass_book::Desk;
use pass_entry::{Ask, Bytes, CallFault, Descriptor, Descriptors, Pnode};
use pass_hold::{Caller, Shelf, Whose};
use pass_version::Versions;
use std::alloc::{AllocError, Global};
use std::marker::Model;

/// A living process, which one thread drives: its desk with its state, its line with the places that it holds, how many calls it has
/// made, and a write to a pipe that is under way.
///
/// A store's call sees to its places by `caller`, makes its steps on `process` and `caller`, and sets `number` and `way`.
#[derive(Drop)]
pub struct Proc<J: Whose> {
    pub process: ProcessDesk<J>,
    pub caller: Caller<J>,
    pub number: u64,
    pub way: Option<Way>,
}

impl<J: Whose> Model for Proc<J> {
    ghost use Rattle.std.specs.Coded.{codes, coded_ℕ};
    ghost use Rattle.std.specs.Ordering.{nat_cmp};
    ghost use Rattle.std.specs.FinMap as finite_map;
    ghost use Rattle.std.specs.FinSet as finite_set;
    ghost use Rattle.pass_entry.specs.contracts.entry.Entry as entry_type;
    ghost use Rattle.pass_entry.specs.contracts.objects.Descriptor as descriptor_type;
    ghost use Rattle.pass_proc.specs.Procs.{ProcView, proc_with, IsCallerOf};
    ghost use Rattle.pass_proc.specs.UnderWay.{IsWay};

    ghost Value = { ProcView };

    ghost coded = { Prim.hlevel (codes, entry_type.the_row.coded, descriptor_type.the_row.coded, finite_map.code {R = nat_cmp} coded_ℕ descriptor_type.the_row.coded, finite_set.code {R = nat_cmp} coded_ℕ) };

    ghost view = { λ p. proc_with p.process p.number p.caller p.way };

    ghost invariant = { λ p. IsCallerOf J.book.session p.process p.number p.caller × IsWay J.book.session p.process.who p.number p.caller.seen p.process.state p.way };
}

impl<J: Whose> Proc<J> {
    /// A process that has begun and has made no call, with these descriptors, no children and no bytes read. It takes no memory.
    pub fn begin(
        alloc: Global,
        desk: Desk,
        caller: Caller<J>,
        versions: Versions,
        descriptors: Descriptors,
    ) -> Proc<J>
        requires book { desk.book ≡ J.book }
        requires process { IsProcess J.book.session (process_of desk.what desk.seen (record { state = record new_process { descriptors = descriptors }; room = 0 }) versions) }
        requires caller { IsCallerOf J.book.session (process_of desk.what desk.seen (record { state = record new_process { descriptors = descriptors }; room = 0 }) versions) 0 caller }
        ensures { result ≡ proc_with (process_of desk.what desk.seen (record { state = record new_process { descriptors = descriptors }; room = 0 }) versions) 0 caller None }
    {
        Proc {
            process: ProcessDesk::of(alloc, desk, versions, descriptors),
            caller,
            number: 0,
            way: None,
        }
    }

    /// The process's number as an object.
    pub fn pnode(&self) -> Pnode
        ensures { result ≡ self.now.who }
    {
        self.process.pnode()
    }

    /// How many calls it has begun.
    pub fn number(&self) -> u64
        ensures { result ≡ self.now.number }
    {
        self.number
    }

    /// How many entries the process has seen of the history.
    pub fn seen(&self) -> u64
        ensures { result ≡ length self.now.seen }
    {
        self.caller.seen()
    }

    /// The bytes of its last answered read: none before the first one and after an exec.
    pub fn last(&self) -> &[u8]
        ensures { result.now ≡ self.now.state.last_read }
    {
        self.process.last()
    }

    /// What it holds under a number.
    pub fn descriptor(&self, fd: u8) -> Option<Descriptor>
        ensures { result ≡ finite_map.get self.now.state.descriptors fd }
    {
        self.process.descriptor(fd)
    }

    /// The fault by which it refuses what a call asks of it, or nothing.
    pub fn deny(&self, ask: &Ask) -> Result<(), CallFault>
        ensures ok { IsOk result ↔ (refusal self.now.state ask.now ≡ None) }
        ensures fault { (f : _) → IsErrOf result f ↔ (refusal self.now.state ask.now ≡ Some f) }
    {
        match self.process.refusal(ask) {
            Some(fault) => Err(fault),
            None => Ok(()),
        }
    }

    /// Makes room for one more child, and for one more source than there are children.
    pub fn reserve(&mut self) -> Result<(), AllocError>
        ensures { self.new ≡ self.old }
    {
        self.process.reserve()
    }

    /// A write of these bytes by this descriptor is under way.
    pub fn goes_on(&self, fd: u8, bytes: &Bytes) -> bool
        ensures { result ≡ is_way self.now.way fd bytes.now }
    {
        match &self.way {
            Some(way) => way.is_of(fd, bytes),
            None => false,
        }
    }

    /// The process sees the whole history. A write that is under way stays so.
    pub fn look(&mut self, shelf: &mut Shelf<J>)
        ensures looked { HasLooked J.book.session self.old.who self.old.seen self.new.seen }
        ensures whole { self.new.seen ≡ shelf.old.history }
        ensures same { self.new ≡ record self.old { seen = self.new.seen; syncs = self.new.syncs; looks = self.old.looks + 1; looked = length self.new.seen } }
        ensures shelf { shelf.new ≡ record shelf.old { syncs = shelf.new.syncs } }
    {
        self.caller.look(shelf);
    }
}
