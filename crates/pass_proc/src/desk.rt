//! A living process with its desk.
ghost use Rattle.std.specs.Prelude.{◌≡◌, ◌<◌, ◌≤◌, ◌^◌, [], false, length, OnOk, OnErr};
ghost use Rattle.std.specs.FinMap as finite_map;
ghost use Rattle.std.specs.FinSet as finite_set;
ghost use Rattle.pass_plain.specs.Lineages.{IsAlike};
ghost use Rattle.pass_plain.specs.Processes.{new_process, refusal as refusal_of};
ghost use Rattle.pass_proc.specs.Views.{IsProcess, process_of};

use crate::holdings::Holdings;
use pass_book::Desk;
use pass_entry::{Ask, CallFault, Descriptor, Descriptors, Node, Pnode};
use pass_hold::Whose;
use pass_version::Versions;
use std::alloc::{AllocError, Global};
use std::marker::{Model, PhantomData};

/// A living process with its desk: its state and its version are those of the definitions after what was seen of it.
#[derive(Drop)]
pub struct ProcessDesk<J: Whose> {
    pub(crate) who: Pnode,
    pub(crate) holdings: Holdings,
    pub(crate) versions: Versions,
    pub(crate) desk: Desk,
    pub(crate) whose: PhantomData<J>,
}

impl<J: Whose> Model for ProcessDesk<J> {
    ghost use Rattle.std.specs.Prelude.{◌≡◌};
    ghost use Rattle.std.specs.Coded.{codes, coded_ℕ};
    ghost use Rattle.std.specs.Ordering.{nat_cmp};
    ghost use Rattle.std.specs.FinMap as finite_map;
    ghost use Rattle.std.specs.FinSet as finite_set;
    ghost use Rattle.pass_entry.specs.contracts.entry.Entry as entry_type;
    ghost use Rattle.pass_entry.specs.contracts.objects.Node as node_type;
    ghost use Rattle.pass_entry.specs.contracts.objects.Descriptor as descriptor_type;
    ghost use Rattle.pass_proc.specs.Views.{ProcessView, IsProcess, process_of};

    ghost Value = { ProcessView };

    ghost coded = { Prim.hlevel (codes, entry_type.the_row.coded, node_type.the_row.coded, finite_map.code {R = nat_cmp} coded_ℕ descriptor_type.the_row.coded, finite_set.code {R = nat_cmp} coded_ℕ) };

    ghost view = { λ p. process_of p.who p.desk.seen p.holdings p.versions };

    ghost invariant = { λ p. (p.desk.book ≡ J.book) × (p.desk.what ≡ p.who) × IsProcess J.book.session (process_of p.who p.desk.seen p.holdings p.versions) };
}

impl<J: Whose> ProcessDesk<J> {
    /// A process that has begun with these descriptors, and has read nothing and made no child. It takes no memory.
    pub fn of(
        alloc: Global,
        desk: Desk,
        versions: Versions,
        descriptors: Descriptors,
    ) -> ProcessDesk<J>
        requires book { desk.book ≡ J.book }
        requires process { IsProcess J.book.session (process_of desk.what desk.seen (record { state = record new_process { descriptors = descriptors }; room = 0 }) versions) }
        ensures { result ≡ process_of desk.what desk.seen (record { state = record new_process { descriptors = descriptors }; room = 0 }) versions }
    {
        ProcessDesk {
            who: versions.current().pnode,
            holdings: Holdings::new(alloc, descriptors),
            versions,
            desk,
            whose: PhantomData,
        }
    }

    /// The process's number.
    pub fn pnode(&self) -> Pnode
        ensures { result ≡ self.now.who }
    {
        self.who
    }

    /// How many entries its holder has seen of the history.
    pub fn seen(&self) -> u64
        ensures { result ≡ length self.now.seen }
    {
        self.desk.seen()
    }

    /// Its current version.
    pub fn node(&self) -> Node
        ensures { result ≡ self.now.lineage.node }
    {
        self.versions.current()
    }

    /// The fault by which it refuses what a call asks of it.
    pub fn refusal(&self, ask: &Ask) -> Option<CallFault>
        ensures { result ≡ refusal_of self.now.state ask.now }
    {
        self.holdings.refusal(ask)
    }

    /// What it holds under a number.
    pub fn descriptor(&self, fd: u8) -> Option<Descriptor>
        ensures { result ≡ finite_map.get self.now.state.descriptors fd }
    {
        self.holdings.descriptor(fd)
    }

    /// All that it holds.
    pub fn descriptors(&self) -> &Descriptors
        ensures { result.now ≡ self.now.state.descriptors }
    {
        self.holdings.descriptors()
    }

    /// The bytes of its last answered read.
    pub fn last(&self) -> &[u8]
        ensures { result.now ≡ self.now.state.last_read }
    {
        self.holdings.last()
    }

    /// Makes room for one more child, and for one more source than there are children.
    pub fn reserve(&mut self) -> Result<(), AllocError>
        ensures child { OnOk result (1 ≤ self.new.room) }
        ensures source { OnOk result (finite_set.len self.new.state.children < self.new.spare) }
        ensures same { self.new ≡ record self.old { lineage = self.new.lineage; spare = self.new.spare; room = self.new.room } }
        ensures alike { IsAlike self.new.lineage self.old.lineage }
        ensures grows { (self.old.spare ≤ self.new.spare) × (self.old.room ≤ self.new.room) }
        ensures err { OnErr result (self.new ≡ self.old) }
    {
        let room = self.holdings.room();
        self.holdings.reserve()?;
        if make_room(&mut self.versions, self.holdings.children()).is_err() {
            self.holdings.lower(room);
            return Err(AllocError);
        }
        Ok(())
    }
}

/// Makes room for one more source than there are children.
fn make_room(versions: &mut Versions, children: usize) -> Result<(), AllocError>
    requires { children ≤ versions.old.spare }
    ensures room { OnOk result (children < versions.new.spare) }
    ensures alike { IsAlike versions.new.lineage versions.old.lineage }
    ensures grows { versions.old.spare ≤ versions.new.spare }
    ensures err { OnErr result (versions.new ≡ versions.old) }
{
    let spare = versions.spare();
    if children < spare as usize {
        return Ok(());
    }
    let Some(places) = spare.checked_add(1) else {
        return Err(AllocError);
    };
    versions.reserve(places)
}
