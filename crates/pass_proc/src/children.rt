//! The children of a process that it has not waited for.
ghost use Rattle.std.specs.Prelude.{◌≡◌, ◌<◌, ◌≤◌, ◌^◌, ◌-◌, OnOk, OnErr};
ghost use Rattle.std.specs.FinSet as finite_set;

use pass_entry::Pnode;
use std::alloc::{AllocError, Global};
use std::collections::HashSet;
use std::marker::Model;

/// Some processes, with room for more of them.
#[derive(Drop)]
pub(crate) struct Children {
    pnodes: HashSet<Pnode>,
    room: u32,
}

impl Model for Children {
    ghost use Rattle.std.specs.Prelude.{◌≤◌};
    ghost use Rattle.std.specs.Coded.{codes, coded_ℕ};
    ghost use Rattle.std.specs.Ordering.{nat_cmp};
    ghost use Rattle.std.specs.FinSet as finite_set;
    ghost use Rattle.std.specs.HashSet.{spare};
    ghost use Rattle.pass_proc.specs.Views.{ChildrenView};

    ghost Value = { ChildrenView };

    ghost coded = { Prim.hlevel (codes, finite_set.code {R = nat_cmp} coded_ℕ) };

    ghost view = { λ c. record { pnodes = finite_set.from_list c.pnodes.keys; room = c.room } };

    ghost invariant = { λ c. c.room ≤ spare c.pnodes };
}

impl Children {
    pub(crate) fn new(alloc: Global) -> Children
        ensures { result ≡ record { pnodes = finite_set.empty; room = 0 } }
    {
        Children {
            pnodes: HashSet::new(alloc),
            room: 0,
        }
    }

    pub(crate) fn has(&self, child: Pnode) -> bool
        ensures { result ≡ finite_set.contains self.now.pnodes child }
    {
        self.pnodes.contains(&child)
    }

    pub(crate) fn len(&self) -> usize
        ensures len { result ≡ finite_set.len self.now.pnodes }
        ensures few { result < 2 ^ 63 }
    {
        self.pnodes.len()
    }

    pub(crate) fn room(&self) -> u32
        ensures { result ≡ self.now.room }
    {
        self.room
    }

    /// Has room for fewer again.
    pub(crate) fn lower(&mut self, room: u32)
        requires { room ≤ self.old.room }
        ensures { self.new ≡ record self.old { room = room } }
    {
        self.room = room;
    }

    /// Makes room for one more.
    pub(crate) fn reserve(&mut self) -> Result<(), AllocError>
        ensures room { OnOk result (1 ≤ self.new.room) }
        ensures grows { self.old.room ≤ self.new.room }
        ensures same { self.new ≡ record self.old { room = self.new.room } }
        ensures err { OnErr result (self.new ≡ self.old) }
    {
        if self.room == 0 {
            self.pnodes.reserve(1)?;
            self.room = 1;
        }
        Ok(())
    }

    /// Adds a process. It takes no memory.
    pub(crate) fn add(&mut self, child: Pnode)
        requires { 1 ≤ self.old.room }
        ensures { self.new ≡ record { pnodes = finite_set.insert self.old.pnodes child; room = self.old.room - 1 } }
    {
        self.room -= 1;
        let _ = self.pnodes.insert(child);
    }

    /// Leaves a process out.
    pub(crate) fn remove(&mut self, child: Pnode)
        ensures { self.new ≡ record self.old { pnodes = finite_set.remove self.old.pnodes child } }
    {
        let _ = self.pnodes.remove(&child);
    }
}
