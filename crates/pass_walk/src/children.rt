//! The children that a process has forked.
ghost use Rattle.std.specs.Prelude.{◌≡◌, ◌==◌, ◌<◌, ℕ, OnOk, if◌then◌else◌};
ghost use Rattle.std.specs.HashMap.{spare};
ghost use Rattle.pass_walk.specs.Walkers.{pnode_among};

use pass_entry::Pnode;
use std::alloc::{AllocError, Global};
use std::collections::HashMap;

/// The pnodes of children, by their numbers in the trace.
#[derive(Drop)]
pub struct Children {
    pnodes: HashMap<u32, Pnode>,
}

impl Children {
    pub fn new(alloc: Global) -> Children {
        Children {
            pnodes: HashMap::new(alloc),
        }
    }

    /// Makes room for one more.
    pub(crate) fn reserve(&mut self) -> Result<(), AllocError>
        ensures room { OnOk result (0 < spare self.new.pnodes) }
        ensures same { (child : ℕ) → pnode_among self.new child ≡ pnode_among self.old child }
    {
        self.pnodes.reserve(1)
    }

    /// Notes a child. It takes no memory.
    pub(crate) fn add(&mut self, child: u32, pnode: Pnode)
        requires { 0 < spare self.old.pnodes }
        ensures { (q : ℕ) → pnode_among self.new q ≡ (if child == q then pnode else pnode_among self.old q) }
    {
        let _ = self.pnodes.insert(child, pnode);
    }

    /// The pnode of a child, 0 where none is known.
    pub(crate) fn pnode(&self, child: u32) -> Pnode
        ensures { result ≡ pnode_among self.now child }
    {
        self.pnodes.get(&child).copied().unwrap_or(Pnode(0))
    }
}
