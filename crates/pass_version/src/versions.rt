//! The version of one object as it is used and takes from others.
ghost use Rattle.std.specs.Prelude.{◌≡◌, ◌<◌, ◌≤◌, ◌^◌, ◌-◌, true, false, [], IfOk, OnOk, OnErr, if◌then◌else◌};
ghost use Rattle.pass_plain.specs.Lineages.{IsAlike, has, used, frozen, with_source, linked};
ghost use Rattle.pass_version.specs.declared.versions.Taken.TheVariants as taken;

use pass_entry::{Node, Pnode};
use std::alloc::{AllocError, Global};
use std::collections::HashSet;
use std::marker::Model;

/// What became of a node from which a version was to take.
#[derive(Clone, Copy, PartialEq, Eq)]
pub enum Taken {
    /// The version had taken from this node before.
    Dropped,
    /// The version has now taken from the node.
    Linked,
    /// The version was marked: a new one was begun, which has taken from the node.
    FrozenAndLinked,
}

/// One object's current version: its number, whether it was used as a source, and the nodes from which it has taken.
#[derive(Drop)]
pub struct Versions {
    node: Node,
    marked: bool,
    ancestors: HashSet<Node>,
    spare: u32,
}

impl Model for Versions {
    ghost use Rattle.pass_version.specs.States.{VersionState};
    ghost use Rattle.std.specs.HashSet.{spare as room};
    ghost use Rattle.std.specs.Prelude.{◌≤◌};

    ghost Value = { VersionState };

    ghost view = { λ v. record { lineage = record { node = v.node; marked = v.marked; sources = v.ancestors.keys }; spare = v.spare } };

    ghost invariant = { λ v. v.spare ≤ room v.ancestors };
}

impl Versions {
    /// An object at a version that has taken from nothing. Room for sources is made by `reserve`.
    pub fn new(alloc: Global, pnode: Pnode, version: u64, marked: bool) -> Versions
        ensures { result ≡ record { lineage = record { node = record { pnode = pnode; version = version }; marked = marked; sources = [] }; spare = 0 } }
    {
        Versions {
            node: Node { pnode, version },
            marked,
            ancestors: HashSet::new(alloc),
            spare: 0,
        }
    }

    /// The object with its current version.
    pub fn current(&self) -> Node
        ensures { result ≡ self.now.lineage.node }
    {
        self.node
    }

    /// Whether the current version was used as a source. No program here makes this call.
    pub fn is_marked(&self) -> bool
        ensures { result ≡ self.now.lineage.marked }
    {
        self.marked
    }

    /// From how many more nodes the object may take before `reserve` is called again.
    pub fn spare(&self) -> u32
        ensures { result ≡ self.now.spare }
    {
        self.spare
    }

    /// Makes room for so many sources.
    pub fn reserve(&mut self, places: u32) -> Result<(), AllocError>
        ensures same { IsAlike self.new.lineage self.old.lineage }
        ensures least { OnOk result (places ≤ self.new.spare) }
        ensures grows { self.old.spare ≤ self.new.spare }
        ensures err { OnErr result (self.new ≡ self.old) }
    {
        if self.spare < places {
            self.ancestors.reserve(places as usize)?;
            self.spare = places;
        }
        Ok(())
    }

    /// The current version is used as a source.
    pub fn mark(&mut self) -> Node
        ensures answer { result ≡ self.old.lineage.node }
        ensures marked { self.new ≡ record self.old { lineage = used self.old.lineage } }
    {
        self.marked = true;
        self.node
    }

    /// A new version is begun, which nobody has used and which has taken from nothing.
    pub fn freeze(&mut self) -> Node
        requires { self.old.lineage.node.version < 2 ^ 63 }
        ensures answer { result ≡ self.new.lineage.node }
        ensures frozen { self.new ≡ record self.old { lineage = frozen self.old.lineage } }
    {
        self.node.version += 1;
        self.marked = false;
        self.ancestors.clear();
        self.node
    }

    /// The object takes from a node: a known one is dropped, and a new one begins a new version first where the current
    /// one is marked.
    pub fn take(&mut self, source: Node) -> Taken
        requires version { self.old.lineage.node.version < 2 ^ 63 }
        requires room { 1 ≤ self.old.spare }
        ensures answer { result ≡ (if has self.old.lineage source then taken.Dropped else if self.old.lineage.marked then taken.FrozenAndLinked else taken.Linked) }
        ensures linked { IsAlike self.new.lineage (linked self.old.lineage source) }
        ensures spare { self.new.spare ≡ self.old.spare - 1 }
    {
        if self.ancestors.contains(&source) {
            self.spare -= 1;
            return Taken::Dropped;
        }
        if self.marked {
            self.freeze();
            self.link(source);
            return Taken::FrozenAndLinked;
        }
        self.link(source);
        Taken::Linked
    }

    /// The current version takes from a node that is new to it.
    fn link(&mut self, source: Node)
        requires room { 1 ≤ self.old.spare }
        ensures lineage { IsAlike self.new.lineage (with_source self.old.lineage source) }
        ensures spare { self.new.spare ≡ self.old.spare - 1 }
    {
        self.spare -= 1;
        let _ = self.ancestors.insert(source);
    }
}
