//! The nodes that are still to be listed.
ghost use Rattle.std.specs.Prelude.{◌≡◌, ◌≤◌, ◌<◌, ◌⊎◌, true, false, length, List, Some, None, IfSome, IfOk, OnOk, slice_get, Contains, if◌then◌else◌};
ghost use Rattle.std.specs.HashSet.{contains};
ghost use Rattle.std.specs.BTreeMap.{get as find_ready, is_at, IsLowerBound};
ghost use Rattle.pass_entry.specs.declared.objects.Node.{Node};
ghost use Rattle.pass_entry.specs.declared.record.Record.{Record};
ghost use Rattle.pass_plain.specs.Versions.{same_node};
ghost use Rattle.pass_waldo.specs.Orders.{node_cmp};
ghost use Rattle.pass_recipe.specs.declared.waiters.Waiting.{Waiting};

use crate::waiters::{Waiters, Waiting};
use pass_entry::Node;
use std::alloc::{AllocError, Global};
use std::collections::{BTreeMap, HashSet};

/// The nodes that are listed, those whose sources are all listed, each with its sources, and those that wait for a source.
/// A node waits for one source at a time, so each of its edges is looked at once.
#[derive(Drop)]
pub(crate) struct Queue {
    made: HashSet<Node>,
    ready: BTreeMap<Node, Vec<Node>>,
    waiters: Waiters,
}

impl Queue {
    ghost use Rattle.pass_recipe.specs.Queues.{AreMade, IsFit, IsQueue, IsHeld};

    pub(crate) fn new(alloc: Global) -> Queue
        ensures made { (n : Node) → contains same_node result.made n ≡ false }
        ensures queue { (list : List Record) (all : List Node) → IsQueue list all result }
    {
        Queue {
            made: HashSet::new(alloc),
            ready: BTreeMap::new(alloc),
            waiters: Waiters::new(alloc),
        }
    }

    // The place of the first of these nodes, from a place on, that isn't listed yet.
    fn first_missing(&self, nodes: &[Node], from: usize) -> Option<usize>
        ensures some { IfSome result (λ p. (p < length nodes.now) × AreMade self.now.made nodes.now from p
            × ((s : Node) → slice_get nodes.now p ≡ Some s → contains same_node self.now.made s ≡ false)) }
        ensures none { result ≡ None → AreMade self.now.made nodes.now from (length nodes.now) }
    {
        let mut place = from;
        while place < nodes.len() {
            if !self.made.contains(&nodes[place]) {
                return Some(place);
            }
            place += 1;
        }
        None
    }

    /// The node is ready, or waits for the next of its sources that isn't listed yet.
    pub(crate) fn settle(&mut self, mut one: Waiting) -> Result<(), AllocError>
        ensures made { self.new.made ≡ self.old.made }
        ensures keeps { OnOk result ((list : List Record) (all : List Node) → IsQueue list all self.old → IsFit list all self.old.made one
            → IsQueue list all self.new) }
        ensures held { OnOk result (IsHeld self.new one.node) }
        ensures holds { OnOk result ((n : Node) → IsHeld self.old n → IsHeld self.new n) }
    {
        match self.first_missing(&one.sources, one.next) {
            Some(place) => {
                let source = one.sources[place];
                one.next = place + 1;
                self.waiters.add(source, one)
            }
            None => {
                self.ready.insert(one.node, one.sources)?;
                Ok(())
            }
        }
    }

    // Settles nodes that waited for a source which is listed now.
    fn wake(&mut self, mut woken: Vec<Waiting>) -> Result<(), AllocError>
        ensures made { self.new.made ≡ self.old.made }
        ensures keeps { OnOk result ((list : List Record) (all : List Node) → IsQueue list all self.old
            → ((one : Waiting) → Contains woken.items one → IsFit list all self.old.made one) → IsQueue list all self.new) }
        ensures held { OnOk result ((one : Waiting) → Contains woken.items one → IsHeld self.new one.node) }
        ensures holds { OnOk result ((n : Node) → IsHeld self.old n → IsHeld self.new n) }
    {
        while let Some(one) = woken.pop() {
            self.settle(one)?;
        }
        Ok(())
    }

    // The least node that is ready, with its sources.
    fn first_ready(&mut self) -> Option<(Node, Vec<Node>)>
        ensures made { self.new.made ≡ self.old.made }
        ensures waiters { self.new.waiters ≡ self.old.waiters }
        ensures none { result ≡ None → (n : Node) → find_ready node_cmp self.old.ready n ≡ None }
        ensures first { IfSome result (λ p. find_ready node_cmp self.old.ready p.0 ≡ Some p.1) }
        ensures least { IfSome result (λ p. IsLowerBound node_cmp self.old.ready p.0) }
        ensures leaves { IfSome result (λ p. (n : Node) → find_ready node_cmp self.new.ready n
            ≡ (if is_at (node_cmp p.0) n then None else find_ready node_cmp self.old.ready n)) }
    {
        self.ready.pop_first()
    }

    /// Lists the least node that is ready, and hands it out with its sources; None where none is.
    pub(crate) fn next(&mut self) -> Result<Option<(Node, Vec<Node>)>, AllocError>
        ensures none { IfOk result (λ o. o ≡ None → (n : Node) → find_ready node_cmp self.old.ready n ≡ None) }
        ensures first { IfOk result (λ o. IfSome o (λ p. (find_ready node_cmp self.old.ready p.0 ≡ Some p.1)
            × IsLowerBound node_cmp self.old.ready p.0)) }
        ensures made { IfOk result (λ o. IfSome o (λ p. (n : Node) → contains same_node self.new.made n
            ≡ (if same_node p.0 n then true else contains same_node self.old.made n))) }
        ensures keeps { IfOk result (λ o. IfSome o (λ p. (list : List Record) (all : List Node) → IsQueue list all self.old
            → IsQueue list all self.new)) }
        ensures holds { IfOk result (λ o. IfSome o (λ p. (list : List Record) (all : List Node) → IsQueue list all self.old
            → (n : Node) → IsHeld self.old n → (n ≡ p.0) ⊎ IsHeld self.new n)) }
    {
        let Some((node, sources)) = self.first_ready() else {
            return Ok(None);
        };
        self.made.insert(node)?;
        let woken = self.waiters.take(&node);
        self.wake(woken)?;
        Ok(Some((node, sources)))
    }
}
