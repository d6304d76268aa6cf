//! All ancestors and all descendants of a node.
ghost use Rattle.std.specs.Prelude.{◌≡◌, ◌+◌, ◌≤◌, ◌↔◌, length, IfOk, OnOk, List, Err, map};
ghost use Rattle.std.specs.List.Sorted.{IsPermutation, IsSorted};
ghost use Rattle.pass_entry.specs.declared.objects.Node.{Node};
ghost use Rattle.pass_plain.specs.Graphs.{HasPath};
ghost use Rattle.pass_graph.specs.ListRanks.{HasNode};
ghost use Rattle.pass_waldo.specs.Orders.{node_cmp};
ghost use Rattle.pass_waldo.specs.Lookups.{AreAll};
ghost use Rattle.pass_query.specs.Searches.{Reaches, HasAllLed, HasOnlyLed};
ghost use Rattle.pass_query.specs.Answers.{HasAllLeaving, HasOnlyLeaving, HasAllEntering, HasOnlyEntering};
ghost use Rattle.pass_query.specs.declared.fault.QueryFault.{QueryFault};

use crate::fault::QueryFault;
use crate::search::{Reached, search};
use crate::steps::Steps;
use crate::walk::Way;
use pass_entry::Node;
use pass_waldo::Index;
use std::alloc::{AllocError, Global};
use std::sync::ledger::Ledger;

// The nodes that were reached, in their order.
fn in_order(alloc: Global, reached: &[Reached]) -> Result<Vec<Node>, AllocError>
    ensures permuted { IfOk result (λ v. IsPermutation (map (λ r. r.node) reached.now) v.items) }
    ensures sorted { IfOk result (λ v. IsSorted node_cmp v.items) }
{
    let mut nodes = Vec::new(alloc);
    for one in reached {
        nodes.push(one.node)?;
    }
    nodes.sort_unstable();
    Ok(nodes)
}

// The other nodes to which the edges lead from this one.
fn others<L: Ledger>(
    alloc: Global,
    index: &Index,
    node: &Node,
    way: Way,
    steps: &mut Steps<L>,
) -> Result<Vec<Node>, QueryFault>
    ensures all { IfOk result (λ v. AreAll node_cmp v.items (Reaches way index.now node.now)) }
    ensures absent { (n : Node) → (result ≡ Err (QueryFault.NoObject n)) ↔ ((n ≡ node.now) × ¬ (HasNode index.now node.now)) }
    ensures steps { (edges : List (Node × Node)) → HasAllLed way index.now node.now edges → steps.new ≤ steps.old + length edges }
    ensures counted { OnOk result ((edges : List (Node × Node)) → HasOnlyLed way index.now node.now edges → steps.old + length edges ≤ steps.new) }
{
    if !index.has(*node) {
        return Err(QueryFault::NoObject(*node));
    }
    let reached = search(alloc, index, node, way, steps)?;
    Ok(in_order(alloc, &reached[1..])?)
}

/// The nodes to which a path leads from this one.
pub fn ancestors<L: Ledger>(
    alloc: Global,
    index: &Index,
    node: Node,
    steps: &mut Steps<L>,
) -> Result<Vec<Node>, QueryFault>
    ensures all { IfOk result (λ v. AreAll node_cmp v.items (λ b. HasPath index.now node b)) }
    ensures absent { (n : Node) → (result ≡ Err (QueryFault.NoObject n)) ↔ ((n ≡ node) × ¬ (HasNode index.now node)) }
    ensures steps { (edges : List (Node × Node)) → HasAllLeaving index.now node edges → steps.new ≤ steps.old + length edges }
    ensures counted { OnOk result ((edges : List (Node × Node)) → HasOnlyLeaving index.now node edges → steps.old + length edges ≤ steps.new) }
{
    others(alloc, index, &node, Way::Back, steps)
}

/// The nodes from which a path leads to this one.
pub fn descendants<L: Ledger>(
    alloc: Global,
    index: &Index,
    node: Node,
    steps: &mut Steps<L>,
) -> Result<Vec<Node>, QueryFault>
    ensures all { IfOk result (λ v. AreAll node_cmp v.items (λ b. HasPath index.now b node)) }
    ensures absent { (n : Node) → (result ≡ Err (QueryFault.NoObject n)) ↔ ((n ≡ node) × ¬ (HasNode index.now node)) }
    ensures steps { (edges : List (Node × Node)) → HasAllEntering index.now node edges → steps.new ≤ steps.old + length edges }
    ensures counted { OnOk result ((edges : List (Node × Node)) → HasOnlyEntering index.now node edges → steps.old + length edges ≤ steps.new) }
{
    others(alloc, index, &node, Way::On, steps)
}
