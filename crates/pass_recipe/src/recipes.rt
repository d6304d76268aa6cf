//! The recipe of a node.
ghost use Rattle.std.specs.Prelude.{◌≡◌, ◌+◌, ◌*◌, ◌≤◌, ◌↔◌, length, List, Err, IfOk, OnOk};
ghost use Rattle.std.specs.List.{All, IsDistinct};
ghost use Rattle.pass_entry.specs.declared.objects.Node.{Node};
ghost use Rattle.pass_plain.specs.Graphs.{IsEdge, HasPath};
ghost use Rattle.pass_plain.specs.Versions.{same_node};
ghost use Rattle.pass_plain.specs.WellLogged.{IsWellLogged};
ghost use Rattle.pass_graph.specs.ListRanks.{HasNode};
ghost use Rattle.pass_waldo.specs.Orders.{node_cmp};
ghost use Rattle.pass_waldo.specs.Lookups.{AreAll};
ghost use Rattle.pass_query.specs.Answers.{HasAllLeaving, HasOnlyLeaving};
ghost use Rattle.pass_query.specs.declared.fault.QueryFault.{QueryFault};
ghost use Rattle.pass_recipe.specs.Orders.{HasOnlyListed, HasAllListed, ComesAfterSources, IsLeast, nodes_of};
ghost use Rattle.pass_recipe.specs.Programs.{HasProgram};

use crate::entries::{Made, enqueue, entries};
use pass_entry::Node;
use pass_query::{QueryFault, Steps, ancestors};
use pass_waldo::Index;
use std::alloc::{AllocError, Global};
use std::sync::ledger::Ledger;

// The entries of the node and of its ancestors.
fn arrange<L: Ledger>(
    alloc: Global,
    index: &Index,
    node: Node,
    mut nodes: Vec<Node>,
    steps: &mut Steps<L>,
) -> Result<Vec<Made>, AllocError>
    requires logged { IsWellLogged index.now }
    requires ancestors { AreAll node_cmp nodes.items (λ b. HasPath index.now node b) }
    ensures sound { IfOk result (λ v. HasOnlyListed index.now node (nodes_of v.items)) }
    ensures complete { IfOk result (λ v. HasAllListed index.now node (nodes_of v.items)) }
    ensures once { IfOk result (λ v. IsDistinct same_node (nodes_of v.items)) }
    ensures after { IfOk result (λ v. ComesAfterSources index.now (nodes_of v.items)) }
    ensures least { IfOk result (λ v. IsLeast index.now node (nodes_of v.items)) }
    ensures sources { IfOk result (λ v. All (λ m. AreAll node_cmp m.sources.items (λ s. IsEdge index.now m.node s)) v.items) }
    ensures programs { IfOk result (λ v. All (HasProgram index.now) v.items) }
    ensures steps { (edges : List (Node × Node)) → HasAllLeaving index.now node edges → steps.new ≤ steps.old + 2 * length edges }
    ensures counted { OnOk result ((edges : List (Node × Node)) → HasOnlyLeaving index.now node edges
        → steps.old + 2 * length edges ≤ steps.new) }
{
    nodes.push(node)?;
    let listed = nodes.as_slice();
    let queue = enqueue(alloc, index, listed, steps)?;
    entries(alloc, index, listed, queue)
}

/// The node and all its ancestors, each after every node to which it has an edge: of these orders the least, compared node
/// by node.
pub fn recipe<L: Ledger>(
    alloc: Global,
    index: &Index,
    node: Node,
    steps: &mut Steps<L>,
) -> Result<Vec<Made>, QueryFault>
    ensures sound { IfOk result (λ v. HasOnlyListed index.now node (nodes_of v.items)) }
    ensures complete { IfOk result (λ v. HasAllListed index.now node (nodes_of v.items)) }
    ensures once { IfOk result (λ v. IsDistinct same_node (nodes_of v.items)) }
    ensures after { IfOk result (λ v. ComesAfterSources index.now (nodes_of v.items)) }
    ensures least { IfOk result (λ v. IsLeast index.now node (nodes_of v.items)) }
    ensures sources { IfOk result (λ v. All (λ m. AreAll node_cmp m.sources.items (λ s. IsEdge index.now m.node s)) v.items) }
    ensures programs { IfOk result (λ v. All (HasProgram index.now) v.items) }
    ensures absent { (n : Node) → (result ≡ Err (QueryFault.NoObject n)) ↔ ((n ≡ node) × ¬ (HasNode index.now node)) }
    ensures steps { (edges : List (Node × Node)) → HasAllLeaving index.now node edges → steps.new ≤ steps.old + 3 * length edges }
    ensures counted { OnOk result ((edges : List (Node × Node)) → HasOnlyLeaving index.now node edges
        → steps.old + 3 * length edges ≤ steps.new) }
{
    if !index.has(node) {
        return Err(QueryFault::NoObject(node));
    }
    match ancestors(alloc, index, node, steps) {
        Ok(nodes) => Ok(arrange(alloc, index, node, nodes, steps)?),
        Err(fault) => Err(fault),
    }
}
