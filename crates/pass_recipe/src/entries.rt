//! The entries of a recipe.
ghost use Rattle.std.specs.Prelude.{◌≡◌, ◌+◌, ◌*◌, ◌≤◌, false, length, List, [], IfOk, OnOk, Contains};
ghost use Rattle.std.specs.List.{All, IsDistinct};
ghost use Rattle.std.specs.HashMap.{get};
ghost use Rattle.std.specs.HashSet.{contains};
ghost use Rattle.pass_entry.specs.declared.objects.Node.{Node};
ghost use Rattle.pass_plain.specs.Graphs.{IsEdge};
ghost use Rattle.pass_plain.specs.Versions.{same_node};
ghost use Rattle.pass_plain.specs.WellLogged.{IsWellLogged};
ghost use Rattle.pass_waldo.specs.Orders.{node_cmp};
ghost use Rattle.pass_waldo.specs.Lookups.{AreAll};
ghost use Rattle.pass_recipe.specs.Orders.{HasAllFrom, HasOnlyFrom, IsGreedy, nodes_of};
ghost use Rattle.pass_recipe.specs.Programs.{HasProgram};
ghost use Rattle.pass_recipe.specs.Queues.{IsQueue, IsHeld};

use crate::programs::Programs;
use crate::queue::Queue;
use crate::waiters::Waiting;
use pass_entry::{Node, Text};
use pass_query::Steps;
use pass_waldo::Index;
use std::alloc::{AllocError, Global};
use std::sync::ledger::Ledger;

/// A node with what made it.
#[derive(Drop)]
pub struct Made {
    /// The node.
    pub node: Node,
    /// The first program name that the records give it.
    pub exe: Option<Text>,
    /// The first arguments that the records give it.
    pub args: Option<Text>,
    /// The nodes to which it has an edge, in ascending order.
    pub sources: Vec<Node>,
}

// The nodes to which the node has an edge. Each edge takes two steps: one here, where it is copied, and one for the queue,
// which looks at it once.
fn sources<'a, L: Ledger>(index: &'a Index, node: Node, steps: &mut Steps<L>) -> &'a [Node]
    ensures row { AreAll node_cmp result.now (λ s. IsEdge index.now node s) }
    ensures steps { steps.new ≡ steps.old + 2 * length result.now }
{
    let row = index.parents(node);
    for _edge in row {
        steps.tick(); // for the copy
        steps.tick(); // for the queue
    }
    row
}

/// A queue of these nodes, of which none is listed yet.
pub(crate) fn enqueue<L: Ledger>(
    alloc: Global,
    index: &Index,
    nodes: &[Node],
    steps: &mut Steps<L>,
) -> Result<Queue, AllocError>
    requires once { IsDistinct same_node nodes.now }
    ensures made { IfOk result (λ q. (n : Node) → contains same_node q.made n ≡ false) }
    ensures queue { IfOk result (λ q. IsQueue index.now nodes.now q) }
    ensures held { IfOk result (λ q. (n : Node) → Contains nodes.now n → IsHeld q n) }
    ensures steps { (edges : List (Node × Node)) → HasAllFrom index.now nodes.now edges → steps.new ≤ steps.old + 2 * length edges }
    ensures counted { OnOk result ((edges : List (Node × Node)) → HasOnlyFrom index.now nodes.now edges
        → steps.old + 2 * length edges ≤ steps.new) }
{
    let mut queue = Queue::new(alloc);
    for node in nodes {
        let row = sources(index, *node, steps);
        let sources = Vec::from_slice(alloc, row)?;
        queue.settle(Waiting {
            node: *node,
            sources,
            next: 0,
        })?;
    }
    Ok(queue)
}

// The entry of a node with these sources.
fn entry(programs: &Programs, node: Node, sources: Vec<Node>) -> Result<Made, AllocError>
    ensures node { IfOk result (λ m. m.node ≡ node) }
    ensures exe { IfOk result (λ m. m.exe ≡ get same_node programs.now.exes node) }
    ensures args { IfOk result (λ m. m.args ≡ get same_node programs.now.args node) }
    ensures sources { IfOk result (λ m. m.sources ≡ sources) }
{
    Ok(Made {
        node,
        exe: programs.exe(&node)?,
        args: programs.args(&node)?,
        sources,
    })
}

/// The entries of these nodes in the order in which the queue hands them out.
pub(crate) fn entries(
    alloc: Global,
    index: &Index,
    nodes: &[Node],
    mut queue: Queue,
) -> Result<Vec<Made>, AllocError>
    requires logged { IsWellLogged index.now }
    requires closed { (n s : Node) → Contains nodes.now n → IsEdge index.now n s → Contains nodes.now s }
    requires made { (n : Node) → contains same_node queue.made n ≡ false }
    requires queue { IsQueue index.now nodes.now queue }
    requires held { (n : Node) → Contains nodes.now n → IsHeld queue n }
    ensures greedy { IfOk result (λ v. IsGreedy index.now nodes.now [] (nodes_of v.items)) }
    ensures complete { IfOk result (λ v. (n : Node) → Contains nodes.now n → Contains (nodes_of v.items) n) }
    ensures sources { IfOk result (λ v. All (λ m. AreAll node_cmp m.sources.items (λ s. IsEdge index.now m.node s)) v.items) }
    ensures programs { IfOk result (λ v. All (HasProgram index.now) v.items) }
{
    let programs = Programs::of(alloc, index)?;
    let mut list = Vec::with_capacity(alloc, nodes.len())?;
    while let Some((node, sources)) = queue.next()? {
        list.push(entry(&programs, node, sources)?)?;
    }
    Ok(list)
}
