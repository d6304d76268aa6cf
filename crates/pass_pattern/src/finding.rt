//! The nodes to which a path of a shape leads.
ghost use Rattle.std.specs.Prelude.{◌≡◌, ◌+◌, ◌*◌, ◌≤◌, ◌↔◌, IfOk, List, Err, length};
ghost use Rattle.std.specs.List.Sorted.{IsPermutation, IsSorted};
ghost use Rattle.pass_entry.specs.declared.objects.Node.{Node};
ghost use Rattle.pass_graph.specs.ListRanks.{HasNode};
ghost use Rattle.pass_waldo.specs.Orders.{node_cmp};
ghost use Rattle.pass_query.specs.Answers.{HasAllLeaving};
ghost use Rattle.pass_query.specs.declared.fault.QueryFault.{QueryFault};
ghost use Rattle.pass_pattern.specs.Patterns.{shape_of, atoms};
ghost use Rattle.pass_pattern.specs.Visits.{ends_of};
ghost use Rattle.pass_pattern.specs.Answers.{AreJoined};

use crate::code::{END, compile};
use crate::pattern::Pattern;
use crate::search::{Visit, search};
use pass_entry::Node;
use pass_query::{QueryFault, Steps};
use pass_waldo::Index;
use std::alloc::{AllocError, Global};
use std::sync::ledger::Ledger;

// The nodes at which a path ended, in their order.
fn ended(alloc: Global, visits: &[Visit]) -> Result<Vec<Node>, AllocError>
    ensures permuted { IfOk result (λ v. IsPermutation (ends_of visits.now) v.items) }
    ensures sorted { IfOk result (λ v. IsSorted node_cmp v.items) }
{
    let mut nodes = Vec::new(alloc);
    for visit in visits {
        if visit.place == END {
            nodes.push(visit.node)?;
        }
    }
    nodes.sort_unstable();
    Ok(nodes)
}

/// The nodes to which a path of the shape leads from this one. A step looks at one edge for one part `One` of the pattern, and
/// at each once.
pub fn find<L: Ledger>(
    alloc: Global,
    index: &Index,
    from: Node,
    pattern: &Pattern,
    steps: &mut Steps<L>,
) -> Result<Vec<Node>, QueryFault>
    ensures all { IfOk result (λ v. AreJoined index.now (shape_of pattern.now) from v.items) }
    ensures absent { (n : Node) → (result ≡ Err (QueryFault.NoObject n)) ↔ ((n ≡ from) × ¬ (HasNode index.now from)) }
    ensures steps { (edges : List (Node × Node)) → HasAllLeaving index.now from edges
        → steps.new ≤ steps.old + atoms (shape_of pattern.now) * length edges }
{
    if !index.has(from) {
        return Err(QueryFault::NoObject(from));
    }
    let code = compile(alloc, pattern)?;
    let first = Visit {
        node: from,
        place: code.start,
    };
    let visits = search(alloc, index, &code.instructions, &first, steps)?;
    Ok(ended(alloc, visits.as_slice())?)
}
