//! The least path from a node to another one.
ghost use Rattle.std.specs.Prelude.{◌≡◌, ◌+◌, ◌≤◌, ◌<◌, ◌==◌, ◌&&◌, ◌↔◌, length, IfOk, IfSome, OnOk, List, Err, None};
ghost use Rattle.std.specs.List.{position};
ghost use Rattle.pass_entry.specs.declared.objects.Node.{Node};
ghost use Rattle.pass_plain.specs.Graphs.{HasPath};
ghost use Rattle.pass_plain.specs.Versions.{same_node};
ghost use Rattle.pass_query.specs.Searches.{IsChained, IsRoute};
ghost use Rattle.pass_query.specs.Answers.{HasAllLeaving, HasOnlyLeaving, IsLeastPath, IsFirstAbsent};
ghost use Rattle.pass_query.specs.declared.fault.QueryFault.{QueryFault};

use crate::fault::QueryFault;
use crate::search::{Reached, search};
use crate::steps::Steps;
use crate::walk::Way;
use pass_entry::Node;
use pass_waldo::Index;
use std::alloc::{AllocError, Global};
use std::sync::ledger::Ledger;

// The place of the node among those that were reached.
fn place_of(reached: &[Reached], node: Node) -> Option<usize>
    ensures { result ≡ position (λ r. same_node r.node node) reached.now }
{
    reached.iter().position(|one| one.node == node)
}

// The nodes through which the search came to the place.
fn route(alloc: Global, reached: &[Reached], place: usize) -> Result<Vec<Node>, AllocError>
    requires chained { IsChained reached.now }
    requires within { place < length reached.now }
    ensures { IfOk result (λ v. IsRoute reached.now place v.items) }
{
    let mut nodes = Vec::new(alloc);
    let mut at = place;
    while at != 0 {
        let one = reached[at];
        nodes.push(one.node)?;
        at = one.before;
    }
    nodes.push(reached[0].node)?;
    nodes.reverse();
    Ok(nodes)
}

/// A path with the fewest edges, and the least of these, compared node by node; None where no path leads there.
pub fn path<L: Ledger>(
    alloc: Global,
    index: &Index,
    from: Node,
    to: Node,
    steps: &mut Steps<L>,
) -> Result<Option<Vec<Node>>, QueryFault>
    ensures least { IfOk result (λ found. IfSome found (λ v. IsLeastPath index.now from to v.items)) }
    ensures none { IfOk result (λ found. (found ≡ None) ↔ ¬ (HasPath index.now from to)) }
    ensures absent { (n : Node) → (result ≡ Err (QueryFault.NoObject n)) ↔ IsFirstAbsent index.now from to n }
    ensures steps { (edges : List (Node × Node)) → HasAllLeaving index.now from edges → steps.new ≤ steps.old + length edges }
    ensures counted { OnOk result ((edges : List (Node × Node)) → HasOnlyLeaving index.now from edges → steps.old + length edges ≤ steps.new) }
{
    if !index.has(from) {
        return Err(QueryFault::NoObject(from));
    }
    if !index.has(to) {
        return Err(QueryFault::NoObject(to));
    }
    let reached = search(alloc, index, &from, Way::Back, steps)?;
    match place_of(&reached, to) {
        Some(place) if place != 0 => Ok(Some(route(alloc, &reached, place)?)),
        _ => Ok(None),
    }
}
