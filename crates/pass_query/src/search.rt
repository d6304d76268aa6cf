//! A search of the graph from one node, in order of distance.
ghost use Rattle.std.specs.Prelude.{◌≡◌, ◌+◌, ◌≤◌, ◌-◌, length, OnOk, IfOk, List, IsOk};
ghost use Rattle.std.specs.List.Sorted.{IsStrictlySortedBy};
ghost use Rattle.pass_entry.specs.declared.objects.Node.{Node};
ghost use Rattle.pass_waldo.specs.Orders.{node_cmp};
ghost use Rattle.pass_waldo.specs.Lookups.{AreAll};

use crate::steps::Steps;
use crate::walk::{Walk, Way};
use pass_entry::Node;
use pass_waldo::Index;
use std::alloc::{AllocError, Global};
use std::collections::HashSet;
use std::sync::ledger::Ledger;

/// A node that a search has come to, and the place of the one from which it came there first; 0 for the first node.
#[derive(Clone, Copy, PartialEq, Eq)]
pub(crate) struct Reached {
    pub(crate) node: Node,
    pub(crate) before: usize,
}

ghost use Rattle.pass_query.specs.Searches.{AreSeen, looked, IsWholeSearch, HasAllLed, HasOnlyLed};

// Looks at the edges from the node at the place to those of the row, and adds the nodes that are new.
fn look(
    row: &[Node],
    place: usize,
    reached: &mut Vec<Reached>,
    seen: &mut HashSet<Node>,
) -> Result<(), AllocError>
    requires sorted { IsStrictlySortedBy node_cmp row.now }
    requires seen { AreSeen reached.old.items seen.old }
    ensures seen { OnOk result (AreSeen reached.new.items seen.new) }
    ensures looked { OnOk result (reached.new.items ≡ looked reached.old.items place row.now) }
{
    for node in row {
        if seen.insert(*node)? {
            reached.push(Reached {
                node: *node,
                before: place,
            })?;
        }
    }
    Ok(())
}

// The search, which is handed no more than a walk.
fn walk_from<L: Ledger>(
    alloc: Global,
    walk: &Walk,
    first: &Node,
    way: Way,
    steps: &mut Steps<L>,
) -> Result<Vec<Reached>, AllocError>
    ensures whole { IfOk result (λ v. IsWholeSearch way walk.now.index.now first.now v.items) }
    ensures steps { (edges : List (Node × Node)) → HasAllLed way walk.now.index.now first.now edges → steps.new ≤ steps.old + length edges }
    ensures counted { OnOk result ((edges : List (Node × Node)) → HasOnlyLed way walk.now.index.now first.now edges → steps.old + length edges ≤ steps.new) }
{
    let mut seen = HashSet::new(alloc);
    let mut reached = Vec::new(alloc);
    seen.insert(*first)?;
    reached.push(Reached {
        node: *first,
        before: 0,
    })?;
    let mut next = 0;
    while next < reached.len() {
        let row = walk.row(reached[next].node, way, steps);
        look(row, next, &mut reached, &mut seen)?;
        next += 1;
    }
    Ok(reached)
}

/// All nodes to which the edges lead from the first one, with itself, in order of distance.
pub(crate) fn search<L: Ledger>(
    alloc: Global,
    index: &Index,
    first: &Node,
    way: Way,
    steps: &mut Steps<L>,
) -> Result<Vec<Reached>, AllocError>
    ensures whole { IfOk result (λ v. IsWholeSearch way index.now first.now v.items) }
    ensures steps { (edges : List (Node × Node)) → HasAllLed way index.now first.now edges → steps.new ≤ steps.old + length edges }
    ensures counted { OnOk result ((edges : List (Node × Node)) → HasOnlyLed way index.now first.now edges → steps.old + length edges ≤ steps.new) }
{
    walk_from(alloc, &Walk::of(index), first, way, steps)
}
