//! The edges of an index, which a walk gets only against steps.
ghost use Rattle.std.specs.Prelude.{◌≡◌, ◌+◌, length};
ghost use Rattle.pass_waldo.specs.Orders.{node_cmp};
ghost use Rattle.pass_waldo.specs.Lookups.{AreAll};
ghost use Rattle.pass_query.specs.Searches.{Leads};

use crate::steps::Steps;
use pass_entry::Node;
use pass_waldo::Index;
use std::sync::ledger::Ledger;

/// Which way a walk goes along the edges.
#[derive(Clone, Copy, PartialEq, Eq)]
pub(crate) enum Way {
    /// To what a node came from.
    Back,
    /// To what came from a node.
    On,
}

/// An index of which nothing can be had but the edges of a node, each for a step. What walks the graph is handed this in
/// place of the index: so it looks at no edge that isn't counted.
#[derive(Drop)]
pub(crate) struct Walk<'a> {
    index: &'a Index,
}

impl<'a> Walk<'a> {
    pub(crate) fn of(index: &'a Index) -> Walk<'a>
        ensures { result.index.now ≡ index.now }
    {
        Walk { index }
    }

    /// The nodes to which the edges lead from this one. Each edge takes a step.
    pub(crate) fn row<L: Ledger>(&self, node: Node, way: Way, steps: &mut Steps<L>) -> &[Node]
        ensures row { AreAll node_cmp result.now (Leads way self.now.index.now node) }
        ensures steps { steps.new ≡ steps.old + length result.now }
    {
        let row = neighbors(self.index, node, way);
        for _edge in row {
            steps.tick();
        }
        row
    }
}

// The nodes to which the edges lead from this one.
fn neighbors(index: &Index, node: Node, way: Way) -> &[Node]
    ensures { AreAll node_cmp result.now (Leads way index.now node) }
{
    match way {
        Way::Back => index.parents(node),
        Way::On => index.children(node),
    }
}
