//! The files among nodes.
ghost use Rattle.std.specs.Prelude.{◌≡◌, ◌↔◌, ◌++◌, [], ◌∷◌, List, Err, IfOk, OnOk, filter, if◌then◌else◌};
ghost use Rattle.pass_entry.specs.declared.objects.Node.{Node};
ghost use Rattle.pass_entry.specs.declared.record.Record.{Record};
ghost use Rattle.pass_graph.specs.ListRanks.{HasNode};
ghost use Rattle.pass_waldo.specs.Orders.{node_cmp};
ghost use Rattle.pass_waldo.specs.Lookups.{AreAll};
ghost use Rattle.pass_query.specs.declared.fault.QueryFault.{QueryFault};
ghost use Rattle.pass_files.specs.Inquiries.{IsInput, IsOutput, is_shown};
ghost use Rattle.pass_files.specs.Tables.{AreFacts, AreFoundBy, is_in, is_kept};

use crate::flows::{Way, flowing};
use crate::inquiry::Choice;
use crate::told::Facts;
use pass_entry::Node;
use pass_query::{QueryFault, Steps, ancestors, descendants};
use pass_waldo::Index;
use std::alloc::{AllocError, Global};
use std::collections::HashSet;
use std::sync::ledger::Ledger;

/// The versions of files from which the node came.
pub(crate) fn inputs<L: Ledger>(
    alloc: Global,
    index: &Index,
    node: Node,
    choice: Choice,
    steps: &mut Steps<L>,
) -> Result<Vec<Node>, QueryFault>
    ensures all { IfOk result (λ v. AreAll node_cmp v.items (IsInput index.now choice node)) }
    ensures absent { (n : Node) → (result ≡ Err (QueryFault.NoObject n)) ↔ ((n ≡ node) × ¬ (HasNode index.now node)) }
{
    let nodes = ancestors(alloc, index, node, steps)?;
    let found = found_by(alloc, index, &node, choice, Way::Back)?;
    Ok(chosen(alloc, index, &nodes, choice, &found)?)
}

/// The versions of files that came from the node.
pub(crate) fn outputs<L: Ledger>(
    alloc: Global,
    index: &Index,
    node: Node,
    choice: Choice,
    steps: &mut Steps<L>,
) -> Result<Vec<Node>, QueryFault>
    ensures all { IfOk result (λ v. AreAll node_cmp v.items (IsOutput index.now choice node)) }
    ensures absent { (n : Node) → (result ≡ Err (QueryFault.NoObject n)) ↔ ((n ≡ node) × ¬ (HasNode index.now node)) }
{
    let nodes = descendants(alloc, index, node, steps)?;
    let found = found_by(alloc, index, &node, choice, Way::On)?;
    Ok(chosen(alloc, index, &nodes, choice, &found)?)
}

// The nodes with which flows of data join the node, where only these count.
fn found_by(
    alloc: Global,
    index: &Index,
    node: &Node,
    choice: Choice,
    way: Way,
) -> Result<Option<HashSet<Node>>, AllocError>
    ensures { IfOk result (AreFoundBy way choice.flows index.now node.now) }
{
    if choice.flows {
        Ok(Some(flowing(alloc, index.records(), node, way)?))
    } else {
        Ok(None)
    }
}

// Those of the nodes that are versions of files that are shown, and are found where there is a set of such nodes.
fn chosen(
    alloc: Global,
    index: &Index,
    nodes: &[Node],
    choice: Choice,
    found: &Option<HashSet<Node>>,
) -> Result<Vec<Node>, AllocError>
    ensures { IfOk result (λ v. v.items ≡ filter (is_kept index.now choice found.now) nodes.now) }
{
    let facts = Facts::of(alloc, index.records())?;
    let mut kept = Vec::new(alloc);
    for node in nodes {
        keep(&mut kept, is_kept(&facts, choice, found, node), node)?;
    }
    Ok(kept)
}

// One node more, where it is kept.
fn keep(kept: &mut Vec<Node>, is_kept: bool, node: &Node) -> Result<(), AllocError>
    ensures { OnOk result (kept.new.items ≡ kept.old.items ++ (if is_kept then node.now ∷ [] else [])) }
{
    if is_kept {
        kept.push(*node)?;
    }
    Ok(())
}

fn is_kept(facts: &Facts, choice: Choice, found: &Option<HashSet<Node>>, node: &Node) -> bool
    ensures { (list : List Record) → AreFacts list facts.now → result ≡ is_kept list choice found.now node.now }
{
    is_shown(facts, choice, node) && is_found(found, node)
}

fn is_shown(facts: &Facts, choice: Choice, node: &Node) -> bool
    ensures { (list : List Record) → AreFacts list facts.now → result ≡ is_shown list choice node.now.pnode }
{
    facts.is_file(node.pnode.0) && !(choice.plain && facts.is_system(node.pnode.0))
}

fn is_found(found: &Option<HashSet<Node>>, node: &Node) -> bool
    ensures { result ≡ is_in found.now node.now }
{
    match found {
        Some(set) => set.contains(node),
        None => true,
    }
}
