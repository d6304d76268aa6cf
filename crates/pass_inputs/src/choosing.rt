//! The versions of files that a node came from.
ghost use Rattle.std.specs.Prelude.{◌≡◌, ◌↔◌, ◌++◌, [], ◌∷◌, ◌<◌, List, Err, IfOk, OnOk, filter};
ghost use Rattle.pass_entry.specs.declared.objects.Node.{Node as AnyNode};
ghost use Rattle.pass_entry.specs.declared.record.Record.{Record};
ghost use Rattle.pass_plain.specs.Graphs.{HasPath};
ghost use Rattle.pass_waldo.specs.Lookups.{AreAll};
ghost use Rattle.pass_waldo.specs.Orders.{node_cmp};
ghost use Rattle.pass_graph.specs.ListRanks.{HasNode};
ghost use Rattle.pass_query.specs.declared.fault.QueryFault.{QueryFault as Fault};
ghost use Rattle.pass_inputs.specs.Inputs.{is_file};
ghost use Rattle.pass_inputs.specs.Plans.{AreFacts};

use crate::facts::Facts;
use pass_entry::Node;
use pass_query::{QueryFault, Steps, ancestors};
use pass_waldo::Index;
use std::alloc::{AllocError, Global};
use std::marker::Brand;
use std::sync::ledger::{Blank, Ledger};

/// All that the node came from.
pub(crate) fn behind(alloc: Global, index: &Index, node: Node) -> Result<Vec<Node>, QueryFault>
    ensures all { IfOk result (λ v. AreAll node_cmp v.items (λ n. HasPath index.now node n)) }
    ensures absent { (n : AnyNode) → (result ≡ Err (Fault.NoObject n)) ↔ ((n ≡ node) × ¬ (HasNode index.now node)) }
{
    behind_by::<Brand>(alloc, Blank::new(1), index, node)
}

// The same, with the steps of the blank ledger.
fn behind_by<L: Ledger>(
    alloc: Global,
    blank: Blank,
    index: &Index,
    node: Node,
) -> Result<Vec<Node>, QueryFault>
    requires name { blank.name ≡ L.name }
    requires parts { blank.parts ≡ L.parts }
    requires some { 0 < blank.parts }
    ensures all { IfOk result (λ v. AreAll node_cmp v.items (λ n. HasPath index.now node n)) }
    ensures absent { (n : AnyNode) → (result ≡ Err (Fault.NoObject n)) ↔ ((n ≡ node) × ¬ (HasNode index.now node)) }
{
    let mut steps = Steps::<L>::new(blank);
    ancestors(alloc, index, node, &mut steps)
}

/// A node, and others behind it.
pub(crate) fn with_node(alloc: Global, node: Node, others: &[Node]) -> Result<Vec<Node>, AllocError>
    ensures { IfOk result (λ v. v.items ≡ node ∷ others.now) }
{
    let mut nodes = Vec::new(alloc);
    nodes.push(node)?;
    nodes.extend_from_slice(others)?;
    Ok(nodes)
}

/// Those of the nodes that are versions of files.
pub(crate) fn files_among(
    alloc: Global,
    facts: &Facts,
    nodes: &[Node],
) -> Result<Vec<Node>, AllocError>
    ensures { (list : List Record) → AreFacts list facts.now → IfOk result (λ v. v.items ≡ filter (is_file list) nodes.now) }
{
    let mut files = Vec::new(alloc);
    for node in nodes {
        keep(&mut files, facts, node)?;
    }
    Ok(files)
}

// One node more, where it is a version of a file.
fn keep(files: &mut Vec<Node>, facts: &Facts, node: &Node) -> Result<(), AllocError>
    ensures { (list : List Record) → AreFacts list facts.now → OnOk result (files.new.items ≡ files.old.items ++ filter (is_file list) (node.now ∷ [])) }
{
    if facts.is_file(node.pnode.0) {
        files.push(*node)?;
    }
    Ok(())
}
