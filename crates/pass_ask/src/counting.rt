//! How many nodes and edges the graph of a list of records has.
ghost use Rattle.std.specs.Prelude.{◌≡◌, ◌-◌, IfOk, OnOk, is_some, fold};
ghost use Rattle.std.specs.BTreeSet.{insert_key};
ghost use Rattle.pass_graph.specs.ListRanks.{made_node};
ghost use Rattle.pass_report.specs.Reports.{edge_cmp, edges_of_record};
ghost use Rattle.pass_ask.specs.Checks.{node_count, edge_count};

use pass_entry::{Node, Record};
use std::alloc::{AllocError, Global};
use std::collections::BTreeSet;

/// How many nodes: one for each object, and one for each further version.
pub fn count_nodes(list: &[Record]) -> usize
    ensures { result ≡ node_count list.now }
{
    let mut nodes = 0;
    for one in list {
        if makes_node(one) {
            nodes += 1;
        }
    }
    nodes
}

// The record makes a node.
fn makes_node(one: &Record) -> bool
    ensures { result ≡ is_some (made_node one.now) }
{
    matches!(one, Record::Object { .. } | Record::Version { .. })
}

/// How many edges: the inputs, and each version with the one before it; a pair that is both is one.
pub fn count_edges(alloc: Global, list: &[Record]) -> Result<usize, AllocError>
    ensures { IfOk result (λ edges. edges ≡ edge_count list.now) }
{
    let mut edges = BTreeSet::new(alloc);
    for one in list {
        note_edge(&mut edges, one)?;
    }
    Ok(edges.len())
}

// Notes the edge of a record, where it has one.
fn note_edge(edges: &mut BTreeSet<(Node, Node)>, one: &Record) -> Result<(), AllocError>
    ensures { OnOk result (edges.new.keys ≡ fold (insert_key edge_cmp) edges.old.keys (edges_of_record one.now)) }
{
    match one {
        Record::Input { target, source } => {
            edges.insert((*target, *source))?;
        }
        Record::Version { node } => {
            edges.insert((*node, before(*node)))?;
        }
        _ => {}
    }
    Ok(())
}

// The version before.
fn before(node: Node) -> Node
    ensures { result ≡ record { pnode = node.pnode; version = node.version - 1 } }
{
    let Node { pnode, version } = node;
    Node {
        pnode,
        version: version.saturating_sub(1),
    }
}
