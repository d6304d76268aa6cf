//! The nodes and edges that a view shows.
ghost use Rattle.std.specs.Prelude.{◌≡◌, ◌↔◌, ◌<◌, List, [], ◌∷◌, ◌++◌, map, true, IfOk, OnOk, Some, Err, Contains};
ghost use Rattle.std.specs.List.{All, IsDistinct};
ghost use Rattle.std.specs.List.Sorted.{IsStrictlySortedBy};
ghost use Rattle.pass_entry.specs.declared.objects.Node.{Node};
ghost use Rattle.pass_plain.specs.Graphs.{IsEdge, HasPath};
ghost use Rattle.pass_plain.specs.Versions.{same_node};
ghost use Rattle.pass_plain.specs.WellLogged.{is_known, IsWellLogged};
ghost use Rattle.pass_graph.specs.ListRanks.{HasNode, graph_nodes};
ghost use Rattle.pass_waldo.specs.Orders.{node_cmp};
ghost use Rattle.pass_waldo.specs.Lookups.{AreAll};
ghost use Rattle.pass_query.specs.declared.fault.QueryFault.{QueryFault};
ghost use Rattle.pass_view.specs.Facts.{AreFacts, IsTold, IsRelated};
ghost use Rattle.pass_view.specs.Views.{IsShown, IsShownEdge, edge_cmp, nodes_of, edges_of};

use crate::facts::Facts;
use crate::picture::{Link, Shown, View};
use pass_entry::{Node, Record};
use pass_graph::laws::well_logged;
use pass_query::{QueryFault, Steps, ancestors};
use pass_waldo::Index;
use std::alloc::{AllocError, Global};
use std::marker::Brand;
use std::sync::ledger::{Blank, Ledger};

/// The whole graph, or the part of it that a node came from, with that node.
pub fn select(alloc: Global, index: &Index, node: Option<Node>) -> Result<View, QueryFault>
    ensures nodes { IfOk result (λ v. AreAll node_cmp (nodes_of v.nodes.items) (IsShown index.now node)) }
    ensures edges { IfOk result (λ v. AreAll edge_cmp (edges_of v.edges.items) (IsShownEdge index.now node)) }
    ensures told { IfOk result (λ v. All (IsTold index.now) v.nodes.items) }
    ensures related { IfOk result (λ v. All (IsRelated index.now) v.edges.items) }
    ensures absent { (n : Node) → (result ≡ Err (QueryFault.NoObject n)) ↔ ((node ≡ Some n) × ¬ (HasNode index.now n)) }
{
    let nodes = shown_nodes::<Brand>(alloc, Blank::new(1), index, node)?;
    Ok(view_of(alloc, index, &nodes)?)
}

// The nodes with what is told of them, and the edges that leave them.
fn view_of(alloc: Global, index: &Index, nodes: &[Node]) -> Result<View, AllocError>
    requires known { (n : Node) → Contains nodes.now n → is_known index.now n.pnode ≡ true }
    requires ascending { IsStrictlySortedBy node_cmp nodes.now }
    ensures logged { IsWellLogged index.now }
    ensures nodes { IfOk result (λ v. nodes_of v.nodes.items ≡ nodes.now) }
    ensures edges { IfOk result (λ v. AreAll edge_cmp (edges_of v.edges.items) (λ e. Contains nodes.now e.0 × IsEdge index.now e.0 e.1)) }
    ensures told { IfOk result (λ v. All (IsTold index.now) v.nodes.items) }
    ensures related { IfOk result (λ v. All (IsRelated index.now) v.edges.items) }
{
    let facts = Facts::of(alloc, index.records())?;
    let source = Source { index, facts };
    Ok(View {
        nodes: source.describe(alloc, nodes)?,
        edges: source.links(alloc, nodes)?,
    })
}

// An index with the tables of what its records say.
#[derive(Drop)]
struct Source<'a> {
    index: &'a Index,
    facts: Facts,
    ghost told: { AreFacts index.now facts },
}

impl<'a> Source<'a> {
    // What is told of the nodes, in their order.
    fn describe(&self, alloc: Global, nodes: &[Node]) -> Result<Vec<Shown>, AllocError>
        requires known { (n : Node) → Contains nodes.now n → is_known self.now.index.now n.pnode ≡ true }
        ensures nodes { IfOk result (λ v. nodes_of v.items ≡ nodes.now) }
        ensures told { IfOk result (λ v. All (IsTold self.now.index.now) v.items) }
    {
        let mut list = Vec::with_capacity(alloc, nodes.len())?;
        for node in nodes {
            self.push_shown(&mut list, *node)?;
        }
        Ok(list)
    }

    // Adds what is told of a node.
    fn push_shown(&self, list: &mut Vec<Shown>, node: Node) -> Result<(), AllocError>
        requires { is_known self.now.index.now node.pnode ≡ true }
        ensures nodes { OnOk result (nodes_of list.new.items ≡ nodes_of list.old.items ++ node ∷ []) }
        ensures told { OnOk result (All (IsTold self.now.index.now) list.old.items → All (IsTold self.now.index.now) list.new.items) }
    {
        if let Some(shown) = self.facts.shown(node)? {
            list.push(shown)?;
        }
        Ok(())
    }

    // The edges that leave the nodes, in order.
    fn links(&self, alloc: Global, nodes: &[Node]) -> Result<Vec<Link>, AllocError>
        requires { IsStrictlySortedBy node_cmp nodes.now }
        ensures edges { IfOk result (λ v. AreAll edge_cmp (edges_of v.items) (λ e. Contains nodes.now e.0 × IsEdge self.now.index.now e.0 e.1)) }
        ensures related { IfOk result (λ v. All (IsRelated self.now.index.now) v.items) }
    {
        let mut links = Vec::new(alloc);
        for node in nodes {
            self.push_links(&mut links, node, self.index.parents(*node))?;
        }
        Ok(links)
    }

    // Adds the edges from a node to these sources.
    fn push_links(
        &self,
        links: &mut Vec<Link>,
        node: &Node,
        sources: &[Node],
    ) -> Result<(), AllocError>
        ensures edges { OnOk result (edges_of links.new.items ≡ edges_of links.old.items ++ map (λ s. (node.now, s)) sources.now) }
        ensures related { OnOk result (All (IsRelated self.now.index.now) links.old.items → All (IsRelated self.now.index.now) links.new.items) }
    {
        for source in sources {
            links.push(self.facts.link(node, source))?;
        }
        Ok(())
    }
}

// The nodes that are shown. The steps of their search are those of the blank ledger.
fn shown_nodes<L: Ledger>(
    alloc: Global,
    blank: Blank,
    index: &Index,
    node: Option<Node>,
) -> Result<Vec<Node>, QueryFault>
    requires name { blank.name ≡ L.name }
    requires parts { blank.parts ≡ L.parts }
    requires some { 0 < blank.parts }
    ensures all { IfOk result (λ v. AreAll node_cmp v.items (IsShown index.now node)) }
    ensures known { IfOk result (λ v. (n : Node) → Contains v.items n → is_known index.now n.pnode ≡ true) }
    ensures absent { (n : Node) → (result ≡ Err (QueryFault.NoObject n)) ↔ ((node ≡ Some n) × ¬ (HasNode index.now n)) }
{
    match node {
        Some(node) => lineage::<L>(alloc, blank, index, node),
        None => Ok(all_nodes(alloc, index)?),
    }
}

// The node and its ancestors.
fn lineage<L: Ledger>(
    alloc: Global,
    blank: Blank,
    index: &Index,
    node: Node,
) -> Result<Vec<Node>, QueryFault>
    requires name { blank.name ≡ L.name }
    requires parts { blank.parts ≡ L.parts }
    requires some { 0 < blank.parts }
    ensures all { IfOk result (λ v. AreAll node_cmp v.items (IsShown index.now (Some node))) }
    ensures known { IfOk result (λ v. (n : Node) → Contains v.items n → is_known index.now n.pnode ≡ true) }
    ensures absent { (n : Node) → (result ≡ Err (QueryFault.NoObject n)) ↔ ((n ≡ node) × ¬ (HasNode index.now node)) }
{
    if !index.has(node) {
        return Err(QueryFault::NoObject(node));
    }
    let mut steps = Steps::<L>::new(blank);
    let nodes = ancestors(alloc, index, node, &mut steps)?;
    Ok(with_node(index, nodes, node)?)
}

// The node among its ancestors, which don't have it.
fn with_node(index: &Index, mut nodes: Vec<Node>, node: Node) -> Result<Vec<Node>, AllocError>
    requires ancestors { AreAll node_cmp nodes.items (λ b. HasPath index.now node b) }
    requires there { HasNode index.now node }
    ensures all { IfOk result (λ v. AreAll node_cmp v.items (IsShown index.now (Some node))) }
    ensures known { IfOk result (λ v. (n : Node) → Contains v.items n → is_known index.now n.pnode ≡ true) }
{
    let _records = index.records();
    nodes.push(node)?;
    Ok(in_order(nodes))
}

// All nodes.
fn all_nodes(alloc: Global, index: &Index) -> Result<Vec<Node>, AllocError>
    ensures all { IfOk result (λ v. AreAll node_cmp v.items (HasNode index.now)) }
    ensures known { IfOk result (λ v. (n : Node) → Contains v.items n → is_known index.now n.pnode ≡ true) }
{
    well_logged();
    Ok(in_order(made_nodes(alloc, index.records())?))
}

// Nodes of which none is there twice, in ascending order.
fn in_order(mut nodes: Vec<Node>) -> Vec<Node>
    requires { IsDistinct same_node nodes.items }
    ensures { AreAll node_cmp result.items (λ n. Contains nodes.items n) }
{
    nodes.sort_unstable();
    nodes
}

// The nodes that the records make, in the order in which they make them.
fn made_nodes(alloc: Global, records: &[Record]) -> Result<Vec<Node>, AllocError>
    ensures { IfOk result (λ v. v.items ≡ graph_nodes records.now) }
{
    let mut nodes = Vec::new(alloc);
    for one in records {
        push_made(&mut nodes, one)?;
    }
    Ok(nodes)
}

// Adds the node that the record makes, if it makes one.
fn push_made(nodes: &mut Vec<Node>, one: &Record) -> Result<(), AllocError>
    ensures { OnOk result (nodes.new.items ≡ nodes.old.items ++ graph_nodes (one.now ∷ [])) }
{
    match one {
        Record::Object { pnode, .. } => {
            nodes.push(Node {
                pnode: *pnode,
                version: 1,
            })?;
        }
        Record::Version { node } => {
            nodes.push(*node)?;
        }
        _ => {}
    }
    Ok(())
}
