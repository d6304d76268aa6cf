//! The edges of a graph of versions, both ways.
ghost use Rattle.std.specs.Prelude.{◌≡◌, [], ◌∷◌, ◌++◌, List, OnOk, IfOk, IsSome, if◌then◌else◌};
ghost use Rattle.std.specs.BTreeSet.{insert_key};
ghost use Rattle.std.specs.HashMap.{get};
ghost use Rattle.std.specs.List.Sorted.{IsStrictlySortedBy};
ghost use Rattle.pass_entry.specs.declared.objects.Node.{Node};
ghost use Rattle.pass_entry.specs.declared.record.Record.{Record};
ghost use Rattle.pass_plain.specs.Versions.{same_node};
ghost use Rattle.pass_plain.specs.WellLogged.{IsWellLogged};
ghost use Rattle.pass_waldo.specs.Orders.{node_cmp};

use crate::sorted::put;
use pass_entry::{Node, Record};
use std::alloc::{AllocError, Global};
use std::collections::HashMap;

// The nodes to which a node has an edge, and those that have one to it, each in ascending order.
#[derive(Drop)]
struct Row {
    parents: Vec<Node>,
    children: Vec<Node>,
}

#[derive(Drop)]
pub(crate) struct Edges {
    alloc: Global,
    rows: HashMap<Node, Row>,
}

impl Edges {
    ghost use Rattle.pass_waldo.specs.Edges.{parents_of, children_of, HaveSameEdges, HaveSortedEdges, HasRoom, HasParentRoom, HasChildRoom};
    ghost use Rattle.pass_waldo.specs.Index.{AreEdges, IsNumbered};

    pub(crate) fn new(alloc: Global) -> Edges
        ensures parents { (n : Node) → parents_of result n ≡ [] }
        ensures children { (n : Node) → children_of result n ≡ [] }
    {
        Edges {
            alloc,
            rows: HashMap::new(alloc),
        }
    }

    /// The edges of records.
    pub(crate) fn of(alloc: Global, records: &[Record]) -> Result<Edges, AllocError>
        requires { IsWellLogged records.now }
        ensures { IfOk result (λ edges. AreEdges records.now edges) }
    {
        let mut edges = Edges::new(alloc);
        for one in records {
            edges.note(one)?;
        }
        Ok(edges)
    }

    // Adds the edge of the record, where it makes one.
    fn note(&mut self, one: &Record) -> Result<(), AllocError>
        requires numbered { IsNumbered one.now }
        requires sorted { HaveSortedEdges self.old }
        ensures { OnOk result ((list : List Record) → AreEdges list self.old → AreEdges (list ++ one.now ∷ []) self.new) }
    {
        match one {
            Record::Input { target, source } => self.add(target, source),
            Record::Version { node } => {
                let before = Node {
                    pnode: node.pnode,
                    version: node.version - 1,
                };
                self.add(node, &before)
            }
            _ => Ok(()),
        }
    }

    // Adds the edge.
    fn add(&mut self, target: &Node, source: &Node) -> Result<(), AllocError>
        requires { HaveSortedEdges self.old }
        ensures parents { OnOk result ((n : Node) → parents_of self.new n
            ≡ (if same_node target.now n then insert_key node_cmp (parents_of self.old n) source.now else parents_of self.old n)) }
        ensures children { OnOk result ((n : Node) → children_of self.new n
            ≡ (if same_node source.now n then insert_key node_cmp (children_of self.old n) target.now else children_of self.old n)) }
    {
        self.make_room(*target)?;
        self.make_room(*source)?;
        self.put_parent(target, *source);
        self.put_child(source, *target);
        Ok(())
    }

    pub(crate) fn parents(&self, node: &Node) -> &[Node]
        ensures { result.now ≡ parents_of self.now node.now }
    {
        match self.rows.get(node) {
            Some(row) => row.parents.as_slice(),
            None => &[],
        }
    }

    pub(crate) fn children(&self, node: &Node) -> &[Node]
        ensures { result.now ≡ children_of self.now node.now }
    {
        match self.rows.get(node) {
            Some(row) => row.children.as_slice(),
            None => &[],
        }
    }

    /// Makes room for one more edge from the node, and for one more to it.
    pub(crate) fn make_room(&mut self, node: Node) -> Result<(), AllocError>
        ensures same { HaveSameEdges self.old self.new }
        ensures room { OnOk result (HasRoom self.new node) }
        ensures keeps { (n : Node) → HasRoom self.old n → HasRoom self.new n }
    {
        self.make_row(node)?;
        self.widen(&node)
    }

    // The node has a row.
    fn make_row(&mut self, node: Node) -> Result<(), AllocError>
        ensures same { HaveSameEdges self.old self.new }
        ensures made { OnOk result (IsSome (get same_node self.new.rows node)) }
        ensures keeps { (n : Node) → HasRoom self.old n → HasRoom self.new n }
    {
        if !self.rows.contains_key(&node) {
            let row = Row {
                parents: Vec::new(self.alloc),
                children: Vec::new(self.alloc),
            };
            self.rows.insert(node, row)?;
        }
        Ok(())
    }

    // The node's row has room.
    fn widen(&mut self, node: &Node) -> Result<(), AllocError>
        requires { IsSome (get same_node self.old.rows node.now) }
        ensures same { HaveSameEdges self.old self.new }
        ensures room { OnOk result (HasRoom self.new node.now) }
        ensures keeps { (n : Node) → HasRoom self.old n → HasRoom self.new n }
    {
        match self.rows.get_mut(node) {
            Some(row) => {
                row.parents.reserve(1)?;
                row.children.reserve(1)?;
                Ok(())
            }
            None => Ok(()),
        }
    }

    /// The node has an edge to the parent.
    pub(crate) fn put_parent(&mut self, node: &Node, parent: Node)
        requires room { HasParentRoom self.old node.now }
        requires sorted { IsStrictlySortedBy node_cmp (parents_of self.old node.now) }
        ensures parents { (n : Node) → parents_of self.new n
            ≡ (if same_node node.now n then insert_key node_cmp (parents_of self.old n) parent else parents_of self.old n) }
        ensures children { (n : Node) → children_of self.new n ≡ children_of self.old n }
        ensures keeps { (n : Node) → HasChildRoom self.old n → HasChildRoom self.new n }
    {
        if let Some(row) = self.rows.get_mut(node) {
            let _ = put(&mut row.parents, parent);
        }
    }

    /// The child has an edge to the node.
    pub(crate) fn put_child(&mut self, node: &Node, child: Node)
        requires room { HasChildRoom self.old node.now }
        requires sorted { IsStrictlySortedBy node_cmp (children_of self.old node.now) }
        ensures children { (n : Node) → children_of self.new n
            ≡ (if same_node node.now n then insert_key node_cmp (children_of self.old n) child else children_of self.old n) }
        ensures parents { (n : Node) → parents_of self.new n ≡ parents_of self.old n }
    {
        if let Some(row) = self.rows.get_mut(node) {
            let _ = put(&mut row.children, child);
        }
    }
}
