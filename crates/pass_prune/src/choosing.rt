//! Which versions go onto a fresh archive.
ghost use Rattle.std.specs.Prelude.{◌≡◌, ◌⊎◌, ◌↔◌, ◌||◌, ◌<◌, true, IfOk, OnOk, IfSome, IfNone};
ghost use Rattle.std.specs.List.{list_any};
ghost use Rattle.std.specs.HashSet.{contains};
ghost use Rattle.pass_entry.specs.declared.objects.Node.{Node as AnyNode};
ghost use Rattle.pass_plain.specs.Graphs.{HasPath};
ghost use Rattle.pass_plain.specs.Versions.{same_node};
ghost use Rattle.pass_prune.specs.Choices.{is_tagged, IsNamed, IsChoice, IsFirstLacking};
ghost use Rattle.pass_prune.specs.Tables.{AreNodes, is_last_by, is_chosen_by};

use pass_entry::{Node, Text};
use pass_leaf::Leaves;
use pass_query::{Steps, ancestors};
use pass_waldo::Index;
use std::alloc::{AllocError, Global};
use std::collections::HashSet;
use std::marker::Brand;
use std::sync::ledger::{Blank, Ledger};

/// Chosen versions of leaves: these nodes, and the last version of each file.
#[derive(Drop)]
pub(crate) struct Choice<'a> {
    nodes: HashSet<Node>,
    pub(crate) leaves: &'a Leaves,
}

impl Choice<'_> {
    /// The version is the last one of its file.
    pub(crate) fn is_last(&self, node: &Node) -> bool
        ensures { result ≡ is_last_by self.now node.now }
    {
        self.leaves.last_version(node.pnode) == node.version
    }

    /// The version is chosen.
    pub(crate) fn has(&self, node: &Node) -> bool
        ensures { result ≡ is_chosen_by self.now node.now }
    {
        self.nodes.contains(node) || self.is_last(node)
    }
}

/// The first of the named nodes that is no version of an object of the log.
pub(crate) fn first_lacking(index: &Index, named: &[Node]) -> Option<Node>
    ensures lacking { IfSome result (IsFirstLacking index.now named.now) }
    ensures all { IfNone result (AreNodes index.now named.now) }
{
    for node in named {
        if !index.has(*node) {
            return Some(*node);
        }
    }
    None
}

// Puts nodes into a set.
fn add(nodes: &mut HashSet<Node>, more: &[Node]) -> Result<(), AllocError>
    ensures { OnOk result ((n : AnyNode) → contains same_node nodes.new n ≡ (contains same_node nodes.old n || list_any (same_node n) more.now)) }
{
    for node in more {
        nodes.insert(*node)?;
    }
    Ok(())
}

// Puts the nodes that have values into a set.
fn add_valued(nodes: &mut HashSet<Node>, values: &[(Node, Text)]) -> Result<(), AllocError>
    ensures { OnOk result ((n : AnyNode) → contains same_node nodes.new n ≡ (contains same_node nodes.old n || list_any (λ v. same_node n v.0) values.now)) }
{
    for value in values {
        nodes.insert(value.0)?;
    }
    Ok(())
}

// Puts the tagged nodes into a set.
fn add_tagged(alloc: Global, index: &Index, nodes: &mut HashSet<Node>) -> Result<(), AllocError>
    ensures { OnOk result ((n : AnyNode) → contains same_node nodes.new n ≡ (contains same_node nodes.old n || is_tagged index.now n)) }
{
    match Text::line(alloc, "keep".as_bytes()) {
        Ok(keep) => add_valued(nodes, index.by_attr(&keep)),
        Err(_) => Err(AllocError),
    }
}

// Puts a node of the log into a set, and all that it came from.
fn add_lineage<L: Ledger>(
    alloc: Global,
    index: &Index,
    nodes: &mut HashSet<Node>,
    node: &Node,
    steps: &mut Steps<L>,
) -> Result<(), AllocError>
    ensures { OnOk result ((n : AnyNode) → (contains same_node nodes.new n ≡ true) ↔ ((contains same_node nodes.old n ≡ true) ⊎ ((n ≡ node.now) ⊎ HasPath index.now node.now n))) }
{
    let Ok(before) = ancestors(alloc, index, *node, steps) else {
        return Err(AllocError);
    };
    nodes.insert(*node)?;
    add(nodes, &before)
}

// Puts the named nodes into a set, and all that they came from. The steps are those of the blank ledger.
fn add_named<L: Ledger>(
    alloc: Global,
    blank: Blank,
    index: &Index,
    nodes: &mut HashSet<Node>,
    named: &[Node],
) -> Result<(), AllocError>
    requires name { blank.name ≡ L.name }
    requires parts { blank.parts ≡ L.parts }
    requires some { 0 < blank.parts }
    ensures { OnOk result ((n : AnyNode) → (contains same_node nodes.new n ≡ true) ↔ ((contains same_node nodes.old n ≡ true) ⊎ IsNamed index.now named.now n)) }
{
    let mut steps = Steps::<L>::new(blank);
    for node in named {
        add_lineage(alloc, index, nodes, node, &mut steps)?;
    }
    Ok(())
}

/// Chooses the tagged nodes of a log, the named ones with all that they came from, and the last version of each file.
pub(crate) fn choose<'a>(
    alloc: Global,
    index: &Index,
    leaves: &'a Leaves,
    named: &[Node],
) -> Result<Choice<'a>, AllocError>
    ensures choice { IfOk result (λ c. IsChoice index.now named.now c.leaves.now (is_chosen_by c)) }
    ensures leaves { IfOk result (λ c. c.leaves.now ≡ leaves.now) }
{
    let mut nodes = HashSet::new(alloc);
    add_tagged(alloc, index, &mut nodes)?;
    add_named::<Brand>(alloc, Blank::new(1), index, &mut nodes, named)?;
    Ok(Choice { nodes, leaves })
}
