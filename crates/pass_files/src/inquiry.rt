//! Questions whose answers tell names.
ghost use Rattle.std.specs.Prelude.{◌≡◌, ◌↔◌, ◌<◌, IfOk, Err, option_map};
ghost use Rattle.pass_entry.specs.declared.objects.Node.{Node};
ghost use Rattle.pass_query.specs.Questions.{IsFound};
ghost use Rattle.pass_query.specs.declared.fault.QueryFault.{QueryFault};
ghost use Rattle.pass_files.specs.Inquiries.{IsInquiryText, IsMet, IsUnmet, meant};

use crate::files::{inputs, outputs};
use crate::output::text_of;
use crate::spelled::{Spelled, node_meant};
use pass_entry::Node;
use pass_query::{Form, QueryFault, Steps, ancestors, descendants, path};
use pass_waldo::Index;
use std::alloc::Global;
use std::marker::Brand;
use std::sync::ledger::{Blank, Ledger};

/// Which versions of files are told.
#[derive(Clone, Copy)]
pub struct Choice {
    /// Only those that flows of data join with the node.
    pub flows: bool,
    /// None of the files that a system brings along.
    pub plain: bool,
}

/// A question whose answer tells the kind and the name of each node.
#[derive(Drop)]
pub enum Inquiry {
    /// What the node came from.
    Ancestors(Spelled),
    /// What came from the node.
    Descendants(Spelled),
    /// How the first node came from the second one.
    Path(Spelled, Spelled),
    /// From which versions of files the node came.
    Inputs(Spelled, Choice),
    /// Which versions of files came from the node.
    Outputs(Spelled, Choice),
}

/// What a question is about, once its names are taken for nodes.
#[derive(Clone, Copy)]
pub enum Wanted {
    Ancestors(Node),
    Descendants(Node),
    Path(Node, Node),
    Inputs(Node, Choice),
    Outputs(Node, Choice),
}

/// The text that answers the question.
pub fn inquire(
    alloc: Global,
    index: &Index,
    inquiry: &Inquiry,
    form: Form,
) -> Result<Vec<u8>, QueryFault>
    ensures text { IfOk result (λ v. IsInquiryText index.now inquiry.now form v.items) }
    ensures absent { (n : Node) → (result ≡ Err (QueryFault.NoObject n)) ↔ IsUnmet index.now (meant index.now inquiry.now) n }
{
    let question = meant(index, inquiry);
    let nodes = nodes_of::<Brand>(alloc, Blank::new(1), index, &question)?;
    Ok(text_of(alloc, index, form, nodes)?)
}

// The question about the nodes that are meant.
fn meant(index: &Index, inquiry: &Inquiry) -> Wanted
    ensures { result ≡ meant index.now inquiry.now }
{
    match inquiry {
        Inquiry::Ancestors(node) => Wanted::Ancestors(node_meant(index, node)),
        Inquiry::Descendants(node) => Wanted::Descendants(node_meant(index, node)),
        Inquiry::Path(from, to) => Wanted::Path(node_meant(index, from), node_meant(index, to)),
        Inquiry::Inputs(node, choice) => Wanted::Inputs(node_meant(index, node), *choice),
        Inquiry::Outputs(node, choice) => Wanted::Outputs(node_meant(index, node), *choice),
    }
}

// The nodes that answer the question; None where there is no path. Its steps are those of the blank ledger.
fn nodes_of<L: Ledger>(
    alloc: Global,
    blank: Blank,
    index: &Index,
    question: &Wanted,
) -> Result<Option<Vec<Node>>, QueryFault>
    requires name { blank.name ≡ L.name }
    requires parts { blank.parts ≡ L.parts }
    requires some { 0 < blank.parts }
    ensures met { IfOk result (λ nodes. IsMet index.now question.now (option_map (λ v. v.items) nodes)) }
    ensures absent { (n : Node) → (result ≡ Err (QueryFault.NoObject n)) ↔ IsUnmet index.now question.now n }
{
    let mut steps = Steps::<L>::new(blank);
    match question {
        Wanted::Ancestors(node) => found(ancestors(alloc, index, *node, &mut steps)),
        Wanted::Descendants(node) => found(descendants(alloc, index, *node, &mut steps)),
        Wanted::Path(from, to) => path(alloc, index, *from, *to, &mut steps),
        Wanted::Inputs(node, choice) => found(inputs(alloc, index, *node, *choice, &mut steps)),
        Wanted::Outputs(node, choice) => found(outputs(alloc, index, *node, *choice, &mut steps)),
    }
}

// Nodes that were found.
fn found(nodes: Result<Vec<Node>, QueryFault>) -> Result<Option<Vec<Node>>, QueryFault>
    ensures { IsFound nodes result }
{
    match nodes {
        Ok(nodes) => Ok(Some(nodes)),
        Err(fault) => Err(fault),
    }
}
