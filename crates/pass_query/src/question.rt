//! Questions to the graph, and their answers as texts.
ghost use Rattle.std.specs.Prelude.{◌≡◌, ◌↔◌, ◌<◌, IfOk, Err, option_map};
ghost use Rattle.pass_entry.specs.declared.objects.Node.{Node};
ghost use Rattle.pass_query.specs.Questions.{IsAnswer, IsAnswerText, IsAbsent, IsFound, answer_text};
ghost use Rattle.pass_query.specs.declared.fault.QueryFault.{QueryFault};

use crate::fault::QueryFault;
use crate::lineage::{ancestors, descendants};
use crate::naming::named;
use crate::output::{no_path, to_json, to_text};
use crate::routes::path;
use crate::steps::Steps;
use pass_entry::{Node, Text};
use pass_waldo::Index;
use std::alloc::{AllocError, Global};
use std::marker::Brand;
use std::sync::ledger::{Blank, Ledger};

/// A question to the graph of versions.
#[derive(Drop)]
pub enum Query {
    /// What the node came from.
    Ancestors(Node),
    /// What came from the node.
    Descendants(Node),
    /// How the first node came from the second one.
    Path(Node, Node),
    /// Which files had the name.
    Named(Text),
}

/// How an answer is written.
#[derive(Clone, Copy, PartialEq, Eq)]
pub enum Form {
    /// Each node on a line.
    Lines,
    /// One line of JSON.
    Json,
}

/// The text that answers the question.
pub fn answer(
    alloc: Global,
    index: &Index,
    query: &Query,
    form: Form,
) -> Result<Vec<u8>, QueryFault>
    ensures text { IfOk result (λ v. IsAnswerText index.now query.now form v.items) }
    ensures absent { (n : Node) → (result ≡ Err (QueryFault.NoObject n)) ↔ IsAbsent index.now query.now n }
{
    let nodes = answer_nodes::<Brand>(alloc, Blank::new(1), index, query)?;
    Ok(write_answer(alloc, form, nodes)?)
}

// The nodes that answer the question; None where there is no path. Its steps are those of the blank ledger.
fn answer_nodes<L: Ledger>(
    alloc: Global,
    blank: Blank,
    index: &Index,
    query: &Query,
) -> Result<Option<Vec<Node>>, QueryFault>
    requires name { blank.name ≡ L.name }
    requires parts { blank.parts ≡ L.parts }
    requires some { 0 < blank.parts }
    ensures nodes { IfOk result (λ nodes. IsAnswer index.now query.now (option_map (λ v. v.items) nodes)) }
    ensures absent { (n : Node) → (result ≡ Err (QueryFault.NoObject n)) ↔ IsAbsent index.now query.now n }
{
    let mut steps = Steps::<L>::new(blank);
    match query {
        Query::Ancestors(node) => found(ancestors(alloc, index, *node, &mut steps)),
        Query::Descendants(node) => found(descendants(alloc, index, *node, &mut steps)),
        Query::Path(from, to) => path(alloc, index, *from, *to, &mut steps),
        Query::Named(name) => Ok(Some(named(alloc, index, name)?)),
    }
}

// Nodes that were found.
fn found(nodes: Result<Vec<Node>, QueryFault>) -> Result<Option<Vec<Node>>, QueryFault>
    ensures { IsFound nodes result }
{
    match nodes {
        Ok(nodes) => Ok(Some(nodes)),
        Err(fault) => Err(fault),
    }
}

// The answer as a text.
fn write_answer(alloc: Global, form: Form, nodes: Option<Vec<Node>>) -> Result<Vec<u8>, AllocError>
    ensures { IfOk result (λ v. v.items ≡ answer_text form (option_map (λ w. w.items) nodes)) }
{
    match (nodes, form) {
        (Some(nodes), Form::Lines) => to_text(alloc, &nodes),
        (Some(nodes), Form::Json) => to_json(alloc, &nodes),
        (None, _) => no_path(alloc, form),
    }
}
