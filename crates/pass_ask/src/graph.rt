//! What the graph of a log answers.
ghost use Rattle.std.specs.Prelude.{◌≡◌, ◌↔◌, ◌<◌, Err, IfOk, option_map};
ghost use Rattle.pass_entry.specs.declared.objects.Node.{Node};
ghost use Rattle.pass_query.specs.declared.fault.QueryFault.{QueryFault};
ghost use Rattle.pass_files.specs.Spelling.{node_meant};
ghost use Rattle.pass_ask.specs.GraphAnswers.{IsGraphText, IsMissing};
ghost use Rattle.pass_ask.specs.declared.words.GraphQuestion.{GraphQuestion};

use crate::words::GraphQuestion;
use pass_entry::Node;
use pass_files::{Spelled, inquire, node_meant};
use pass_query::{QueryFault, Steps, answer};
use pass_recipe::{recipe, to_text};
use pass_view::{table_text, view_text};
use pass_waldo::Index;
use std::alloc::Global;
use std::marker::Brand;
use std::sync::ledger::{Blank, Ledger};

/// The text that answers the question.
pub fn graph_answer(
    alloc: Global,
    index: &Index,
    question: &GraphQuestion,
) -> Result<Vec<u8>, QueryFault>
    ensures text { IfOk result (λ v. IsGraphText index.now question.now v.items) }
    ensures absent { (n : Node) → (result ≡ Err (QueryFault.NoObject n)) ↔ IsMissing index.now question.now n }
{
    match question {
        GraphQuestion::Lineage { query, form } => answer(alloc, index, query, *form),
        GraphQuestion::Recipe(node) => {
            recipe_answer::<Brand>(alloc, Blank::new(1), index, *node)
        }
        GraphQuestion::View { form, node } => {
            view_text(alloc, index, node_shown(index, node), *form)
        }
        GraphQuestion::Csv { table, store } => table_text(alloc, index, *table, store.as_bytes()),
        GraphQuestion::Told { inquiry, form } => inquire(alloc, index, inquiry, *form),
    }
}

// The node that is meant, where one is given.
fn node_shown(index: &Index, node: &Option<Spelled>) -> Option<Node>
    ensures { result ≡ option_map (node_meant index.now) node.now }
{
    match node {
        Some(node) => Some(node_meant(index, node)),
        None => None,
    }
}

// The recipe of the node. Its steps are those of the blank ledger.
fn recipe_answer<L: Ledger>(
    alloc: Global,
    blank: Blank,
    index: &Index,
    node: Node,
) -> Result<Vec<u8>, QueryFault>
    requires name { blank.name ≡ L.name }
    requires parts { blank.parts ≡ L.parts }
    requires some { 0 < blank.parts }
    ensures text { IfOk result (λ v. IsGraphText index.now (GraphQuestion.Recipe node) v.items) }
    ensures absent { (n : Node) → (result ≡ Err (QueryFault.NoObject n)) ↔ IsMissing index.now (GraphQuestion.Recipe node) n }
{
    let mut steps = Steps::<L>::new(blank);
    let entries = recipe(alloc, index, node, &mut steps)?;
    Ok(to_text(alloc, &entries)?)
}
