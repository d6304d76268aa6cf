//! What `find` answers, as a text.
ghost use Rattle.std.specs.Prelude.{◌≡◌, ◌<◌, ◌↔◌, IfOk, Err, Some};
ghost use Rattle.pass_entry.specs.declared.objects.Node.{Node};
ghost use Rattle.pass_graph.specs.ListRanks.{HasNode};
ghost use Rattle.pass_query.specs.Questions.{answer_text};
ghost use Rattle.pass_query.specs.declared.fault.QueryFault.{QueryFault};
ghost use Rattle.pass_pattern.specs.Patterns.{shape_of};
ghost use Rattle.pass_pattern.specs.Answers.{AreJoined, IsMatchText};

use crate::finding::find;
use crate::pattern::Pattern;
use pass_entry::Node;
use pass_query::{Form, QueryFault, Steps, to_json, to_text};
use pass_waldo::Index;
use std::alloc::{AllocError, Global};
use std::marker::Brand;
use std::sync::ledger::{Blank, Ledger};

/// The text of the nodes to which a path of the shape leads from this one.
pub fn answer(
    alloc: Global,
    index: &Index,
    from: Node,
    pattern: &Pattern,
    form: Form,
) -> Result<Vec<u8>, QueryFault>
    ensures text { IfOk result (λ v. IsMatchText index.now (shape_of pattern.now) from form v.items) }
    ensures absent { (n : Node) → (result ≡ Err (QueryFault.NoObject n)) ↔ ((n ≡ from) × ¬ (HasNode index.now from)) }
{
    let nodes = found::<Brand>(alloc, Blank::new(1), index, from, pattern)?;
    Ok(write_nodes(alloc, &nodes, form)?)
}

// The nodes as a text.
fn write_nodes(alloc: Global, nodes: &[Node], form: Form) -> Result<Vec<u8>, AllocError>
    ensures { IfOk result (λ v. v.items ≡ answer_text form (Some nodes.now)) }
{
    match form {
        Form::Lines => to_text(alloc, nodes),
        Form::Json => to_json(alloc, nodes),
    }
}

// What `find` gives, whose steps are those of the blank ledger.
fn found<L: Ledger>(
    alloc: Global,
    blank: Blank,
    index: &Index,
    from: Node,
    pattern: &Pattern,
) -> Result<Vec<Node>, QueryFault>
    requires name { blank.name ≡ L.name }
    requires parts { blank.parts ≡ L.parts }
    requires some { 0 < blank.parts }
    ensures all { IfOk result (λ v. AreJoined index.now (shape_of pattern.now) from v.items) }
    ensures absent { (n : Node) → (result ≡ Err (QueryFault.NoObject n)) ↔ ((n ≡ from) × ¬ (HasNode index.now from)) }
{
    let mut steps = Steps::<L>::new(blank);
    find(alloc, index, from, pattern, &mut steps)
}
