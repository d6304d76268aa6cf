//! A search of the graph along the code of a pattern.
ghost use Rattle.std.specs.Prelude.{◌≡◌, ◌<◌, true, Some, slice_get, ◌+◌, ◌*◌, ◌≤◌, ◌↔◌, ◌⊎◌, IsTrue, IfOk, OnOk, List, length};
ghost use Rattle.indexmap.specs.IndexSet.{index_set_len};
ghost use Rattle.pass_entry.specs.declared.objects.Node.{Node};
ghost use Rattle.pass_plain.specs.Graphs.{IsEdge};
ghost use Rattle.pass_waldo.specs.Orders.{node_cmp};
ghost use Rattle.pass_waldo.specs.Lookups.{AreAll};
ghost use Rattle.pass_query.specs.Answers.{HasAllLeaving};
ghost use Rattle.pass_pattern.specs.Patterns.{passes, HadName};
ghost use Rattle.pass_pattern.specs.Codes.{edges_in};
ghost use Rattle.pass_pattern.specs.Visits.{visit, Adds, AreVisits, IsCounted, IsCountedBy, IsPassed, Leads, LeadsBy};

use crate::code::Instruction;
use crate::pattern::EdgeTest;
use indexmap::IndexSet;
use pass_entry::{Node, Text};
use pass_query::Steps;
use pass_waldo::Index;
use std::alloc::{AllocError, Global};
use std::sync::ledger::Ledger;

/// A node with the place of the code at which a search came to it.
#[derive(Clone, Copy, PartialEq, Eq, Hash)]
pub(crate) struct Visit {
    pub(crate) node: Node,
    pub(crate) place: usize,
}

// The edges of a node, each against a step.
fn row<'a, L: Ledger>(index: &'a Index, node: &Node, steps: &mut Steps<L>) -> &'a [Node]
    ensures row { AreAll node_cmp result.now (λ b. IsEdge index.now node.now b) }
    ensures steps { steps.new ≡ steps.old + length result.now }
{
    let row = index.parents(*node);
    for _edge in row {
        steps.tick();
    }
    row
}

// Whether an edge between the nodes passes the test.
fn passes(edge: EdgeTest, from: &Node, to: &Node) -> bool
    ensures { result ≡ passes edge from.now to.now }
{
    match edge {
        EdgeTest::Other => from.pnode != to.pnode,
        EdgeTest::Same => from.pnode == to.pnode,
        EdgeTest::Any => true,
    }
}

// Whether a record gave the name to the object, where there is a name.
fn had_name(index: &Index, name: &Option<Text>, node: &Node) -> bool
    ensures { IsTrue result ↔ HadName index.now name.now node.now.pnode }
{
    match name {
        Some(name) => index.by_name(name).binary_search(&node.pnode).is_ok(),
        None => true,
    }
}

// Whether an edge between the nodes passes the test, where there is a name to a node whose object had it.
fn leads(index: &Index, edge: EdgeTest, name: &Option<Text>, from: &Node, to: &Node) -> bool
    ensures { IsTrue result ↔ (passes edge from.now to.now ≡ true) × HadName index.now name.now to.now.pnode }
{
    passes(edge, from, to) && had_name(index, name, to)
}

// One more visit, if it isn't there.
fn add(visits: &mut IndexSet<Visit>, visit: Visit) -> Result<(), AllocError>
    ensures { OnOk result (Adds (λ x. x ≡ visit) visits.old.keys visits.new.keys) }
{
    visits.insert(visit)?;
    Ok(())
}

// The visits to which the edges from the node to those of the row lead.
fn along(
    index: &Index,
    visits: &mut IndexSet<Visit>,
    from: &Node,
    row: &[Node],
    edge: EdgeTest,
    name: &Option<Text>,
    next: usize,
) -> Result<(), AllocError>
    ensures { OnOk result (Adds (IsPassed index.now row.now edge name.now next from.now) visits.old.keys visits.new.keys) }
{
    for node in row {
        if leads(index, edge, name, from, node) {
            add(
                visits,
                Visit {
                    node: *node,
                    place: next,
                },
            )?;
        }
    }
    Ok(())
}

// The node at both places.
fn both(
    visits: &mut IndexSet<Visit>,
    node: &Node,
    one: usize,
    other: usize,
) -> Result<(), AllocError>
    ensures { OnOk result (Adds (λ x. (x ≡ visit node.now one) ⊎ (x ≡ visit node.now other)) visits.old.keys visits.new.keys) }
{
    add(
        visits,
        Visit {
            node: *node,
            place: one,
        },
    )?;
    add(
        visits,
        Visit {
            node: *node,
            place: other,
        },
    )
}

// The visits to which the instruction leads from the node.
fn go_on<L: Ledger>(
    index: &Index,
    instruction: &Instruction,
    visits: &mut IndexSet<Visit>,
    node: &Node,
    steps: &mut Steps<L>,
) -> Result<(), AllocError>
    ensures visits { OnOk result (Adds (LeadsBy index.now instruction.now node.now) visits.old.keys visits.new.keys) }
    ensures steps { IsCountedBy index.now instruction.now node.now steps.old steps.new }
{
    match instruction {
        Instruction::Along { edge, name, next } => {
            let row = row(index, node, steps);
            along(index, visits, node, row, *edge, name, *next)
        }
        Instruction::Both(one, other) => both(visits, node, *one, *other),
        Instruction::Found => Ok(()),
    }
}

// The visits to which the code leads from the visit.
fn follow<L: Ledger>(
    index: &Index,
    code: &[Instruction],
    visits: &mut IndexSet<Visit>,
    visit: &Visit,
    steps: &mut Steps<L>,
) -> Result<(), AllocError>
    ensures visits { OnOk result (Adds (Leads index.now code.now visit.now) visits.old.keys visits.new.keys) }
    ensures steps { IsCounted index.now code.now visit.now steps.old steps.new }
{
    match code.get(visit.place) {
        Some(instruction) => go_on(index, instruction, visits, &visit.node, steps),
        None => Ok(()),
    }
}

// The visit at the place.
fn visit_at(visits: &IndexSet<Visit>, place: usize) -> Visit
    requires { place < index_set_len visits.now }
    ensures { slice_get visits.now.keys place ≡ Some result }
{
    visits.as_slice()[place]
}

/// All visits to which the code leads from the first one. A step looks at one edge for one instruction.
pub(crate) fn search<L: Ledger>(
    alloc: Global,
    index: &Index,
    code: &[Instruction],
    first: &Visit,
    steps: &mut Steps<L>,
) -> Result<IndexSet<Visit>, AllocError>
    ensures visits { IfOk result (λ v. AreVisits index.now code.now first.now v.keys) }
    ensures steps { (edges : List (Node × Node)) → HasAllLeaving index.now first.now.node edges
        → steps.new ≤ steps.old + edges_in code.now * length edges }
{
    let mut visits = IndexSet::new(alloc);
    add(&mut visits, *first)?;
    let mut next = 0;
    while next < visits.len() {
        let visit = visit_at(&visits, next);
        follow(index, code, &mut visits, &visit, steps)?;
        next += 1;
    }
    Ok(visits)
}
