//! Flows of data.
ghost use Rattle.std.specs.Prelude.{◌≡◌, ◌↔◌, ◌&&◌, ◌||◌, ◌==◌, ℕ, List, IfOk, OnOk, true, false};
ghost use Rattle.std.specs.List.{list_any};
ghost use Rattle.std.specs.Option.{option_map_or};
ghost use Rattle.std.specs.HashMap.{get};
ghost use Rattle.std.specs.HashSet.{contains};
ghost use Rattle.pass_entry.specs.declared.objects.Node.{Node};
ghost use Rattle.pass_entry.specs.declared.record.Record.{Record};
ghost use Rattle.pass_plain.specs.Versions.{same_node};
ghost use Rattle.pass_plain.specs.WellLogged.{IsWellLogged};
ghost use Rattle.pass_view.specs.Facts.{is_process};
ghost use Rattle.pass_files.specs.Data.{HasDataPath, edge_in, first_look, first_source, gives_program, is_data, is_of_exec, is_of_fork};
ghost use Rattle.pass_files.specs.Tables.{found_back, found_on};

use crate::facts::{kinds_of, version_before};
use pass_entry::{Kind, Node, Record};
use std::alloc::{AllocError, Global};
use std::collections::{HashMap, HashSet};

/// What tells edges of data from others.
#[derive(Drop)]
pub(crate) struct Flows {
    kinds: HashMap<u64, Kind>,
    firsts: HashMap<Node, Node>,
    execs: HashSet<Node>,
}

impl Flows {
    ghost use Rattle.pass_files.specs.Tables.{AreFlows};

    pub(crate) fn of(alloc: Global, records: &[Record]) -> Result<Flows, AllocError>
        ensures { IfOk result (AreFlows records.now) }
    {
        Ok(Flows {
            kinds: kinds_of(alloc, records)?,
            firsts: firsts_of(alloc, records)?,
            execs: execs_of(alloc, records)?,
        })
    }

    fn is_process(&self, node: &Node) -> bool
        ensures { (list : List Record) → AreFlows list self.now → result ≡ is_process list node.now.pnode }
    {
        match self.kinds.get(&node.pnode.0) {
            Some(kind) => *kind == Kind::Process,
            None => false,
        }
    }

    fn is_first(&self, target: &Node, source: &Node) -> bool
        ensures { (list : List Record) → AreFlows list self.now → result ≡ option_map_or (same_node source.now) (first_source list target.now) false }
    {
        match self.firsts.get(target) {
            Some(first) => source == first,
            None => false,
        }
    }

    fn is_of_fork(&self, target: &Node, source: &Node) -> bool
        ensures { (list : List Record) → AreFlows list self.now → result ≡ is_of_fork list target.now source.now }
    {
        target.version == 1 && (self.is_process(target) && self.is_process(source))
    }

    fn has_program(&self, target: &Node) -> bool
        ensures { (list : List Record) → AreFlows list self.now → result ≡ list_any (gives_program target.now) list }
    {
        self.execs.contains(target)
    }

    // Whether the source is an older version, or the first source.
    fn is_begun_by(&self, target: &Node, source: &Node) -> bool
        ensures { (list : List Record) → AreFlows list self.now → result ≡ ((source.now.pnode == target.now.pnode)
            || option_map_or (same_node source.now) (first_source list target.now) false) }
    {
        source.pnode == target.pnode || self.is_first(target, source)
    }

    fn is_of_exec(&self, target: &Node, source: &Node) -> bool
        ensures { (list : List Record) → AreFlows list self.now → result ≡ is_of_exec list target.now source.now }
    {
        self.is_process(target) && (self.has_program(target) && self.is_begun_by(target, source))
    }

    // Whether the edge from the target to the source is one of data.
    fn is_data(&self, target: &Node, source: &Node) -> bool
        ensures { (list : List Record) → AreFlows list self.now → result ≡ is_data list target.now source.now }
    {
        !(self.is_of_fork(target, source) || self.is_of_exec(target, source))
    }
}

// The first source of each version that has one.
fn firsts_of(alloc: Global, records: &[Record]) -> Result<HashMap<Node, Node>, AllocError>
    ensures { IfOk result (λ firsts. (n : Node) → get same_node firsts n ≡ first_source records.now n) }
{
    let mut firsts = HashMap::new(alloc);
    for one in records {
        note_first(&mut firsts, one)?;
    }
    Ok(firsts)
}

#[tactic(auto, using(crate::proofs::Rows::first_kept, crate::proofs::Rows::first_put, crate::proofs::Rows::first_other))]
fn note_first(firsts: &mut HashMap<Node, Node>, one: &Record) -> Result<(), AllocError>
    ensures { OnOk result ((n : Node) → get same_node firsts.new n ≡ first_look n (get same_node firsts.old n) one.now) }
{
    if let Record::Input { target, source } = one {
        if !firsts.contains_key(target) {
            firsts.insert(*target, *source)?;
        }
    }
    Ok(())
}

// The versions to which a record gives a program.
fn execs_of(alloc: Global, records: &[Record]) -> Result<HashSet<Node>, AllocError>
    ensures { IfOk result (λ execs. (n : Node) → contains same_node execs n ≡ list_any (gives_program n) records.now) }
{
    let mut execs = HashSet::new(alloc);
    for one in records {
        note_exec(&mut execs, one)?;
    }
    Ok(execs)
}

#[tactic(auto, using(crate::proofs::Rows::added_where, crate::proofs::Rows::kept_where, crate::proofs::Rows::no_program))]
fn note_exec(execs: &mut HashSet<Node>, one: &Record) -> Result<(), AllocError>
    ensures { OnOk result ((n : Node) → contains same_node execs.new n ≡ (contains same_node execs.old n || gives_program n one.now)) }
{
    if let Record::Attr { node, attr, .. } = one {
        if attr.as_bytes() == b"EXE".as_slice() {
            execs.insert(*node)?;
        }
    }
    Ok(())
}

// The edge that the record makes, from the target to the source.
fn edge_in(one: &Record) -> Option<(Node, Node)>
    ensures { result ≡ edge_in one.now }
{
    match one {
        Record::Input { target, source } => Some((*target, *source)),
        Record::Version { node } => Some((*node, version_before(node))),
        _ => None,
    }
}

/// Which way flows of data are followed.
#[derive(Clone, Copy)]
pub(crate) enum Way {
    /// To what the first node came from.
    Back,
    /// To what came from the first node.
    On,
}

ghost use Rattle.pass_files.specs.Tables.{AreFlows};
ghost use Rattle.pass_files.specs.Data.{Flowing};

/// The nodes to which edges of data lead from the first one this way. An edge stands in the records behind all edges that leave its
/// source, so one pass finds them.
pub(crate) fn flowing(
    alloc: Global,
    records: &[Record],
    first: &Node,
    way: Way,
) -> Result<HashSet<Node>, AllocError>
    requires { IsWellLogged records.now }
    ensures { IfOk result (λ found. (n : Node) → (contains same_node found n ≡ true) ↔ Flowing way records.now first.now n) }
{
    let flows = Flows::of(alloc, records)?;
    match way {
        Way::Back => flowing_back(alloc, records, &flows, first),
        Way::On => flowing_on(alloc, records, &flows, first),
    }
}

// From the last record to the first.
fn flowing_back(
    alloc: Global,
    records: &[Record],
    flows: &Flows,
    first: &Node,
) -> Result<HashSet<Node>, AllocError>
    requires logged { IsWellLogged records.now }
    requires flows { AreFlows records.now flows.now }
    ensures { IfOk result (λ found. (n : Node) → (contains same_node found n ≡ true) ↔ HasDataPath records.now first.now n) }
{
    let mut found = HashSet::new(alloc);
    for place in (0..records.len()).rev() {
        go_back(flows, &mut found, first, &records[place])?;
    }
    Ok(found)
}

// From the first record to the last.
fn flowing_on(
    alloc: Global,
    records: &[Record],
    flows: &Flows,
    first: &Node,
) -> Result<HashSet<Node>, AllocError>
    requires logged { IsWellLogged records.now }
    requires flows { AreFlows records.now flows.now }
    ensures { IfOk result (λ found. (n : Node) → (contains same_node found n ≡ true) ↔ HasDataPath records.now n first.now) }
{
    let mut found = HashSet::new(alloc);
    for one in records {
        go_on(flows, &mut found, first, one)?;
    }
    Ok(found)
}

// Goes back along the record's edge.
fn go_back(
    flows: &Flows,
    found: &mut HashSet<Node>,
    first: &Node,
    one: &Record,
) -> Result<(), AllocError>
    ensures { (list : List Record) → AreFlows list flows.now → OnOk result ((n : Node) → contains same_node found.new n
        ≡ found_back list first.now (edge_in one.now) (contains same_node found.old) n) }
{
    match edge_in(one) {
        Some((target, source)) => {
            if flows.is_data(&target, &source) {
                reach(found, first, &target, source)
            } else {
                Ok(())
            }
        }
        None => Ok(()),
    }
}

// Goes on along the record's edge.
fn go_on(
    flows: &Flows,
    found: &mut HashSet<Node>,
    first: &Node,
    one: &Record,
) -> Result<(), AllocError>
    ensures { (list : List Record) → AreFlows list flows.now → OnOk result ((n : Node) → contains same_node found.new n
        ≡ found_on list first.now (edge_in one.now) (contains same_node found.old) n) }
{
    match edge_in(one) {
        Some((target, source)) => {
            if flows.is_data(&target, &source) {
                reach(found, first, &source, target)
            } else {
                Ok(())
            }
        }
        None => Ok(()),
    }
}

// One node more is found where that from which it is reached is the first one, or was found.
#[tactic(auto, using(crate::proofs::Rows::added_where, crate::proofs::Rows::kept_where))]
fn reach(found: &mut HashSet<Node>, first: &Node, from: &Node, to: Node) -> Result<(), AllocError>
    ensures { OnOk result ((n : Node) → contains same_node found.new n
        ≡ (contains same_node found.old n || (same_node to n && (same_node from.now first.now || contains same_node found.old from.now)))) }
{
    if from == first || found.contains(from) {
        found.insert(to)?;
    }
    Ok(())
}
