//! Whether a list of records is well logged, and ranks for its graph.
ghost use Rattle.std.specs.Prelude.{◌≡◌, ℕ, ◌<◌, List, Some, None, IfOk, OnOk, OnErr, IfErr, [], ◌∷◌, ◌++◌, length, map, false, ◌||◌};
ghost use Rattle.pass_entry.specs.declared.record.Record.{Record};
ghost use Rattle.pass_plain.specs.Graphs.{IsAcyclic};
ghost use Rattle.pass_plain.specs.WellLogged.{first_flaw, has_source, IsWellLogged};
ghost use Rattle.pass_graph.specs.ListRanks.{ranks_of, FallAlong, list_rank, graph_nodes, made_node, begins_after};
ghost use Rattle.std.specs.Option.{option_map_or};
ghost use Rattle.pass_entry.specs.declared.objects.Node.{Node};
ghost use Rattle.pass_plain.specs.Versions.{same_node};
ghost use Rattle.pass_graph.specs.Check.{IsFlawOf};
ghost use Rattle.pass_graph.specs.Logged.{Summarizes};

use crate::logged::Logged;
use pass_entry::{FlawReason, Node, Record};
use std::alloc::{AllocError, Global};
use std::collections::HashMap;

/// The versions of a list's objects in the order in which the list makes them, each with a number that is greater than
/// those of all versions to which it has an edge.
#[derive(Drop)]
pub struct Ranks {
    pub places: Vec<(Node, u64)>,
}

/// Why a list got no ranks.
#[derive(Clone, Copy, PartialEq, Eq, Drop)]
pub enum CheckFault {
    /// The list isn't well logged: the place of the first record that may not stand there, and its first reason.
    Flaw { place: u64, reason: FlawReason },
    /// Memory was refused.
    NoMemory,
}

impl From<AllocError> for CheckFault {
    ghost use Rattle.pass_graph.specs.declared.checking.CheckFault.TheVariants.{NoMemory};
    ghost use Rattle.std.specs.Prelude.{◌≡◌};

    ghost from_gives = { λ _ fault. fault ≡ NoMemory };

    fn from(_refused: AllocError) -> CheckFault {
        CheckFault::NoMemory
    }
}

/// What the list says, in tables, where it is well logged.
pub fn read(alloc: Global, list: &[Record]) -> Result<Logged, CheckFault>
    ensures ok { OnOk result (IsWellLogged list.now) }
    ensures says { IfOk result (λ logged. Summarizes logged list.now) }
    ensures flaw { IfErr result (IsFlawOf list.now) }
{
    let mut logged = Logged::new(alloc);
    for (place, one) in list.iter().enumerate() {
        if let Some(reason) = logged.flaw(one) {
            return Err(CheckFault::Flaw {
                place: place as u64,
                reason,
            });
        }
        logged.add(one)?;
    }
    Ok(logged)
}

/// Whether the list is well logged, and then its ranks.
pub fn check(alloc: Global, list: &[Record]) -> Result<Ranks, CheckFault>
    ensures ok { OnOk result (IsWellLogged list.now) }
    ensures flaw { IfErr result (IsFlawOf list.now) }

    ensures ranks { IfOk result (λ r. r.places.items ≡ ranks_of list.now) }
    ensures falls { IfOk result (λ r. FallAlong list.now r.places.items) }
    ensures acyclic { OnOk result (IsAcyclic list.now) }
{
    read(alloc, list)?;
    let mut ranking = Ranking::new(alloc);
    for (place, one) in list.iter().enumerate() {
        ranking.add(one, place as u64)?;
    }
    let places = ranking.places(alloc, list.len() as u64)?;
    Ok(Ranks { places })
}

// The node that the record makes.
fn made_node(one: &Record) -> Option<Node>
    ensures { result ≡ made_node one.now }
{
    match one {
        Record::Object { pnode, .. } => Some(Node {
            pnode: *pnode,
            version: 1,
        }),
        Record::Version { node } => Some(*node),
        _ => None,
    }
}

// The node that the record names as a source, or that its version ends.
fn closed_node(one: &Record) -> Option<Node>
    ensures { (node : Node) → (has_source node one.now || begins_after node one.now) ≡ option_map_or (λ n. same_node n node) result false }
{
    match one {
        Record::Input { source, .. } => Some(*source),
        Record::Version { node } => Some(Node {
            pnode: node.pnode,
            version: node.version.checked_sub(1)?,
        }),
        _ => None,
    }
}

// The nodes of the records so far, and for those that a record has named as a source or ended the place of the first
// such record.
#[derive(Drop)]
struct Ranking {
    nodes: Vec<Node>,
    closed: HashMap<Node, u64>,
}

impl Ranking {
    ghost use Rattle.pass_graph.specs.Check.{IsRankingOf, AreFirst};

    fn new(alloc: Global) -> Ranking
        ensures { IsRankingOf [] result }
    {
        Ranking {
            nodes: Vec::new(alloc),
            closed: HashMap::new(alloc),
        }
    }

    // Takes the record at the place.
    fn add(&mut self, one: &Record, place: u64) -> Result<(), AllocError>
        ensures { OnOk result ((list : List Record) → IsRankingOf list self.old → length list ≡ place
            → IsRankingOf (list ++ one.now ∷ []) self.new) }
    {
        self.close(one, place)?;
        if let Some(node) = made_node(one) {
            self.nodes.push(node)?;
        }
        Ok(())
    }

    // The node that the record closes has the place, if it had none.
    fn close(&mut self, one: &Record, place: u64) -> Result<(), AllocError>
        ensures nodes { self.new.nodes ≡ self.old.nodes }
        ensures closed { OnOk result ((list : List Record) → AreFirst list self.old.closed → length list ≡ place
            → AreFirst (list ++ one.now ∷ []) self.new.closed) }
    {
        let Some(node) = closed_node(one) else {
            return Ok(());
        };
        if !self.closed.contains_key(&node) {
            self.closed.insert(node, place)?;
        }
        Ok(())
    }

    // The nodes with their ranks; those without one have the list's length.
    fn places(&self, alloc: Global, end: u64) -> Result<Vec<(Node, u64)>, AllocError>
        ensures { IfOk result (λ places. (list : List Record) → IsRankingOf list self.now → length list ≡ end → places.items ≡ ranks_of list) }
    {
        let mut places = Vec::new(alloc);
        for node in &self.nodes {
            let rank = self.closed.get(node).copied().unwrap_or(end);
            places.push((*node, rank))?;
        }
        Ok(places)
    }
}
