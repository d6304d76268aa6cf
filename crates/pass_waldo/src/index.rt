//! The index of the records of a log.
ghost use Rattle.std.specs.Prelude.{◌≡◌, ◌↔◌, ◌+◌, ℕ, List, IsTrue, IfOk, OnOk, OnErr, Some, None, Err, [], ◌∷◌, ◌++◌, length, Contains};
ghost use Rattle.std.specs.Ordering.{nat_cmp};
ghost use Rattle.pass_entry.specs.declared.objects.Node.{Node};
ghost use Rattle.pass_entry.specs.declared.record.Record.TheVariants as log;
ghost use Rattle.pass_entry.specs.declared.record.FlawReason.{FlawReason};
ghost use Rattle.pass_plain.specs.Graphs.{IsEdge};
ghost use Rattle.pass_plain.specs.WellLogged.{flaw_of, IsWellLogged};
ghost use Rattle.pass_graph.specs.ListRanks.{HasNode};
ghost use Rattle.pass_graph.specs.Logged.{Summarizes};
ghost use Rattle.pass_waldo.specs.Orders.{node_cmp};
ghost use Rattle.pass_waldo.specs.Lookups.{current_in, values_in, AreAll};

use crate::edges::Edges;
use crate::taken::Taken;
use crate::texts::Texts;
use pass_entry::{FlawReason, Node, Pnode, Record, Text};
use pass_graph::Logged;
use std::alloc::{AllocError, Global};
use std::marker::Model;

/// Why a record wasn't taken. The index is then as it was.
#[derive(Clone, Copy, PartialEq, Eq, Drop)]
pub enum IndexFault {
    /// It may not come next: the place that it would have, from 0, and the first reason.
    Flaw { place: u64, reason: FlawReason },
    /// Memory was refused.
    NoMemory,
}

impl From<AllocError> for IndexFault {
    ghost use Rattle.pass_waldo.specs.declared.index.IndexFault.TheVariants.{NoMemory};
    ghost use Rattle.std.specs.Prelude.{◌≡◌};

    ghost from_gives = { λ _ fault. fault ≡ NoMemory };

    fn from(_refused: AllocError) -> IndexFault {
        IndexFault::NoMemory
    }
}

/// The records of a log in the order in which they were taken, with their graph of versions, the names that files had, and
/// the attributes of nodes. Seen as the list of the records.
///
/// Adding a record costs a few look-ups. An edge is also put at its place among those of its two nodes: that costs a search
/// by halves, and a move of the edges above the place, of which there are none where edges come in ascending order.
#[derive(Drop)]
pub struct Index {
    taken: Taken,
    edges: Edges,
    texts: Texts,
}

impl Model for Index {
    ghost use Rattle.std.specs.Prelude.{List};
    ghost use Rattle.pass_entry.specs.declared.record.Record.{Record};

    ghost Value = { List Record };

    ghost use Rattle.pass_waldo.specs.Index.{IsIndex};

    ghost view = { λ i. i.taken };

    ghost invariant = { IsIndex };
}

impl Index {
    ghost use Rattle.pass_waldo.specs.Index.{MakesEdge, IsQuiet};

    /// An index of no records.
    pub fn new(alloc: Global) -> Result<Index, AllocError>
        ensures { IfOk result (λ i. i ≡ []) }
    {
        Ok(Index {
            taken: Taken::new(alloc),
            edges: Edges::new(alloc),
            texts: Texts::new(alloc),
        })
    }

    /// The index of records that were judged before: `logged` has the tables that their check made, and none of them is judged
    /// or copied again.
    pub fn of(alloc: Global, records: Vec<Record>, logged: Logged) -> Result<Index, AllocError>
        requires logged { IsWellLogged records.items }
        requires says { Summarizes logged records.items }
        ensures { IfOk result (λ i. i ≡ records.items) }
    {
        let edges = Edges::of(alloc, &records)?;
        let texts = Texts::of(alloc, &records)?;
        Ok(Index {
            taken: Taken::of(records, logged),
            edges,
            texts,
        })
    }

    /// The records that were taken, in order.
    pub fn records(&self) -> &[Record]
        ensures records { result.now ≡ self.now }
        ensures logged { IsWellLogged self.now }
    {
        self.taken.records()
    }

    /// Whether the node is a version that its object has had.
    pub fn has(&self, node: Node) -> bool
        ensures there { IsTrue result ↔ HasNode self.now node }
        ensures logged { IsWellLogged self.now }
    {
        match self.taken.object(node.pnode) {
            Some(told) => 1 <= node.version && node.version <= told.version,
            None => false,
        }
    }

    /// The object's current version, None where there is no such object.
    pub fn current(&self, pnode: Pnode) -> Option<u64>
        ensures { result ≡ current_in self.now pnode }
    {
        Some(self.taken.object(pnode)?.version)
    }

    /// The nodes to which the node has an edge.
    pub fn parents(&self, node: Node) -> &[Node]
        ensures { AreAll node_cmp result.now (λ s. IsEdge self.now node s) }
    {
        self.edges.parents(&node)
    }

    /// The nodes that have an edge to the node.
    pub fn children(&self, node: Node) -> &[Node]
        ensures { AreAll node_cmp result.now (λ t. IsEdge self.now t node) }
    {
        self.edges.children(&node)
    }

    /// The files to which a record gave the name, whether they still have it or not.
    pub fn by_name(&self, name: &Text) -> &[Pnode]
        ensures { AreAll nat_cmp result.now (λ p. Contains self.now (log.Name p name.now)) }
    {
        self.texts.files(name.as_bytes())
    }

    /// The values of the attribute with the nodes that have them, in the order of the records.
    pub fn by_attr(&self, attr: &Text) -> &[(Node, Text)]
        ensures { result.now ≡ values_in self.now attr.now }
    {
        self.texts.values(attr.as_bytes())
    }

    /// Takes the next record; after a fault the index is as it was.
    pub fn add(&mut self, one: &Record) -> Result<(), IndexFault>
        ensures ok { OnOk result (self.new ≡ self.old ++ one.now ∷ []) }
        ensures sound { OnOk result (flaw_of self.old one.now ≡ None) }
        ensures flaw { (reason : FlawReason) → (flaw_of self.old one.now ≡ Some reason)
            ↔ (result ≡ Err (IndexFault.Flaw (length self.old) reason)) }
        ensures err { OnErr result (self.new ≡ self.old) }
    {
        if let Some(reason) = self.taken.flaw(one) {
            let place = self.taken.records().len() as u64;
            return Err(IndexFault::Flaw { place, reason });
        }
        self.take(one)?;
        Ok(())
    }

    // Takes a record without a flaw.
    fn take(&mut self, one: &Record) -> Result<(), AllocError>
        requires { flaw_of self.old one.now ≡ None }
        ensures ok { OnOk result (self.new ≡ self.old ++ one.now ∷ []) }
        ensures err { OnErr result (self.new ≡ self.old) }
    {
        match one {
            Record::Input { target, source } => self.take_edge(one, target, source),
            Record::Version { node } => {
                let before = Node {
                    pnode: node.pnode,
                    version: node.version - 1,
                };
                self.take_edge(one, node, &before)
            }
            Record::Name { pnode, name } => self.take_name(one, *pnode, name.as_bytes()),
            Record::Attr { node, attr, value } => {
                self.take_value(one, *node, attr.as_bytes(), value)
            }
            Record::Object { .. }
            | Record::Size { .. }
            | Record::Digest { .. }
            | Record::Ceiling { .. } => self.take_quiet(one),
        }
    }

    // Takes a record that makes the edge and names nothing.
    fn take_edge(&mut self, one: &Record, target: &Node, source: &Node) -> Result<(), AllocError>
        requires fine { flaw_of self.old one.now ≡ None }
        requires edge { MakesEdge one.now target.now source.now }
        ensures ok { OnOk result (self.new ≡ self.old ++ one.now ∷ []) }
        ensures err { OnErr result (self.new ≡ self.old) }
    {
        self.edges.make_room(*target)?;
        self.edges.make_room(*source)?;
        self.taken.take(one)?;
        self.edges.put_parent(target, *source);
        self.edges.put_child(source, *target);
        Ok(())
    }

    // Takes the record that gives the file the name.
    fn take_name(&mut self, one: &Record, file: Pnode, name: &[u8]) -> Result<(), AllocError>
        requires fine { flaw_of self.old one.now ≡ None }
        requires name { one.now ≡ log.Name file name.now }
        ensures ok { OnOk result (self.new ≡ self.old ++ one.now ∷ []) }
        ensures err { OnErr result (self.new ≡ self.old) }
    {
        self.texts.make_file_room(name)?;
        self.taken.take(one)?;
        self.texts.put_file(name, file);
        Ok(())
    }

    // Takes the record that gives the node the value of the attribute.
    fn take_value(
        &mut self,
        one: &Record,
        node: Node,
        attr: &[u8],
        value: &Text,
    ) -> Result<(), AllocError>
        requires fine { flaw_of self.old one.now ≡ None }
        requires value { one.now ≡ log.Attr node attr.now value.now }
        ensures ok { OnOk result (self.new ≡ self.old ++ one.now ∷ []) }
        ensures err { OnErr result (self.new ≡ self.old) }
    {
        let value = value.clone()?;
        self.texts.make_value_room(attr)?;
        self.taken.take(one)?;
        self.texts.put_value(attr, node, value);
        Ok(())
    }

    // Takes a record that makes no edge and names nothing.
    fn take_quiet(&mut self, one: &Record) -> Result<(), AllocError>
        requires fine { flaw_of self.old one.now ≡ None }
        requires quiet { IsQuiet one.now }
        ensures ok { OnOk result (self.new ≡ self.old ++ one.now ∷ []) }
        ensures err { OnErr result (self.new ≡ self.old) }
    {
        self.taken.take(one)?;
        Ok(())
    }
}
