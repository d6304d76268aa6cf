//! The version of each object as the entries of a history move it.
ghost use Rattle.std.specs.Prelude.{ℕ, List, [], ◌∷◌, ◌++◌, ◌≡◌, ◌==◌, ◌&&◌, ◌<◌, ◌^◌, None, true, false, not, is_some, slice_get, IfOk, OnOk, if◌then◌else◌};
ghost use Rattle.std.specs.Option.{option_map_or};
ghost use Rattle.std.specs.Ordering.{nat_cmp};
ghost use Rattle.std.specs.BTreeMap.{get};
ghost use Rattle.pass_entry.specs.declared.entry.Entry.{Entry as AnyEntry};
ghost use Rattle.pass_plain.specs.declared.start.Start.{Start as AnyStart};
ghost use Rattle.pass_plain.specs.Histories.{out_of as out_of_act};
ghost use Rattle.pass_plain.specs.Sessions.{Session};
ghost use Rattle.pass_plain.specs.Versions.{source_in, version_after};
ghost use Rattle.pass_plain.specs.Lineages.{IsAlike, has, frozen, with_source, linked, lineage_act, is_fresh_act, is_freeze_act};
ghost use Rattle.pass_plain.specs.Outlines.{SameButBytes};
ghost use Rattle.pass_report.specs.Passing.{IsNext};
ghost use Rattle.pass_report.specs.Trails.{lineage_in, IsTrail, IsTurn, IsTurnOf};

use crate::opening::{is_opened, opening_version};
use pass_entry::{Act, Entry, Node, Pnode, Reply};
use pass_plain::{Start, VersionStep};
use pass_version::{Taken, Versions};
use std::alloc::{AllocError, Global};
use std::collections::BTreeMap;

/// The versions of the objects that have entries, and the node of each entry.
#[derive(Drop)]
pub struct Trail {
    alloc: Global,
    objects: BTreeMap<Pnode, Versions>,
    nodes: Vec<Node>,
}

// The version takes from the node.
fn take(versions: &mut Versions, source: Node) -> Result<VersionStep, AllocError>
    requires { versions.old.lineage.node.version < 2 ^ 63 }
    ensures moves { OnOk result (IsAlike versions.new.lineage (linked versions.old.lineage source)) }
    ensures node { IfOk result (λ t. t.node ≡ versions.new.lineage.node) }
    ensures freezes { IfOk result (λ t. t.freezes ≡ (not (has versions.old.lineage source) && versions.old.lineage.marked)) }
    ensures source { IfOk result (λ t. t.source ≡ (if has versions.old.lineage source then None else Some source)) }
{
    versions.reserve(1)?;
    let taken = versions.take(source);
    Ok(VersionStep {
        node: versions.current(),
        freezes: taken == Taken::FrozenAndLinked,
        source: if taken == Taken::Dropped {
            None
        } else {
            Some(source)
        },
    })
}

// A new version begins and takes from the program's node.
fn run(versions: &mut Versions, source: Option<Node>) -> Result<VersionStep, AllocError>
    requires { versions.old.lineage.node.version < 2 ^ 62 }
    ensures moves { OnOk result (IsAlike versions.new.lineage (option_map_or (with_source (frozen versions.old.lineage)) source (frozen versions.old.lineage))) }
    ensures node { IfOk result (λ t. t.node ≡ versions.new.lineage.node) }
    ensures freezes { IfOk result (λ t. t.freezes ≡ true) }
    ensures source { IfOk result (λ t. t.source ≡ source) }
{
    let begun = versions.freeze();
    match source {
        Some(source) => {
            let taken = take(versions, source)?;
            Ok(VersionStep {
                node: taken.node,
                freezes: true,
                source: taken.source,
            })
        }
        None => Ok(VersionStep {
            node: begun,
            freezes: true,
            source: None,
        }),
    }
}

// What an act that is no fault makes of its object's version. `source` is the node that it names.
fn apply_act(
    versions: &mut Versions,
    act: &Act,
    source: Option<Node>,
) -> Result<VersionStep, AllocError>
    requires low { versions.old.lineage.node.version < 2 ^ 62 }
    requires named { out_of_act act.now ≡ None → source ≡ None }
    ensures moves { OnOk result (IsAlike versions.new.lineage (lineage_act versions.old.lineage source act.now)) }
    ensures node { IfOk result (λ t. t.node ≡ versions.new.lineage.node) }
    ensures freezes { IfOk result (λ t. t.freezes ≡ is_freeze_act versions.old.lineage source act.now) }
    ensures source { IfOk result (λ t. t.source ≡ (if is_fresh_act versions.old.lineage source act.now then source else None)) }
{
    match act {
        Act::Freeze => Ok(VersionStep {
            node: versions.freeze(),
            freezes: true,
            source: None,
        }),
        Act::Exec { .. } => run(versions, source),
        Act::Show { .. }
        | Act::Spawn { .. }
        | Act::Reap
        | Act::Give { .. }
        | Act::Load
        | Act::Take { .. }
        | Act::Cite => Ok(VersionStep {
            node: versions.mark(),
            freezes: false,
            source: None,
        }),
        _ => match source {
            Some(source) => take(versions, source),
            None => Ok(VersionStep {
                node: versions.current(),
                freezes: false,
                source: None,
            }),
        },
    }
}

// The place of the entry that an act on a target names.
fn out_of(act: &Act) -> Option<u64>
    ensures { result ≡ out_of_act act.now }
{
    match act {
        Act::Born { out, .. }
        | Act::Gain { out, .. }
        | Act::Exec { out, .. }
        | Act::Gather { out, .. }
        | Act::Put { out, .. }
        | Act::Cut { out, .. }
        | Act::Push { out, .. }
        | Act::Told { out } => Some(*out),
        _ => None,
    }
}

/// The node at a place.
pub(crate) fn node_at(nodes: &[Node], place: u64) -> Option<Node>
    ensures { result ≡ slice_get nodes.now place }
{
    nodes.get(place as usize).copied()
}

impl Trail {
    /// Before the first entry.
    pub fn new(alloc: Global) -> Trail
        ensures { (start : AnyStart) (session : Session) → SameButBytes start session.start → IsTrail start session [] result }
    {
        Trail {
            alloc,
            objects: BTreeMap::new(alloc),
            nodes: Vec::new(alloc),
        }
    }

    /// The nodes of the entries, by their places.
    pub fn nodes(&self) -> &[Node]
        ensures { result.now ≡ self.now.nodes.items }
    {
        self.nodes.as_slice()
    }

    /// The node of the entry at a place.
    pub fn node_at(&self, place: u64) -> Option<Node>
        ensures { result ≡ slice_get self.now.nodes.items place }
    {
        node_at(self.nodes(), place)
    }

    /// The last version of an object.
    pub fn version(&self, start: &Start, pnode: Pnode) -> u64
        ensures { (session : Session) (history : List AnyEntry) → IsTrail start.now session history self.now → result ≡ version_after session history pnode }
    {
        match self.objects.get(&pnode) {
            Some(versions) => versions.current().version,
            None => opening_version(start, pnode),
        }
    }

    /// One more entry.
    pub fn note(&mut self, start: &Start, entry: &Entry) -> Result<VersionStep, AllocError>
        requires { (session : Session) × (past : List AnyEntry) × IsNext start.now session past entry.now × IsTrail start.now session past self.old }
        ensures { IfOk result (λ turn. (session : Session) (past : List AnyEntry) → IsNext start.now session past entry.now → IsTrail start.now session past self.old
            → IsTrail start.now session (past ++ entry.now ∷ []) self.new × IsTurn session past entry.now turn) }
    {
        self.meet(start, entry.what)?;
        let turn = self.turn_of(start, entry)?;
        self.nodes.push(turn.node)?;
        Ok(turn)
    }

    // The object has a place among those that have entries.
    fn meet(&mut self, start: &Start, pnode: Pnode) -> Result<(), AllocError>
        ensures met { OnOk result (is_some (get nat_cmp self.new.objects pnode) ≡ true) }
        ensures lineages { OnOk result ((object : ℕ) → lineage_in start.now self.new object ≡ lineage_in start.now self.old object) }
        ensures nodes { self.new.nodes.items ≡ self.old.nodes.items }
    {
        if !self.objects.contains_key(&pnode) {
            let version = opening_version(start, pnode);
            let versions = Versions::new(self.alloc, pnode, version, is_opened(start, pnode));
            self.objects.insert(pnode, versions)?;
        }
        Ok(())
    }

    // What the entry makes of its object's version.
    fn turn_of(&mut self, start: &Start, entry: &Entry) -> Result<VersionStep, AllocError>
        requires met { is_some (get nat_cmp self.old.objects entry.now.what) ≡ true }
        requires low { (lineage_in start.now self.old entry.now.what).node.version < 2 ^ 62 }
        ensures turn { IfOk result (λ turn. IsTurnOf (lineage_in start.now self.old entry.now.what) (source_in self.old.nodes.items entry.now) entry.now turn (lineage_in start.now self.new entry.now.what)) }
        ensures others { OnOk result ((object : ℕ) → (entry.now.what == object) ≡ false → lineage_in start.now self.new object ≡ lineage_in start.now self.old object) }
        ensures nodes { self.new.nodes.items ≡ self.old.nodes.items }
    {
        let source = match out_of(&entry.act) {
            Some(out) => self.node_at(out),
            None => None,
        };
        let unknown = Node {
            pnode: entry.what,
            version: 1,
        };
        match self.objects.get_mut(&entry.what) {
            Some(versions) => match &entry.reply {
                Reply::Fault(_) => Ok(VersionStep {
                    node: versions.current(),
                    freezes: false,
                    source: None,
                }),
                _ => apply_act(versions, &entry.act, source),
            },
            None => Ok(VersionStep {
                node: unknown,
                freezes: false,
                source: None,
            }),
        }
    }
}
