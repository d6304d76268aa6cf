//! How many records the entries of a history have, and the edges of these.
ghost use Rattle.std.specs.Prelude.{ℕ, List, [], ◌∷◌, ◌++◌, ◌≡◌, ◌+◌, ◌≤◌, ◌<◌, ◌^◌, true, false, fold, bytes_eq, IfOk, OnOk, if◌then◌else◌};
ghost use Rattle.std.specs.BTreeSet.{insert_key};
ghost use Rattle.pass_entry.specs.declared.entry.Entry.{Entry as AnyEntry};
ghost use Rattle.pass_plain.specs.Histories.{is_fault as is_fault_of};
ghost use Rattle.pass_plain.specs.Sessions.{Session};
ghost use Rattle.pass_plain.specs.Sound.{IsSound};
ghost use Rattle.pass_plain.specs.Outlines.{SameButBytes};
ghost use Rattle.pass_report.specs.Reports.{edge_cmp};
ghost use Rattle.pass_report.specs.Passing.{IsNext};
ghost use Rattle.pass_report.specs.Trails.{IsTurn};
ghost use Rattle.pass_report.specs.Names.{holds};
ghost use Rattle.pass_report.specs.Logging.{one_if, version_count, args_count, own_count, turn_edges, IsLogged};

use crate::files::Files;
use crate::lines::Edge;
use crate::names::Names;
use pass_entry::{Act, Entry, Node, Reply, Text};
use pass_plain::{Start, VersionStep};
use std::alloc::{AllocError, Global};
use std::collections::BTreeSet;

/// The records of the entries so far: how many there are, and their edges in order.
#[derive(Drop)]
pub struct Logged {
    pub records: u128,
    pub edges: BTreeSet<Edge>,
    files: Files,
    names: Names,
}

// How many records tell of a new version and of an input.
fn version_records(turn: &VersionStep) -> u64
    ensures { result ≡ version_count turn.now }
{
    u64::from(turn.freezes) + u64::from(turn.source.is_some())
}

// How many records tell of a program's arguments.
fn args_records(args: &Text) -> u64
    ensures { result ≡ args_count args.now }
{
    u64::from(!args.as_bytes().is_empty())
}

// How many records a rename has.
fn move_records(names: &Names, from: &Text, to: &Text) -> u64
    ensures count { result ≡ (if bytes_eq from.now to.now then 0 else 1 + one_if (holds names.now to.now)) }
    ensures few { result ≤ 2 }
{
    if from == to {
        0
    } else {
        1 + u64::from(names.contains(to))
    }
}

// How many records an entry has beside those of a file's content. `names` are those before it.
fn own_records(names: &Names, act: &Act, turn: &VersionStep) -> u64
    ensures count { result ≡ own_count names.now turn.now act.now }
    ensures few { result ≤ 4 }
{
    match act {
        Act::Bind { .. } => 2,
        Act::Mint { .. } | Act::Unbind { .. } | Act::Tag { .. } => 1,
        Act::Move { from, to } => move_records(names, from, to),
        Act::Exec { args, .. } => version_records(turn) + (1 + args_records(args)),
        _ => version_records(turn),
    }
}

impl Logged {
    /// Before the first entry.
    pub fn opened(alloc: Global, start: &Start) -> Result<Logged, AllocError>
        ensures { IfOk result (λ l. (session : Session) → SameButBytes start.now session.start → IsSound session → IsLogged start.now session [] l) }
    {
        let names = Names::opened(alloc, start)?;
        Ok(Logged {
            records: 0,
            edges: BTreeSet::new(alloc),
            files: Files::new(alloc),
            names,
        })
    }

    /// One more entry, which made this step of its object's version.
    pub fn note(
        &mut self,
        start: &Start,
        entry: &Entry,
        turn: &VersionStep,
    ) -> Result<(), AllocError>
        requires { (session : Session) × (past : List AnyEntry) × IsNext start.now session past entry.now × IsTurn session past entry.now turn.now × IsLogged start.now session past self.old }
        ensures { OnOk result ((session : Session) (past : List AnyEntry) → IsNext start.now session past entry.now → IsTurn session past entry.now turn.now
            → IsLogged start.now session past self.old → IsLogged start.now session (past ++ entry.now ∷ []) self.new) }
    {
        match &entry.reply {
            Reply::Fault(_) => Ok(()),
            _ => self.add(start, entry, turn),
        }
    }

    // One more entry that is no fault.
    fn add(&mut self, start: &Start, entry: &Entry, turn: &VersionStep) -> Result<(), AllocError>
        requires fine { is_fault_of entry.now.reply ≡ false }
        requires known { (session : Session) × (past : List AnyEntry) × IsNext start.now session past entry.now × IsTurn session past entry.now turn.now × IsLogged start.now session past self.old }
        ensures { OnOk result ((session : Session) (past : List AnyEntry) → IsNext start.now session past entry.now → IsTurn session past entry.now turn.now
            → IsLogged start.now session past self.old → IsLogged start.now session (past ++ entry.now ∷ []) self.new) }
    {
        let own = own_records(&self.names, &entry.act, turn);
        let content = self.files.note(start, entry)?;
        self.names.note(entry)?;
        self.records += u128::from(own + content);
        join(&mut self.edges, turn)
    }
}

// The edges of the records of an entry.
fn join(edges: &mut BTreeSet<Edge>, turn: &VersionStep) -> Result<(), AllocError>
    requires { turn.now.freezes ≡ true → 1 ≤ turn.now.node.version }
    ensures { OnOk result (edges.new.keys ≡ fold (insert_key edge_cmp) edges.old.keys (turn_edges turn.now)) }
{
    if turn.freezes {
        let Node { pnode, version } = turn.node;
        let before = Node {
            pnode,
            version: version - 1,
        };
        edges.insert((turn.node, before))?;
    }
    if let Some(source) = turn.source {
        edges.insert((turn.node, source))?;
    }
    Ok(())
}
