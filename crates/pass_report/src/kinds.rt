//! The objects of a history and their kinds.
ghost use Rattle.std.specs.Prelude.{ℕ, List, [], ◌∷◌, ◌++◌, ◌≡◌, ◌==◌, Some, None, OnOk, if◌then◌else◌};
ghost use Rattle.std.specs.Ordering.{nat_cmp};
ghost use Rattle.std.specs.BTreeMap.{get};
ghost use Rattle.std.specs.Option.{option_or};
ghost use Rattle.pass_entry.specs.declared.entry.Entry.{Entry as AnyEntry};
ghost use Rattle.pass_plain.specs.declared.start.Start.{Start as AnyStart};
ghost use Rattle.pass_plain.specs.Histories.{made_kind as made_kind_of};
ghost use Rattle.pass_plain.specs.Sessions.{Session};
ghost use Rattle.pass_plain.specs.Outlines.{SameButBytes};
ghost use Rattle.pass_report.specs.Reports.{kind_of};
ghost use Rattle.pass_report.specs.Passing.{IsNext};
ghost use Rattle.pass_report.specs.Kinds.{made_by as made_by_entry, AreKinds};

use crate::opening::opening_kind;
use pass_entry::{Act, Entry, Kind, Pnode, Reply};
use pass_plain::Start;
use std::alloc::{AllocError, Global};
use std::collections::{BTreeMap, BTreeSet};

/// The kinds of the objects that were made, and all objects that were made or have entries.
#[derive(Drop)]
pub struct Kinds {
    made: BTreeMap<Pnode, Kind>,
    pub touched: BTreeSet<Pnode>,
}

// The kind of object that an act makes.
fn made_kind(act: &Act) -> Option<Kind>
    ensures { result ≡ made_kind_of act.now }
{
    match act {
        Act::Bind { .. } => Some(Kind::File),
        Act::Mint { kind } => Some(*kind),
        _ => None,
    }
}

// The object that an entry makes, with its kind.
fn made_by(entry: &Entry) -> Option<(Pnode, Kind)>
    ensures { result ≡ made_by_entry entry.now.act entry.now.reply }
{
    match &entry.reply {
        Reply::Made(pnode) => match made_kind(&entry.act) {
            Some(kind) => Some((*pnode, kind)),
            None => None,
        },
        _ => None,
    }
}

impl Kinds {
    /// Before the first entry.
    pub fn new(alloc: Global) -> Kinds
        ensures { (start : AnyStart) (session : Session) → SameButBytes start session.start → AreKinds start session [] result }
    {
        Kinds {
            made: BTreeMap::new(alloc),
            touched: BTreeSet::new(alloc),
        }
    }

    /// One more entry.
    pub fn note(&mut self, entry: &Entry) -> Result<(), AllocError>
        ensures { OnOk result ((start : AnyStart) (session : Session) (past : List AnyEntry) → IsNext start session past entry.now → AreKinds start session past self.old
            → AreKinds start session (past ++ entry.now ∷ []) self.new) }
    {
        self.touched.insert(entry.what)?;
        match made_by(entry) {
            Some(made) => {
                self.touched.insert(made.0)?;
                self.add(made.0, made.1)
            }
            None => Ok(()),
        }
    }

    fn add(&mut self, pnode: Pnode, kind: Kind) -> Result<(), AllocError>
        ensures touched { self.new.touched ≡ self.old.touched }
        ensures made { OnOk result ((q : ℕ) → get nat_cmp self.new.made q ≡ option_or (get nat_cmp self.old.made q) (if pnode == q then Some kind else None)) }
    {
        if !self.made.contains_key(&pnode) {
            self.made.insert(pnode, kind)?;
        }
        Ok(())
    }

    /// The kind of an object; the registry has none.
    pub fn kind(&self, start: &Start, pnode: Pnode) -> Option<Kind>
        ensures { (session : Session) (history : List AnyEntry) → AreKinds start.now session history self.now → result ≡ kind_of session history pnode }
    {
        match opening_kind(start, pnode) {
            Some(kind) => Some(kind),
            None => self.made.get(&pnode).copied(),
        }
    }
}
