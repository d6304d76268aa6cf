//! The records that an index has taken.
ghost use Rattle.std.specs.Prelude.{◌≡◌, OnOk, OnErr, Some, None, [], ◌∷◌, ◌++◌};
ghost use Rattle.pass_plain.specs.WellLogged.{flaw_of, IsWellLogged};
ghost use Rattle.pass_graph.specs.Logged.{Summarizes, told};

use pass_entry::{FlawReason, Pnode, Record};
use pass_graph::{Logged, Told};
use std::alloc::{AllocError, Global};
use std::marker::Model;

/// Records in the order in which they were taken, which are well logged, with the tables of what they say.
#[derive(Drop)]
pub(crate) struct Taken {
    records: Vec<Record>,
    logged: Logged,
}

impl Model for Taken {
    ghost use Rattle.std.specs.Prelude.{List};
    ghost use Rattle.pass_entry.specs.declared.record.Record.{Record};

    ghost Value = { List Record };

    ghost use Rattle.pass_waldo.specs.Taken.{IsTaken};

    ghost view = { λ t. t.records.items };

    ghost invariant = { IsTaken };
}

impl Taken {
    pub(crate) fn new(alloc: Global) -> Taken
        ensures { result ≡ [] }
    {
        Taken {
            records: Vec::new(alloc),
            logged: Logged::new(alloc),
        }
    }

    /// Records that are well logged, with the tables of what they say.
    pub(crate) fn of(records: Vec<Record>, logged: Logged) -> Taken
        requires logged { IsWellLogged records.items }
        requires says { Summarizes logged records.items }
        ensures { result ≡ records.items }
    {
        Taken { records, logged }
    }

    /// The records, in order.
    pub(crate) fn records(&self) -> &[Record]
        ensures records { result.now ≡ self.now }
        ensures logged { IsWellLogged self.now }
    {
        self.records.as_slice()
    }

    /// What the records say of the object.
    pub(crate) fn object(&self, pnode: Pnode) -> Option<Told>
        ensures told { result ≡ told self.now pnode }
        ensures logged { IsWellLogged self.now }
    {
        self.logged.object(pnode)
    }

    /// The first reason for which the record may not come next.
    pub(crate) fn flaw(&self, one: &Record) -> Option<FlawReason>
        ensures { result ≡ flaw_of self.now one.now }
    {
        self.logged.flaw(one)
    }

    /// Takes a record that may come next.
    pub(crate) fn take(&mut self, one: &Record) -> Result<(), AllocError>
        requires { flaw_of self.old one.now ≡ None }
        ensures ok { OnOk result (self.new ≡ self.old ++ one.now ∷ []) }
        ensures err { OnErr result (self.new ≡ self.old) }
    {
        let kept = one.clone()?;
        self.records.reserve(1)?;
        self.logged.add(one)?;
        let _ = self.records.push(kept);
        Ok(())
    }
}
