//! An app object, as it lies under its lock.
ghost use Rattle.std.specs.Prelude.{◌≡◌, []};
ghost use Rattle.pass_plain.specs.Sessions.{is_opened, opening_version};

use crate::entering::enter_on;
use crate::versioned::Versioned;
use pass_book::Desk;
use pass_entry::{Entry, Node, Pnode, Record};
use pass_hold::{Caller, Shelf, Whose};
use pass_version::Versions;
use std::alloc::{AllocError, Global};
use std::marker::{Model, PhantomData};

/// An app object with its desk: it holds nothing but its version, which is that of the definitions after what was seen of it.
#[derive(Drop)]
pub struct AppDesk<J: Whose> {
    versions: Versions,
    desk: Desk,
    whose: PhantomData<J>,
}

impl<J: Whose> Model for AppDesk<J> {
    ghost use Rattle.std.specs.Coded.{codes};
    ghost use Rattle.pass_entry.specs.contracts.entry.Entry as entry_type;
    ghost use Rattle.pass_flow.specs.Entering.{IsVersioned};
    ghost use Rattle.pass_flow.specs.Flows.{ObjectView};

    ghost Value = { ObjectView };

    ghost coded = { Prim.hlevel (codes, entry_type.the_row.coded) };

    ghost view = { λ a. record { what = a.desk.what; seen = a.desk.seen; syncs = a.desk.syncs; spare = a.versions.spare } };

    ghost invariant = { λ a. IsVersioned J.book a.desk a.versions };
}

impl<J: Whose> AppDesk<J> {
    /// An app object of which nothing was seen, at the version with which the session began.
    pub fn new(alloc: Global, what: Pnode, version: u64, marked: bool, desk: Desk) -> AppDesk<J>
        requires desk { (desk.book ≡ J.book) × (desk.what ≡ what) × (desk.seen ≡ []) }
        requires version { version ≡ opening_version J.book.session.start what }
        requires marked { marked ≡ is_opened J.book.session.start what }
        ensures { result ≡ record { what = what; seen = []; syncs = desk.syncs; spare = 0 } }
    {
        AppDesk {
            versions: Versions::new(alloc, what, version, marked),
            desk,
            whose: PhantomData,
        }
    }
}

impl<J: Whose> Versioned<J> for AppDesk<J> {
    ghost object = { λ a. a };

    fn what(&self) -> Pnode {
        self.versions.current().pnode
    }

    fn current(&self) -> Node {
        self.versions.current()
    }

    fn reserve_source(&mut self) -> Result<(), AllocError> {
        self.versions.reserve(1)
    }

    fn enter_flow(
        &mut self,
        shelf: &mut Shelf<J>,
        caller: &mut Caller<J>,
        entry: Entry,
        source: Option<Node>,
        rest: Vec<Record>,
        keep: u32,
    ) -> (u64, Node) {
        enter_on(
            shelf,
            caller,
            &mut self.desk,
            &mut self.versions,
            entry,
            source,
            rest,
            keep,
        )
    }
}
