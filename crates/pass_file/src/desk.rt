//! A file, as it lies under its lock.
ghost use Rattle.std.specs.Prelude.{◌≡◌, ◌+◌, ◌≤◌, ◌<◌, Bool, true, false, ℕ, IfOk, IfSome, OnErr, OnOk, is_some, length};
ghost use Rattle.pass_entry.specs.Limits.{file_limit};
ghost use Rattle.pass_plain.specs.Files.{file_act, file_after};
ghost use Rattle.pass_plain.specs.Histories.{is_fault};
ghost use Rattle.pass_plain.specs.Legal.{ObjectAllows};
ghost use Rattle.pass_plain.specs.Records.{row_act};
ghost use Rattle.pass_plain.specs.Recording.{block_count, flags, is_change as is_change_of};
ghost use Rattle.pass_plain.specs.Versions.{is_in, nodes_of, source_in};
ghost use Rattle.pass_book.specs.Names.{name, Listed};
ghost use Rattle.pass_book.specs.Syncs.{durable, IsRising};
ghost use Rattle.pass_book.specs.declared.view.Role.TheVariants as role;
ghost use Rattle.pass_hold.specs.Places.{HasRoom};
ghost use Rattle.pass_hold.specs.Entering.{MayEnter, Enters, IsAt};
ghost use Rattle.pass_flow.specs.Entering.{IsVersioned, is_object_act, rest_records, spare_after};
ghost use Rattle.pass_file.specs.Desks.{IsFile, change_records, versions_of};
ghost use Rattle.pass_file.specs.FileViews.{dirty_by, end_of};

mod opening;
mod reading;
mod syncing;
mod writing;

use crate::state::FileState;
use pass_book::Desk;
use pass_entry::{Act, Entry, Node, Pnode, Record};
use pass_flow::{Versioned, enter_on};
use pass_hold::{Caller, Shelf, Whose};
use std::alloc::{AllocError, Global};
use std::marker::{Model, PhantomData};
pub use syncing::LentFile;

/// A file with its desk. Its content, its version and its dirty blocks are those of the definitions after what was seen of it.
#[derive(Drop)]
pub struct FileDesk<J: Whose> {
    state: FileState,
    number: u32,
    desk: Desk,
    whose: PhantomData<J>,
}

impl<J: Whose> Model for FileDesk<J> {
    ghost use Rattle.std.specs.Coded.{codes};
    ghost use Rattle.pass_entry.specs.contracts.entry.Entry as entry_type;
    ghost use Rattle.pass_file.specs.Desks.{FileDeskView, IsFile};

    ghost Value = { FileDeskView };

    ghost coded = { Prim.hlevel (codes, entry_type.the_row.coded) };

    ghost view = { λ f. record { what = f.desk.what; number = f.number; seen = f.desk.seen; syncs = f.desk.syncs; spare = f.state.spare; room = f.state.room } };

    ghost invariant = { λ f. IsFile J.book f.desk f.number f.state };
}

fn is_change(act: &Act) -> bool
    ensures { result ≡ is_change_of act.now }
{
    matches!(act, Act::Put { .. } | Act::Cut { .. })
}

/// What an act does with the content of its file.
#[tactic(auto, using(crate::proofs::Quiet::quiet_bytes, crate::proofs::Quiet::quiet_rows, crate::proofs::Quiet::quiet_dirties))]
fn turn(state: &mut FileState, act: &Act)
    requires room { end_of act.now ≤ state.old.room }
    ensures rows { (had : ℕ → Bool) → state.old.rows ≡ flags had block_count → state.new.rows ≡ flags (λ block. row_act block (had block) act.now) block_count }
    ensures dirty { (had was : ℕ → Bool) → state.old.rows ≡ flags had block_count → state.old.dirty ≡ flags was block_count
        → state.new.dirty ≡ flags (λ block. dirty_by (length state.old.bytes) (length (file_act state.old.bytes act.now)) (had block) act.now block (was block)) block_count }
    ensures state { state.new ≡ record state.old { bytes = file_act state.old.bytes act.now; rows = state.new.rows; dirty = state.new.dirty; room = state.new.room } }
    ensures room { is_change_of act.now ≡ false → state.new.room ≡ state.old.room }
{
    if is_change(act) {
        state.change(act);
    }
}

/// Makes an entry on the object of a desk, of which the state has the version.
fn enter_version<J: Whose>(
    shelf: &mut Shelf<J>,
    caller: &mut Caller<J>,
    desk: &mut Desk,
    state: &mut FileState,
    entry: Entry,
    source: Option<Node>,
    rest: Vec<Record>,
    keep: u32,
) -> (u64, Node)
    requires object { IsVersioned J.book desk.old (versions_of state.old) }
    requires act { is_object_act entry.act ≡ true }
    requires what { entry.what ≡ desk.old.what }
    requires who { caller.old.who ≡ entry.who }
    requires place { HasRoom shelf.old caller.old.held (keep + 1) }
    requires entry { MayEnter caller.old.seen entry keep }
    requires replies { ObjectAllows J.book.session desk.old.seen entry }
    requires source { source_in (nodes_of J.book.session caller.old.seen) entry ≡ source }
    requires given { is_in entry ≡ is_some source }
    requires spare { IfSome source (λ s. 1 ≤ state.old.spare) }
    requires rest { rest.items ≡ rest_records J.book.session desk.old.seen entry }
    ensures entry { Enters J.book.session caller.old caller.new desk.old.seen entry keep }
    ensures at { IsAt J.book.session caller.new.seen result }
    ensures object { IsVersioned J.book desk.new (versions_of state.new) }
    ensures state { state.new ≡ record state.old { lineage = state.new.lineage; spare = spare_after source state.old.spare } }
    ensures desk { desk.new ≡ record desk.old { seen = caller.new.seen; syncs = caller.new.syncs } }
    ensures shelf { shelf.new ≡ record shelf.old { history = caller.new.seen; syncs = shelf.new.syncs; claimed = shelf.new.claimed } }
    ensures listed { Listed (name role.Desk entry.what) desk.old.syncs caller.new.syncs }
    ensures durable { durable caller.new.syncs < length caller.new.seen }
    ensures rising { IsRising caller.new.syncs }
{
    enter_on(
        shelf,
        caller,
        desk,
        &mut state.versions,
        entry,
        source,
        rest,
        keep,
    )
}

impl<J: Whose> FileDesk<J> {
    /// Makes room for a content that ends there, and for one more source of the version.
    pub fn reserve(&mut self, end: u64) -> Result<(), AllocError>
        requires { end ≤ file_limit }
        ensures room { OnOk result (end ≤ self.new.room) }
        ensures spare { OnOk result (1 ≤ self.new.spare) }
        ensures same { self.new ≡ record self.old { spare = self.new.spare; room = self.new.room } }
        ensures err { OnErr result (self.new ≡ self.old) }
    {
        self.state.reserve(end)
    }

    /// The records of an act that changes the content, if its entry is the next one on the file.
    fn records(&self, alloc: Global, act: &Act) -> Result<Vec<Record>, AllocError>
        requires act { is_change_of act.now ≡ true }
        requires limit { end_of act.now ≤ file_limit }
        ensures { IfOk result (λ list. list.items ≡ change_records J.book.session self.now.seen self.now.what act.now) }
    {
        self.state.records(alloc, act)
    }

    /// Makes an entry on the file, with its records behind those of its version, and answers its place and the file's node there.
    fn enter(
        &mut self,
        shelf: &mut Shelf<J>,
        caller: &mut Caller<J>,
        entry: Entry,
        source: Option<Node>,
        rest: Vec<Record>,
        keep: u32,
    ) -> (u64, Node)
        requires act { is_object_act entry.act ≡ true }
        requires fine { is_fault entry.reply ≡ false }
        requires what { entry.what ≡ self.old.what }
        requires who { caller.old.who ≡ entry.who }
        requires place { HasRoom shelf.old caller.old.held (keep + 1) }
        requires entry { MayEnter caller.old.seen entry keep }
        requires replies { ObjectAllows J.book.session self.old.seen entry }
        requires source { source_in (nodes_of J.book.session caller.old.seen) entry ≡ source }
        requires given { is_in entry ≡ is_some source }
        requires spare { IfSome source (λ s. 1 ≤ self.old.spare) }
        requires room { end_of entry.act ≤ self.old.room }
        requires rest { rest.items ≡ rest_records J.book.session self.old.seen entry }
        ensures entry { Enters J.book.session caller.old caller.new self.old.seen entry keep }
        ensures at { IsAt J.book.session caller.new.seen result }
        ensures state { self.new ≡ record self.old { seen = caller.new.seen; syncs = caller.new.syncs; spare = spare_after source self.old.spare; room = self.new.room } }
        ensures room { is_change_of entry.act ≡ false → self.new.room ≡ self.old.room }
        ensures content { file_after J.book.session self.new.seen self.new.what ≡ file_act (file_after J.book.session self.old.seen self.old.what) entry.act }
        ensures shelf { shelf.new ≡ record shelf.old { history = caller.new.seen; syncs = shelf.new.syncs; claimed = shelf.new.claimed } }
    {
        turn(&mut self.state, &entry.act);
        enter_version(
            shelf,
            caller,
            &mut self.desk,
            &mut self.state,
            entry,
            source,
            rest,
            keep,
        )
    }
}

impl<J: Whose> Versioned<J> for FileDesk<J> {
    ghost use Rattle.pass_file.specs.Desks.{object_of};

    ghost object = { object_of };

    fn what(&self) -> Pnode {
        self.state.current().pnode
    }

    fn current(&self) -> Node {
        self.state.current()
    }

    fn reserve_source(&mut self) -> Result<(), AllocError> {
        self.reserve(0)
    }

    fn enter_flow(
        &mut self,
        shelf: &mut Shelf<J>,
        caller: &mut Caller<J>,
        entry: Entry,
        source: Option<Node>,
        rest: Vec<Record>,
        keep: u32,
    ) -> (u64, Node) {
        self.enter(shelf, caller, entry, source, rest, keep)
    }
}
