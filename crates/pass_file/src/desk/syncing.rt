//! A file whose data is made durable.
ghost use Rattle.std.specs.Prelude.{◌≡◌, ◌≤◌, ◌^◌, ◌==◌, ◌&&◌, ℕ, Bool, not, IfOk, length};
ghost use Rattle.std.specs.List.{list_any};
ghost use mathlib.Core.List.{IsPrefix};
ghost use Rattle.pass_plain.specs.Lawful.{AgreeOn};
ghost use Rattle.pass_plain.specs.Legal.{IsLegal};
ghost use Rattle.pass_plain.specs.Recording.{block_count, flags};
ghost use Rattle.pass_plain.specs.Sound.{IsSound};
ghost use Rattle.pass_book.specs.Names.{name, Listed};
ghost use Rattle.pass_book.specs.Numbers.{IsFileNumber};
ghost use Rattle.pass_book.specs.Syncs.{numbers_of};
ghost use Rattle.pass_book.specs.declared.view.Role.TheVariants as role;
ghost use Rattle.pass_clean.specs.Blocks.{AreDirty, IsRisingBy};
ghost use Rattle.pass_file.specs.Desks.{IsStagedLast, IsSyncedLast};

use crate::desk::FileDesk;
use crate::state::FileState;
use pass_book::{Desk, Note};
use pass_entry::Bytes;
use pass_hold::{Shelf, Whose};
use std::alloc::{AllocError, Global};
use std::marker::{Model, PhantomData};
use std::snapshot::Snapshot;

/// A file while its desk is elsewhere, as with the vault that makes its data durable.
#[derive(Drop)]
pub struct LentFile<J: Whose> {
    state: FileState,
    number: u32,
    lent: Snapshot<Desk>,
    whose: PhantomData<J>,
}

impl<J: Whose> Model for LentFile<J> {
    ghost use Rattle.std.specs.Coded.{codes};
    ghost use Rattle.pass_entry.specs.contracts.entry.Entry as entry_type;
    ghost use Rattle.pass_file.specs.Desks.{FileDeskView, IsFile};

    ghost Value = { FileDeskView };

    ghost coded = { Prim.hlevel (codes, entry_type.the_row.coded) };

    ghost view = { λ f. record { what = f.lent.value.what; number = f.number; seen = f.lent.value.seen; syncs = f.lent.value.syncs; spare = f.state.spare; room = f.state.room } };

    ghost invariant = { λ f. IsFile J.book f.lent.value f.number f.state };
}

/// These blocks are clean.
fn clean_blocks(state: &mut FileState, blocks: &[(u32, Bytes)])
    ensures dirty { (was : ℕ → Bool) → state.old.dirty ≡ flags was block_count
        → state.new.dirty ≡ flags (λ block. was block && not (list_any (λ b. b == block) (numbers_of blocks.now))) block_count }
    ensures state { state.new ≡ record state.old { dirty = state.new.dirty } }
{
    for block in blocks {
        state.clean(block.0);
    }
}

impl<J: Whose> FileDesk<J> {
    /// Its number in the data area.
    pub fn number(&self) -> u32
        ensures number { result ≡ self.now.number }
        ensures known { IsFileNumber J.book.session self.now.seen self.now.what result }
        ensures legal { IsLegal J.book.session self.now.seen }
        ensures sound { IsSound J.book.session }
    {
        let _ = self.desk.seen();
        self.number
    }

    /// Its dirty blocks in ascending order, with their bytes.
    pub fn dirty(&self, alloc: Global) -> Result<Vec<(u32, Bytes)>, AllocError>
        ensures dirty { IfOk result (λ blocks. AreDirty J.book.session self.now.seen self.now.syncs self.now.what blocks.items) }
        ensures rising { IfOk result (λ blocks. IsRisingBy blocks.items) }
    {
        self.state.dirty_bytes(alloc)
    }

    /// It sees what the holder of a note had seen, and then the whole history. It takes no memory.
    pub fn see(&mut self, shelf: &mut Shelf<J>, told: Note)
        requires { told.book ≡ J.book }
        ensures state { self.new ≡ record self.old { seen = shelf.old.history; syncs = self.new.syncs } }
        ensures begins { IsPrefix self.old.seen shelf.old.history × IsPrefix self.old.syncs self.new.syncs }
        ensures told { IsPrefix told.seen shelf.old.history × IsPrefix told.syncs self.new.syncs }
        ensures object { AgreeOn self.old.what self.old.seen shelf.old.history }
        ensures legal { IsLegal J.book.session shelf.old.history }
        ensures shelf { shelf.new ≡ record shelf.old { syncs = shelf.new.syncs } }
        ensures few { length shelf.old.history ≤ 16777216 }
    {
        self.desk.meet(told);
        shelf.show(&mut self.desk);
    }

    /// Its desk, which may see more of the history elsewhere before it comes back.
    pub fn lend(self) -> (LentFile<J>, Desk)
        ensures file { result.0 ≡ self }
        ensures desk { (result.1.book ≡ J.book) × (result.1.what ≡ self.what) × (result.1.seen ≡ self.seen) × (result.1.syncs ≡ self.syncs) }
    {
        let FileDesk {
            state,
            number,
            desk,
            whose: _,
        } = self;
        let lent = Snapshot::of(&desk);
        let file = LentFile {
            state,
            number,
            lent,
            whose: PhantomData,
        };
        (file, desk)
    }
}

impl<J: Whose> LentFile<J> {
    /// The file with its desk, which has come back.
    pub fn back(self, desk: Desk) -> FileDesk<J>
        requires desk { (desk.book ≡ J.book) × (desk.what ≡ self.what) }
        requires seen { IsPrefix self.seen desk.seen × AgreeOn self.what self.seen desk.seen }
        requires listed { Listed (name role.Desk self.what) self.syncs desk.syncs }
        requires few { length desk.seen ≤ 2 ^ 32 }
        ensures { result ≡ record self { seen = desk.seen; syncs = desk.syncs } }
    {
        let LentFile {
            state,
            number,
            lent: _,
            whose: _,
        } = self;
        let _ = desk.seen();
        FileDesk {
            state,
            number,
            desk,
            whose: PhantomData,
        }
    }

    /// The file with its desk, which has come back from a sync of the file's data: no block is dirty any more.
    pub fn synced(self, desk: Desk) -> FileDesk<J>
        requires desk { (desk.book ≡ J.book) × (desk.what ≡ self.what) }
        requires seen { IsPrefix self.seen desk.seen × AgreeOn self.what self.seen desk.seen }
        requires synced { IsSyncedLast self.what self.number desk.seen self.syncs desk.syncs }
        requires few { length desk.seen ≤ 2 ^ 32 }
        ensures { result ≡ record self { seen = desk.seen; syncs = desk.syncs } }
    {
        let LentFile {
            mut state,
            number,
            lent: _,
            whose: _,
        } = self;
        let _ = desk.seen();
        state.clean_all();
        FileDesk {
            state,
            number,
            desk,
            whose: PhantomData,
        }
    }
    /// The file with its desk, which has come back from a staging of these blocks: they aren't dirty any more.
    pub fn staged(self, desk: Desk, blocks: &[(u32, Bytes)]) -> FileDesk<J>
        requires desk { (desk.book ≡ J.book) × (desk.what ≡ self.what) }
        requires seen { IsPrefix self.seen desk.seen × AgreeOn self.what self.seen desk.seen }
        requires staged { IsStagedLast self.what self.number (numbers_of blocks.now) desk.seen self.syncs desk.syncs }
        requires few { length desk.seen ≤ 2 ^ 32 }
        ensures { result ≡ record self { seen = desk.seen; syncs = desk.syncs } }
    {
        let LentFile {
            mut state,
            number,
            lent: _,
            whose: _,
        } = self;
        let _ = desk.seen();
        clean_blocks(&mut state, blocks);
        FileDesk {
            state,
            number,
            desk,
            whose: PhantomData,
        }
    }
}
