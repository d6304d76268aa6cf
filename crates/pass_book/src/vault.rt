//! The vault's token: the one list of syncs.
ghost use Rattle.std.specs.Prelude.{◌≡◌, ◌≤◌, [], ◌∷◌, ◌++◌, length, None, Some};
ghost use mathlib.Core.List.{IsPrefix};
ghost use Rattle.pass_plain.specs.Legal.{IsLegal};
ghost use Rattle.pass_plain.specs.Sound.{IsSound};
ghost use Rattle.pass_book.specs.declared.view.Role.TheVariants as role;
ghost use Rattle.pass_book.specs.Names.{name, Among};
ghost use Rattle.pass_book.specs.Numbers.{IsFileNumber};
ghost use Rattle.pass_book.specs.Syncs.{called, durable, numbers_of, staged_as, IsRising, AreNumbered};
ghost use Rattle.pass_book.specs.Tokens.{HasMet};
ghost use Rattle.pass_book.specs.Tokens as tokens;
ghost use Rattle.pass_book.specs.Views as views;

use crate::sight::{Note, Seats, greater};
use crate::steps::{Place, hear, leave_now, note, seated, taken};
use crate::tokens::Desk;
use crate::vault_steps::{give_desk, note_file, note_flush, take_desk};
use crate::view::Role;
use pass_entry::Bytes;
use std::alloc::Global;
use std::marker::Model;
use std::snapshot::Snapshot;
use std::sync::Arc;

/// The seat of the vault: what it has seen of the history, and the list of syncs, which it alone adds to.
///
/// No disk is known here. The list says what the holder of the seat has told, in numbers that never fall and reach no further
/// than what it has seen; that they are true of a disk is promised by whoever took the seat, and by nobody else, since a book has
/// one seat and it can't be copied.
#[derive(Drop)]
pub struct VaultSeat {
    seat: Place,
    table: Arc<Seats, Global>,
    len: u64,
}

impl Model for VaultSeat {
    ghost use Rattle.std.specs.Prelude.{◌≡◌, length};
    ghost use Rattle.std.specs.Coded.{codes};
    ghost use Rattle.pass_entry.specs.contracts.entry.Entry as entry_type;
    ghost use Rattle.pass_plain.specs.contracts.start.Start as start_type;
    ghost use Rattle.pass_book.specs.Tokens.{VaultState, IsVaultSeat, id_of};

    ghost Value = { VaultState };

    ghost coded = { Prim.hlevel (codes, entry_type.the_row.coded, start_type.the_row.coded) };

    ghost view = { λ s. record { book = id_of s.seat.table_id s.seat.me.0; seen = s.seat.me.0.seen; syncs = s.seat.me.0.syncs } };

    ghost invariant = { λ s. IsVaultSeat s.table.value.shared.table_id s.seat.table_id s.seat.me × (s.len ≡ length s.seat.me.0.seen) };
}

impl VaultSeat {
    /// How many entries the vault has seen. Of these its list says how many are durable, and the files that it names are
    /// theirs.
    pub fn seen(&self) -> u64
        ensures seen { result ≡ length self.now.seen }
        ensures sound { IsSound self.now.book.session }
        ensures legal { IsLegal self.now.book.session self.now.seen }
        ensures rising { IsRising self.now.syncs }
        ensures within { durable self.now.syncs ≤ length self.now.seen }
        ensures numbered { AreNumbered self.now.book.session self.now.seen self.now.syncs }
    {
        self.len
    }

    /// What the vault has seen, for others. It takes no memory.
    pub fn note(&mut self) -> Note
        ensures vault { self.new ≡ self.old }
        ensures note { result ≡ record { book = self.old.book; seen = self.old.seen; syncs = self.old.syncs } }
    {
        let badge = note(&self.table.shared, &mut self.seat).into_badge();
        Note {
            badge,
            len: self.len,
        }
    }

    /// The vault sees the longer of both histories. The list of syncs is its own, which any other begins. It takes no memory.
    pub fn meet(&mut self, note: Note)
        requires { note.book ≡ self.old.book }
        ensures same { self.new ≡ record self.old { seen = self.new.seen } }
        ensures met { HasMet (name role.Vault 0) self.old.seen self.old.syncs note.seen note.syncs self.new.seen self.new.syncs }
    {
        let Note { badge, len } = note;
        hear(&self.table.shared, &mut self.seat, seated(badge));
        self.len = greater(self.len, len);
    }

    /// The holder tells that so many entries are durable, since a flush at this number of the disk's calls. It takes no memory.
    pub fn flushed(&mut self, calls: u64, entries: u64)
        requires calls { called self.old.syncs ≤ calls }
        requires entries { (durable self.old.syncs ≤ entries) × (entries ≤ length self.old.seen) }
        ensures { self.new ≡ record self.old { syncs = self.old.syncs ++ record { calls = calls; entries = entries; file = None; staged = None } ∷ [] } }
    {
        note_flush(&self.table.shared, &mut self.seat, calls, entries);
    }

    /// Desk and vault meet: each sees the longer of both histories, and the desk's holder the whole list. It takes no memory.
    pub fn meet_desk(&mut self, desk: &mut Desk)
        requires { desk.old.book ≡ self.old.book }
        ensures vault { self.new ≡ record self.old { seen = desk.new.seen } }
        ensures desk { desk.new ≡ record desk.old { seen = desk.new.seen; syncs = self.old.syncs } }
        ensures met { HasMet (name role.Desk desk.old.what) desk.old.seen desk.old.syncs self.old.seen self.old.syncs desk.new.seen self.old.syncs }
        ensures vault_met { IsPrefix self.old.seen self.new.seen }
    {
        let seat = taken(&mut desk.sight.badge);
        let old = Snapshot::of(&seat);
        let table = &self.table.shared;
        take_desk(table, &mut self.seat, seat);
        desk.sight.badge = give_desk(table, &mut self.seat, &old).into_badge();
        desk.sight.len = greater(desk.sight.len, self.len);
        self.len = desk.sight.len;
    }

    /// The same, and then the holder tells that the data of the desk's file is durable, for so many entries, since a sync at
    /// this number of the disk's calls. It takes no memory.
    pub fn synced_file(&mut self, desk: &mut Desk, number: u32, calls: u64, entries: u64)
        requires one { desk.old.book ≡ self.old.book }
        requires number { IsFileNumber self.old.book.session desk.old.seen desk.old.what number }
        requires calls { called self.old.syncs ≤ calls }
        requires entries { (durable self.old.syncs ≤ entries) × (entries ≤ length self.old.seen) }
        ensures vault { self.new ≡ record self.old { seen = desk.new.seen; syncs = self.old.syncs ++ record { calls = calls; entries = entries; file = Some (record { pnode = desk.old.what; number = number }); staged = None } ∷ [] } }
        ensures desk { desk.new ≡ record desk.old { seen = desk.new.seen; syncs = self.new.syncs } }
        ensures met { HasMet (name role.Desk desk.old.what) desk.old.seen desk.old.syncs self.old.seen self.old.syncs desk.new.seen self.old.syncs }
        ensures vault_met { IsPrefix self.old.seen self.new.seen }
    {
        self.noted_file(desk, number, false, &[], calls, entries);
    }

    /// The same of these blocks of the desk's file, which wait to be written later. It takes no memory.
    pub fn staged_file(
        &mut self,
        desk: &mut Desk,
        number: u32,
        blocks: &[(u32, Bytes)],
        calls: u64,
        entries: u64,
    )
        requires one { desk.old.book ≡ self.old.book }
        requires number { IsFileNumber self.old.book.session desk.old.seen desk.old.what number }
        requires calls { called self.old.syncs ≤ calls }
        requires entries { (durable self.old.syncs ≤ entries) × (entries ≤ length self.old.seen) }
        ensures vault { self.new ≡ record self.old { seen = desk.new.seen; syncs = self.old.syncs ++ record { calls = calls; entries = entries; file = Some (record { pnode = desk.old.what; number = number }); staged = Some (numbers_of blocks.now) } ∷ [] } }
        ensures desk { desk.new ≡ record desk.old { seen = desk.new.seen; syncs = self.new.syncs } }
        ensures met { HasMet (name role.Desk desk.old.what) desk.old.seen desk.old.syncs self.old.seen self.old.syncs desk.new.seen self.old.syncs }
        ensures vault_met { IsPrefix self.old.seen self.new.seen }
    {
        self.noted_file(desk, number, true, blocks, calls, entries);
    }

    // The same of a sync or a staging of the desk's file.
    fn noted_file(
        &mut self,
        desk: &mut Desk,
        number: u32,
        waits: bool,
        blocks: &[(u32, Bytes)],
        calls: u64,
        entries: u64,
    )
        requires one { desk.old.book ≡ self.old.book }
        requires number { IsFileNumber self.old.book.session desk.old.seen desk.old.what number }
        requires calls { called self.old.syncs ≤ calls }
        requires entries { (durable self.old.syncs ≤ entries) × (entries ≤ length self.old.seen) }
        ensures vault { self.new ≡ record self.old { seen = desk.new.seen; syncs = self.old.syncs ++ record { calls = calls; entries = entries; file = Some (record { pnode = desk.old.what; number = number }); staged = staged_as waits blocks.now } ∷ [] } }
        ensures desk { desk.new ≡ record desk.old { seen = desk.new.seen; syncs = self.new.syncs } }
        ensures met { HasMet (name role.Desk desk.old.what) desk.old.seen desk.old.syncs self.old.seen self.old.syncs desk.new.seen self.old.syncs }
        ensures vault_met { IsPrefix self.old.seen self.new.seen }
    {
        let seat = taken(&mut desk.sight.badge);
        let old = Snapshot::of(&seat);
        let table = &self.table.shared;
        take_desk(table, &mut self.seat, seat);
        note_file(
            table,
            &mut self.seat,
            &old,
            number,
            waits,
            blocks,
            calls,
            entries,
        );
        desk.sight.badge = give_desk(table, &mut self.seat, &old).into_badge();
        desk.sight.len = greater(desk.sight.len, self.len);
        self.len = desk.sight.len;
    }
}

/// The vault's seat leaves a book that has no entry yet.
pub(crate) fn vault_of(table: Arc<Seats, Global>, book: &mut Place) -> VaultSeat
    requires at { tokens.At (name role.Book 0) table.value.shared.table_id book.old.table_id book.old.me.0 }
    requires empty { book.old.me ≡ (views.book_view book.old.me.0.opened [] [] book.old.me.0.away [] 0 0, []) }
    requires past { tokens.IsPast (views.session_in book.old.me.0.opened) [] [] }
    requires free { ¬ Among (name role.Vault 0) book.old.me.0.away }
    ensures book { (book.new.table_id ≡ book.old.table_id) × (book.new.me ≡ (views.book_view book.old.me.0.opened [] [] (name role.Vault 0 ∷ book.old.me.0.away) [] 0 0, [])) }
    ensures vault { result ≡ record { book = tokens.id_of book.old.table_id book.old.me.0; seen = []; syncs = [] } }
{
    let seat = leave_now(&table.shared, book, Role::Vault, 0);
    VaultSeat {
        seat,
        table,
        len: 0,
    }
}
