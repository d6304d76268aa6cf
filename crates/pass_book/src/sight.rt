//! What the holder of a name has seen.
ghost use Rattle.std.specs.Prelude.{◌≡◌, ◌≤◌, length, max};
ghost use Rattle.pass_book.specs.Syncs.{durable};
ghost use Rattle.pass_book.specs.Tokens.{HasMet, IsPast};

use crate::rule::{Law, Reading, TableOpening};
use crate::steps::{hear, seated, taken};
use crate::view::View;
use atomic_table::{Badge, Table};
use std::alloc::Global;
use std::marker::Model;
use std::sync::Arc;

/// The table of a book's seats.
pub type Seats = Table<u8, View, TableOpening, Law, Global>;

/// A name, and the history and the list that its holder has seen. It keeps a share of the table.
#[derive(Drop)]
pub struct Sight {
    pub(crate) badge: Badge<View>,
    pub(crate) table: Arc<Seats, Global>,
    pub(crate) len: u64,
}

impl Model for Sight {
    ghost use Rattle.std.specs.Prelude.{◌≡◌, length};
    ghost use Rattle.pass_book.specs.Tokens.{Sighted, sighted, view_in, IsSeat};
    ghost use Rattle.pass_entry.specs.contracts.entry.Entry as entry_type;
    ghost use Rattle.pass_plain.specs.contracts.start.Start as start_type;
    ghost use Rattle.std.specs.Coded.{codes};

    ghost Value = { Sighted };

    ghost coded = { Prim.hlevel (codes, entry_type.the_row.coded, start_type.the_row.coded) };

    ghost view = { λ s. sighted s.badge.table_id s.badge.views };

    ghost invariant = { λ s. IsSeat s.badge.table_id s.table.value.shared.table_id s.badge.views × (s.len ≡ length (view_in s.badge.views).seen) };
}

/// What the book or the vault had seen as it was made. It keeps no share of the table.
#[derive(Drop)]
pub struct Note {
    pub(crate) badge: Badge<View>,
    pub(crate) len: u64,
}

impl Model for Note {
    ghost use Rattle.std.specs.Prelude.{◌≡◌, length};
    ghost use Rattle.pass_book.specs.Tokens.{NoteState, noted_of, view_in, IsNote};
    ghost use Rattle.pass_entry.specs.contracts.entry.Entry as entry_type;
    ghost use Rattle.pass_plain.specs.contracts.start.Start as start_type;
    ghost use Rattle.std.specs.Coded.{codes};

    ghost Value = { NoteState };

    ghost coded = { Prim.hlevel (codes, entry_type.the_row.coded, start_type.the_row.coded) };

    ghost view = { λ n. noted_of n.badge.table_id n.badge.views };

    ghost invariant = { λ n. IsNote n.badge.views × (n.len ≡ length (view_in n.badge.views).seen) };
}

impl Note {
    /// How many entries it tells of.
    pub fn seen(&self) -> u64
        ensures { result ≡ length self.now.seen }
    {
        self.len
    }
}

/// The greater of two numbers.
pub(crate) fn greater(a: u64, b: u64) -> u64
    ensures { result ≡ max a b }
{
    if a < b { b } else { a }
}

impl Sight {
    /// How many entries its holder has seen.
    pub(crate) fn seen(&self) -> u64
        ensures seen { result ≡ length self.now.seen }
        ensures past { IsPast self.now.book.session self.now.seen self.now.syncs }
    {
        self.len
    }

    /// Its holder sees the longer of both histories and of both lists.
    pub(crate) fn meet(&mut self, note: Note)
        requires { note.book ≡ self.old.book }
        ensures same { self.new ≡ record self.old { seen = self.new.seen; syncs = self.new.syncs } }
        ensures met { HasMet self.old.name self.old.seen self.old.syncs note.seen note.syncs self.new.seen self.new.syncs }
        ensures past { IsPast self.new.book.session self.new.seen self.new.syncs }
    {
        let Note { badge, len } = note;
        let mut seat = taken(&mut self.badge);
        hear(&self.table.shared, &mut seat, seated(badge));
        self.badge = seat.into_badge();
        self.len = greater(self.len, len);
    }

    /// No less than the entries of the last sync of the holder's list.
    pub(crate) fn durable(&mut self) -> u64
        ensures same { self.new ≡ self.old }
        ensures at_least { durable self.old.syncs ≤ result }
    {
        let mut seat = taken(&mut self.badge);
        let found = self.table.shared.load::<Reading>(&mut seat, 1);
        self.badge = seat.into_badge();
        found
    }
}
