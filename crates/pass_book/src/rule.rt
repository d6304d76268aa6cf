//! The table's rule, and what its steps do to the views of seats and tell of them.
ghost use Rattle.std.specs.Prelude.{ℕ};

use crate::view::View;
use atomic_table::{Join, Play, Split, TableRule};
use pass_plain::Start;
use std::marker::{Brand, PhantomData};
use std::snapshot::Snapshot;

/// With what the table is told that a session was opened. It keeps no copy of the start.
#[derive(Drop)]
pub struct TableOpening {
    pub start: Snapshot<Start>,
    pub objects: u32,
}

pub struct Law;

impl TableRule<u8, View, TableOpening> for Law {
    ghost use Rattle.pass_book.specs.Views.{Kept, first_view, opened_by};

    ghost holds = { λ k s. Kept (opened_by k) s.words s.views };

    ghost first = { λ k. first_view (opened_by k) };
}

/// Which name a step takes from the book or from the vault, and how often its line has looked.
pub trait Naming {
    ghost use Rattle.pass_book.specs.declared.view.Role.{Role};

    ghost role: { Role };

    ghost number: { ℕ };

    ghost looks: { ℕ };
}

impl Naming for Brand {
    ghost use Rattle.pass_book.specs.declared.view.Role.TheVariants.{Note};

    ghost role = { Note };

    ghost number = { 0 };

    ghost looks = { 0 };
}

/// The entry that a step writes.
pub trait Writing {
    ghost use Rattle.pass_entry.specs.declared.entry.Entry.{Entry};

    ghost entry: { Entry };
}

impl Writing for Brand {
    ghost use Rattle.pass_entry.specs.declared.entry.CallName.TheVariants.{Exit};
    ghost use Rattle.pass_entry.specs.declared.entry.Act.TheVariants.{Finish};
    ghost use Rattle.pass_entry.specs.declared.entry.Reply.TheVariants.{Done};

    ghost entry = { record { who = 0; number = 0; call = Exit; what = 0; act = Finish; reply = Done } };
}

/// How many places a step claims.
pub trait Counting {
    ghost count: { ℕ };
}

impl Counting for Brand {
    ghost count = { 0 };
}

/// The sync that a step notes.
pub trait Syncing {
    ghost use Rattle.pass_book.specs.declared.view.VaultSync.{VaultSync};

    ghost sync: { VaultSync };
}

impl Syncing for Brand {
    ghost use Rattle.std.specs.Prelude.{None};

    ghost sync = { record { calls = 0; entries = 0; file = None; staged = None } };
}

/// A name leaves the book.
pub struct Leaves<N: Naming> {
    of: PhantomData<N>,
}

impl<N: Naming> Split<View> for Leaves<N> {
    ghost use Rattle.pass_book.specs.Names.{name};
    ghost use Rattle.pass_book.specs.Views as views;

    ghost left = { views.leaving (name N.role N.number) };

    ghost right = { views.left (name N.role N.number) N.looks };
}

/// An entry is written, and the desk of its object leaves the book with it.
pub struct Writes<E: Writing> {
    of: PhantomData<E>,
}

impl<E: Writing> Split<View> for Writes<E> {
    ghost use Rattle.pass_book.specs.Views as views;

    ghost left = { views.writing E.entry };

    ghost right = { views.written E.entry };
}

/// Places are claimed.
pub struct Claims<C: Counting> {
    of: PhantomData<C>,
}

impl<C: Counting> Split<View> for Claims<C> {
    ghost use Rattle.pass_book.specs.Views as views;

    ghost left = { views.claiming C.count };

    ghost right = { views.claim_of C.count };
}

/// A desk leaves the vault.
pub struct Returns<N: Naming> {
    of: PhantomData<N>,
}

impl<N: Naming> Split<View> for Returns<N> {
    ghost use Rattle.pass_book.specs.declared.view.Role.TheVariants.{Desk};
    ghost use Rattle.pass_book.specs.Names.{name};
    ghost use Rattle.pass_book.specs.Views as views;

    ghost left = { views.returning (name Desk N.number) };

    ghost right = { views.returned (name Desk N.number) };
}

/// A note of what a seat has seen.
pub struct Notes;

impl Split<View> for Notes {
    ghost use Rattle.pass_book.specs.Views.{noted};

    ghost left = { λ v. v };

    ghost right = { noted };
}

/// A note of the list that a seat has seen, with no entry.
pub struct NotesList;

impl Split<View> for NotesList {
    ghost use Rattle.pass_book.specs.Views.{list_noted};

    ghost left = { λ v. v };

    ghost right = { list_noted };
}

/// A name comes back to the book.
pub struct Folds;

impl Join<View> for Folds {
    ghost use Rattle.pass_book.specs.Views as views;

    ghost both = { views.folding };

    ghost spent = { views.spent };
}

/// A seat is told of a note.
pub struct Hears;

impl Join<View> for Hears {
    ghost use Rattle.pass_book.specs.Views as views;

    ghost both = { views.hearing };

    ghost spent = { views.spent };
}

/// A desk goes to the vault.
pub struct Lends;

impl Join<View> for Lends {
    ghost use Rattle.pass_book.specs.Views as views;

    ghost both = { views.lending };

    ghost spent = { views.spent };
}

/// What was told is taken in.
pub struct Takes;

impl Play<u8, View> for Takes {
    ghost use Rattle.pass_book.specs.Views.{Meets};

    ghost then = { Meets };
}

/// The book learns how what came back stands to its history.
pub struct Learning;

impl Play<u8, View> for Learning {
    ghost use Rattle.pass_book.specs.Views.{Learns};

    ghost then = { Learns };
}

/// Claimed places that came back are free again.
pub struct Freeing;

impl Play<u8, View> for Freeing {
    ghost use Rattle.pass_book.specs.Views.{Frees};

    ghost then = { Frees };
}

/// How much is durable.
pub struct Reading;

impl Play<u8, View> for Reading {
    ghost use Rattle.pass_book.specs.Views.{Reads};

    ghost then = { Reads };
}

/// The vault notes a sync.
pub struct Noting<Y: Syncing> {
    of: PhantomData<Y>,
}

impl<Y: Syncing> Play<u8, View> for Noting<Y> {
    ghost use Rattle.pass_book.specs.Views.{Synced};

    ghost then = { Synced Y.sync };
}
