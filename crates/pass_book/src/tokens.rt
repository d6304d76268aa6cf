//! The rights to make entries, each with what its holder has seen.
ghost use Rattle.std.specs.Prelude.{◌≡◌, ◌≤◌, length, false};
ghost use Rattle.pass_plain.specs.Legal.{IsLegal};
ghost use Rattle.pass_plain.specs.Processes.{has_ended};
ghost use Rattle.pass_plain.specs.Sound.{IsSound};
ghost use Rattle.pass_book.specs.declared.view.Role.TheVariants as role;
ghost use Rattle.pass_book.specs.Names.{name};
ghost use Rattle.pass_book.specs.Syncs.{durable};
ghost use Rattle.pass_book.specs.Tokens.{HasMet};

use crate::sight::{Note, Sight};
use std::marker::Model;

/// The right to make entries as one process.
#[derive(Drop)]
pub struct Line {
    pub(crate) sight: Sight,
}

impl Model for Line {
    ghost use Rattle.std.specs.Prelude.{◌≡◌};
    ghost use Rattle.std.specs.Coded.{codes};
    ghost use Rattle.pass_entry.specs.contracts.entry.Entry as entry_type;
    ghost use Rattle.pass_plain.specs.contracts.start.Start as start_type;
    ghost use Rattle.pass_book.specs.declared.view.Role.TheVariants as role;
    ghost use Rattle.pass_book.specs.Names.{name};
    ghost use Rattle.pass_book.specs.Tokens.{LineState, line_of};

    ghost Value = { LineState };

    ghost coded = { Prim.hlevel (codes, entry_type.the_row.coded, start_type.the_row.coded) };

    ghost view = { λ l. line_of l.sight };

    ghost invariant = { λ l. l.sight.name ≡ name role.Line l.sight.name.number };
}

/// The right to end one process. As long as it is there, the process has not ended.
#[derive(Drop)]
pub struct Last {
    pub(crate) sight: Sight,
}

impl Model for Last {
    ghost use Rattle.std.specs.Prelude.{◌≡◌};
    ghost use Rattle.std.specs.Coded.{codes};
    ghost use Rattle.pass_entry.specs.contracts.entry.Entry as entry_type;
    ghost use Rattle.pass_plain.specs.contracts.start.Start as start_type;
    ghost use Rattle.pass_book.specs.declared.view.Role.TheVariants as role;
    ghost use Rattle.pass_book.specs.Names.{name, NoneEnds};
    ghost use Rattle.pass_book.specs.Tokens.{LastState, last_of};

    ghost Value = { LastState };

    ghost coded = { Prim.hlevel (codes, entry_type.the_row.coded, start_type.the_row.coded) };

    ghost view = { λ l. last_of l.sight };

    ghost invariant = { λ l. (l.sight.name ≡ name role.Last l.sight.name.number) × NoneEnds l.sight.name.number l.sight.seen };
}

/// The right to make entries on one object, and the object's line and last where they lie here.
#[derive(Drop)]
pub struct Desk {
    pub line: Option<Line>,
    pub last: Option<Last>,
    pub(crate) sight: Sight,
}

impl Model for Desk {
    ghost use Rattle.std.specs.Prelude.{◌≡◌};
    ghost use Rattle.std.specs.Coded.{codes};
    ghost use Rattle.pass_entry.specs.contracts.entry.Entry as entry_type;
    ghost use Rattle.pass_plain.specs.contracts.start.Start as start_type;
    ghost use Rattle.pass_book.specs.declared.view.Role.TheVariants as role;
    ghost use Rattle.pass_book.specs.Names.{name};
    ghost use Rattle.pass_book.specs.Tokens.{DeskState, desk_of};

    ghost Value = { DeskState };

    ghost coded = { Prim.hlevel (codes, entry_type.the_row.coded, start_type.the_row.coded) };

    ghost view = { λ d. desk_of d.sight d.line d.last };

    ghost invariant = { λ d. d.sight.name ≡ name role.Desk d.sight.name.number };
}

impl Line {
    /// How many entries its holder has seen.
    pub fn seen(&self) -> u64
        ensures seen { result ≡ length self.now.seen }
        ensures legal { IsLegal self.now.book.session self.now.seen }
    {
        self.sight.seen()
    }

    /// Its holder sees the longer of both histories and of both lists.
    pub fn meet(&mut self, note: Note)
        requires { note.book ≡ self.old.book }
        ensures same { self.new ≡ record self.old { seen = self.new.seen; syncs = self.new.syncs } }
        ensures met { HasMet (name role.Line self.old.who) self.old.seen self.old.syncs note.seen note.syncs self.new.seen self.new.syncs }
        ensures legal { IsLegal self.new.book.session self.new.seen }
    {
        self.sight.meet(note);
    }

    /// A number that is no less than the entries of the last sync of the holder's list. Nothing else is promised of it.
    pub fn durable(&mut self) -> u64
        ensures same { self.new ≡ self.old }
        ensures at_least { durable self.old.syncs ≤ result }
    {
        self.sight.durable()
    }
}

impl Last {
    /// How many entries its holder has seen. None of them ends the process.
    pub fn seen(&self) -> u64
        ensures seen { result ≡ length self.now.seen }
        ensures legal { IsLegal self.now.book.session self.now.seen }
        ensures lives { has_ended self.now.seen self.now.what ≡ false }
    {
        self.sight.seen()
    }

    /// Its holder sees the longer of both histories and of both lists.
    pub fn meet(&mut self, note: Note)
        requires { note.book ≡ self.old.book }
        ensures same { self.new ≡ record self.old { seen = self.new.seen; syncs = self.new.syncs } }
        ensures met { HasMet (name role.Last self.old.what) self.old.seen self.old.syncs note.seen note.syncs self.new.seen self.new.syncs }
        ensures legal { IsLegal self.new.book.session self.new.seen }
        ensures lives { has_ended self.new.seen self.new.what ≡ false }
    {
        self.sight.meet(note);
    }
}

impl Desk {
    /// How many entries its holder has seen.
    pub fn seen(&self) -> u64
        ensures seen { result ≡ length self.now.seen }
        ensures sound { IsSound self.now.book.session }
        ensures legal { IsLegal self.now.book.session self.now.seen }
    {
        self.sight.seen()
    }

    /// Its holder sees the longer of both histories and of both lists.
    pub fn meet(&mut self, note: Note)
        requires { note.book ≡ self.old.book }
        ensures same { self.new ≡ record self.old { seen = self.new.seen; syncs = self.new.syncs } }
        ensures met { HasMet (name role.Desk self.old.what) self.old.seen self.old.syncs note.seen note.syncs self.new.seen self.new.syncs }
        ensures legal { IsLegal self.new.book.session self.new.seen }
    {
        self.sight.meet(note);
    }
}
