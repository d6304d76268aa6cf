//! A process at work: its line, and the places that it holds.
ghost use Rattle.std.specs.Prelude.{◌≡◌, ◌<◌, ◌≤◌, ◌^◌, IsSomeAnd, IfErr, OnOk, OnErr, None, length};
ghost use mathlib.Core.List.{IsPrefix};
ghost use Rattle.pass_plain.specs.Legal.{IsLegal};
ghost use Rattle.pass_plain.specs.Places.{call_places, freed_places, left_for};
ghost use Rattle.pass_book.specs.Syncs.{IsRising};
ghost use Rattle.pass_hold.specs.Callers.{caller_of, moved_on};
ghost use Rattle.pass_hold.specs.Callings.{HasLooked};
ghost use Rattle.pass_hold.specs.Places.{HasRoom, IsKept};

use crate::claims::{line_in, line_out, seen_by};
use crate::shelf::Shelf;
use crate::whose::Whose;
use pass_book::{Claim, Full, Note};
use std::marker::{Model, PhantomData};

/// The line of a living process, with the places of the book that it holds: `own` for its exit, and `held` for its last call where
/// that has not ended.
///
/// It lives as long as the process does. Between two calls it holds the places of a call that may be left, and none of any other.
#[derive(Drop)]
pub struct Caller<J: Whose> {
    pub(crate) claim: Claim,
    pub(crate) own: u32,
    pub(crate) held: u32,
    whose: PhantomData<J>,
}

impl<J: Whose> Model for Caller<J> {
    ghost use Rattle.std.specs.Prelude.{◌≡◌, IsSomeAnd, None};
    ghost use Rattle.std.specs.Coded.{codes};
    ghost use Rattle.pass_entry.specs.contracts.entry.Entry as entry_type;
    ghost use Rattle.pass_hold.specs.Callers.{CallerState, caller_of};
    ghost use Rattle.pass_hold.specs.Places.{IsKept};

    ghost Value = { CallerState };

    ghost coded = { Prim.hlevel (codes, entry_type.the_row.coded) };

    ghost view = { λ c. caller_of c.own c.held c.claim };

    ghost invariant = { λ c. (c.claim.book ≡ J.book) × IsSomeAnd c.claim.line (IsKept J.book c.claim.unused c.own c.held) × (c.claim.last ≡ None) };
}

impl<J: Whose> Caller<J> {
    /// A process at work, by a claim in which its line lies, of `own` places for its exit and `held` for its last call.
    pub fn new(claim: Claim, own: u32, held: u32) -> Caller<J>
        requires claim { (claim.book ≡ J.book) × (claim.last ≡ None) }
        requires line { IsSomeAnd claim.line (IsKept J.book claim.unused own held) }
        ensures { result ≡ caller_of own held claim }
    {
        Caller {
            claim,
            own,
            held,
            whose: PhantomData,
        }
    }

    /// How many places it holds for its last call.
    pub fn held(&self) -> u32
        ensures held { result ≡ self.now.held }
        ensures call { self.now.held ≡ call_places self.now.seen self.now.who }
    {
        self.held
    }

    /// How many entries the process has seen of the history.
    pub fn seen(&self) -> u64
        ensures seen { result ≡ length self.now.seen }
        ensures legal { IsLegal J.book.session self.now.seen }
    {
        seen_by(&self.claim)
    }

    /// Sees to it that there are places for a new call. It claims none: they are claimed with the call's first entry. Where fewer are
    /// left, with those of a call that is left, the process sees the whole history, and the answer is what that leaves for it.
    pub fn room(&mut self, shelf: &mut Shelf<J>, need: u32) -> Result<(), Full>
        requires new { call_places self.old.seen self.old.who ≡ freed_places self.old.seen self.old.who }
        ensures room { OnOk result (HasRoom shelf.new self.new.held need) }
        ensures same { OnOk result (self.new ≡ self.old) }
        ensures full { IfErr result (λ f. (f.need ≡ need) × (f.left < need) × (f.left ≡ left_for J.places self.new.seen self.old.who)) }
        ensures looked { OnErr result (HasLooked J.book.session self.old.who self.old.seen self.new.seen) }
        ensures whole { OnErr result (self.new.seen ≡ shelf.old.history) }
        ensures few { OnErr result (length self.new.seen ≤ 2 ^ 32) }
        ensures caller { OnErr result (self.new ≡ moved_on self.old self.new.seen self.new.syncs self.old.held) }
        ensures shelf { shelf.new ≡ record shelf.old { syncs = shelf.new.syncs } }
    {
        let _ = shelf.book.len();
        let left = shelf.book.left() + self.held;
        if left >= need {
            return Ok(());
        }
        self.look(shelf);
        Err(Full { left, need })
    }

    /// The process sees the whole history.
    pub fn look(&mut self, shelf: &mut Shelf<J>)
        ensures looked { HasLooked J.book.session self.old.who self.old.seen self.new.seen }
        ensures whole { self.new.seen ≡ shelf.old.history }
        ensures grows { IsPrefix self.old.syncs self.new.syncs }
        ensures list { self.new.syncs ≡ shelf.new.syncs }
        ensures rising { IsRising self.new.syncs }
        ensures few { length self.new.seen ≤ 2 ^ 32 }
        ensures caller { self.new ≡ moved_on self.old self.new.seen self.new.syncs self.old.held }
        ensures shelf { shelf.new ≡ record shelf.old { syncs = shelf.new.syncs } }
    {
        let Some(mut line) = line_out(&mut self.claim) else {
            unreachable!()
        };
        shelf.book.look(&mut line);
        let _ = shelf.book.len();
        line_in(&mut self.claim, Some(line));
    }

    /// The process sees what the holder of a note had seen, and keeps what it had seen itself.
    pub fn meet(&mut self, note: Note)
        requires { note.book ≡ J.book }
        ensures caller { self.new ≡ record self.old { seen = self.new.seen; syncs = self.new.syncs } }
        ensures looked { HasLooked J.book.session self.old.who self.old.seen self.new.seen }
        ensures told { IsPrefix note.seen self.new.seen × IsPrefix note.syncs self.new.syncs × IsPrefix self.old.syncs self.new.syncs }
    {
        let Some(mut line) = line_out(&mut self.claim) else {
            unreachable!()
        };
        line.meet(note);
        line_in(&mut self.claim, Some(line));
    }
}
