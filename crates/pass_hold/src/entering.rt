//! The entries of a process at work.
ghost use Rattle.std.specs.Prelude.{◌≡◌, ◌+◌, ◌-◌, ◌<◌, ◌≤◌, ◌^◌, [], ◌∷◌, ◌++◌, true, false, length};
ghost use mathlib.Core.List.{IsPrefix};
ghost use Rattle.pass_entry.specs.declared.entry.Act.TheVariants as act;
ghost use Rattle.pass_plain.specs.Histories.{is_fault};
ghost use Rattle.pass_plain.specs.Legal.{ObjectAllows, CallerAllows};
ghost use Rattle.pass_plain.specs.Places.{exit_step, is_exit, keeps};
ghost use Rattle.pass_plain.specs.Recorded.{entry_records_by};
ghost use Rattle.pass_plain.specs.Versions.{nodes_of, source_in};
ghost use Rattle.pass_book.specs.Names.{name, Listed};
ghost use Rattle.pass_book.specs.Syncs.{durable, IsRising, Backs};
ghost use Rattle.pass_book.specs.declared.view.Role.TheVariants as role;
ghost use Rattle.pass_hold.specs.Callers.{moved_on};
ghost use Rattle.pass_hold.specs.Callings.{IsEntered};
ghost use Rattle.pass_hold.specs.Entering.{MayEnter, Enters};
ghost use Rattle.pass_hold.specs.Places.{HasRoom};

use crate::caller::Caller;
use crate::claims::{claimed, line_out, looked_in, with_last, with_slip};
use crate::shelf::Shelf;
use crate::whose::Whose;
use pass_book::{Desk, Last, Line, Slip};
use pass_entry::Entry;

impl<J: Whose> Caller<J> {
    /// Makes an entry on the object of a desk, with its records, and answers its place. Afterwards it holds `own` places for its
    /// exit and `keep` for its call. What it lacks of them is claimed, and what it no longer needs is given back.
    fn put(
        &mut self,
        shelf: &mut Shelf<J>,
        desk: &mut Desk,
        slip: Slip,
        entry: Entry,
        own: u32,
        keep: u32,
    ) -> u64
        requires room { HasRoom shelf.old (self.old.own + self.old.held) (own + keep + 1) }
        requires own { own + exit_step entry.call ≡ self.old.own }
        requires keep { keep ≡ keeps self.old.seen entry }
        requires desk { (desk.old.book ≡ J.book) × (desk.old.what ≡ entry.what) }
        requires who { self.old.who ≡ entry.who }
        requires last { ¬ (entry.act ≡ act.Finish) }
        requires born { (out : _) (descriptors : _) → ¬ (entry.act ≡ act.Born out descriptors) }
        requires kept { Backs J.book.session self.old.seen (length self.old.seen) self.old.syncs entry }
        requires object { ObjectAllows J.book.session desk.old.seen entry }
        requires caller { CallerAllows self.old.seen entry }
        requires slip { slip ≡ entry_records_by J.book.session desk.old.seen (source_in (nodes_of J.book.session self.old.seen) entry) entry }
        ensures entered { IsEntered J.book.session self.old.seen desk.old.seen self.new.seen entry }
        ensures listed { Listed (name role.Desk entry.what) desk.old.syncs self.new.syncs }
        ensures durable { durable self.new.syncs < length self.new.seen }
        ensures rising { IsRising self.new.syncs }
        ensures grows { IsPrefix self.old.syncs self.new.syncs }
        ensures place { result + 1 ≡ length self.new.seen }
        ensures few { length self.new.seen ≤ 2 ^ 32 }
        ensures caller { self.new ≡ record (moved_on self.old self.new.seen self.new.syncs keep) { own = own } }
        ensures desk { desk.new ≡ record desk.old { seen = self.new.seen; syncs = self.new.syncs } }
        ensures shelf { (shelf.new ≡ record shelf.old { history = shelf.old.history ++ entry ∷ []; syncs = shelf.new.syncs; claimed = shelf.new.claimed }) × (self.new.seen ≡ shelf.new.history) }
    {
        let _ = shelf.book.len();
        shelf.book.fit(&mut self.claim, own + keep + 1);
        with_slip(&mut self.claim, slip);
        let place = shelf.book.add(desk, &mut self.claim, entry);
        let _ = shelf.book.len();
        self.own = own;
        self.held = keep;
        place
    }

    /// Makes an entry of an ordinary call on the object of a desk, with its records, and answers its place. Afterwards the call still
    /// needs `keep` places. The first entry of a call claims its places, and its last one gives back those that are left.
    pub fn enter(
        &mut self,
        shelf: &mut Shelf<J>,
        desk: &mut Desk,
        slip: Slip,
        entry: Entry,
        keep: u32,
    ) -> u64
        requires room { HasRoom shelf.old self.old.held (keep + 1) }
        requires desk { (desk.old.book ≡ J.book) × (desk.old.what ≡ entry.what) }
        requires last { ¬ (entry.act ≡ act.Finish) }
        requires born { (out : _) (descriptors : _) → ¬ (entry.act ≡ act.Born out descriptors) }
        requires kept { Backs J.book.session self.old.seen (length self.old.seen) self.old.syncs entry }
        requires object { ObjectAllows J.book.session desk.old.seen entry }
        requires who { self.old.who ≡ entry.who }
        requires entry { MayEnter self.old.seen entry keep }
        requires slip { slip ≡ entry_records_by J.book.session desk.old.seen (source_in (nodes_of J.book.session self.old.seen) entry) entry }
        ensures entry { Enters J.book.session self.old self.new desk.old.seen entry keep }
        ensures listed { Listed (name role.Desk entry.what) desk.old.syncs self.new.syncs }
        ensures durable { durable self.new.syncs < length self.new.seen }
        ensures rising { IsRising self.new.syncs }
        ensures grows { IsPrefix self.old.syncs self.new.syncs }
        ensures place { result + 1 ≡ length self.new.seen }
        ensures desk { desk.new ≡ record desk.old { seen = self.new.seen; syncs = self.new.syncs } }
        ensures shelf { (shelf.new ≡ record shelf.old { history = shelf.old.history ++ entry ∷ []; syncs = shelf.new.syncs; claimed = shelf.new.claimed }) × (self.new.seen ≡ shelf.new.history) }
    {
        let own = self.own;
        self.put(shelf, desk, slip, entry, own, keep)
    }

    /// Makes an entry of its exit, but not the last one. The places of a call that it leaves are free again.
    pub fn leave(&mut self, shelf: &mut Shelf<J>, desk: &mut Desk, slip: Slip, entry: Entry) -> u64
        requires place { 0 < self.old.own }
        requires desk { (desk.old.book ≡ J.book) × (desk.old.what ≡ entry.what) }
        requires who { self.old.who ≡ entry.who }
        requires last { ¬ (entry.act ≡ act.Finish) }
        requires exit { is_exit entry.call ≡ true }
        requires born { (out : _) (descriptors : _) → ¬ (entry.act ≡ act.Born out descriptors) }
        requires kept { (fd : _) → ¬ (entry.act ≡ act.Kept fd) }
        requires object { ObjectAllows J.book.session desk.old.seen entry }
        requires caller { CallerAllows self.old.seen entry }
        requires slip { slip ≡ entry_records_by J.book.session desk.old.seen (source_in (nodes_of J.book.session self.old.seen) entry) entry }
        ensures entry { Enters J.book.session (record self.old { own = self.old.own - 1 }) self.new desk.old.seen entry 0 }
        ensures listed { Listed (name role.Desk entry.what) desk.old.syncs self.new.syncs }
        ensures durable { durable self.new.syncs < length self.new.seen }
        ensures rising { IsRising self.new.syncs }
        ensures grows { IsPrefix self.old.syncs self.new.syncs }
        ensures place { result + 1 ≡ length self.new.seen }
        ensures desk { desk.new ≡ record desk.old { seen = self.new.seen; syncs = self.new.syncs } }
        ensures shelf { (shelf.new ≡ record shelf.old { history = shelf.old.history ++ entry ∷ []; syncs = shelf.new.syncs; claimed = shelf.new.claimed }) × (self.new.seen ≡ shelf.new.history) }
    {
        let own = self.own - 1;
        self.put(shelf, desk, slip, entry, own, 0)
    }

    /// Makes the entry by which a child begins, the last one of a fork, and answers its place and the child, with the places for its
    /// exit.
    pub fn born(
        &mut self,
        shelf: &mut Shelf<J>,
        desk: &mut Desk,
        child: Line,
        slip: Slip,
        entry: Entry,
    ) -> (u64, Caller<J>)
        requires place { 66 ≤ self.old.held }
        requires desk { (desk.old.book ≡ J.book) × (desk.old.what ≡ entry.what) }
        requires child { (child.book ≡ J.book) × (child.who ≡ entry.what) }
        requires born { (out : _) × (descriptors : _) × (entry.act ≡ act.Born out descriptors) }
        requires object { ObjectAllows J.book.session desk.old.seen entry }
        requires who { self.old.who ≡ entry.who }
        requires entry { MayEnter self.old.seen entry 0 }
        requires slip { slip ≡ entry_records_by J.book.session desk.old.seen (source_in (nodes_of J.book.session self.old.seen) entry) entry }
        ensures entry { Enters J.book.session self.old self.new desk.old.seen entry 0 }
        ensures listed { Listed (name role.Desk entry.what) desk.old.syncs self.new.syncs }
        ensures durable { durable self.new.syncs < length self.new.seen }
        ensures rising { IsRising self.new.syncs }
        ensures grows { IsPrefix self.old.syncs self.new.syncs }
        ensures place { result.0 + 1 ≡ length self.new.seen }
        ensures child { (result.1.who ≡ entry.what) × (result.1.seen ≡ self.new.seen) }
        ensures places { (result.1.own ≡ 65) × (result.1.held ≡ 0) }
        ensures desk { desk.new ≡ record desk.old { seen = self.new.seen; syncs = self.new.syncs } }
        ensures shelf { (shelf.new ≡ record shelf.old { history = shelf.old.history ++ entry ∷ []; syncs = shelf.new.syncs; claimed = shelf.new.claimed }) × (self.new.seen ≡ shelf.new.history) }
    {
        let _ = shelf.book.len();
        shelf.book.fit(&mut self.claim, self.own + 1);
        let mut claim = claimed(&mut shelf.book, 65);
        with_slip(&mut self.claim, slip);
        let place = shelf.book.add(desk, &mut self.claim, entry);
        let _ = shelf.book.len();
        looked_in(&mut shelf.book, &mut claim, child);
        self.held = 0;
        (place, Caller::new(claim, 65, 0))
    }

    /// Makes the last entry of its exit. Its places are free again.
    pub fn finish(
        self,
        shelf: &mut Shelf<J>,
        desk: &mut Desk,
        last: Last,
        slip: Slip,
        entry: Entry,
    ) -> (u64, Line)
        requires place { 0 < self.own }
        requires desk { (desk.old.book ≡ J.book) × (desk.old.what ≡ entry.what) }
        requires who { self.who ≡ entry.who }
        requires act { entry.act ≡ act.Finish }
        requires its { (entry.what ≡ entry.who) × (is_fault entry.reply ≡ false) }
        requires last { (last.book ≡ J.book) × (last.what ≡ entry.what) }
        requires object { ObjectAllows J.book.session desk.old.seen entry }
        requires caller { CallerAllows self.seen entry }
        requires slip { slip ≡ entry_records_by J.book.session desk.old.seen (source_in (nodes_of J.book.session self.seen) entry) entry }
        ensures entered { IsEntered J.book.session self.seen desk.old.seen result.1.seen entry }
        ensures listed { Listed (name role.Desk entry.what) desk.old.syncs result.1.syncs }
        ensures durable { durable result.1.syncs < length result.1.seen }
        ensures rising { IsRising result.1.syncs }
        ensures grows { IsPrefix self.syncs result.1.syncs }
        ensures place { result.0 + 1 ≡ length result.1.seen }
        ensures line { (result.1.book ≡ J.book) × (result.1.who ≡ self.who) }
        ensures desk { desk.new ≡ record desk.old { seen = result.1.seen; syncs = result.1.syncs } }
        ensures shelf { (shelf.new ≡ record shelf.old { history = shelf.old.history ++ entry ∷ []; syncs = shelf.new.syncs; claimed = shelf.new.claimed }) × (result.1.seen ≡ shelf.new.history) }
    {
        let mut claim = self.claim;
        let _ = shelf.book.len();
        shelf.book.fit(&mut claim, self.own);
        with_slip(&mut claim, slip);
        with_last(&mut claim, last);
        let place = shelf.book.add(desk, &mut claim, entry);
        let _ = shelf.book.len();
        let Some(line) = line_out(&mut claim) else {
            unreachable!()
        };
        shelf.book.give_back(claim);
        (place, line)
    }
}
