//! The book: the one history of a session, and how an entry is added.
ghost use Rattle.std.specs.Prelude.{◌≡◌, ◌+◌, ◌-◌, ◌<◌, ◌≤◌, ◌^◌, [], ◌∷◌, ◌++◌, length, max, set, List, vec_capacity, if◌then◌else◌, IsSomeAnd, IfOk, IfErr, OnOk, OnErr};
ghost use Rattle.std.specs.Option.{ForSome};
ghost use mathlib.Core.List.{IsPrefix};
ghost use Rattle.pass_plain.specs.Legal.{IsLegal, ObjectAllows, CallerAllows, MayFollow};
ghost use Rattle.pass_plain.specs.Lawful.{AgreeOn, AgreeBy};
ghost use Rattle.pass_plain.specs.Recorded.{entry_records_by};
ghost use Rattle.pass_plain.specs.Sound.{IsSound};
ghost use Rattle.pass_plain.specs.Versions.{nodes_of, source_in};
ghost use Rattle.pass_book.specs.Names.{is_finish, name, Listed};
ghost use Rattle.pass_book.specs.declared.view.Role.TheVariants as role;
ghost use Rattle.pass_book.specs.Parting.{lists_of};
ghost use Rattle.pass_book.specs.Records.{AreParts};
ghost use Rattle.pass_book.specs.Shedding.{shed};
ghost use Rattle.pass_entry.specs.declared.record.Record.{Record as AnyRecord};
ghost use Rattle.pass_book.specs.Syncs.{durable, IsRising, Backs, IsBacked};

use crate::claim::{Claim, Full, Slip, Tally};
use crate::entering::{enter, fold_last};
use crate::parts::Parts;
use crate::sight::{Note, Seats, greater};
use crate::steps::{Place, back, claim_places, look, note, note_list, refund, seated, show, taken};
use crate::tokens::{Desk, Line};
use pass_entry::{Act, Entry, Record};
use std::alloc::{AllocError, Global};
use std::marker::Model;
use std::mem;
use std::sync::Arc;

/// The history of a session, with the records of each entry that were not shed. It has room for all entries from the start.
#[derive(Drop)]
pub struct Book {
    pub(crate) seat: Place,
    pub(crate) table: Arc<Seats, Global>,
    pub(crate) entries: Vec<Entry>,
    pub(crate) slips: Vec<Slip>,
    pub(crate) places: u32,
    pub(crate) claimed: u32,
    pub(crate) kept: u64,
}

impl Model for Book {
    ghost use Rattle.std.specs.Prelude.{◌≡◌, ◌+◌, ◌≤◌, length, vec_capacity};
    ghost use Rattle.std.specs.Coded.{codes};
    ghost use Rattle.pass_entry.specs.contracts.entry.Entry as entry_type;
    ghost use Rattle.pass_plain.specs.contracts.start.Start as start_type;
    ghost use Rattle.pass_book.specs.Shedding.{AreKept};
    ghost use Rattle.pass_book.specs.Tokens.{BookState, IsOpen, id_of};
    ghost use Rattle.pass_book.specs.Views.{session_in};

    ghost Value = { BookState };

    ghost coded = { Prim.hlevel (codes, entry_type.the_row.coded, start_type.the_row.coded) };

    ghost view = { λ b. record { book = id_of b.seat.table_id b.seat.me.0; history = b.entries.items; syncs = b.seat.me.0.syncs; places = b.places; claimed = b.claimed; kept = b.kept } };

    ghost invariant = { λ b. IsOpen b.table.value.shared.table_id b.seat.table_id b.seat.me b.entries.items b.claimed × AreKept (session_in b.seat.me.0.opened) b.entries.items b.seat.me.0.syncs b.kept b.slips.items × (length b.entries.items + b.claimed ≤ b.places) × (b.places ≤ vec_capacity b.entries) × (b.places ≤ vec_capacity b.slips) };
}

// The records at a place are dropped.
fn empty_slip(slips: &mut Vec<Slip>, place: u64)
    requires { place < length slips.old.items }
    ensures slips { slips.new.items ≡ set slips.old.items place [] }
    ensures capacity { vec_capacity slips.new ≡ vec_capacity slips.old }
{
    slips[place as usize] = Slip::new(*slips.allocator());
}

// The records between two places are dropped.
fn shed_slips(slips: &mut Vec<Slip>, from: u64, upto: u64)
    requires { upto ≤ length slips.old.items }
    ensures slips { (lists : List (List AnyRecord)) → slips.old.items ≡ shed from lists → slips.new.items ≡ shed (max from upto) lists }
    ensures capacity { vec_capacity slips.new ≡ vec_capacity slips.old }
{
    for place in from..upto {
        empty_slip(slips, place);
    }
}

impl Book {
    /// Claims places. It is refused exactly where fewer are neither used nor claimed. It takes no memory.
    pub fn claim(&mut self, need: u32) -> Result<Claim, Full>
        ensures claim { IfOk result (λ c. c ≡ record { book = self.old.book; unused = need; line = None; last = None; slip = [] }) }
        ensures claimed { OnOk result (self.new ≡ record self.old { claimed = self.old.claimed + need }) }
        ensures enough { OnOk result (length self.old.history + self.old.claimed + need ≤ self.old.places) }
        ensures full { IfErr result (λ f. (f ≡ record { left = self.old.places - (length self.old.history + self.old.claimed); need = need }) × (f.left < need)) }
        ensures same { OnErr result (self.new ≡ self.old) }
    {
        let left = self.left();
        if left < need {
            return Err(Full { left, need });
        }
        let seat = claim_places(&self.table.shared, &mut self.seat, need);
        self.claimed += need;
        Ok(Claim {
            line: None,
            last: None,
            slip: Slip::new(*self.entries.allocator()),
            tally: Tally {
                badge: seat.into_badge(),
                unused: need,
            },
        })
    }

    /// How many places are neither used nor claimed.
    pub fn left(&self) -> u32
        ensures { result ≡ self.now.places - (length self.now.history + self.now.claimed) }
    {
        self.places - self.entries.len() as u32 - self.claimed
    }

    /// Makes a claim one of so many places: what it has is given back, and as much as it needs is claimed. It takes no memory.
    pub fn fit(&mut self, claim: &mut Claim, need: u32)
        requires one { claim.old.book ≡ self.old.book }
        requires room { length self.old.history + self.old.claimed + need ≤ self.old.places + claim.old.unused }
        ensures claim { claim.new ≡ record claim.old { unused = need } }
        ensures places { self.new.claimed + claim.old.unused ≡ self.old.claimed + need }
        ensures same { self.new ≡ record self.old { claimed = self.new.claimed } }
    {
        let table = &self.table.shared;
        refund(table, &mut self.seat, taken(&mut claim.tally.badge));
        self.claimed = self.claimed - claim.tally.unused + need;
        let seat = claim_places(table, &mut self.seat, need);
        claim.tally.badge = seat.into_badge();
        claim.tally.unused = need;
    }

    /// Adds an entry at the end of the history, with the records that the claim's slip has for it, and answers its place.
    /// It takes no memory, and a place of the claim.
    ///
    /// The entry may come next by what the holders of its object's desk and of its caller's line have seen. For the end of
    /// a process the claim holds that process's last, which comes back to the book for good. Afterwards desk and line have
    /// seen the whole history.
    pub fn add(&mut self, desk: &mut Desk, claim: &mut Claim, entry: Entry) -> u64
        requires one { (desk.old.book ≡ self.old.book) × (claim.old.book ≡ self.old.book) }
        requires place { 0 < claim.old.unused }
        requires desk { desk.old.what ≡ entry.what }
        requires line { IsSomeAnd claim.old.line (λ l. (l.book ≡ self.old.book) × (l.who ≡ entry.who)) }
        requires last { entry.act ≡ Act.Finish → IsSomeAnd claim.old.last (λ l. (l.book ≡ self.old.book) × (l.what ≡ entry.what)) }
        requires object { ObjectAllows self.old.book.session desk.old.seen entry }
        requires caller { ForSome claim.old.line (λ l. CallerAllows l.seen entry) }
        requires kept { ForSome claim.old.line (λ l. Backs self.old.book.session l.seen (length l.seen) l.syncs entry) }
        requires slip { ForSome claim.old.line (λ l. claim.old.slip ≡ entry_records_by self.old.book.session desk.old.seen (source_in (nodes_of self.old.book.session l.seen) entry) entry) }
        ensures place { result ≡ length self.old.history }
        ensures book { self.new ≡ record self.old { history = self.old.history ++ entry ∷ []; syncs = self.new.syncs; claimed = self.old.claimed - 1 } }
        ensures desk { desk.new ≡ record desk.old { seen = self.new.history; syncs = self.new.syncs } }
        ensures claim { claim.new ≡ record claim.old { unused = claim.old.unused - 1; line = claim.new.line; last = if is_finish entry.act then None else claim.old.last; slip = [] } }
        ensures line { ForSome claim.old.line (λ l. claim.new.line ≡ Some (record l { seen = self.new.history; syncs = self.new.syncs; looks = l.looks + 1; looked = length self.new.history })) }
        ensures follows { MayFollow self.old.book.session self.old.history entry }
        ensures legal { IsLegal self.old.book.session self.new.history }
        ensures object { IsPrefix desk.old.seen self.old.history × AgreeOn entry.what desk.old.seen self.old.history × IsPrefix desk.old.syncs self.new.syncs }
        ensures listed { Listed (name role.Desk entry.what) desk.old.syncs self.new.syncs }
        ensures durable { durable self.new.syncs ≤ length self.old.history }
        ensures caller { ForSome claim.old.line (λ l. IsPrefix l.seen self.old.history × AgreeBy entry.who l.seen self.old.history × IsPrefix l.syncs self.new.syncs) }
        ensures syncs { IsPrefix self.old.syncs self.new.syncs × IsRising self.new.syncs }
    {
        let place = self.entries.len() as u64;
        let last = match entry.act {
            Act::Finish => claim.last.take(),
            _ => None,
        };
        let Some(line) = claim.line.take() else {
            unreachable!()
        };
        let Line { mut sight } = line;
        let table = &self.table.shared;
        fold_last(table, &mut self.seat, last, &entry);
        enter(
            table,
            &mut self.seat,
            &mut desk.sight,
            &mut sight,
            &mut claim.tally,
            &entry,
            place,
        );
        claim.line = Some(Line { sight });
        let empty = Slip::new(*self.entries.allocator());
        let slip = mem::replace(&mut claim.slip, empty);
        self.claimed -= 1;
        self.entries.push_reserved(entry);
        self.slips.push_reserved(slip);
        place
    }

    /// Frees what is unused of a claim. It takes no memory.
    pub fn give_back(&mut self, claim: Claim)
        requires { claim.book ≡ self.old.book }
        ensures places { self.new.claimed + claim.unused ≡ self.old.claimed }
        ensures same { self.new ≡ record self.old { claimed = self.new.claimed } }
    {
        let Claim {
            line: _,
            last: _,
            slip: _,
            tally,
        } = claim;
        let Tally { badge, unused } = tally;
        refund(&self.table.shared, &mut self.seat, seated(badge));
        self.claimed -= unused;
    }

    /// How many entries there are. With the places that are claimed they are no more than there is room for.
    pub fn len(&self) -> u64
        ensures len { result ≡ length self.now.history }
        ensures within { length self.now.history + self.now.claimed ≤ self.now.places }
        ensures few { self.now.places < 2 ^ 32 }
    {
        let _places = self.places;
        self.entries.len() as u64
    }

    /// Sheds the records of as many of the first entries as are durable by the list that the book has seen: their memory is free again.
    /// It takes no memory, and goes over no entry twice.
    pub fn shed(&mut self, upto: u64)
        requires durable { upto ≤ durable self.old.syncs }
        requires within { upto ≤ length self.old.history }
        ensures { self.new ≡ record self.old { kept = max self.old.kept upto } }
    {
        shed_slips(&mut self.slips, self.kept, upto);
        self.kept = greater(self.kept, upto);
    }

    /// The records of the entries from a place on, in parts for the log: each part ends where an entry does, and none is larger
    /// than a part may be. None of them was shed.
    pub fn parts(&self, from: u64) -> Result<Vec<Vec<Record>>, AllocError>
        requires kept { self.now.kept ≤ from }
        ensures { IfOk result (λ parts. AreParts self.now.book.session self.now.history from (lists_of parts.items)) }
    {
        let mut parts = Parts::new(*self.entries.allocator());
        for place in from..self.slips.len() as u64 {
            parts = parts.with(&self.slips[place as usize])?;
        }
        parts.finish()
    }

    /// The history.
    pub fn entries(&self) -> &[Entry]
        ensures { result.now ≡ self.now.history }
    {
        self.entries.as_slice()
    }

    /// The history, which is legal. What it says was kept was synced: the list that the book has seen tells when.
    pub fn into_history(self) -> Vec<Entry>
        ensures entries { result.items ≡ self.history }
        ensures sound { IsSound self.book.session }
        ensures legal { IsLegal self.book.session self.history }
        ensures backed { IsBacked self.book.session self.history self.syncs }
    {
        let Book {
            mut seat,
            table,
            entries,
            slips: _,
            places: _,
            claimed: _,
            kept: _,
        } = self;
        back(&table.shared, &mut seat);
        entries
    }

    /// What the book has now. It takes no memory.
    pub fn note(&mut self) -> Note
        ensures book { self.new ≡ self.old }
        ensures note { result ≡ record { book = self.old.book; seen = self.old.history; syncs = self.old.syncs } }
    {
        let badge = note(&self.table.shared, &mut self.seat).into_badge();
        Note {
            badge,
            len: self.entries.len() as u64,
        }
    }

    /// What the book has seen of the vault's list, with no entry. By that list the entries are durable whose records were shed. It
    /// takes no memory.
    #[tactic(auto, using(crate::proofs::Badges::past_list))]
    pub fn list(&mut self) -> Note
        ensures book { self.new ≡ self.old }
        ensures note { result ≡ record { book = self.old.book; seen = []; syncs = self.old.syncs } }
        ensures kept { self.old.kept ≤ durable self.old.syncs }
    {
        let badge = note_list(&self.table.shared, &mut self.seat).into_badge();
        Note { badge, len: 0 }
    }

    /// A process sees the whole history. It takes no memory.
    pub fn look(&mut self, line: &mut Line)
        requires { line.old.book ≡ self.old.book }
        ensures book { self.new ≡ record self.old { syncs = self.new.syncs } }
        ensures line { line.new ≡ record line.old { seen = self.old.history; syncs = self.new.syncs; looks = line.old.looks + 1; looked = length self.old.history } }
        ensures caller { IsPrefix line.old.seen self.old.history × AgreeBy line.old.who line.old.seen self.old.history × IsPrefix line.old.syncs self.new.syncs }
        ensures syncs { IsPrefix self.old.syncs self.new.syncs × IsRising self.new.syncs }
        ensures legal { IsLegal self.old.book.session self.old.history }
    {
        let seat = taken(&mut line.sight.badge);
        line.sight.badge = look(&self.table.shared, &mut self.seat, seat).into_badge();
        line.sight.len = self.entries.len() as u64;
    }

    /// The holder of a desk sees the whole history. It takes no memory.
    pub fn show(&mut self, desk: &mut Desk)
        requires { desk.old.book ≡ self.old.book }
        ensures book { self.new ≡ record self.old { syncs = self.new.syncs } }
        ensures desk { desk.new ≡ record desk.old { seen = self.old.history; syncs = self.new.syncs } }
        ensures object { IsPrefix desk.old.seen self.old.history × AgreeOn desk.old.what desk.old.seen self.old.history × IsPrefix desk.old.syncs self.new.syncs }
        ensures listed { Listed (name role.Desk desk.old.what) desk.old.syncs self.new.syncs }
        ensures syncs { IsPrefix self.old.syncs self.new.syncs × IsRising self.new.syncs }
        ensures legal { IsLegal self.old.book.session self.old.history }
    {
        let seat = taken(&mut desk.sight.badge);
        desk.sight.badge = show(&self.table.shared, &mut self.seat, seat).into_badge();
        desk.sight.len = self.entries.len() as u64;
    }
}
