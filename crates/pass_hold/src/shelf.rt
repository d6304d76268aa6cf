//! The book, as it lies under its lock.
ghost use Rattle.std.specs.Prelude.{◌≡◌, ◌≤◌, [], IfOk, length, max};
ghost use mathlib.Core.List.{IsPrefix};
ghost use Rattle.pass_plain.specs.Legal.{IsLegal};
ghost use Rattle.pass_plain.specs.Lawful.{AgreeBy, AgreeOn};
ghost use Rattle.pass_plain.specs.Places.{held_places, left_places};
ghost use Rattle.pass_plain.specs.Sound.{IsSound};
ghost use Rattle.pass_book.specs.Names.{name, Listed};
ghost use Rattle.pass_book.specs.Parting.{lists_of};
ghost use Rattle.pass_book.specs.Records.{AreParts};
ghost use Rattle.pass_book.specs.Syncs.{durable, IsBacked, IsRising};
ghost use Rattle.pass_book.specs.declared.view.Role.TheVariants as role;

use crate::whose::Whose;
use pass_book::{Book, Desk, Line, Note};
use pass_entry::{Entry, Record};
use std::alloc::AllocError;
use std::marker::{Model, PhantomData};

/// The book of a store. The places that are claimed of it are those that its processes hold.
#[derive(Drop)]
pub struct Shelf<J: Whose> {
    pub(crate) book: Book,
    whose: PhantomData<J>,
}

impl<J: Whose> Model for Shelf<J> {
    ghost use Rattle.std.specs.Prelude.{◌≡◌, ◌≤◌};
    ghost use Rattle.std.specs.Coded.{codes};
    ghost use Rattle.pass_entry.specs.contracts.entry.Entry as entry_type;
    ghost use Rattle.pass_plain.specs.contracts.start.Start as start_type;
    ghost use Rattle.pass_plain.specs.Places.{held_places};
    ghost use Rattle.pass_book.specs.Tokens.{BookState};

    ghost Value = { BookState };

    ghost coded = { Prim.hlevel (codes, entry_type.the_row.coded, start_type.the_row.coded) };

    ghost view = { λ s. s.book };

    ghost invariant = { λ s. (s.book.book ≡ J.book) × (s.book.places ≡ J.places) × (s.book.claimed ≡ held_places s.book.history) × (s.book.places ≤ 16777216) };
}

impl<J: Whose> Shelf<J> {
    /// Lays a book into its lock. Its processes must hold what is claimed of it.
    pub fn new(book: Book) -> Shelf<J>
        requires book { (book.book ≡ J.book) × (book.places ≡ J.places) }
        requires few { book.places ≤ 16777216 }
        requires held { book.claimed ≡ held_places book.history }
        ensures { result ≡ book }
    {
        Shelf {
            book,
            whose: PhantomData,
        }
    }

    /// How many places are neither used nor held by a process.
    pub fn left(&self) -> u32
        ensures { result ≡ left_places J.places self.now.history }
    {
        self.book.left()
    }

    /// The holder of a desk sees the whole history.
    pub fn show(&mut self, desk: &mut Desk)
        requires { desk.old.book ≡ J.book }
        ensures shelf { self.new ≡ record self.old { syncs = self.new.syncs } }
        ensures desk { desk.new ≡ record desk.old { seen = self.old.history; syncs = self.new.syncs } }
        ensures object { IsPrefix desk.old.seen self.old.history × AgreeOn desk.old.what desk.old.seen self.old.history }
        ensures syncs { IsPrefix desk.old.syncs self.new.syncs }
        ensures listed { Listed (name role.Desk desk.old.what) desk.old.syncs self.new.syncs }
        ensures rising { IsRising self.new.syncs }
        ensures legal { IsLegal J.book.session self.old.history }
        ensures few { length self.old.history ≤ 16777216 }
    {
        self.book.show(desk);
        let _ = self.book.len();
    }

    /// The line of a process that has ended sees the whole history.
    pub fn look(&mut self, line: &mut Line)
        requires { line.old.book ≡ J.book }
        ensures shelf { self.new ≡ record self.old { syncs = self.new.syncs } }
        ensures line { (line.new.book ≡ J.book) × (line.new.who ≡ line.old.who) × (line.new.seen ≡ self.old.history) }
        ensures caller { IsPrefix line.old.seen self.old.history × AgreeBy line.old.who line.old.seen self.old.history }
        ensures legal { IsLegal J.book.session self.old.history }
    {
        self.book.look(line);
    }

    /// What the book has now. It takes no memory.
    pub fn note(&mut self) -> Note
        ensures shelf { self.new ≡ self.old }
        ensures note { result ≡ record { book = J.book; seen = self.old.history; syncs = self.old.syncs } }
    {
        self.book.note()
    }

    /// What the book has seen of the vault's list, with no entry. By that list the entries are durable whose records were shed. It
    /// takes no memory.
    pub fn list(&mut self) -> Note
        ensures shelf { self.new ≡ self.old }
        ensures note { result ≡ record { book = J.book; seen = []; syncs = self.old.syncs } }
        ensures kept { self.old.kept ≤ durable self.old.syncs }
    {
        self.book.list()
    }

    /// Sheds the records of as many of the first entries as are durable by the list that the book has seen: their memory is free again.
    /// It takes no memory.
    pub fn shed(&mut self, upto: u64)
        requires durable { upto ≤ durable self.old.syncs }
        requires within { upto ≤ length self.old.history }
        ensures { self.new ≡ record self.old { kept = max self.old.kept upto } }
    {
        self.book.shed(upto);
    }

    /// The records of the entries from a place on, in parts for the log, and what the book has now. None of them was shed.
    pub fn parts(&mut self, from: u64) -> Result<(Vec<Vec<Record>>, Note), AllocError>
        requires kept { self.old.kept ≤ from }
        ensures shelf { self.new ≡ self.old }
        ensures note { IfOk result (λ r. r.1 ≡ record { book = J.book; seen = self.old.history; syncs = self.old.syncs }) }
        ensures parts { IfOk result (λ r. AreParts J.book.session self.old.history from (lists_of r.0.items)) }
        ensures few { length self.old.history ≤ 16777216 }
    {
        let _ = self.book.len();
        let Ok(parts) = self.book.parts(from) else {
            return Err(AllocError);
        };
        let note = self.book.note();
        Ok((parts, note))
    }

    /// The history, at the end of a session.
    pub fn into_history(self) -> Vec<Entry>
        ensures entries { result.items ≡ self.history }
        ensures sound { IsSound J.book.session }
        ensures legal { IsLegal J.book.session self.history }
        ensures backed { IsBacked J.book.session self.history self.syncs }
    {
        self.book.into_history()
    }
}
