//! How a book is opened, with the tokens of the registry, of all objects and of the vault.
ghost use Rattle.std.specs.Prelude.{◌≡◌, ◌+◌, ◌^◌, ◌<◌, ◌≤◌, [], ◌∷◌, ◌++◌, IfOk, OnOk, length, map, Some, None};
ghost use Rattle.std.specs.List.{range_with_len};
ghost use Rattle.pass_plain.specs.Legal.{session_of};
ghost use Rattle.pass_plain.specs.Sound.{IsSound};
ghost use Rattle.pass_book.specs.declared.view.Role.TheVariants as role;
ghost use Rattle.pass_book.specs.Names.{name, Among};
ghost use Rattle.pass_book.specs.Openings.{known_desk, new_desk, registry_desk, opening_numbers, opening_desks, AreApart, AwayApart, AwayBelow};
ghost use Rattle.pass_book.specs.Tokens.{id_of};
ghost use Rattle.pass_book.specs.Tokens as tokens;
ghost use Rattle.pass_book.specs.Views as views;

use crate::book::Book;
use crate::claim::Slip;
use crate::rule::TableOpening;
use crate::sight::{Seats, Sight};
use crate::steps::{Place, leave_now};
use crate::tokens::{Desk, Last, Line};
use crate::vault::{VaultSeat, vault_of};
use crate::view::Role;
use pass_entry::{Entry, Pnode};
use pass_plain::Start;
use std::alloc::{AllocError, Global};
use std::snapshot::Snapshot;
use std::sync::Arc;

// A name leaves a book that has no entry yet.
fn first_sight(
    table: &Arc<Seats, Global>,
    book: &mut Place,
    part: Role,
    number: u64,
) -> Result<Sight, AllocError>
    requires at { tokens.At (name role.Book 0) table.now.value.shared.table_id book.old.table_id book.old.me.0 }
    requires empty { book.old.me ≡ (views.book_view book.old.me.0.opened [] [] book.old.me.0.away [] 0 0, []) }
    requires past { tokens.IsPast (views.session_in book.old.me.0.opened) [] [] }
    requires unlike { (¬ (part ≡ role.Book)) × (¬ (part ≡ role.Vault)) }
    requires free { ¬ Among (name part number) book.old.me.0.away }
    ensures book { OnOk result ((book.new.table_id ≡ book.old.table_id) × (book.new.me ≡ (views.book_view book.old.me.0.opened [] [] (name part number ∷ book.old.me.0.away) [] 0 0, []))) }
    ensures sight { IfOk result (λ s. s ≡ record { book = id_of book.old.table_id book.old.me.0; name = name part number; seen = []; syncs = []; looks = 0; looked = 0 }) }
{
    let share = Arc::try_clone(table)?;
    let seat = leave_now(&table.shared, book, part, number);
    Ok(Sight {
        badge: seat.into_badge(),
        table: share,
        len: 0,
    })
}

// The desk of an object.
fn desk_alone(
    table: &Arc<Seats, Global>,
    book: &mut Place,
    number: Pnode,
) -> Result<Desk, AllocError>
    requires at { tokens.At (name role.Book 0) table.now.value.shared.table_id book.old.table_id book.old.me.0 }
    requires empty { book.old.me ≡ (views.book_view book.old.me.0.opened [] [] book.old.me.0.away [] 0 0, []) }
    requires past { tokens.IsPast (views.session_in book.old.me.0.opened) [] [] }
    requires free { ¬ Among (name role.Desk number) book.old.me.0.away }
    ensures book { OnOk result ((book.new.table_id ≡ book.old.table_id) × (book.new.me ≡ (views.book_view book.old.me.0.opened [] [] (name role.Desk number ∷ book.old.me.0.away) [] 0 0, []))) }
    ensures desk { IfOk result (λ d. d ≡ known_desk (id_of book.old.table_id book.old.me.0) number) }
{
    let sight = first_sight(table, book, Role::Desk, number.0)?;
    Ok(Desk {
        line: None,
        last: None,
        sight,
    })
}

// The line of a process, or of the registry.
fn line_alone(
    table: &Arc<Seats, Global>,
    book: &mut Place,
    number: Pnode,
) -> Result<Line, AllocError>
    requires at { tokens.At (name role.Book 0) table.now.value.shared.table_id book.old.table_id book.old.me.0 }
    requires empty { book.old.me ≡ (views.book_view book.old.me.0.opened [] [] book.old.me.0.away [] 0 0, []) }
    requires past { tokens.IsPast (views.session_in book.old.me.0.opened) [] [] }
    requires free { ¬ Among (name role.Line number) book.old.me.0.away }
    ensures book { OnOk result ((book.new.table_id ≡ book.old.table_id) × (book.new.me ≡ (views.book_view book.old.me.0.opened [] [] (name role.Line number ∷ book.old.me.0.away) [] 0 0, []))) }
    ensures line { IfOk result (λ l. l ≡ record { book = id_of book.old.table_id book.old.me.0; who = number; seen = []; syncs = []; looks = 0; looked = 0 }) }
{
    let sight = first_sight(table, book, Role::Line, number.0)?;
    Ok(Line { sight })
}

// The last of a process.
fn last_alone(
    table: &Arc<Seats, Global>,
    book: &mut Place,
    number: Pnode,
) -> Result<Last, AllocError>
    requires at { tokens.At (name role.Book 0) table.now.value.shared.table_id book.old.table_id book.old.me.0 }
    requires empty { book.old.me ≡ (views.book_view book.old.me.0.opened [] [] book.old.me.0.away [] 0 0, []) }
    requires past { tokens.IsPast (views.session_in book.old.me.0.opened) [] [] }
    requires free { ¬ Among (name role.Last number) book.old.me.0.away }
    ensures book { OnOk result ((book.new.table_id ≡ book.old.table_id) × (book.new.me ≡ (views.book_view book.old.me.0.opened [] [] (name role.Last number ∷ book.old.me.0.away) [] 0 0, []))) }
    ensures last { IfOk result (λ l. l ≡ record { book = id_of book.old.table_id book.old.me.0; what = number; seen = []; syncs = [] }) }
{
    let sight = first_sight(table, book, Role::Last, number.0)?;
    Ok(Last { sight })
}

// The desk of an object that the session may make, with its line and its last.
fn desk_of_new(
    table: &Arc<Seats, Global>,
    book: &mut Place,
    number: Pnode,
) -> Result<Desk, AllocError>
    requires at { tokens.At (name role.Book 0) table.now.value.shared.table_id book.old.table_id book.old.me.0 }
    requires empty { book.old.me ≡ (views.book_view book.old.me.0.opened [] [] book.old.me.0.away [] 0 0, []) }
    requires past { tokens.IsPast (views.session_in book.old.me.0.opened) [] [] }
    requires below { AwayBelow book.old.me.0.away number }
    ensures book { OnOk result ((book.new.table_id ≡ book.old.table_id) × (book.new.me ≡ (views.book_view book.old.me.0.opened [] [] book.new.me.0.away [] 0 0, []))) }
    ensures below { OnOk result (AwayBelow book.new.me.0.away (number + 1)) }
    ensures desk { IfOk result (λ d. d ≡ new_desk (id_of book.old.table_id book.old.me.0) number) }
{
    let sight = first_sight(table, book, Role::Desk, number.0)?;
    let line = line_alone(table, book, number)?;
    let last = last_alone(table, book, number)?;
    Ok(Desk {
        line: Some(line),
        last: Some(last),
        sight,
    })
}

// The registry's desk, with the line of number 0.
fn desk_of_registry(table: &Arc<Seats, Global>, book: &mut Place) -> Result<Desk, AllocError>
    requires at { tokens.At (name role.Book 0) table.now.value.shared.table_id book.old.table_id book.old.me.0 }
    requires empty { book.old.me ≡ (views.book_view book.old.me.0.opened [] [] book.old.me.0.away [] 0 0, []) }
    requires past { tokens.IsPast (views.session_in book.old.me.0.opened) [] [] }
    requires free { (¬ Among (name role.Desk 0) book.old.me.0.away) × (¬ Among (name role.Line 0) book.old.me.0.away) }
    ensures book { OnOk result ((book.new.table_id ≡ book.old.table_id) × (book.new.me ≡ (views.book_view book.old.me.0.opened [] [] (name role.Line 0 ∷ name role.Desk 0 ∷ book.old.me.0.away) [] 0 0, []))) }
    ensures desk { IfOk result (λ d. d ≡ registry_desk (id_of book.old.table_id book.old.me.0)) }
{
    let sight = first_sight(table, book, Role::Desk, 0)?;
    let line = line_alone(table, book, Pnode(0))?;
    Ok(Desk {
        line: Some(line),
        last: None,
        sight,
    })
}

// The desks of the objects that the opening has.
fn open_known(
    table: &Arc<Seats, Global>,
    book: &mut Place,
    numbers: &[Pnode],
    desks: &mut Vec<Desk>,
) -> Result<(), AllocError>
    requires at { tokens.At (name role.Book 0) table.now.value.shared.table_id book.old.table_id book.old.me.0 }
    requires empty { book.old.me ≡ (views.book_view book.old.me.0.opened [] [] book.old.me.0.away [] 0 0, []) }
    requires past { tokens.IsPast (views.session_in book.old.me.0.opened) [] [] }
    requires apart { AreApart numbers.now book.old.me.0.opened.start.ceiling }
    requires away { AwayApart book.old.me.0.away numbers.now book.old.me.0.opened.start.ceiling }
    ensures book { OnOk result ((book.new.table_id ≡ book.old.table_id) × (book.new.me ≡ (views.book_view book.old.me.0.opened [] [] book.new.me.0.away [] 0 0, []))) }
    ensures away { OnOk result (AwayApart book.new.me.0.away [] book.old.me.0.opened.start.ceiling) }
    ensures desks { OnOk result (desks.new.items ≡ desks.old.items ++ map (known_desk (id_of book.old.table_id book.old.me.0)) numbers.now) }
{
    for number in numbers {
        desks.push(desk_alone(table, book, *number)?)?;
    }
    Ok(())
}

// The desks of the objects that may be made, with numbers from the first on.
fn open_new(
    table: &Arc<Seats, Global>,
    book: &mut Place,
    first: u64,
    objects: u32,
    desks: &mut Vec<Desk>,
) -> Result<(), AllocError>
    requires at { tokens.At (name role.Book 0) table.now.value.shared.table_id book.old.table_id book.old.me.0 }
    requires empty { book.old.me ≡ (views.book_view book.old.me.0.opened [] [] book.old.me.0.away [] 0 0, []) }
    requires past { tokens.IsPast (views.session_in book.old.me.0.opened) [] [] }
    requires fits { first + objects < 2 ^ 64 }
    requires below { AwayBelow book.old.me.0.away first }
    ensures book { OnOk result ((book.new.table_id ≡ book.old.table_id) × (book.new.me ≡ (views.book_view book.old.me.0.opened [] [] book.new.me.0.away [] 0 0, []))) }
    ensures desks { OnOk result (desks.new.items ≡ desks.old.items ++ map (new_desk (id_of book.old.table_id book.old.me.0)) (range_with_len first objects)) }
{
    for made in 0..objects {
        let number = Pnode(first + made as u64);
        desks.push(desk_of_new(table, book, number)?)?;
    }
    Ok(())
}

// The objects of the opening.
fn opened_numbers(alloc: Global, start: &Start) -> Result<Vec<Pnode>, AllocError>
    ensures { IfOk result (λ v. v.items ≡ opening_numbers start.now) }
{
    let files = start.files.iter().map(|file| file.node.pnode);
    let apps = start.apps.iter().map(|app| app.pnode);
    files.chain(apps).collect(alloc)
}

impl Book {
    /// A book with no entry and room for so many, the desks of the registry, of the objects of the start, files before app
    /// objects, and of those that may be made, and the vault's seat. The registry's desk has the line of number 0, and
    /// each desk of an object that may be made the line and the last of its number.
    pub fn open(
        alloc: Global,
        start: &Start,
        objects: u32,
        entries: u32,
    ) -> Result<(Book, Vec<Desk>, VaultSeat), AllocError>
        requires { IsSound (session_of start.now objects) }
        ensures session { IfOk result (λ r. r.0.book.session ≡ session_of start.now objects) }
        ensures book { IfOk result (λ r. r.0 ≡ record { book = r.0.book; history = []; syncs = []; places = entries; claimed = 0; kept = 0 }) }
        ensures desks { IfOk result (λ r. r.1.items ≡ opening_desks r.0.book start.now objects) }
        ensures vault { IfOk result (λ r. r.2 ≡ record { book = r.0.book; seen = []; syncs = [] }) }
    {
        let history: Vec<Entry> = Vec::with_capacity(alloc, entries as usize)?;
        let slips: Vec<Slip> = Vec::with_capacity(alloc, entries as usize)?;
        let opening = TableOpening {
            start: Snapshot::of(start),
            objects,
        };
        let (table, mut seat) = Seats::of_words(alloc, &[0, 0], &opening)?;
        let table = Arc::new(alloc, table)?;
        let vault = vault_of(Arc::try_clone(&table)?, &mut seat);
        let numbers = opened_numbers(alloc, start)?;
        let mut desks = Vec::new(alloc);
        desks.push(desk_of_registry(&table, &mut seat)?)?;
        open_known(&table, &mut seat, &numbers, &mut desks)?;
        open_new(&table, &mut seat, start.ceiling + 1, objects, &mut desks)?;
        let book = Book {
            seat,
            table,
            entries: history,
            slips,
            places: entries,
            claimed: 0,
            kept: 0,
        };
        Ok((book, desks, vault))
    }
}
