//! The steps on the seats of the book and of the vault.
ghost use Rattle.std.specs.Prelude.{◌≡◌, ◌+◌, ◌-◌, ◌<◌, ◌≤◌, [], ◌∷◌, ◌++◌, length, false, ◌⊎◌, None, Some};
ghost use Rattle.pass_book.specs.declared.view.Role.TheVariants.{Book, Desk, Line, Last, Vault, Claim, Note};
ghost use Rattle.pass_book.specs.declared.view.VaultSync.{VaultSync};
ghost use Rattle.pass_plain.specs.Legal.{IsLegal, ObjectAllows, CallerAllows, MayFollow};
ghost use Rattle.pass_book.specs.Names.{name, Among, touches, Agrees, Listed};
ghost use Rattle.pass_book.specs.Numbers.{IsFileNumber};
ghost use Rattle.pass_book.specs.Syncs.{durable, called, IsRising, Backs, IsBacked};
ghost use mathlib.Core.List.{IsPrefix};
ghost use Rattle.pass_book.specs.Views as views;
ghost use Rattle.pass_book.specs.Tokens as tokens;

use crate::rule::{
    Claims, Counting, Folds, Freeing, Hears, Law, Learning, Leaves, Naming, Notes, NotesList,
    TableOpening, Takes, Writes, Writing,
};
use crate::view::{Role, View};
use atomic_table::{Badge, Seat, Shared};
use pass_entry::{Act, Entry};
use std::marker::Brand;
use std::mem;
use std::snapshot::Snapshot;

/// What all threads share of the table.
pub type Desks = Shared<u8, View, TableOpening, Law>;

/// A seat of the table.
pub type Place = Seat<u8, View>;

/// The seat that waits in a badge.
pub(crate) fn seated(badge: Badge<View>) -> Place
    requires { badge.views ≡ tokens.view_in badge.views ∷ [] }
    ensures { (result.table_id ≡ badge.table_id) × (result.me ≡ (tokens.view_in badge.views, [])) }
{
    badge.into_seat::<u8>()
}

/// The same, where the badge goes on without a seat.
pub(crate) fn taken(badge: &mut Badge<View>) -> Place
    requires { badge.old.views ≡ tokens.view_in badge.old.views ∷ [] }
    ensures { (result.table_id ≡ badge.old.table_id) × (result.me ≡ (tokens.view_in badge.old.views, [])) }
{
    seated(mem::replace(badge, Badge::blank()))
}

// A name leaves the book.
fn leave<N: Naming>(table: &Desks, book: &mut Place) -> Place
    requires at { tokens.At (name Book 0) table.now.table_id book.old.table_id book.old.me.0 }
    requires vault { N.role ≡ Vault → N.number ≡ 0 }
    requires free { ¬ Among (name N.role N.number) book.old.me.0.away }
    ensures book { (book.new.table_id ≡ book.old.table_id) × (book.new.me ≡ (views.leaving (name N.role N.number) book.old.me.0, book.old.me.1)) }
    ensures seat { (result.table_id ≡ book.old.table_id) × (result.me ≡ (views.left (name N.role N.number) N.looks book.old.me.0, [])) }
{
    table.split_seat::<Leaves<N>>(book)
}

fn leave_named<N: Naming>(table: &Desks, book: &mut Place, role: Role, number: u64) -> Place
    requires at { tokens.At (name Book 0) table.now.table_id book.old.table_id book.old.me.0 }
    requires named { (N.role ≡ role) × (N.number ≡ number) × (N.looks ≡ 0) }
    requires vault { role ≡ Vault → number ≡ 0 }
    requires free { ¬ Among (name role number) book.old.me.0.away }
    ensures book { (book.new.table_id ≡ book.old.table_id) × (book.new.me ≡ (views.leaving (name role number) book.old.me.0, book.old.me.1)) }
    ensures seat { (result.table_id ≡ book.old.table_id) × (result.me ≡ (views.left (name role number) 0 book.old.me.0, [])) }
{
    let _ = (role, number);
    leave::<N>(table, book)
}

/// A name leaves the book for the first time.
pub(crate) fn leave_now(table: &Desks, book: &mut Place, role: Role, number: u64) -> Place
    requires at { tokens.At (name Book 0) table.now.table_id book.old.table_id book.old.me.0 }
    requires vault { role ≡ Vault → number ≡ 0 }
    requires free { ¬ Among (name role number) book.old.me.0.away }
    ensures book { (book.new.table_id ≡ book.old.table_id) × (book.new.me ≡ (views.leaving (name role number) book.old.me.0, book.old.me.1)) }
    ensures seat { (result.table_id ≡ book.old.table_id) × (result.me ≡ (views.left (name role number) 0 book.old.me.0, [])) }
{
    leave_named::<Brand>(table, book, role, number)
}

fn leave_again<N: Naming>(table: &Desks, book: &mut Place, line: &Snapshot<Place>) -> Place
    requires at { tokens.At (name Book 0) table.now.table_id book.old.table_id book.old.me.0 }
    requires named { (N.role ≡ Line) × (N.number ≡ line.now.value.me.0.name.number) × (N.looks ≡ line.now.value.me.0.looks + 1) }
    requires free { ¬ Among (name Line line.now.value.me.0.name.number) book.old.me.0.away }
    ensures book { (book.new.table_id ≡ book.old.table_id) × (book.new.me ≡ (views.leaving (name Line line.now.value.me.0.name.number) book.old.me.0, book.old.me.1)) }
    ensures seat { (result.table_id ≡ book.old.table_id) × (result.me ≡ (views.left (name Line line.now.value.me.0.name.number) (line.now.value.me.0.looks + 1) book.old.me.0, [])) }
{
    let _ = line;
    leave::<N>(table, book)
}

// A line leaves the book again, with one more look than it had.
fn again(table: &Desks, book: &mut Place, line: &Snapshot<Place>) -> Place
    requires at { tokens.At (name Book 0) table.now.table_id book.old.table_id book.old.me.0 }
    requires free { ¬ Among (name Line line.now.value.me.0.name.number) book.old.me.0.away }
    ensures book { (book.new.table_id ≡ book.old.table_id) × (book.new.me ≡ (views.leaving (name Line line.now.value.me.0.name.number) book.old.me.0, book.old.me.1)) }
    ensures seat { (result.table_id ≡ book.old.table_id) × (result.me ≡ (views.left (name Line line.now.value.me.0.name.number) (line.now.value.me.0.looks + 1) book.old.me.0, [])) }
{
    leave_again::<Brand>(table, book, line)
}

// An entry is written, and the desk of its object leaves the book.
fn write<E: Writing>(table: &Desks, book: &mut Place, entry: &Entry) -> Place
    requires at { tokens.At (name Book 0) table.now.table_id book.old.table_id book.old.me.0 }
    requires entry { E.entry ≡ entry.now }
    requires free { (a : _) → Among a book.old.me.0.away → touches a entry.now ≡ false }
    requires may { MayFollow (views.session_in book.old.me.0.opened) book.old.me.0.seen entry.now }
    requires kept { Backs (views.session_in book.old.me.0.opened) book.old.me.0.seen (length book.old.me.0.seen) book.old.me.0.syncs entry.now }
    requires place { 0 < book.old.me.0.claimed }
    ensures book { (book.new.table_id ≡ book.old.table_id) × (book.new.me ≡ (views.writing entry.now book.old.me.0, book.old.me.1)) }
    ensures seat { (result.table_id ≡ book.old.table_id) × (result.me ≡ (views.written entry.now book.old.me.0, [])) }
{
    let _ = entry;
    table.split_seat::<Writes<E>>(book)
}

// Places are claimed, beside those that are here.
fn claim<C: Counting>(table: &Desks, book: &mut Place, count: u32) -> Place
    requires at { tokens.At (name Book 0) table.now.table_id book.old.table_id book.old.me.0 }
    requires count { C.count ≡ count }
    ensures book { (book.new.table_id ≡ book.old.table_id) × (book.new.me ≡ (views.claiming count book.old.me.0, book.old.me.1)) }
    ensures seat { (result.table_id ≡ book.old.table_id) × (result.me ≡ (views.claim_of count book.old.me.0, [])) }
{
    let _ = count;
    table.split_seat::<Claims<C>>(book)
}

/// Places are claimed, beside those that are here.
pub(crate) fn claim_places(table: &Desks, book: &mut Place, count: u32) -> Place
    requires at { tokens.At (name Book 0) table.now.table_id book.old.table_id book.old.me.0 }
    ensures book { (book.new.table_id ≡ book.old.table_id) × (book.new.me ≡ (views.claiming count book.old.me.0, book.old.me.1)) }
    ensures seat { (result.table_id ≡ book.old.table_id) × (result.me ≡ (views.claim_of count book.old.me.0, [])) }
{
    claim::<Brand>(table, book, count)
}

/// A name or a claim comes back to the book.
pub(crate) fn fold(table: &Desks, book: &mut Place, seat: Place)
    requires at { tokens.At (name Book 0) table.now.table_id book.old.table_id book.old.me.0 }
    requires same { seat.table_id ≡ table.now.table_id }
    requires empty { seat.me.1 ≡ [] }
    requires unlike { ¬ (seat.me.0.name ≡ name Vault 0) }
    ensures { (book.new.table_id ≡ book.old.table_id) × (book.new.me ≡ (views.folding book.old.me.0 seat.me.0, book.old.me.1)) }
{
    table.join_seat::<Folds>(book, seat)
}

// How what came back stands to the history.
fn learn(table: &Desks, book: &mut Place)
    requires at { tokens.At (name Book 0) table.now.table_id book.old.table_id book.old.me.0 }
    ensures same { (book.new.table_id ≡ book.old.table_id) × (book.new.me ≡ book.old.me) }
    ensures legal { IsLegal (views.session_in book.old.me.0.opened) book.old.me.0.seen }
    ensures rising { IsRising book.old.me.0.syncs }
    ensures folded { views.all_folded book.old.me.0.seen book.old.me.0.syncs book.old.me.0.folded }
    ensures desks { views.all_listed book.old.me.0.syncs book.old.me.0.away book.old.me.0.folded }
    ensures within { durable book.old.me.0.syncs ≤ length book.old.me.0.seen }
    ensures claimed { book.old.me.0.claimed ≤ book.old.me.0.pool }
{
    table.load::<Learning>(book, 0);
}

/// Each entry of the book that says that something was kept has its syncs in the list that the book has seen.
pub(crate) fn back(table: &Desks, book: &mut Place)
    requires at { tokens.At (name Book 0) table.now.table_id book.old.table_id book.old.me.0 }
    ensures backed { IsBacked (views.session_in book.old.me.0.opened) book.old.me.0.seen book.old.me.0.syncs }
{
    table.load::<Learning>(book, 0);
}

// Claimed places that came back are free again.
fn free(table: &Desks, book: &mut Place)
    requires at { tokens.At (name Book 0) table.now.table_id book.old.table_id book.old.me.0 }
    ensures book { (book.new.table_id ≡ book.old.table_id) × (book.new.me ≡ (views.freeing book.old.me.0, book.old.me.1)) }
    ensures claimed { book.old.me.0.claimed ≤ book.old.me.0.pool }
{
    table.load::<Freeing>(book, 0);
}

/// A claim comes back to the book, and its places are free again.
pub(crate) fn refund(table: &Desks, book: &mut Place, claimed: Place)
    requires at { tokens.At (name Book 0) table.now.table_id book.old.table_id book.old.me.0 }
    requires none { book.old.me.0.claimed ≡ 0 }
    requires same { claimed.table_id ≡ table.now.table_id }
    requires claim { (claimed.me.0.name ≡ name Claim 0) × (claimed.me.0.syncs ≡ []) × (claimed.me.1 ≡ []) }
    ensures at { tokens.At (name Book 0) table.now.table_id book.new.table_id book.new.me.0 }
    ensures seen { (book.new.me.0.seen ≡ book.old.me.0.seen) × (book.new.me.0.opened ≡ book.old.me.0.opened) × (book.new.me.0.syncs ≡ book.old.me.0.syncs) × (book.new.me.1 ≡ book.old.me.1) }
    ensures claimed { (book.new.me.0.claimed ≡ 0) × (book.new.me.0.pool + claimed.me.0.claimed ≡ book.old.me.0.pool) }
{
    fold(table, book, claimed);
    free(table, book);
}

/// A note of what the book or the vault has seen.
pub(crate) fn note(table: &Desks, seat: &mut Place) -> Place
    requires same { seat.old.table_id ≡ table.now.table_id }
    requires words { 1 < table.now.table_id.words }
    requires live { (seat.old.me.0.name ≡ name Book 0) ⊎ (seat.old.me.0.name ≡ name Vault 0) }
    ensures seat { (seat.new.table_id ≡ seat.old.table_id) × (seat.new.me ≡ seat.old.me) }
    ensures note { (result.table_id ≡ seat.old.table_id) × (result.me ≡ (views.noted seat.old.me.0, [])) }
{
    table.split_seat::<Notes>(seat)
}

/// A note of the list that the book has seen.
pub(crate) fn note_list(table: &Desks, book: &mut Place) -> Place
    requires at { tokens.At (name Book 0) table.now.table_id book.old.table_id book.old.me.0 }
    ensures book { (book.new.table_id ≡ book.old.table_id) × (book.new.me ≡ book.old.me) }
    ensures note { (result.table_id ≡ book.old.table_id) × (result.me ≡ (views.list_noted book.old.me.0, [])) }
{
    table.split_seat::<NotesList>(book)
}

// The desk of the entry's object, the line of its caller and a claim come back to the book, which learns that the entry may come next.
fn gather(table: &Desks, book: &mut Place, desk: Place, line: Place, claimed: Place, entry: &Entry)
    requires at { tokens.At (name Book 0) table.now.table_id book.old.table_id book.old.me.0 }
    requires same { (desk.table_id ≡ table.now.table_id) × (line.table_id ≡ table.now.table_id) × (claimed.table_id ≡ table.now.table_id) }
    requires desk { (desk.me.0.name ≡ name Desk entry.now.what) × (desk.me.1 ≡ []) }
    requires line { (line.me.0.name ≡ name Line entry.now.who) × (line.me.1 ≡ []) }
    requires claim { (claimed.me.0.name ≡ name Claim 0) × (claimed.me.1 ≡ []) }
    requires object { ObjectAllows (views.session_in book.old.me.0.opened) desk.me.0.seen entry.now }
    requires caller { CallerAllows line.me.0.seen entry.now }
    requires kept { Backs (views.session_in book.old.me.0.opened) line.me.0.seen (length line.me.0.seen) line.me.0.syncs entry.now }
    ensures book { (book.new.table_id ≡ book.old.table_id) × (book.new.me ≡ (views.folding (views.folding (views.folding book.old.me.0 claimed.me.0) desk.me.0) line.me.0, book.old.me.1)) }
    ensures follows { MayFollow (views.session_in book.old.me.0.opened) book.old.me.0.seen entry.now }
    ensures kept { Backs (views.session_in book.old.me.0.opened) book.old.me.0.seen (length book.old.me.0.seen) book.new.me.0.syncs entry.now }
    ensures legal { IsLegal (views.session_in book.old.me.0.opened) book.old.me.0.seen }
    ensures claimed { book.new.me.0.claimed ≤ book.new.me.0.pool }
    ensures syncs { IsPrefix book.old.me.0.syncs book.new.me.0.syncs × IsRising book.new.me.0.syncs }
    ensures earlier { views.all_folded book.old.me.0.seen book.new.me.0.syncs book.old.me.0.folded }
    ensures object { IsPrefix desk.me.0.seen book.old.me.0.seen × Agrees (name Desk entry.now.what) desk.me.0.seen book.old.me.0.seen × IsPrefix desk.me.0.syncs book.new.me.0.syncs }
    ensures listed { Listed (name Desk entry.now.what) desk.me.0.syncs book.new.me.0.syncs }
    ensures within { durable book.new.me.0.syncs ≤ length book.old.me.0.seen }
    ensures caller { IsPrefix line.me.0.seen book.old.me.0.seen × Agrees (name Line entry.now.who) line.me.0.seen book.old.me.0.seen × IsPrefix line.me.0.syncs book.new.me.0.syncs }
{
    let _ = entry;
    fold(table, book, claimed);
    fold(table, book, desk);
    fold(table, book, line);
    learn(table, book);
}

/// Writes an entry, with the desk of its object, the line of its caller and a claim. Afterwards desk and line have seen the whole history.
pub(crate) fn write_down(
    table: &Desks,
    book: &mut Place,
    desk: Place,
    line: Place,
    claimed: Place,
    entry: &Entry,
) -> (Place, Place, Place)
    requires at { tokens.At (name Book 0) table.now.table_id book.old.table_id book.old.me.0 }
    requires none { book.old.me.0.claimed ≡ 0 }
    requires same { (desk.table_id ≡ table.now.table_id) × (line.table_id ≡ table.now.table_id) × (claimed.table_id ≡ table.now.table_id) }
    requires desk { (desk.me.0.name ≡ name Desk entry.now.what) × (desk.me.0.claimed ≡ 0) × (desk.me.1 ≡ []) }
    requires line { (line.me.0.name ≡ name Line entry.now.who) × (line.me.0.claimed ≡ 0) × (line.me.1 ≡ []) }
    requires claim { (claimed.me.0.name ≡ name Claim 0) × (0 < claimed.me.0.claimed) × (claimed.me.1 ≡ []) }
    requires last { entry.now.act ≡ Act.Finish → ¬ Among (name Last entry.now.what) book.old.me.0.away }
    requires object { ObjectAllows (views.session_in book.old.me.0.opened) desk.me.0.seen entry.now }
    requires caller { CallerAllows line.me.0.seen entry.now }
    requires kept { Backs (views.session_in book.old.me.0.opened) line.me.0.seen (length line.me.0.seen) line.me.0.syncs entry.now }
    ensures at { tokens.At (name Book 0) table.now.table_id book.new.table_id book.new.me.0 }
    ensures seen { book.new.me.0.seen ≡ book.old.me.0.seen ++ entry.now ∷ [] }
    ensures opened { (book.new.me.0.opened ≡ book.old.me.0.opened) × (book.new.me.1 ≡ book.old.me.1) }
    ensures claimed { (book.new.me.0.claimed ≡ 0) × (book.new.me.0.pool + 1 ≡ book.old.me.0.pool) }
    ensures follows { MayFollow (views.session_in book.old.me.0.opened) book.old.me.0.seen entry.now }
    ensures earlier { views.all_folded book.old.me.0.seen book.new.me.0.syncs book.old.me.0.folded }
    ensures syncs { IsPrefix book.old.me.0.syncs book.new.me.0.syncs × IsRising book.new.me.0.syncs }
    ensures same { (result.0.table_id ≡ table.now.table_id) × (result.1.table_id ≡ table.now.table_id) × (result.2.table_id ≡ table.now.table_id) }
    ensures desk { result.0.me ≡ (views.holding (name Desk entry.now.what) book.old.me.0.opened book.new.me.0.seen book.new.me.0.syncs 0 0, []) }
    ensures line { result.1.me ≡ (views.holding (name Line entry.now.who) book.old.me.0.opened book.new.me.0.seen book.new.me.0.syncs (line.me.0.looks + 1) (length book.new.me.0.seen), []) }
    ensures claim { (result.2.me.0.name ≡ name Claim 0) × (result.2.me.0.opened ≡ book.old.me.0.opened) × (result.2.me.0.syncs ≡ []) × (result.2.me.0.claimed + 1 ≡ claimed.me.0.claimed) × (result.2.me.1 ≡ []) }
    ensures object { IsPrefix desk.me.0.seen book.old.me.0.seen × Agrees (name Desk entry.now.what) desk.me.0.seen book.old.me.0.seen × IsPrefix desk.me.0.syncs book.new.me.0.syncs }
    ensures listed { Listed (name Desk entry.now.what) desk.me.0.syncs book.new.me.0.syncs }
    ensures within { durable book.new.me.0.syncs ≤ length book.old.me.0.seen }
    ensures caller { IsPrefix line.me.0.seen book.old.me.0.seen × Agrees (name Line entry.now.who) line.me.0.seen book.old.me.0.seen × IsPrefix line.me.0.syncs book.new.me.0.syncs }
{
    let old = Snapshot::of(&line);
    gather(table, book, desk, line, claimed, entry);
    let desk = write::<Brand>(table, book, entry);
    let line = again(table, book, &old);
    let claimed = claim_places(table, book, 0);
    (desk, line, claimed)
}

/// A line comes back to the book and leaves it again. Afterwards it has seen the whole history.
pub(crate) fn look(table: &Desks, book: &mut Place, line: Place) -> Place
    requires at { tokens.At (name Book 0) table.now.table_id book.old.table_id book.old.me.0 }
    requires none { book.old.me.0.claimed ≡ 0 }
    requires same { line.table_id ≡ table.now.table_id }
    requires line { (line.me.0.name ≡ name Line line.me.0.name.number) × (line.me.0.claimed ≡ 0) × (line.me.1 ≡ []) }
    ensures at { tokens.At (name Book 0) table.now.table_id book.new.table_id book.new.me.0 }
    ensures seen { (book.new.me.0.seen ≡ book.old.me.0.seen) × (book.new.me.0.opened ≡ book.old.me.0.opened) × (book.new.me.1 ≡ book.old.me.1) }
    ensures claimed { (book.new.me.0.claimed ≡ 0) × (book.new.me.0.pool ≡ book.old.me.0.pool) }
    ensures same { result.table_id ≡ table.now.table_id }
    ensures line { result.me ≡ (views.holding line.me.0.name book.old.me.0.opened book.new.me.0.seen book.new.me.0.syncs (line.me.0.looks + 1) (length book.new.me.0.seen), []) }
    ensures caller { IsPrefix line.me.0.seen book.old.me.0.seen × Agrees line.me.0.name line.me.0.seen book.old.me.0.seen × IsPrefix line.me.0.syncs book.new.me.0.syncs }
    ensures syncs { IsPrefix book.old.me.0.syncs book.new.me.0.syncs × IsRising book.new.me.0.syncs }
{
    let old = Snapshot::of(&line);
    fold(table, book, line);
    learn(table, book);
    again(table, book, &old)
}

fn leave_as_desk<N: Naming>(table: &Desks, book: &mut Place, desk: &Snapshot<Place>) -> Place
    requires at { tokens.At (name Book 0) table.now.table_id book.old.table_id book.old.me.0 }
    requires named { (N.role ≡ Desk) × (N.number ≡ desk.now.value.me.0.name.number) × (N.looks ≡ 0) }
    requires free { ¬ Among (name Desk desk.now.value.me.0.name.number) book.old.me.0.away }
    ensures book { (book.new.table_id ≡ book.old.table_id) × (book.new.me ≡ (views.leaving (name Desk desk.now.value.me.0.name.number) book.old.me.0, book.old.me.1)) }
    ensures seat { (result.table_id ≡ book.old.table_id) × (result.me ≡ (views.left (name Desk desk.now.value.me.0.name.number) 0 book.old.me.0, [])) }
{
    let _ = desk;
    leave::<N>(table, book)
}

// A desk leaves the book again.
fn desk_again(table: &Desks, book: &mut Place, desk: &Snapshot<Place>) -> Place
    requires at { tokens.At (name Book 0) table.now.table_id book.old.table_id book.old.me.0 }
    requires free { ¬ Among (name Desk desk.now.value.me.0.name.number) book.old.me.0.away }
    ensures book { (book.new.table_id ≡ book.old.table_id) × (book.new.me ≡ (views.leaving (name Desk desk.now.value.me.0.name.number) book.old.me.0, book.old.me.1)) }
    ensures seat { (result.table_id ≡ book.old.table_id) × (result.me ≡ (views.left (name Desk desk.now.value.me.0.name.number) 0 book.old.me.0, [])) }
{
    leave_as_desk::<Brand>(table, book, desk)
}

/// A desk comes back to the book and leaves it again. Afterwards it has seen the whole history.
pub(crate) fn show(table: &Desks, book: &mut Place, desk: Place) -> Place
    requires at { tokens.At (name Book 0) table.now.table_id book.old.table_id book.old.me.0 }
    requires none { book.old.me.0.claimed ≡ 0 }
    requires same { desk.table_id ≡ table.now.table_id }
    requires desk { (desk.me.0.name ≡ name Desk desk.me.0.name.number) × (desk.me.0.claimed ≡ 0) × (desk.me.1 ≡ []) }
    ensures at { tokens.At (name Book 0) table.now.table_id book.new.table_id book.new.me.0 }
    ensures seen { (book.new.me.0.seen ≡ book.old.me.0.seen) × (book.new.me.0.opened ≡ book.old.me.0.opened) × (book.new.me.1 ≡ book.old.me.1) }
    ensures claimed { (book.new.me.0.claimed ≡ 0) × (book.new.me.0.pool ≡ book.old.me.0.pool) }
    ensures same { result.table_id ≡ table.now.table_id }
    ensures desk { result.me ≡ (views.holding desk.me.0.name book.old.me.0.opened book.new.me.0.seen book.new.me.0.syncs 0 (length book.new.me.0.seen), []) }
    ensures object { IsPrefix desk.me.0.seen book.old.me.0.seen × Agrees desk.me.0.name desk.me.0.seen book.old.me.0.seen × IsPrefix desk.me.0.syncs book.new.me.0.syncs }
    ensures listed { Listed desk.me.0.name desk.me.0.syncs book.new.me.0.syncs }
    ensures syncs { IsPrefix book.old.me.0.syncs book.new.me.0.syncs × IsRising book.new.me.0.syncs }
{
    let old = Snapshot::of(&desk);
    fold(table, book, desk);
    learn(table, book);
    desk_again(table, book, &old)
}

/// A seat other than the book's is told of a note, and takes it in.
pub(crate) fn hear(table: &Desks, seat: &mut Place, note: Place)
    requires same { (seat.old.table_id ≡ table.now.table_id) × (note.table_id ≡ table.now.table_id) }
    requires words { 1 < table.now.table_id.words }
    requires unlike { ¬ (seat.old.me.0.name ≡ name Book 0) }
    requires note { (note.me.0.name ≡ name Note 0) × (note.me.1 ≡ []) }
    requires quiet { seat.old.me.0.told ≡ [] }
    ensures seat { (seat.new.table_id ≡ seat.old.table_id) × (seat.new.me ≡ (views.met (views.hearing seat.old.me.0 note.me.0), seat.old.me.1)) }
    ensures met { views.IsMet (views.hearing seat.old.me.0 note.me.0) seat.new.me.0 }
{
    table.join_seat::<Hears>(seat, note);
    table.load::<Takes>(seat, 0);
}
