//! What lies under the locks of a store as its session begins.
ghost use Rattle.std.specs.Prelude.{◌≡◌, ◌+◌, ◌-◌, ◌≤◌, [], None, IfOk, map, vec_capacity};
ghost use Rattle.std.specs.List.{range_with_len};
ghost use Rattle.pass_book.specs.Openings.{new_desk, registry_desk};
ghost use Rattle.pass_plain.specs.Processes.{new_process};
ghost use Rattle.pass_plain.specs.Sound.{IsSound};
ghost use Rattle.pass_registry.specs.States.{opened};
ghost use Rattle.pass_plain.specs.Outlines.{SameButBytes};
ghost use Rattle.pass_session.specs.Layouts.{first_process, first_entries, file_views, app_view};
ghost use Rattle.pass_session.specs.Openings.{IsBare};
ghost use Rattle.pass_session.specs.Sessions.{IsGround};

use crate::ground::{Desks, Ground};
use crate::objects::{Laid, lay};
use pass_book::{Book, Desk};
use pass_entry::Record;
use pass_file::FileDesk;
use pass_flow::AppDesk;
use pass_hold::{Blank, Shelf, Whose};
use pass_outside::Disk;
use pass_plain::Start;
use pass_proc::{Living, Proc};
use pass_registry::{Registry, RegistryDesk};
use pass_vault::Vault;
use std::alloc::{AllocError, Global};

/// A session that has begun: what is to lie under the locks of its store, its first process, and what its opening read.
#[derive(Drop)]
pub struct Held<J: Whose, D: Disk> {
    pub shelf: Shelf<J>,
    pub vault: Vault<D>,
    pub registry: RegistryDesk<J>,
    /// The files of the opening, in the order of their numbers.
    pub files: Vec<FileDesk<J>>,
    /// The app objects of the opening, in its order.
    pub apps: Vec<AppDesk<J>>,
    /// The other objects that the session may make, by ascending numbers right above the first process's.
    pub blanks: Vec<Blank<J>>,
    pub first: Proc<J>,
    /// What lies in the place of the first process.
    pub living: Living<J>,
    /// The records of the log as it read.
    pub list: Vec<Record>,
    /// The start that they tell. Its files lack their bytes.
    pub start: Start,
    /// The disk's count of faults as the session was opened.
    pub opened: u64,
}

/// A session with its first entry: its book, its registry, its first process, and what lies in that one's place.
#[derive(Drop)]
pub(crate) struct Begun<J: Whose> {
    pub(crate) shelf: Shelf<J>,
    pub(crate) registry: RegistryDesk<J>,
    pub(crate) first: Proc<J>,
    pub(crate) living: Living<J>,
}

/// Makes the first entry of a session, and its first process.
fn begin<J: Whose>(
    alloc: Global,
    book: Book,
    registry: Registry,
    desk: Desk,
    first: Desk,
    slip: Vec<Record>,
) -> Begun<J>
    requires book { book ≡ record { book = J.book; history = []; syncs = []; places = J.places; claimed = 0; kept = 0 } }
    requires few { (66 ≤ J.places) × (J.places ≤ 16777216) }
    requires some { 1 ≤ J.book.session.objects }
    requires registry { registry ≡ opened J.book.session.start J.book.session.objects }
    requires desk { desk ≡ registry_desk J.book }
    requires first { first ≡ new_desk J.book (first_process J.book.session.start) }
    requires slip { (slip.items ≡ []) × (1 ≤ vec_capacity slip) }
    ensures shelf { result.shelf ≡ record { book = J.book; history = first_entries J.book.session.start; syncs = result.shelf.syncs; places = J.places; claimed = 65; kept = 0 } }
    ensures registry { result.registry ≡ record { seen = first_entries J.book.session.start; room = 0 } }
    ensures first { (result.first.who ≡ first_process J.book.session.start) × (result.first.number ≡ 0) × (result.first.way ≡ None) }
    ensures seen { result.first.seen ≡ first_entries J.book.session.start }
    ensures state { result.first.state ≡ new_process }
    ensures living { result.living.who ≡ first_process J.book.session.start }
{
    let mut book = book;
    let (registry, pnode) = RegistryDesk::<J>::start(&mut book, registry, desk, slip);
    let Ok((first, living)) = Proc::<J>::first(alloc, &mut book, first, pnode) else {
        unreachable!()
    };
    Begun {
        shelf: Shelf::new(book),
        registry,
        first,
        living,
    }
}

/// Lays out what a session begins with, and then makes its first entry.
pub(crate) fn set_up<J: Whose>(
    alloc: Global,
    ground: Ground,
    start: Start,
) -> Result<(Laid<J>, Begun<J>), AllocError>
    requires book { (ground.book.book ≡ J.book) × (ground.book.places ≡ J.places) }
    requires few { (66 ≤ J.places) × (J.places ≤ 16777216) }
    requires sound { IsSound J.book.session }
    requires ground { IsGround ground }
    requires start { start ≡ J.book.session.start }
    ensures start { IfOk result (λ r. SameButBytes r.0.start start × IsBare r.0.start) }
    ensures files { IfOk result (λ r. r.0.files.items ≡ file_views 0 start.files.items) }
    ensures apps { IfOk result (λ r. r.0.apps.items ≡ map app_view start.apps.items) }
    ensures blanks { IfOk result (λ r. r.0.blanks.items ≡ range_with_len (first_process start + 1) (J.book.session.objects - 1)) }
    ensures shelf { IfOk result (λ r. r.1.shelf ≡ record { book = J.book; history = first_entries start; syncs = r.1.shelf.syncs; places = J.places; claimed = 65; kept = 0 }) }
    ensures registry { IfOk result (λ r. r.1.registry ≡ record { seen = first_entries start; room = 0 }) }
    ensures first { IfOk result (λ r. (r.1.first.who ≡ first_process start) × (r.1.first.number ≡ 0) × (r.1.first.way ≡ None)) }
    ensures seen { IfOk result (λ r. r.1.first.seen ≡ first_entries start) }
    ensures state { IfOk result (λ r. r.1.first.state ≡ new_process) }
    ensures living { IfOk result (λ r. r.1.living.who ≡ first_process start) }
{
    let Ground {
        book,
        desks,
        registry,
        slip,
    } = ground;
    let Desks {
        registry: desk,
        files,
        apps,
        first,
        rest,
    } = desks;
    let laid = lay::<J>(alloc, start, files, apps, rest)?;
    let begun = begin::<J>(alloc, book, registry, desk, first, slip);
    Ok((laid, begun))
}
