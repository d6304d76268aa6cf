//! The book of a session with its tokens, and its registry: what is made of memory alone.
ghost use Rattle.std.specs.Prelude.{◌≡◌, ◌+◌, ◌≤◌, ◌∷◌, ◌++◌, [], IfOk, length};
ghost use Rattle.pass_plain.specs.Legal.{session_of};
ghost use Rattle.pass_plain.specs.Sound.{IsSound};
ghost use Rattle.pass_session.specs.Sessions.{IsGround};

use pass_book::{Book, Desk, VaultSeat};
use pass_entry::Record;
use pass_plain::Start;
use pass_registry::Registry;
use std::alloc::{AllocError, Global};

/// The desks of an opening: those of the registry, of its files, of its app objects, of the first process, and of the other
/// objects that the session may make.
#[derive(Drop)]
pub(crate) struct Desks {
    pub(crate) registry: Desk,
    pub(crate) files: Vec<Desk>,
    pub(crate) apps: Vec<Desk>,
    pub(crate) first: Desk,
    pub(crate) rest: Vec<Desk>,
}

/// A session before its first entry, with the room for that entry's records.
#[derive(Drop)]
pub(crate) struct Ground {
    pub(crate) book: Book,
    pub(crate) desks: Desks,
    pub(crate) registry: Registry,
    pub(crate) slip: Vec<Record>,
}

/// Takes the desks of an opening apart.
fn parted(desks: Vec<Desk>, start: &Start) -> Result<Desks, AllocError>
    requires { length start.now.files.items + length start.now.apps.items + 2 ≤ length desks.items }
    ensures whole { IfOk result (λ d. d.registry ∷ (d.files.items ++ (d.apps.items ++ d.first ∷ d.rest.items)) ≡ desks.items) }
    ensures files { IfOk result (λ d. length d.files.items ≡ length start.now.files.items) }
    ensures apps { IfOk result (λ d. length d.apps.items ≡ length start.now.apps.items) }
{
    let mut registry = desks;
    let mut files = registry.split_off(1)?;
    let mut apps = files.split_off(start.files.len())?;
    let mut first = apps.split_off(start.apps.len())?;
    let rest = first.split_off(1)?;
    let (Some(registry), Some(first)) = (registry.pop(), first.pop()) else {
        unreachable!()
    };
    Ok(Desks {
        registry,
        files,
        apps,
        first,
        rest,
    })
}

impl Ground {
    /// A session that begins with a start, may make so many objects and has room for so many entries; and its vault's seat.
    pub(crate) fn new(
        alloc: Global,
        start: &Start,
        objects: u32,
        entries: u32,
    ) -> Result<(Ground, VaultSeat), AllocError>
        requires sound { IsSound (session_of start.now objects) }
        ensures session { IfOk result (λ r. r.0.book.book.session ≡ session_of start.now objects) }
        ensures places { IfOk result (λ r. r.0.book.places ≡ entries) }
        ensures ground { IfOk result (λ r. IsGround r.0) }
        ensures seat { IfOk result (λ r. r.1 ≡ record { book = r.0.book.book; seen = []; syncs = [] }) }
    {
        let registry = Registry::new(alloc, start, objects)?;
        let slip = Vec::with_capacity(alloc, 1)?;
        let (book, desks, seat) = Book::open(alloc, start, objects, entries)?;
        let desks = parted(desks, start)?;
        let ground = Ground {
            book,
            desks,
            registry,
            slip,
        };
        Ok((ground, seat))
    }
}
