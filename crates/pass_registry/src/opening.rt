//! How a session begins: the registry makes its first process.
ghost use Rattle.std.specs.Prelude.{◌≡◌, ◌+◌, ◌≤◌, [], ◌∷◌, Ok, None, vec_capacity};
ghost use Rattle.pass_entry.specs.declared.entry.Act.TheVariants as act;
ghost use Rattle.pass_entry.specs.declared.entry.CallName.TheVariants as calls;
ghost use Rattle.pass_entry.specs.declared.entry.Reply.TheVariants as answer;
ghost use Rattle.pass_entry.specs.declared.objects.Kind.TheVariants as kinds;
ghost use Rattle.pass_plain.specs.Registries.{opening_registry};
ghost use Rattle.pass_plain.specs.Replies.{minted};
ghost use Rattle.pass_book.specs.Openings.{registry_desk};
ghost use Rattle.pass_registry.specs.Desks.{first_entry};
ghost use Rattle.pass_registry.specs.Listed.{mint_records};
ghost use Rattle.pass_registry.specs.States.{opened};

use crate::desk::RegistryDesk;
use crate::registry::Registry;
use crate::slips::mint_slip;
use pass_book::{Book, Claim, Desk, Line, Slip};
use pass_entry::{Act, CallName, Entry, Kind, Pnode, Record, Reply};
use pass_hold::Whose;

/// The first entry of a session, whose caller is the outside.
fn start_entry(pnode: Pnode) -> Entry
    ensures { result ≡ first_entry pnode }
{
    Entry {
        who: Pnode(0),
        number: 0,
        call: CallName::Start,
        what: Pnode(0),
        act: Act::Mint {
            kind: Kind::Process,
        },
        reply: Reply::Made(pnode),
    }
}

/// Takes the line that lies with a desk.
fn line_of(desk: &mut Desk) -> Option<Line>
    ensures line { result ≡ desk.old.line }
    ensures desk { desk.new ≡ record desk.old { line = None } }
{
    desk.line.take()
}

/// Lays a line and an entry's records into a claim.
fn fill(claim: &mut Claim, line: Option<Line>, slip: Slip)
    ensures { claim.new ≡ record claim.old { line = line; slip = slip } }
{
    claim.line = line;
    claim.slip = slip;
}

/// Makes the first entry, for which the line of the outside lies with the registry's desk.
fn enter_start(book: &mut Book, desk: &mut Desk, pnode: Pnode, slip: Slip)
    requires desk { desk.old ≡ registry_desk book.old.book }
    requires book { book.old.history ≡ [] }
    requires place { book.old.claimed + 1 ≤ book.old.places }
    requires slip { slip ≡ mint_records (Ok pnode) kinds.Process }
    requires reply { minted book.old.book.session (opening_registry book.old.book.session.start) kinds.Process ≡ answer.Made pnode }
    ensures book { book.new ≡ record book.old { history = first_entry pnode ∷ []; syncs = book.new.syncs } }
    ensures desk { (desk.new.book ≡ book.old.book) × (desk.new.what ≡ 0) × (desk.new.seen ≡ first_entry pnode ∷ []) }
{
    let Ok(mut claim) = book.claim(1) else {
        unreachable!()
    };
    let line = line_of(desk);
    fill(&mut claim, line, slip);
    book.add(desk, &mut claim, start_entry(pnode));
    book.give_back(claim);
}

impl<J: Whose> RegistryDesk<J> {
    /// Begins a session: makes the entry of `Start`, by which the outside makes the first process, and answers that process's
    /// number.
    pub fn start(
        book: &mut Book,
        registry: Registry,
        desk: Desk,
        list: Vec<Record>,
    ) -> (RegistryDesk<J>, Pnode)
        requires book { (book.old.book ≡ J.book) × (book.old.history ≡ []) × (book.old.claimed ≡ 0) × (1 ≤ book.old.places) }
        requires registry { registry ≡ opened J.book.session.start J.book.session.objects }
        requires some { 1 ≤ J.book.session.objects }
        requires desk { desk ≡ registry_desk J.book }
        requires list { (list.items ≡ []) × (1 ≤ vec_capacity list) }
        ensures number { result.1 ≡ J.book.session.start.ceiling + 1 }
        ensures registry { result.0 ≡ record { seen = first_entry result.1 ∷ []; room = 0 } }
        ensures book { book.new ≡ record book.old { history = first_entry result.1 ∷ []; syncs = book.new.syncs } }
    {
        let mut registry = registry;
        let mut desk = desk;
        let answer = registry.mint(Kind::Process);
        let slip = mint_slip(&answer, Kind::Process, list);
        let Ok(pnode) = answer else { unreachable!() };
        enter_start(book, &mut desk, pnode, slip);
        (RegistryDesk::of(registry, desk), pnode)
    }
}
