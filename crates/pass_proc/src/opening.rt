//! The first process of a session.
ghost use Rattle.std.specs.Prelude.{◌≡◌, ◌+◌, ◌-◌, ◌<◌, ◌≤◌, [], ◌∷◌, None, length, IfErr, IfOk, OnErr, OnOk};
ghost use Rattle.pass_plain.specs.Legal.{IsLegal};
ghost use Rattle.pass_plain.specs.Places.{held_places};
ghost use Rattle.pass_plain.specs.Processes.{new_process};
ghost use Rattle.pass_book.specs.Openings.{new_desk};
ghost use Rattle.pass_proc.specs.Births.{start_entry};

use crate::birth::parted;
use crate::ended::Living;
use crate::proc::Proc;
use pass_book::{Book, Claim, Desk, Full, Line};
use pass_entry::{Descriptors, Pnode};
use pass_hold::{Caller, Whose};
use pass_version::Versions;
use std::alloc::Global;

fn line_in(claim: &mut Claim, line: Line)
    ensures { claim.new ≡ record claim.old { line = Some line } }
{
    claim.line = Some(line);
}

/// The first process at work: it has seen its beginning, and holds the places for its exit.
fn first_caller<J: Whose>(book: &mut Book, line: Line, pnode: Pnode) -> Result<Caller<J>, Full>
    requires book { (book.old.book ≡ J.book) × (book.old.history ≡ start_entry pnode ∷ []) }
    requires line { (line.book ≡ J.book) × (line.who ≡ pnode) }
    ensures caller { IfOk result (λ c. (c.who ≡ pnode) × (c.seen ≡ start_entry pnode ∷ []) × (c.own ≡ 65)) }
    ensures legal { OnOk result (IsLegal J.book.session (start_entry pnode ∷ [])) }
    ensures claimed { OnOk result (book.new ≡ record book.old { syncs = book.new.syncs; claimed = book.old.claimed + 65 }) }
    ensures enough { OnOk result (length book.old.history + book.old.claimed + 65 ≤ book.old.places) }
    ensures full { IfErr result (λ f. (f ≡ record { left = book.old.places - (length book.old.history + book.old.claimed); need = 65 }) × (f.left < 65)) }
    ensures same { OnErr result (book.new ≡ book.old) }
{
    let mut claim = match book.claim(65) {
        Ok(claim) => claim,
        Err(full) => return Err(full),
    };
    let mut line = line;
    book.look(&mut line);
    line_in(&mut claim, line);
    let _ = pnode;
    Ok(Caller::new(claim, 65, 0))
}

impl<J: Whose> Proc<J> {
    /// The first process of a session, which has begun by the one entry of the book. It claims the places that it keeps for its exit,
    /// makes no entry and takes no memory. What lies in its slot from then on comes with it.
    pub fn first(
        alloc: Global,
        book: &mut Book,
        desk: Desk,
        pnode: Pnode,
    ) -> Result<(Proc<J>, Living<J>), Full>
        requires book { (book.old.book ≡ J.book) × (book.old.history ≡ start_entry pnode ∷ []) }
        requires desk { desk ≡ new_desk J.book pnode }
        ensures number { OnOk result (pnode ≡ J.book.session.start.ceiling + 1) }
        ensures process { IfOk result (λ r. (r.0.who ≡ pnode) × (r.0.number ≡ 0) × (r.0.way ≡ None)) }
        ensures seen { IfOk result (λ r. r.0.seen ≡ start_entry pnode ∷ []) }
        ensures state { IfOk result (λ r. r.0.state ≡ new_process) }
        ensures living { IfOk result (λ r. r.1.who ≡ pnode) }
        ensures claimed { OnOk result (book.new ≡ record book.old { syncs = book.new.syncs; claimed = book.old.claimed + 65 }) }
        ensures held { OnOk result (held_places book.new.history ≡ 65) }
        ensures enough { OnOk result (length book.old.history + book.old.claimed + 65 ≤ book.old.places) }
        ensures full { IfErr result (λ f. (f ≡ record { left = book.old.places - (length book.old.history + book.old.claimed); need = 65 }) × (f.left < 65)) }
        ensures same { OnErr result (book.new ≡ book.old) }
    {
        let _ = desk.seen();
        let (desk, line, last) = parted::<J>(desk, pnode);
        let caller = match first_caller::<J>(book, line, pnode) {
            Ok(caller) => caller,
            Err(full) => return Err(full),
        };
        let versions = Versions::new(alloc, pnode, 1, false);
        let proc = Proc::begin(alloc, desk, caller, versions, Descriptors::new());
        Ok((proc, Living::of(pnode, last)))
    }
}
