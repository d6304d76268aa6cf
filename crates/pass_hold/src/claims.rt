//! What lies in a claim beside its places, put in and taken out.
ghost use Rattle.std.specs.Prelude.{◌≡◌, ◌+◌, ◌≤◌, [], None, Some, IsSome, IfSome, IsSomeAnd, length};

use pass_book::{Book, Claim, Last, Line, Slip};

/// Lays the records of the next entry into a claim.
pub(crate) fn with_slip(claim: &mut Claim, slip: Slip)
    ensures { claim.new ≡ record claim.old { slip = slip } }
{
    claim.slip = slip;
}

/// Lays the right to end the process of the claim's line into a claim.
pub(crate) fn with_last(claim: &mut Claim, last: Last)
    ensures { claim.new ≡ record claim.old { last = Some last } }
{
    claim.last = Some(last);
}

/// Takes the line of a claim.
pub(crate) fn line_out(claim: &mut Claim) -> Option<Line>
    ensures line { result ≡ claim.old.line }
    ensures claim { claim.new ≡ record claim.old { line = None } }
{
    claim.line.take()
}

/// How many entries the holder of a claim's line has seen.
pub(crate) fn seen_by(claim: &Claim) -> u64
    requires { IsSome claim.now.line }
    ensures { IfSome claim.now.line (λ line. result ≡ length line.seen) }
{
    match &claim.line {
        Some(line) => line.seen(),
        None => unreachable!(),
    }
}

/// Lays a line into a claim.
pub(crate) fn line_in(claim: &mut Claim, line: Option<Line>)
    ensures { claim.new ≡ record claim.old { line = line } }
{
    claim.line = line;
}

/// A claim of places that are free.
pub(crate) fn claimed(book: &mut Book, need: u32) -> Claim
    requires room { length book.old.history + book.old.claimed + need ≤ book.old.places }
    ensures claim { result ≡ record { book = book.old.book; unused = need; line = None; last = None; slip = [] } }
    ensures book { book.new ≡ record book.old { claimed = book.old.claimed + need } }
{
    let Ok(claim) = book.claim(need) else {
        unreachable!()
    };
    claim
}

/// Lays a line that sees the whole history into a claim.
pub(crate) fn looked_in(book: &mut Book, claim: &mut Claim, line: Line)
    requires { line.book ≡ book.old.book }
    ensures line { IsSomeAnd claim.new.line (λ l. (l.book ≡ line.book) × (l.who ≡ line.who) × (l.seen ≡ book.old.history)) }
    ensures claim { claim.new ≡ record claim.old { line = claim.new.line } }
    ensures book { book.new ≡ record book.old { syncs = book.new.syncs } }
{
    let mut line = line;
    book.look(&mut line);
    line_in(claim, Some(line));
}
