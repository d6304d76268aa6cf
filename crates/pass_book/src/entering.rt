//! How an entry is added, with the tokens that it needs.
ghost use Rattle.std.specs.Prelude.{◌≡◌, ◌+◌, ◌-◌, ◌^◌, ◌<◌, ◌≤◌, [], ◌∷◌, ◌++◌, length, MatchOption};
ghost use mathlib.Core.List.{IsPrefix};
ghost use Rattle.pass_plain.specs.Legal.{ObjectAllows, CallerAllows, MayFollow};
ghost use Rattle.pass_book.specs.declared.view.Role.TheVariants as role;
ghost use Rattle.pass_book.specs.Names.{name, Among, Agrees, Listed};
ghost use Rattle.pass_book.specs.Syncs.{durable, IsRising, Backs};
ghost use Rattle.pass_book.specs.Tokens as tokens;
ghost use Rattle.pass_book.specs.Views as views;

use crate::claim::Tally;
use crate::sight::Sight;
use crate::steps::{Desks, Place, fold, seated, taken, write_down};
use crate::tokens::Last;
use pass_entry::{Act, Entry};

/// The last of a process that ends comes back for good.
pub(crate) fn fold_last(table: &Desks, book: &mut Place, last: Option<Last>, entry: &Entry)
    requires at { tokens.At (name role.Book 0) table.now.table_id book.old.table_id book.old.me.0 }
    requires last { MatchOption last (¬ (entry.now.act ≡ Act.Finish)) (λ l. (l.book.table ≡ table.now.table_id) × (l.what ≡ entry.now.what)) }
    ensures at { tokens.At (name role.Book 0) table.now.table_id book.new.table_id book.new.me.0 }
    ensures same { (book.new.me.0.seen ≡ book.old.me.0.seen) × (book.new.me.0.opened ≡ book.old.me.0.opened) × (book.new.me.1 ≡ book.old.me.1) }
    ensures claimed { (book.new.me.0.claimed ≡ book.old.me.0.claimed) × (book.new.me.0.pool ≡ book.old.me.0.pool) }
    ensures home { entry.now.act ≡ Act.Finish → ¬ Among (name role.Last entry.now.what) book.new.me.0.away }
    ensures listed { (h ss : _) → views.all_folded h ss book.new.me.0.folded → IsPrefix book.new.me.0.syncs ss → IsPrefix book.old.me.0.syncs ss }
{
    let _ = entry;
    match last {
        Some(last) => {
            let Last { sight } = last;
            let Sight {
                badge,
                table: _,
                len: _,
            } = sight;
            fold(table, book, seated(badge));
        }
        None => {}
    }
}

/// An entry is written, with the desk of its object, the line of its caller and a claim, at this place.
pub(crate) fn enter(
    table: &Desks,
    book: &mut Place,
    desk: &mut Sight,
    line: &mut Sight,
    tally: &mut Tally,
    entry: &Entry,
    place: u64,
)
    requires at { tokens.At (name role.Book 0) table.now.table_id book.old.table_id book.old.me.0 }
    requires none { book.old.me.0.claimed ≡ 0 }
    requires past { tokens.IsPast (views.session_in book.old.me.0.opened) book.old.me.0.seen [] }
    requires place { (place ≡ length book.old.me.0.seen) × (place + 1 < 2 ^ 64) }
    requires one { (desk.old.book.table ≡ table.now.table_id) × (line.old.book.table ≡ table.now.table_id) × (tally.old.book.table ≡ table.now.table_id) }
    requires desk { desk.old.name ≡ name role.Desk entry.now.what }
    requires line { line.old.name ≡ name role.Line entry.now.who }
    requires claim { 0 < tally.old.unused }
    requires last { entry.now.act ≡ Act.Finish → ¬ Among (name role.Last entry.now.what) book.old.me.0.away }
    requires object { ObjectAllows (views.session_in book.old.me.0.opened) desk.old.seen entry.now }
    requires caller { CallerAllows line.old.seen entry.now }
    requires kept { Backs (views.session_in book.old.me.0.opened) line.old.seen (length line.old.seen) line.old.syncs entry.now }
    ensures at { tokens.At (name role.Book 0) table.now.table_id book.new.table_id book.new.me.0 }
    ensures seen { book.new.me.0.seen ≡ book.old.me.0.seen ++ entry.now ∷ [] }
    ensures opened { (book.new.me.0.opened ≡ book.old.me.0.opened) × (book.new.me.1 ≡ book.old.me.1) }
    ensures claimed { (book.new.me.0.claimed ≡ 0) × (book.new.me.0.pool + 1 ≡ book.old.me.0.pool) }
    ensures follows { MayFollow (views.session_in book.old.me.0.opened) book.old.me.0.seen entry.now }
    ensures earlier { views.all_folded book.old.me.0.seen book.new.me.0.syncs book.old.me.0.folded }
    ensures past { tokens.IsPast (views.session_in book.old.me.0.opened) book.new.me.0.seen book.new.me.0.syncs }
    ensures syncs { IsPrefix book.old.me.0.syncs book.new.me.0.syncs × IsRising book.new.me.0.syncs }
    ensures desk { desk.new ≡ record { book = tokens.id_of desk.old.book.table book.old.me.0; name = desk.old.name; seen = book.new.me.0.seen; syncs = book.new.me.0.syncs; looks = 0; looked = 0 } }
    ensures line { line.new ≡ record { book = tokens.id_of line.old.book.table book.old.me.0; name = line.old.name; seen = book.new.me.0.seen; syncs = book.new.me.0.syncs; looks = line.old.looks + 1; looked = length book.new.me.0.seen } }
    ensures tally { tally.new ≡ record { book = tokens.id_of tally.old.book.table book.old.me.0; unused = tally.old.unused - 1 } }
    ensures object { IsPrefix desk.old.seen book.old.me.0.seen × Agrees (name role.Desk entry.now.what) desk.old.seen book.old.me.0.seen × IsPrefix desk.old.syncs book.new.me.0.syncs }
    ensures listed { Listed (name role.Desk entry.now.what) desk.old.syncs book.new.me.0.syncs }
    ensures within { durable book.new.me.0.syncs ≤ length book.old.me.0.seen }
    ensures caller { IsPrefix line.old.seen book.old.me.0.seen × Agrees (name role.Line entry.now.who) line.old.seen book.old.me.0.seen × IsPrefix line.old.syncs book.new.me.0.syncs }
{
    let desk_seat = taken(&mut desk.badge);
    let line_seat = taken(&mut line.badge);
    let claim_seat = taken(&mut tally.badge);
    let (desk_seat, line_seat, claim_seat) = write_down(
        table, book, desk_seat, line_seat, claim_seat, entry,
    );
    desk.badge = desk_seat.into_badge();
    desk.len = place + 1;
    line.badge = line_seat.into_badge();
    line.len = place + 1;
    tally.badge = claim_seat.into_badge();
    tally.unused -= 1;
}
