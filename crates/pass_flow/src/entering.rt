//! Entries on an object that has versions.
ghost use Rattle.std.specs.Prelude.{◌≡◌, ◌+◌, ◌-◌, ◌≤◌, ◌<◌, ◌^◌, ◌++◌, true, [], is_some, IfSome, None, length, Some};
ghost use mathlib.Core.List.{IsPrefix};
ghost use Rattle.pass_plain.specs.Histories.{out_of};
ghost use Rattle.pass_plain.specs.Legal.{ObjectAllows};
ghost use Rattle.pass_plain.specs.Lineages.{IsAlike, lineage_act};
ghost use Rattle.pass_plain.specs.Versions.{is_in, nodes_of, source_in};
ghost use Rattle.pass_book.specs.Names.{name, Listed};
ghost use Rattle.pass_book.specs.Slips.{slip_records};
ghost use Rattle.pass_book.specs.Syncs.{durable, IsRising};
ghost use Rattle.pass_book.specs.declared.view.Role.TheVariants as role;
ghost use Rattle.pass_entry.specs.declared.entry.Act.TheVariants as act;
ghost use Rattle.pass_hold.specs.Places.{HasRoom};
ghost use Rattle.pass_hold.specs.Entering.{MayEnter, Enters, IsAt};
ghost use Rattle.pass_flow.specs.Entering.{IsVersioned, is_object_act, moved_by, moved_records, version_records, rest_records, spare_after};

use pass_book::{Desk, Slip};
use pass_entry::{Act, Entry, Node, Record, Reply};
use pass_hold::{Caller, Shelf, Whose, slip_of};
use pass_version::Versions;

/// Takes from a source, and gives the records of that before others.
fn taken_slip(versions: &mut Versions, act: &Act, source: &Node, rest: Vec<Record>) -> Slip
    requires act { is_object_act act.now ≡ true }
    requires takes { ¬ (out_of act.now ≡ None) }
    requires version { versions.old.lineage.node.version < 2 ^ 63 }
    requires spare { 1 ≤ versions.old.spare }
    ensures lineage { IsAlike versions.new.lineage (lineage_act versions.old.lineage (Some source.now) act.now) }
    ensures spare { versions.new.spare ≡ versions.old.spare - 1 }
    ensures slip { result ≡ version_records versions.old.lineage (Some source.now) act.now ++ rest.items }
{
    let taken = versions.take(*source);
    slip_of(taken, &versions.current(), source, rest)
}

/// Moves a version by an act that takes from no source, and gives the new version where one is begun.
fn move_by(versions: &mut Versions, act: &Act) -> Option<Node>
    requires act { is_object_act act.now ≡ true }
    requires takes { out_of act.now ≡ None }
    requires version { versions.old.lineage.node.version < 2 ^ 63 }
    ensures lineage { versions.new ≡ record versions.old { lineage = lineage_act versions.old.lineage None act.now } }
    ensures node { slip_records result None [] ≡ version_records versions.old.lineage None act.now }
{
    match act {
        Act::Freeze => Some(versions.freeze()),
        Act::Give { .. } | Act::Load | Act::Take { .. } | Act::Cite => {
            versions.mark();
            None
        }
        _ => None,
    }
}

/// Moves the version of an object by an entry, and gives the entry's records: those of the version before others.
fn slip_by(versions: &mut Versions, entry: &Entry, source: Option<Node>, rest: Vec<Record>) -> Slip
    requires act { is_object_act entry.now.act ≡ true }
    requires given { is_in entry.now ≡ is_some source }
    requires version { versions.old.lineage.node.version < 2 ^ 63 }
    requires spare { IfSome source (λ s. 1 ≤ versions.old.spare) }
    ensures lineage { IsAlike versions.new.lineage (moved_by versions.old.lineage source entry.now) }
    ensures spare { versions.new.spare ≡ spare_after source versions.old.spare }
    ensures slip { result ≡ moved_records versions.old.lineage source entry.now ++ rest.items }
{
    if let Some(source) = source {
        return taken_slip(versions, &entry.act, &source, rest);
    }
    let version = match entry.reply {
        Reply::Fault(_) => None,
        _ => move_by(versions, &entry.act),
    };
    Slip {
        version,
        input: None,
        rest,
    }
}

/// Makes an entry on an object with versions, and answers its place and the object's node there.
///
/// `source` is the node from which the entry takes, where it does, and `rest` the records that it makes behind those of the object's
/// version. Only an entry that takes from a source uses memory that was reserved for it.
pub fn enter_on<J: Whose>(
    shelf: &mut Shelf<J>,
    caller: &mut Caller<J>,
    desk: &mut Desk,
    versions: &mut Versions,
    entry: Entry,
    source: Option<Node>,
    rest: Vec<Record>,
    keep: u32,
) -> (u64, Node)
    requires object { IsVersioned J.book desk.old versions.old }
    requires act { is_object_act entry.act ≡ true }
    requires what { entry.what ≡ desk.old.what }
    requires who { caller.old.who ≡ entry.who }
    requires place { HasRoom shelf.old caller.old.held (keep + 1) }
    requires entry { MayEnter caller.old.seen entry keep }
    requires replies { ObjectAllows J.book.session desk.old.seen entry }
    requires source { source_in (nodes_of J.book.session caller.old.seen) entry ≡ source }
    requires given { is_in entry ≡ is_some source }
    requires spare { IfSome source (λ s. 1 ≤ versions.old.spare) }
    requires rest { rest.items ≡ rest_records J.book.session desk.old.seen entry }
    ensures entry { Enters J.book.session caller.old caller.new desk.old.seen entry keep }
    ensures at { IsAt J.book.session caller.new.seen result }
    ensures object { IsVersioned J.book desk.new versions.new }
    ensures spare { versions.new.spare ≡ spare_after source versions.old.spare }
    ensures desk { desk.new ≡ record desk.old { seen = caller.new.seen; syncs = caller.new.syncs } }
    ensures shelf { shelf.new ≡ record shelf.old { history = caller.new.seen; syncs = shelf.new.syncs; claimed = shelf.new.claimed } }
    ensures listed { Listed (name role.Desk entry.what) desk.old.syncs caller.new.syncs }
    ensures durable { durable caller.new.syncs < length caller.new.seen }
    ensures rising { IsRising caller.new.syncs }
    ensures grows { IsPrefix caller.old.syncs caller.new.syncs }
{
    let _ = desk.seen();
    let slip = slip_by(versions, &entry, source, rest);
    let place = caller.enter(shelf, desk, slip, entry, keep);
    (place, versions.current())
}
