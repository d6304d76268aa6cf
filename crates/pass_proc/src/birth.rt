//! A child begins.
ghost use Rattle.std.specs.Prelude.{◌≡◌, ◌≤◌, None, Some, [], false, IfOk};
ghost use Rattle.pass_plain.specs.Lineages.{IsAlike, with_source};
ghost use Rattle.pass_plain.specs.Processes.{new_process};
ghost use Rattle.pass_plain.specs.Sessions.{is_opened};
ghost use Rattle.pass_plain.specs.Versions.{nodes_of, source_in};
ghost use Rattle.pass_version.specs.declared.versions.Taken.TheVariants as taken;
ghost use Rattle.pass_book.specs.Openings.{fresh_desk, fresh_last, fresh_line, new_desk};
ghost use Rattle.pass_hold.specs.Slips.{taken_records};
ghost use Rattle.pass_hold.specs.Entering.{MayEnter, Enters};
ghost use Rattle.pass_proc.specs.Births.{birth_entry, first_lineage};

use crate::ended::Living;
use crate::proc::Proc;
use pass_book::{Desk, Last, Line, Slip};
use pass_entry::{Act, CallName, Descriptors, Entry, Inherited, Node, Pnode, Reply};
use pass_hold::{Caller, Shelf, Whose, slip_of};
use pass_version::{Taken, Versions};
use std::alloc::{AllocError, Global};
use std::marker::Model;

/// What a fork takes for its child before its first entry.
#[derive(Drop)]
pub struct ChildRoom {
    versions: Versions,
    given: Inherited,
    held: Descriptors,
}

impl Model for ChildRoom {
    ghost use Rattle.std.specs.Coded.{codes, coded_ℕ};
    ghost use Rattle.std.specs.Ordering.{nat_cmp};
    ghost use Rattle.std.specs.FinMap as finite_map;
    ghost use Rattle.pass_entry.specs.contracts.objects.Descriptor as descriptor_type;
    ghost use Rattle.pass_proc.specs.Births.{ChildRoomView, IsChildRoom};

    ghost Value = { ChildRoomView };

    ghost coded = { Prim.hlevel (codes, finite_map.code {R = nat_cmp} coded_ℕ descriptor_type.the_row.coded) };

    ghost view = { λ r. record { child = r.versions.lineage.node.pnode; descriptors = r.held } };

    ghost invariant = { λ r. IsChildRoom r.versions r.given r.held };
}

impl ChildRoom {
    /// Room for the child of this number, which the registry gives next, with its parent's descriptors.
    pub fn of(
        alloc: Global,
        child: Pnode,
        descriptors: &Descriptors,
    ) -> Result<ChildRoom, AllocError>
        ensures { IfOk result (λ r. r ≡ record { child = child; descriptors = descriptors.now }) }
    {
        let mut versions = Versions::new(alloc, child, 1, false);
        versions.reserve(1)?;
        let given = Inherited::of(alloc, descriptors)?;
        let held = descriptors.clone()?;
        Ok(ChildRoom {
            versions,
            given,
            held,
        })
    }

    /// The child's first version, which has taken from its parent's, with the records of that, and its descriptors, once for the
    /// entry and once for the child.
    fn linked(self, alloc: Global, source: &Node) -> (Versions, Slip, Inherited, Descriptors)
        ensures version { IsAlike result.0.lineage (with_source (first_lineage self.child) source.now) }
        ensures slip { result.1 ≡ taken_records taken.Linked result.0.lineage.node source.now [] }
        ensures descriptors { (result.2 ≡ self.descriptors) × (result.3 ≡ self.descriptors) }
    {
        let ChildRoom {
            mut versions,
            given,
            held,
        } = self;
        let _ = versions.take(*source);
        let node = versions.current();
        let slip = slip_of(Taken::Linked, &node, source, Vec::new(alloc));
        (versions, slip, given, held)
    }
}

fn line_out(desk: &mut Desk) -> Option<Line>
    ensures line { result ≡ desk.old.line }
    ensures desk { desk.new ≡ record desk.old { line = None } }
{
    desk.line.take()
}

fn last_out(desk: &mut Desk) -> Option<Last>
    ensures last { result ≡ desk.old.last }
    ensures desk { desk.new ≡ record desk.old { last = None } }
{
    desk.last.take()
}

/// Takes the line and the last out of the desk of an object that is new.
pub(crate) fn parted<J: Whose>(desk: Desk, pnode: Pnode) -> (Desk, Line, Last)
    requires { desk ≡ new_desk J.book pnode }
    ensures desk { result.0 ≡ fresh_desk J.book pnode None None }
    ensures line { result.1 ≡ fresh_line J.book pnode }
    ensures last { result.2 ≡ fresh_last J.book pnode }
{
    let mut desk = desk;
    let Some(line) = line_out(&mut desk) else {
        unreachable!()
    };
    let Some(last) = last_out(&mut desk) else {
        unreachable!()
    };
    let _ = pnode;
    (desk, line, last)
}

impl<J: Whose> Proc<J> {
    /// The child of a process begins, by the last entry of the fork, and takes from its parent. What lies in its slot from then on
    /// comes with it.
    pub fn born(
        alloc: Global,
        shelf: &mut Shelf<J>,
        parent: &mut Caller<J>,
        room: ChildRoom,
        desk: Desk,
        who: Pnode,
        number: u64,
        out: u64,
        source: &Node,
    ) -> (Proc<J>, Living<J>)
        requires desk { desk ≡ new_desk J.book room.child }
        requires new { is_opened J.book.session.start room.child ≡ false }
        requires place { 66 ≤ parent.old.held }
        requires who { parent.old.who ≡ who }
        requires entry { MayEnter parent.old.seen (birth_entry who number room.child out room.descriptors) 0 }
        requires source { source_in (nodes_of J.book.session parent.old.seen) (birth_entry who number room.child out room.descriptors) ≡ Some source.now }
        ensures entry { Enters J.book.session parent.old parent.new [] (birth_entry who number room.child out room.descriptors) 0 }
        ensures child { (result.0.who ≡ room.child) × (result.0.number ≡ 0) × (result.0.way ≡ None) }
        ensures seen { result.0.seen ≡ parent.new.seen }
        ensures state { result.0.state ≡ record new_process { descriptors = room.descriptors } }
        ensures living { result.1.who ≡ room.child }
    {
        let (versions, slip, given, held) = room.linked(alloc, source);
        let child = versions.current().pnode;
        let (mut desk, line, last) = parted::<J>(desk, child);
        let entry = Entry {
            who,
            number,
            call: CallName::Fork,
            what: child,
            act: Act::Born {
                out,
                descriptors: given,
            },
            reply: Reply::Done,
        };
        let (_, born) = parent.born(shelf, &mut desk, line, slip, entry);
        (
            Proc::begin(alloc, desk, born, versions, held),
            Living::of(child, last),
        )
    }
}
