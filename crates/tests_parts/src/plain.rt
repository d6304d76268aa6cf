//! The plain history: two processes that cross, and a version that is frozen while it is read.
ghost use Rattle.pass_plain.specs.Legal.{session_of};
ghost use Rattle.pass_plain.specs.Sound.{IsSound};

use crate::had;
use pass_entry::{
    Act, Bytes, CallName, Descriptor, Descriptors, Entry, Inherited, Kind, Mode, Node, Pnode,
    Record, Reply, Text,
};
use pass_graph::check;
use pass_plain::Start;
use pass_reference::Plain;
use std::alloc::{AllocError, Global};
use std::test::Fail;

/// The greatest number of objects of each session.
const OBJECTS: u32 = 5;

/// An act, with a letter for a name. What is written is the letter x.
#[derive(Clone, Copy)]
enum Step {
    Mint,
    Bind(u8),
    Attach(u8, u64),
    Spawn(u64),
    /// The place of the parent's step, and whether the child holds a second file.
    Born(u64, bool),
    Give,
    Gain(u64, u8),
    Show(u8),
    Put(u64),
    Freeze,
}

/// The reply to a step. Of bytes it is the letter x or none.
#[derive(Clone, Copy)]
enum Want {
    Done,
    Made(u64),
    Took(bool),
}

/// Who makes a step, the number of the call and its name, the object, the step, and the reply to it.
type Row = (u64, u64, CallName, u64, Step, Want);

/// A store that was never opened before.
fn nothing(alloc: Global) -> Start
    ensures { IsSound (session_of result 5) }
{
    Start {
        ceiling: 0,
        files: Vec::new(alloc),
        apps: Vec::new(alloc),
    }
}

fn file(pnode: u64) -> Descriptor {
    Descriptor {
        pnode: Pnode(pnode),
        kind: Kind::File,
        mode: Mode::Both,
        offset: 0,
    }
}

/// What a child begins with.
fn held(alloc: Global, has_second: bool) -> Result<Inherited, AllocError> {
    let mut held = Descriptors::new();
    held.put(3, file(2));
    if has_second {
        held.put(4, file(3));
    }
    Inherited::of(alloc, &held)
}

fn act_of(alloc: Global, step: Step) -> Result<Act, Fail> {
    Ok(match step {
        Step::Bind(letter) => Act::Bind {
            name: had(Text::name(alloc, &[letter]))?,
        },
        Step::Put(out) => Act::Put {
            out,
            at: 0,
            bytes: had(Bytes::of(alloc, b"x"))?,
        },
        Step::Born(out, has_second) => Act::Born {
            out,
            descriptors: held(alloc, has_second)?,
        },
        other => plain_act(other),
    })
}

fn plain_act(step: Step) -> Act {
    match step {
        Step::Mint => Act::Mint {
            kind: Kind::Process,
        },
        Step::Attach(fd, pnode) => Act::Attach {
            fd,
            descriptor: file(pnode),
        },
        Step::Spawn(child) => Act::Spawn {
            child: Pnode(child),
        },
        Step::Give => Act::Give { at: 0, len: 1 },
        Step::Gain(out, fd) => Act::Gain { out, fd },
        Step::Show(fd) => Act::Show { fd, len: 1 },
        _ => Act::Freeze,
    }
}

fn is_wanted(reply: &Option<Reply>, want: Want) -> bool {
    match (reply, want) {
        (Some(Reply::Done), Want::Done) => true,
        (Some(Reply::Made(pnode)), Want::Made(made)) => pnode.0 == made,
        (Some(Reply::Took(bytes)), Want::Took(is_letter)) => {
            bytes.as_bytes() == (if is_letter { "x" } else { "" }).as_bytes()
        }
        _ => false,
    }
}

/// The history takes the entry of a row and gives it its reply.
fn take(alloc: Global, plain: &mut Plain<'_>, row: Row) -> Result<(), Fail> {
    let (who, number, call, what, step, want) = row;
    let entry = Entry {
        who: Pnode(who),
        number,
        call,
        what: Pnode(what),
        act: act_of(alloc, step)?,
        reply: Reply::Done,
    };
    if is_wanted(&plain.step(&entry)?, want) {
        Ok(())
    } else {
        Err(Fail::new("another reply"))
    }
}

/// A history with these entries.
fn begun<'a>(alloc: Global, start: &'a Start, rows: &[Row]) -> Result<Plain<'a>, Fail>
    requires { IsSound (session_of start.now 5) }
{
    let mut plain = Plain::new(alloc, start, OBJECTS)?;
    for row in rows {
        take(alloc, &mut plain, *row)?;
    }
    Ok(plain)
}

/// The records behind a ceiling pass the check of a list.
fn passes(alloc: Global, plain: &Plain<'_>, ceiling: u64) -> Result<bool, AllocError> {
    let pnode = Pnode(ceiling);
    let mut list = Vec::new(alloc);
    list.push(Record::Ceiling { pnode })?;
    let mut records = plain.records()?;
    list.append(&mut records)?;
    Ok(check(alloc, list.as_slice()).is_ok())
}

/// A process makes two files and a child.
fn pair() -> [Row; 8] {
    [
        (0, 0, CallName::Start, 0, Step::Mint, Want::Made(1)),
        (1, 1, CallName::Creat, 0, Step::Bind(b'A'), Want::Made(2)),
        (1, 1, CallName::Creat, 1, Step::Attach(3, 2), Want::Done),
        (1, 2, CallName::Creat, 0, Step::Bind(b'B'), Want::Made(3)),
        (1, 2, CallName::Creat, 1, Step::Attach(4, 3), Want::Done),
        (1, 3, CallName::Fork, 0, Step::Mint, Want::Made(4)),
        (1, 3, CallName::Fork, 1, Step::Spawn(4), Want::Done),
        (1, 3, CallName::Fork, 4, Step::Born(6, true), Want::Done),
    ]
}

/// How many of its four entries a process has made, and the place of the last one.
#[derive(Clone, Copy)]
struct Side {
    steps: u8,
    last: u64,
}

/// The next entry of the process, which reads the second file and then writes the first one.
fn parents(side: Side, is_written: bool) -> Row {
    match side.steps {
        0 => (1, 4, CallName::Read, 3, Step::Give, Want::Took(is_written)),
        1 => (
            1,
            4,
            CallName::Read,
            1,
            Step::Gain(side.last, 4),
            Want::Done,
        ),
        2 => (1, 5, CallName::Write, 1, Step::Show(3), Want::Done),
        _ => (1, 5, CallName::Write, 2, Step::Put(side.last), Want::Done),
    }
}

/// The next entry of its child, which reads the first file and then writes the second one.
fn childs(side: Side, is_written: bool) -> Row {
    match side.steps {
        0 => (4, 1, CallName::Read, 2, Step::Give, Want::Took(is_written)),
        1 => (
            4,
            1,
            CallName::Read,
            4,
            Step::Gain(side.last, 3),
            Want::Done,
        ),
        2 => (4, 2, CallName::Write, 4, Step::Show(4), Want::Done),
        _ => (4, 2, CallName::Write, 3, Step::Put(side.last), Want::Done),
    }
}

/// A process makes its next entry.
fn turn(alloc: Global, plain: &mut Plain<'_>, side: Side, row: Row) -> Result<Side, Fail> {
    let last = plain.entries().len() as u64;
    take(alloc, plain, row)?;
    Ok(Side {
        steps: side.steps.saturating_add(1),
        last,
    })
}

/// Both make their entries, in the order that the bits tell.
fn turns(alloc: Global, plain: &mut Plain<'_>, bits: u32) -> Result<(), Fail> {
    let mut parent = Side { steps: 0, last: 0 };
    let mut child = parent;
    for k in 0..8u32 {
        if bits >> k & 1 == 1 {
            parent = turn(alloc, plain, parent, parents(parent, child.steps == 4))?;
        } else {
            child = turn(alloc, plain, child, childs(child, parent.steps == 4))?;
        }
    }
    Ok(())
}

/// Whether the records of that order pass the check.
fn cross(alloc: Global, bits: u32) -> Result<bool, Fail> {
    let start = nothing(alloc);
    let mut plain = begun(alloc, &start, &pair())?;
    turns(alloc, &mut plain, bits)?;
    Ok(passes(alloc, &plain, 4)?)
}

/// The four entries of each of two processes that cross, in all their orders.
#[test]
fn two_processes_that_cross(rt: HostRuntime) -> Result<(), Fail> {
    let mut orders = 0u32;
    for bits in 0..256u32 {
        if bits.count_ones() == 4 {
            let is_sound = cross(rt.alloc(), bits)?;
            assert!(rt; is_sound, "order {bits}");
            orders = orders.saturating_add(1);
        }
    }
    assert!(rt; orders == 70);
    Ok(())
}

/// A process freezes a file that its child has taken from, before the child gains the bytes.
fn frozen() -> [Row; 9] {
    [
        (0, 0, CallName::Start, 0, Step::Mint, Want::Made(1)),
        (1, 1, CallName::Creat, 0, Step::Bind(b'a'), Want::Made(2)),
        (1, 1, CallName::Creat, 1, Step::Attach(3, 2), Want::Done),
        (1, 2, CallName::Fork, 0, Step::Mint, Want::Made(3)),
        (1, 2, CallName::Fork, 1, Step::Spawn(3), Want::Done),
        (1, 2, CallName::Fork, 3, Step::Born(4, false), Want::Done),
        (3, 1, CallName::Read, 2, Step::Give, Want::Took(false)),
        (1, 3, CallName::FreezeObj, 2, Step::Freeze, Want::Done),
        (3, 1, CallName::Read, 3, Step::Gain(6, 3), Want::Done),
    ]
}

fn node(pnode: u64, version: u64) -> Node {
    let pnode = Pnode(pnode);
    Node { pnode, version }
}

/// Whether the last two of seven records are the new version, and what the reader has from the one before.
fn are_wanted(records: &[Record]) -> bool {
    match records {
        [
            _,
            _,
            _,
            _,
            _,
            Record::Version { node: version },
            Record::Input { target, source },
        ] => { *version == node(2, 2) && *target == node(3, 1) && *source == node(2, 1) }
        _ => false,
    }
}

fn freezes(alloc: Global) -> Result<bool, Fail> {
    let start = nothing(alloc);
    let plain = begun(alloc, &start, &frozen())?;
    let records = plain.records()?;
    Ok(are_wanted(&records) && passes(alloc, &plain, 3)?)
}

#[test]
fn frozen_between_out_and_in(rt: HostRuntime) -> Result<(), Fail> {
    let is_so = freezes(rt.alloc())?;
    assert!(rt; is_so);
    Ok(())
}
