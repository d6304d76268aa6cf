//! What calls answer, one after another, in a session over a store without objects.
ghost use Rattle.std.specs.Prelude.{◌≡◌, ◌≤◌, ◌<◌, ℕ};
ghost use Rattle.pass_entry.specs.Limits.{number_limit};
ghost use Rattle.pass_plain.specs.Legal.{session_of};
ghost use Rattle.pass_plain.specs.Sound.{IsSound};
ghost use Rattle.pass_safe.specs.Grounds.{HasGoneOn, ground_of};

use crate::calls::{Answer, Call, Procs, called};
use pass_entry::{Entry, Node, Record};
use pass_outside::{Disk, MemDisk, OpenGate};
use pass_plain::Start;
use pass_proc::{Proc, Trail};
use pass_reference::{Plain, same_reply};
use pass_safe::Opening;
use pass_session::{Opened, open};
use pass_store::{Finished, Store};
use std::alloc::Global;
use std::marker::Brand;
use std::process::Abort;
use std::sync::Wait;
use std::test::*;

/// A call, the process that makes it, by its place in the order in which they began, and what it is to answer.
pub type Row = (usize, Call, Answer);

/// What the calls of a session answered, and what is left of it.
#[derive(Drop)]
pub struct Told<D> {
    pub answers: Vec<Answer>,
    pub finished: Finished<D>,
}

/// What the calls answer of a store's processes.
fn answers_in<J: Opening, D: Disk, R: Wait>(
    rt: &R,
    alloc: Global,
    store: &Store<'_, J, D, OpenGate>,
    procs: &mut Procs<J>,
    rows: &[Row],
) -> Result<Vec<Answer>, Fail> {
    let mut answers = Vec::new(alloc);
    for row in rows {
        answers.push(called(rt, alloc, store, procs, row.0, row.1)?)?;
    }
    Ok(answers)
}

/// Each process that lives ends.
fn ended<J: Opening, D: Disk, R: Wait>(
    rt: &R,
    alloc: Global,
    store: &Store<'_, J, D, OpenGate>,
    procs: Procs<J>,
) -> Result<Vec<Trail<J>>, Fail> {
    let mut trails = Vec::new(alloc);
    for slot in procs {
        if let Some(proc) = slot {
            trails.push(pass_shared::retire(&store.locks, rt, alloc, proc))?;
        }
    }
    Ok(trails)
}

/// What the calls answer of a store that begins with a process, and what each had seen that lived until the end.
fn worked<J: Opening, D: Disk, R: Wait>(
    rt: &R,
    alloc: Global,
    store: &Store<'_, J, D, OpenGate>,
    first: Proc<J>,
    rows: &[Row],
) -> Result<(Vec<Answer>, Vec<Trail<J>>), Fail> {
    let mut procs = vec![in alloc; Some(first)]?;
    let answers = answers_in(rt, alloc, store, &mut procs, rows)?;
    let trails = ended(rt, alloc, store, procs)?;
    Ok((answers, trails))
}

fn told_over<J: Opening, D: Disk + Drop, R: Wait>(
    rt: &R,
    alloc: Global,
    opened: Opened<D>,
    rows: &[Row],
) -> Result<Told<D>, Fail>
    requires book { opened.vault.book ≡ J.book }
    requires places { opened.places ≡ J.places }
    requires ground { ground_of opened.vault ≡ J.ground }
    requires gone_on { HasGoneOn J.tells J.ground.opened (D.view opened.vault.disk) }
{
    let gate = OpenGate;
    let Ok((store, first)) = Store::<J, D, OpenGate>::begin(alloc, opened, &gate) else {
        return Err(Fail::new("it does not begin"));
    };
    let (answers, trails) = worked(rt, alloc, &store, first, rows)?;
    let finished = store.finish(alloc, trails);
    Ok(Told { answers, finished })
}

fn told_of<D: Disk + Drop, R: Wait>(
    rt: &R,
    alloc: Global,
    disk: D,
    objects: u32,
    entries: u32,
    rows: &[Row],
) -> Result<Told<D>, Fail>
    requires objects { (1 ≤ objects) × (objects ≤ 8192) }
    requires entries { (66 ≤ entries) × (entries ≤ 16777216) }
{
    let Ok(opened) = open(alloc, disk, objects, entries) else {
        return Err(Fail::new("it does not open"));
    };
    told_over::<Brand, D, R>(rt, alloc, opened, rows)
}

/// What the calls answer in a session over a new store, which may make so many objects and has room for so many entries. All tests
/// go by it, since a call at a disk of its own type is dear to prove.
pub fn told_in<R: Wait>(
    rt: &R,
    alloc: Global,
    objects: u32,
    entries: u32,
    rows: &[Row],
) -> Result<Told<MemDisk>, Fail>
    requires objects { (1 ≤ objects) × (objects ≤ 8192) }
    requires entries { (66 ≤ entries) × (entries ≤ 16777216) }
{
    told_of(rt, alloc, new_disk(alloc)?, objects, entries, rows)
}

fn new_disk(alloc: Global) -> Result<MemDisk, Fail> {
    Ok(MemDisk::new(
        alloc,
        Vec::new(alloc),
        Vec::new(alloc),
        Vec::new(alloc),
        None,
    )?)
}

/// Each call answered what its row says.
pub fn compare<R: Abort>(rt: &R, answers: &[Answer], rows: &[Row]) {
    for (place, row) in rows.iter().enumerate() {
        let is_so = answers.get(place) == Some(&row.2);
        assert!(rt; is_so, "row {place}");
    }
}

/// A store that was never opened before.
fn nothing(alloc: Global) -> Start
    ensures { (objects : ℕ) → 1 ≤ objects → objects < number_limit → IsSound (session_of result objects) }
{
    Start {
        ceiling: 0,
        files: Vec::new(alloc),
        apps: Vec::new(alloc),
    }
}

/// Looks whether each entry may come next with its reply, by the slow reference, and answers the records.
fn judged<R: Abort>(
    rt: &R,
    alloc: Global,
    objects: u32,
    history: &[Entry],
) -> Result<Vec<Record>, Fail>
    requires objects { (1 ≤ objects) × (objects ≤ 8192) }
{
    let start = nothing(alloc);
    let mut plain = Plain::new(alloc, &start, objects)?;
    for entry in history {
        let is_so = match plain.step(entry)? {
            Some(reply) => same_reply(&reply, &entry.reply),
            None => false,
        };
        assert!(rt; is_so);
    }
    Ok(plain.records()?)
}

/// Each call answers what its row says, the history is a legal one, and all of it is durable at the end.
pub fn check<R: Wait + Abort>(
    rt: &R,
    alloc: Global,
    objects: u32,
    entries: u32,
    rows: &[Row],
) -> Result<Vec<Record>, Fail>
    requires objects { (1 ≤ objects) × (objects ≤ 8192) }
    requires entries { (66 ≤ entries) × (entries ≤ 16777216) }
{
    let told = told_in(rt, alloc, objects, entries, rows)?;
    compare(rt, &told.answers, rows);
    assert!(rt; told.finished.settled.is_ok());
    judged(rt, alloc, objects, &told.finished.closed.history)
}

/// A node as its number and its version.
type Pair = (u64, u64);

fn pair(node: &Node) -> Pair {
    (node.pnode.0, node.version)
}

/// The edges that records tell of: of each input its target and its source, and of each new version itself and the one before.
pub fn edges_of(alloc: Global, records: &[Record]) -> Result<Vec<(Pair, Pair)>, Fail> {
    let mut edges = Vec::new(alloc);
    for record in records {
        match record {
            Record::Input { target, source } => edges.push((pair(target), pair(source)))?,
            Record::Version { node } => {
                let before = (node.pnode.0, node.version.saturating_sub(1));
                edges.push((pair(node), before))?;
            }
            _ => {}
        }
    }
    Ok(edges)
}
