//! The lines of the calls that a history answers, written in parts by several threads.
ghost use Rattle.std.specs.Prelude.{◌≡◌, ◌≤◌, ◌++◌, length, IfOk, OnOk, string_bytes};
ghost use Rattle.std.specs.Thread.{IsSync};
ghost use Rattle.pass_report.specs.Answered.{is_marked, known_line, line_at, lines_to};

use crate::lines::write_call;
use pass_entry::{Entry, Node};
use std::alloc::{AllocError, Global};
use std::thread::{Threads, join};

// Adds the line of the entry at a place, if that ends a call.
fn write_at(
    text: &mut String,
    history: &[Entry],
    nodes: &[Node],
    answered: &[bool],
    place: usize,
) -> Result<(), AllocError>
    ensures { OnOk result (string_bytes text.new ≡ string_bytes text.old ++ line_at history.now nodes.now answered.now place) }
{
    if is_marked(answered, place) {
        write_known(text, history, nodes, place)?;
    }
    Ok(())
}

fn is_marked(answered: &[bool], place: usize) -> bool
    ensures { result ≡ is_marked answered.now place }
{
    match answered.get(place) {
        Some(mark) => *mark,
        None => false,
    }
}

// Adds the line of the entry at a place.
fn write_known(
    text: &mut String,
    history: &[Entry],
    nodes: &[Node],
    place: usize,
) -> Result<(), AllocError>
    ensures { OnOk result (string_bytes text.new ≡ string_bytes text.old ++ known_line history.now nodes.now place) }
{
    let (Some(entry), Some(node)) = (history.get(place), nodes.get(place)) else {
        return Ok(());
    };
    write_call(text, history, nodes, entry, *node)
}

// The lines from one place to before another one.
fn written(
    alloc: Global,
    history: &[Entry],
    nodes: &[Node],
    answered: &[bool],
    first: usize,
    end: usize,
) -> Result<String, AllocError>
    requires { first ≤ end }
    ensures { IfOk result (λ text. lines_to history.now nodes.now answered.now first ++ string_bytes text ≡ lines_to history.now nodes.now answered.now end) }
{
    let mut text = String::new(alloc);
    for place in first..end {
        write_at(&mut text, history, nodes, answered, place)?;
    }
    Ok(text)
}

/// The same by so many threads at most.
pub fn write_answers<R: Threads + Sync>(
    rt: &R,
    alloc: Global,
    history: &[Entry],
    nodes: &[Node],
    answered: &[bool],
    first: usize,
    end: usize,
    workers: u32,
) -> Result<String, AllocError>
    requires { first ≤ end }
    ensures { IfOk result (λ text. lines_to history.now nodes.now answered.now first ++ string_bytes text ≡ lines_to history.now nodes.now answered.now end) }
{
    if workers < 2 {
        return written(alloc, history, nodes, answered, first, end);
    }
    let middle = first + (end - first) / 2;
    let fewer = workers / 2;
    let (front, back) = join(
        rt,
        || -> Result<String, AllocError>
            requires { IsSync R.row × (first ≤ middle) }
            ensures { IfOk result (λ text. lines_to history.entry.now nodes.entry.now answered.entry.now first ++ string_bytes text ≡ lines_to history.entry.now nodes.entry.now answered.entry.now middle) }
        { write_answers(rt, alloc, history, nodes, answered, first, middle, fewer) },
        || -> Result<String, AllocError>
            requires { IsSync R.row × (middle ≤ end) }
            ensures { IfOk result (λ text. lines_to history.entry.now nodes.entry.now answered.entry.now middle ++ string_bytes text ≡ lines_to history.entry.now nodes.entry.now answered.entry.now end) }
        { write_answers(rt, alloc, history, nodes, answered, middle, end, fewer) },
    );
    let mut text = front?;
    let rest = back?;
    text.push_str(rest.as_str())?;
    Ok(text)
}
