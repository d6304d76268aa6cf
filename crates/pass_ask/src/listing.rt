//! Writes what the word `check` answers.
ghost use Rattle.std.specs.Prelude.{◌≡◌, ◌++◌, IfOk, OnOk, string_bytes};
ghost use Rattle.pass_ask.specs.Checks.{check_text, count_line, range_line};

use crate::counting::{count_edges, count_nodes};
use pass_entry::Record;
use pass_range::Range;
use std::alloc::{AllocError, Global};
use std::fmt::Write;

/// How many records, nodes, edges and unmatched ranges a store has, and a line for each of these ranges.
pub fn check_answer(
    alloc: Global,
    list: &[Record],
    unmatched: &[Range],
) -> Result<String, AllocError>
    ensures { IfOk result (λ text. string_bytes text ≡ check_text list.now unmatched.now) }
{
    let mut text = String::new(alloc);
    let nodes = count_nodes(list);
    let edges = count_edges(alloc, list)?;
    write_counts(&mut text, list.len(), nodes, edges, unmatched.len())?;
    for range in unmatched {
        write_range(&mut text, *range)?;
    }
    Ok(text)
}

// Adds the line of counts.
fn write_counts(
    text: &mut String,
    records: usize,
    nodes: usize,
    edges: usize,
    unmatched: usize,
) -> Result<(), AllocError>
    ensures { OnOk result (string_bytes text.new ≡ string_bytes text.old ++ count_line records nodes edges unmatched) }
{
    write!(text, "ok {records} records {nodes} nodes ")?;
    writeln!(text, "{edges} edges {unmatched} unmatched")
}

// Adds the line of an unmatched range.
fn write_range(text: &mut String, range: Range) -> Result<(), AllocError>
    ensures { OnOk result (string_bytes text.new ≡ string_bytes text.old ++ range_line range) }
{
    writeln!(text, "range {} {}", range.pnode.0, range.block)
}
