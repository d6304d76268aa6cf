//! Writes the lines of a report.
ghost use Rattle.std.specs.Prelude.{◌≡◌, [], ◌∷◌, ◌++◌, OnOk, codes, string_bytes, if◌then◌else◌};
ghost use Rattle.std.specs.Option.{option_map_or};
ghost use Rattle.std.specs.Fmt.{decimal};
ghost use Rattle.pass_entry.specs.Words.{kind_word, node_text};
ghost use Rattle.pass_report.specs.Reports as reports;

use crate::processes::bytes_at;
use crate::trail::node_at;
use md5::{Digest, Md5};
use pass_entry::{Act, Entry, Kind, Node, Pnode, Reply};
use std::alloc::AllocError;
use std::fmt::Write;

/// A target and its source.
pub type Edge = (Node, Node);

/// Adds the line of the call that an entry ends. `node` is the entry's own.
pub fn write_call(
    text: &mut String,
    history: &[Entry],
    nodes: &[Node],
    entry: &Entry,
    node: Node,
) -> Result<(), AllocError>
    ensures { OnOk result (string_bytes text.new ≡ string_bytes text.old ++ reports.call_line history.now nodes.now entry.now node) }
{
    write!(
        text,
        "call {} {} {} ",
        entry.who.0, entry.number, entry.call
    )?;
    write_answer(text, history, nodes, entry, node)?;
    text.push_str("\n")
}

fn write_answer(
    text: &mut String,
    history: &[Entry],
    nodes: &[Node],
    entry: &Entry,
    node: Node,
) -> Result<(), AllocError>
    ensures { OnOk result (string_bytes text.new ≡ string_bytes text.old ++ reports.answer_of history.now nodes.now node entry.now.act entry.now.reply) }
{
    match &entry.reply {
        Reply::Fault(fault) => write!(text, "fault {fault}"),
        _ => write_done(text, history, nodes, &entry.act, node),
    }
}

fn write_done(
    text: &mut String,
    history: &[Entry],
    nodes: &[Node],
    act: &Act,
    node: Node,
) -> Result<(), AllocError>
    ensures { OnOk result (string_bytes text.new ≡ string_bytes text.old ++ reports.act_answer history.now nodes.now node act.now) }
{
    match act {
        Act::Attach { descriptor, .. } => write!(text, "pnode {}", descriptor.pnode),
        Act::AttachPipe { pnode, .. } => write!(text, "pnode {pnode}"),
        Act::Born { .. } => write!(text, "pnode {}", node.pnode),
        Act::Gain { out, .. } => write_read(text, bytes_at(history, *out), node_at(nodes, *out)),
        Act::Put { bytes, .. } => write_written(text, bytes.as_bytes().len(), node),
        Act::Push { bytes, .. } => write_written(text, bytes.as_bytes().len(), node),
        Act::Freeze => write!(text, "node {node}"),
        _ => text.push_str("ok"),
    }
}

// How many bytes were read, their MD5, and the node from which they came.
fn write_read(text: &mut String, bytes: &[u8], source: Option<Node>) -> Result<(), AllocError>
    ensures { OnOk result (string_bytes text.new ≡ string_bytes text.old ++ (reports.bytes_text bytes.now ++ codes " from " ++ option_map_or node_text source [])) }
{
    let digest = hex::encode(*text.allocator(), Md5::digest(bytes).as_slice())?;
    write!(text, "{} {digest} from ", bytes.len())?;
    match source {
        Some(source) => write!(text, "{source}"),
        None => Ok(()),
    }
}

// How many bytes were written, and the node that they are in.
fn write_written(text: &mut String, len: usize, target: Node) -> Result<(), AllocError>
    ensures { OnOk result (string_bytes text.new ≡ string_bytes text.old ++ (decimal len ++ codes " to " ++ node_text target)) }
{
    write!(text, "{len} to {target}")
}

/// Adds the line of an edge.
pub fn write_edge(text: &mut String, edge: &Edge) -> Result<(), AllocError>
    ensures { OnOk result (string_bytes text.new ≡ string_bytes text.old ++ reports.edge_line edge.now) }
{
    writeln!(text, "edge {} {}", edge.0, edge.1)
}

/// Adds the line of an object with its last version.
pub fn write_object(
    text: &mut String,
    pnode: Pnode,
    kind: Kind,
    version: u64,
) -> Result<(), AllocError>
    ensures { OnOk result (string_bytes text.new ≡ string_bytes text.old ++ (codes "object " ++ decimal pnode ++ codes " " ++ kind_word kind ++ codes " " ++ decimal version ++ 10 ∷ [])) }
{
    writeln!(text, "object {pnode} {kind} {version}")
}

/// Adds the line of a process with the number of its next line.
pub fn write_waiting(text: &mut String, process: u32, line: u32) -> Result<(), AllocError>
    ensures { OnOk result (string_bytes text.new ≡ string_bytes text.old ++ (codes "waiting " ++ decimal process ++ codes " " ++ decimal line ++ 10 ∷ [])) }
{
    writeln!(text, "waiting {process} {line}")
}

/// Adds the last line.
pub fn write_end(
    text: &mut String,
    stuck: bool,
    entries: usize,
    records: u128,
) -> Result<(), AllocError>
    ensures { OnOk result (string_bytes text.new ≡ string_bytes text.old ++ (codes "end " ++ (if stuck then codes "stuck " else codes "done ") ++ decimal entries ++ codes " entries " ++ decimal records ++ codes " records" ++ 10 ∷ [])) }
{
    let how = if stuck { "stuck" } else { "done" };
    writeln!(text, "end {how} {entries} entries {records} records")
}
