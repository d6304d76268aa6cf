//! A view as a picture.
ghost use Rattle.std.specs.Prelude.{◌≡◌, ◌++◌, not, IfOk, OnOk, string_bytes};
ghost use Rattle.std.specs.List.{filter, flat_map};
ghost use Rattle.pass_plain.specs.Registries.{same_kind};
ghost use Rattle.pass_view.specs.Dots.{attribute_lines, attributes_of, cluster, cluster_head, dot_text, edge_line, has_kind, is_break, kind_line, label_byte, label_lines, legend, legend_line, legend_lines, line_byte, line_end, line_head, line_if, lines_from, next_left, node_line, other_lines, style, system, system_lines, title_lines};

use crate::labels::{attribute, title};
use crate::picture::{Link, Shown, View};
use pass_entry::{Kind, Text};
use std::alloc::{AllocError, Global};

/// How many bytes a line of a label has before a space ends it.
const LINE: usize = 60;

/// The view in the DOT language of Graphviz: a line for each node and for each edge, the files of a system in a box of their
/// own, and what the kinds look like.
pub fn dot(alloc: Global, view: &View) -> Result<Vec<u8>, AllocError>
    ensures { IfOk result (λ v. v.items ≡ dot_text view.now) }
{
    let mut out = Vec::new(alloc);
    out.extend_from_slice("digraph provenance {\n  node [style=filled];\n".as_bytes())?;
    push_parts(alloc, &mut out, &view.nodes, &view.edges)?;
    out.extend_from_slice("}\n".as_bytes())?;
    Ok(out)
}

/// The view without the files of a system, and without the edges that have one at an end.
pub fn plain(mut view: View) -> View
    ensures nodes { result.nodes.items ≡ filter (λ s. not s.is_system) view.nodes.items }
    ensures edges { result.edges.items ≡ filter (λ e. not e.is_system) view.edges.items }
{
    view.nodes.retain(|shown| !shown.is_system);
    view.edges.retain(|link| !link.is_system);
    view
}

// The boxes, all other nodes, and the edges.
fn push_parts(
    alloc: Global,
    out: &mut Vec<u8>,
    nodes: &[Shown],
    edges: &[Link],
) -> Result<(), AllocError>
    ensures { OnOk result (out.new.items ≡ out.old.items ++ legend nodes.now ++ system nodes.now ++ other_lines nodes.now
        ++ flat_map edge_line edges.now) }
{
    push_boxes(alloc, out, nodes)?;
    push_others(alloc, out, nodes)?;
    push_edges(alloc, out, edges)
}

// Boxes

// The legend, and the box of the system.
fn push_boxes(alloc: Global, out: &mut Vec<u8>, nodes: &[Shown]) -> Result<(), AllocError>
    ensures { OnOk result (out.new.items ≡ out.old.items ++ legend nodes.now ++ system nodes.now) }
{
    let mut legend = Vec::new(alloc);
    push_legend(alloc, &mut legend, nodes)?;
    push_cluster(alloc, out, "legend", &legend)?;
    let mut system = Vec::new(alloc);
    push_system(alloc, &mut system, nodes)?;
    push_cluster(alloc, out, "system", &system)
}

// These lines in a box, where there are any.
fn push_cluster(
    alloc: Global,
    out: &mut Vec<u8>,
    title: &str,
    lines: &[u8],
) -> Result<(), AllocError>
    ensures { OnOk result (out.new.items ≡ out.old.items ++ cluster title.now lines.now) }
{
    if lines.is_empty() {
        return Ok(());
    }
    let head = cluster_head(alloc, title)?;
    out.extend_from_slice(head.as_bytes())?;
    out.extend_from_slice(lines)?;
    out.extend_from_slice("  }\n".as_bytes())
}

fn cluster_head(alloc: Global, title: &str) -> Result<String, AllocError>
    ensures { IfOk result (λ text. string_bytes text ≡ cluster_head title.now) }
{
    format!(in alloc; "  subgraph cluster_{title} {{\n  label=\"{title}\";\n")
}

fn push_legend(alloc: Global, out: &mut Vec<u8>, nodes: &[Shown]) -> Result<(), AllocError>
    ensures { OnOk result (out.new.items ≡ out.old.items ++ legend_lines nodes.now) }
{
    push_legend_line(alloc, out, nodes, Kind::Process)?;
    push_legend_line(alloc, out, nodes, Kind::File)?;
    push_legend_line(alloc, out, nodes, Kind::Pipe)?;
    push_legend_line(alloc, out, nodes, Kind::App)
}

// What a kind looks like, where a node has it.
fn push_legend_line(
    alloc: Global,
    out: &mut Vec<u8>,
    nodes: &[Shown],
    kind: Kind,
) -> Result<(), AllocError>
    ensures { OnOk result (out.new.items ≡ out.old.items ++ legend_line nodes.now kind) }
{
    if has_kind(kind, nodes) {
        let line = kind_line(alloc, kind)?;
        out.extend_from_slice(line.as_bytes())?;
    }
    Ok(())
}

fn kind_line(alloc: Global, kind: Kind) -> Result<String, AllocError>
    ensures { IfOk result (λ text. string_bytes text ≡ kind_line kind) }
{
    let style = style(kind);
    format!(in alloc; "  \"{kind}\" [{style}];\n")
}

fn has_kind(kind: Kind, nodes: &[Shown]) -> bool
    ensures { result ≡ has_kind kind nodes.now }
{
    nodes.iter().any(|shown| is_kind(shown.kind, kind))
}

fn is_kind(one: Kind, other: Kind) -> bool
    ensures { result ≡ same_kind one other }
{
    match (one, other) {
        (Kind::Process, Kind::Process)
        | (Kind::File, Kind::File)
        | (Kind::Pipe, Kind::Pipe)
        | (Kind::App, Kind::App) => true,
        _ => false,
    }
}

// Nodes

// The lines of the system's files.
fn push_system(alloc: Global, out: &mut Vec<u8>, nodes: &[Shown]) -> Result<(), AllocError>
    ensures { OnOk result (out.new.items ≡ out.old.items ++ system_lines nodes.now) }
{
    for shown in nodes {
        push_node_if(alloc, out, shown, shown.is_system)?;
    }
    Ok(())
}

// The lines of all other nodes.
fn push_others(alloc: Global, out: &mut Vec<u8>, nodes: &[Shown]) -> Result<(), AllocError>
    ensures { OnOk result (out.new.items ≡ out.old.items ++ other_lines nodes.now) }
{
    for shown in nodes {
        push_node_if(alloc, out, shown, !shown.is_system)?;
    }
    Ok(())
}

fn push_node_if(
    alloc: Global,
    out: &mut Vec<u8>,
    shown: &Shown,
    is_here: bool,
) -> Result<(), AllocError>
    ensures { OnOk result (out.new.items ≡ out.old.items ++ line_if is_here shown.now) }
{
    if is_here {
        push_node(alloc, out, shown)?;
    }
    Ok(())
}

// The line of a node.
fn push_node(alloc: Global, out: &mut Vec<u8>, shown: &Shown) -> Result<(), AllocError>
    ensures { OnOk result (out.new.items ≡ out.old.items ++ node_line shown.now) }
{
    let head = line_head(alloc, shown)?;
    let end = line_end(alloc, shown)?;
    out.extend_from_slice(head.as_bytes())?;
    push_label(alloc, out, shown)?;
    out.extend_from_slice(end.as_bytes())
}

// The line of a node up to its label's lines.
fn line_head(alloc: Global, shown: &Shown) -> Result<String, AllocError>
    ensures { IfOk result (λ text. string_bytes text ≡ line_head shown.now) }
{
    let style = style(shown.kind);
    format!(in alloc; "  \"{}\" [{style}, label=<", shown.node)
}

// And what comes behind them.
fn line_end(alloc: Global, shown: &Shown) -> Result<String, AllocError>
    ensures { IfOk result (λ text. string_bytes text ≡ line_end shown.now) }
{
    format!(in alloc; "<FONT POINT-SIZE=\"9\">{}</FONT>>];\n", shown.node)
}

// Graphviz's shape for a kind of object, and its colour.
fn style(kind: Kind) -> &'static str
    ensures { result.now ≡ style kind }
{
    match kind {
        Kind::Process => "shape=box, fillcolor=\"#9ecbff\"",
        Kind::File => "shape=note, fillcolor=\"#fff2a8\"",
        Kind::Pipe => "shape=cds, fillcolor=\"#b7e4c7\"",
        Kind::App => "shape=component, fillcolor=\"#f5d0e0\"",
    }
}

// The title, and the attributes of an app object.
fn push_label(alloc: Global, out: &mut Vec<u8>, shown: &Shown) -> Result<(), AllocError>
    ensures { OnOk result (out.new.items ≡ out.old.items ++ label_lines shown.now) }
{
    let title = title(alloc, shown)?;
    push_title(out, title.as_bytes())?;
    push_attributes(alloc, out, attributes_of(shown))
}

fn attributes_of(shown: &Shown) -> &[(Text, Text)]
    ensures { result.now ≡ attributes_of shown.now }
{
    match shown.kind {
        Kind::App => shown.tags.as_slice(),
        Kind::Process | Kind::File | Kind::Pipe => &[],
    }
}

fn push_attributes(
    alloc: Global,
    out: &mut Vec<u8>,
    tags: &[(Text, Text)],
) -> Result<(), AllocError>
    ensures { OnOk result (out.new.items ≡ out.old.items ++ flat_map attribute_lines tags.now) }
{
    for (attr, value) in tags {
        push_attribute(alloc, out, attr, value)?;
    }
    Ok(())
}

fn push_attribute(
    alloc: Global,
    out: &mut Vec<u8>,
    attr: &Text,
    value: &Text,
) -> Result<(), AllocError>
    ensures { OnOk result (out.new.items ≡ out.old.items ++ attribute_lines (attr.now, value.now)) }
{
    let text = attribute(alloc, attr, value)?;
    push_title(out, text.as_bytes())
}

// A text in lines, where there is one.
fn push_title(out: &mut Vec<u8>, title: &[u8]) -> Result<(), AllocError>
    ensures { OnOk result (out.new.items ≡ out.old.items ++ title_lines title.now) }
{
    if !title.is_empty() {
        push_lines(out, title)?;
        out.extend_from_slice("<BR/>".as_bytes())?;
    }
    Ok(())
}

// The text in lines, as Graphviz reads it in a label.
fn push_lines(out: &mut Vec<u8>, text: &[u8]) -> Result<(), AllocError>
    ensures { OnOk result (out.new.items ≡ out.old.items ++ lines_from 60 text.now) }
{
    let mut left = LINE;
    for byte in text {
        push_line_byte(out, left, *byte)?;
        left = next_left(left, *byte);
    }
    Ok(())
}

// The byte, or the end of its line.
fn push_line_byte(out: &mut Vec<u8>, left: usize, byte: u8) -> Result<(), AllocError>
    ensures { OnOk result (out.new.items ≡ out.old.items ++ line_byte left byte) }
{
    if is_break(left, byte) {
        out.extend_from_slice("<BR/>".as_bytes())
    } else {
        push_byte(out, byte)
    }
}

// How many bytes are then to come.
fn next_left(left: usize, byte: u8) -> usize
    ensures { result ≡ next_left left byte }
{
    if is_break(left, byte) {
        LINE
    } else {
        left.saturating_sub(1)
    }
}

// Whether the byte is a space that ends its line.
fn is_break(left: usize, byte: u8) -> bool
    ensures { result ≡ is_break left byte }
{
    byte == b' ' && left == 0
}

fn push_byte(out: &mut Vec<u8>, byte: u8) -> Result<(), AllocError>
    ensures { OnOk result (out.new.items ≡ out.old.items ++ label_byte byte) }
{
    match byte {
        b'"' => out.extend_from_slice("&quot;".as_bytes()),
        b'&' => out.extend_from_slice("&amp;".as_bytes()),
        b'<' => out.extend_from_slice("&lt;".as_bytes()),
        b'>' => out.extend_from_slice("&gt;".as_bytes()),
        b'\\' => out.extend_from_slice("\\\\".as_bytes()),
        _ => {
            out.push(byte)?;
            Ok(())
        }
    }
}

// Edges

fn push_edges(alloc: Global, out: &mut Vec<u8>, edges: &[Link]) -> Result<(), AllocError>
    ensures { OnOk result (out.new.items ≡ out.old.items ++ flat_map edge_line edges.now) }
{
    for link in edges {
        let line = edge_line(alloc, link)?;
        out.extend_from_slice(line.as_bytes())?;
    }
    Ok(())
}

// The line of an edge.
fn edge_line(alloc: Global, link: &Link) -> Result<String, AllocError>
    ensures { IfOk result (λ text. string_bytes text ≡ edge_line link.now) }
{
    format!(in alloc; "  \"{}\" -> \"{}\";\n", link.target, link.source)
}
