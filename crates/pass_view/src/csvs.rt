//! A view as two tables.
ghost use Rattle.std.specs.Prelude.{◌≡◌, ◌++◌, ◌∷◌, [], IfOk, decimal, List, OnOk, map, option_map, ℕ};
ghost use Rattle.std.specs.List.{flat_map};
ghost use Rattle.csv.specs.Records.{fields_of};
ghost use Rattle.pass_entry.specs.Words.{kind_word};
ghost use Rattle.pass_view.specs.Provs.{ran};
ghost use Rattle.pass_view.specs.Csvs.{HasText, Pushes, Writes, edge_columns, edge_row, given_or_empty, lost_name, node_columns, node_key, node_row, ran_with, row_bytes, table_text, tags_text, truth_word};

use crate::labels::{is_activity, value_among};
use crate::picture::{Link, Shown, View};
use crate::provs::{ran, write_list};
use csv::{ByteRecord, Terminator, Writer, WriterBuilder};
use pass_entry::{Node, Text};
use std::alloc::{AllocError, Global};

/// One of the two tables of a graph.
#[derive(Clone, Copy, PartialEq, Eq)]
pub enum Table {
    /// A row for each node.
    Nodes,
    /// A row for each edge.
    Edges,
}

/// A table of the view in CSV, as RFC 4180 has it. The name of the store stands in each key, so that tables of many stores can
/// be put together.
pub fn tabulate(
    alloc: Global,
    view: &View,
    table: Table,
    store: &[u8],
) -> Result<Vec<u8>, AllocError>
    ensures { IfOk result (λ v. v.items ≡ table_text table store.now view.now) }
{
    match table {
        Table::Nodes => nodes_table(alloc, &view.nodes, store),
        Table::Edges => edges_table(alloc, &view.edges, store),
    }
}

// Nodes

fn nodes_table(alloc: Global, nodes: &[Shown], store: &[u8]) -> Result<Vec<u8>, AllocError>
    ensures { IfOk result (λ v. v.items ≡ row_bytes node_columns ++ flat_map (λ s. row_bytes (node_row store.now s)) nodes.now) }
{
    let mut out = begin(alloc);
    write_node_columns(&mut out)?;
    write_nodes(alloc, &mut out, nodes, store)?;
    end(out)
}

fn write_node_columns(out: &mut Writer<Vec<u8>>) -> Result<(), AllocError>
    ensures { OnOk result (Writes out.old out.new (row_bytes node_columns)) }
{
    write_columns(
        out,
        &[
            "key".as_bytes(),
            "store".as_bytes(),
            "pnode".as_bytes(),
            "version".as_bytes(),
            "kind".as_bytes(),
            "name".as_bytes(),
            "was".as_bytes(),
            "program".as_bytes(),
            "arguments".as_bytes(),
            "system".as_bytes(),
            "attributes".as_bytes(),
        ],
    )
}

fn write_nodes(
    alloc: Global,
    out: &mut Writer<Vec<u8>>,
    nodes: &[Shown],
    store: &[u8],
) -> Result<(), AllocError>
    ensures { OnOk result (Writes out.old out.new (flat_map (λ s. row_bytes (node_row store.now s)) nodes.now)) }
{
    let mut row = ByteRecord::new(alloc);
    for shown in nodes {
        write_node(alloc, out, &mut row, shown, store)?;
    }
    Ok(())
}

// Writes the row of a node, in the room of the row before.
fn write_node(
    alloc: Global,
    out: &mut Writer<Vec<u8>>,
    row: &mut ByteRecord,
    shown: &Shown,
    store: &[u8],
) -> Result<(), AllocError>
    ensures { OnOk result (Writes out.old out.new (row_bytes (node_row store.now shown.now))) }
{
    row.clear();
    push_node(alloc, row, shown, store)?;
    write_row(out, row)
}

fn push_node(
    alloc: Global,
    row: &mut ByteRecord,
    shown: &Shown,
    store: &[u8],
) -> Result<(), AllocError>
    ensures { OnOk result (Pushes row.old row.new (node_row store.now shown.now)) }
{
    push_numbers(alloc, row, &shown.node, store)?;
    push_names(row, shown)?;
    push_run(row, shown)?;
    push_told(alloc, row, shown)
}

fn push_numbers(
    alloc: Global,
    row: &mut ByteRecord,
    node: &Node,
    store: &[u8],
) -> Result<(), AllocError>
    ensures { OnOk result (Pushes row.old row.new (node_key store.now node.now ∷ store.now ∷ decimal node.now.pnode ∷ decimal node.now.version ∷ [])) }
{
    push_key(alloc, row, node, store)?;
    push(row, store)?;
    push_number(alloc, row, node.pnode.0)?;
    push_number(alloc, row, node.version)
}

fn push_names(row: &mut ByteRecord, shown: &Shown) -> Result<(), AllocError>
    ensures { OnOk result (Pushes row.old row.new (kind_word shown.now.kind ∷ given_or_empty shown.now.name ∷ lost_name shown.now.name shown.now.was ∷ [])) }
{
    push(row, shown.kind.word().as_bytes())?;
    push(row, given_or_empty(shown.name.as_ref()))?;
    push(row, lost_name(shown))
}

// What a process's version ran, and with which arguments.
fn push_run(row: &mut ByteRecord, shown: &Shown) -> Result<(), AllocError>
    ensures { OnOk result (Pushes row.old row.new (given_or_empty (ran shown.now) ∷ given_or_empty (ran_with shown.now) ∷ [])) }
{
    push(row, given_or_empty(ran(shown)))?;
    push(row, given_or_empty(ran_with(shown)))
}

fn push_told(alloc: Global, row: &mut ByteRecord, shown: &Shown) -> Result<(), AllocError>
    ensures { OnOk result (Pushes row.old row.new (truth_word shown.now.is_system ∷ tags_text shown.now.tags.items ∷ [])) }
{
    let tags = tags_text(alloc, &shown.tags)?;
    push(row, truth_word(shown.is_system).as_bytes())?;
    push(row, &tags)
}

// The node among those of many stores.
fn push_key(
    alloc: Global,
    row: &mut ByteRecord,
    node: &Node,
    store: &[u8],
) -> Result<(), AllocError>
    ensures { OnOk result (Pushes row.old row.new (node_key store.now node.now ∷ [])) }
{
    let key = node_key(alloc, node, store)?;
    push(row, &key)
}

fn node_key(alloc: Global, node: &Node, store: &[u8]) -> Result<Vec<u8>, AllocError>
    ensures { IfOk result (λ v. v.items ≡ node_key store.now node.now) }
{
    let own = format!(in alloc; ":{}", *node)?;
    let mut key = Vec::from_slice(alloc, store)?;
    key.extend_from_slice(own.as_bytes())?;
    Ok(key)
}

fn push_number(alloc: Global, row: &mut ByteRecord, number: u64) -> Result<(), AllocError>
    ensures { OnOk result (Pushes row.old row.new (decimal number ∷ [])) }
{
    let text = format!(in alloc; "{number}")?;
    push(row, text.as_bytes())
}

fn given_or_empty(text: Option<&Text>) -> &[u8]
    ensures { result.now ≡ given_or_empty (option_map (λ t. t.now) text.entry) }
{
    match text {
        Some(text) => text.as_bytes(),
        None => &[],
    }
}

// The last name of what has none any more.
fn lost_name(shown: &Shown) -> &[u8]
    ensures { result.now ≡ lost_name shown.now.name shown.now.was }
{
    match &shown.name {
        Some(_) => &[],
        None => given_or_empty(shown.was.as_ref()),
    }
}

// The arguments of what a process's version ran.
fn ran_with(shown: &Shown) -> Option<&Text>
    ensures { option_map (λ t. t.now) result ≡ ran_with shown.now }
{
    if is_activity(shown) {
        value_among(&shown.tags, "ARGV".as_bytes())
    } else {
        None
    }
}

fn truth_word(value: bool) -> &'static str
    ensures { result.now ≡ truth_word value }
{
    if value { "true" } else { "false" }
}

// The attributes as a list in JSON.
fn tags_text(alloc: Global, tags: &[(Text, Text)]) -> Result<Vec<u8>, AllocError>
    ensures { IfOk result (λ v. v.items ≡ tags_text tags.now) }
{
    let mut out = json::Writer::new(Vec::new(alloc));
    write_list(alloc, &mut out, tags)?;
    Ok(out.into_inner())
}

// Edges

fn edges_table(alloc: Global, edges: &[Link], store: &[u8]) -> Result<Vec<u8>, AllocError>
    ensures { IfOk result (λ v. v.items ≡ row_bytes edge_columns ++ flat_map (λ e. row_bytes (edge_row store.now e)) edges.now) }
{
    let mut out = begin(alloc);
    write_edge_columns(&mut out)?;
    write_edges(alloc, &mut out, edges, store)?;
    end(out)
}

fn write_edge_columns(out: &mut Writer<Vec<u8>>) -> Result<(), AllocError>
    ensures { OnOk result (Writes out.old out.new (row_bytes edge_columns)) }
{
    write_columns(
        out,
        &[
            "target".as_bytes(),
            "source".as_bytes(),
            "relation".as_bytes(),
        ],
    )
}

fn write_edges(
    alloc: Global,
    out: &mut Writer<Vec<u8>>,
    edges: &[Link],
    store: &[u8],
) -> Result<(), AllocError>
    ensures { OnOk result (Writes out.old out.new (flat_map (λ e. row_bytes (edge_row store.now e)) edges.now)) }
{
    let mut row = ByteRecord::new(alloc);
    for link in edges {
        write_edge(alloc, out, &mut row, link, store)?;
    }
    Ok(())
}

// Writes the row of an edge, in the room of the row before.
fn write_edge(
    alloc: Global,
    out: &mut Writer<Vec<u8>>,
    row: &mut ByteRecord,
    link: &Link,
    store: &[u8],
) -> Result<(), AllocError>
    ensures { OnOk result (Writes out.old out.new (row_bytes (edge_row store.now link.now))) }
{
    row.clear();
    push_edge(alloc, row, link, store)?;
    write_row(out, row)
}

fn push_edge(
    alloc: Global,
    row: &mut ByteRecord,
    link: &Link,
    store: &[u8],
) -> Result<(), AllocError>
    ensures { OnOk result (Pushes row.old row.new (edge_row store.now link.now)) }
{
    push_key(alloc, row, &link.target, store)?;
    push_key(alloc, row, &link.source, store)?;
    push(row, link.relation.word().as_bytes())
}

// Rows

// A writer that has written nothing.
fn begin(alloc: Global) -> Writer<Vec<u8>>
    ensures { HasText result [] }
{
    WriterBuilder::new()
        .terminator(Terminator::CRLF)
        .from_writer(Vec::new(alloc))
}

fn push(row: &mut ByteRecord, field: &[u8]) -> Result<(), AllocError>
    ensures { OnOk result (Pushes row.old row.new (field.now ∷ [])) }
{
    row.push_field(field)
}

fn write_columns(out: &mut Writer<Vec<u8>>, columns: &[&[u8]]) -> Result<(), AllocError>
    ensures { OnOk result (Writes out.old out.new (row_bytes (map (λ c. c.now) columns.now))) }
{
    if let Err(_refused) = out.write_fields(columns) {
        return Err(AllocError);
    }
    Ok(())
}

// Only memory can be wanting, as the row goes there, and each row of a table is as long as the first.
fn write_row(out: &mut Writer<Vec<u8>>, row: &ByteRecord) -> Result<(), AllocError>
    ensures { OnOk result (Writes out.old out.new (row_bytes (fields_of row.now))) }
{
    if let Err(_refused) = out.write_byte_record(row) {
        return Err(AllocError);
    }
    Ok(())
}

// What was written.
fn end(out: Writer<Vec<u8>>) -> Result<Vec<u8>, AllocError>
    ensures { (text : List ℕ) → HasText out text → IfOk result (λ v. v.items ≡ text) }
{
    match out.into_inner() {
        Ok(text) => Ok(text),
        Err(_) => Err(AllocError),
    }
}
