//! The texts of answers that tell names.
ghost use Rattle.std.specs.Prelude.{◌≡◌, ◌++◌, List, Some, IfOk, OnOk, option_map};
ghost use Rattle.std.specs.List.{flat_map};
ghost use Rattle.json.specs.Json.{array};
ghost use Rattle.json.specs.Tree.{json_tokens};
ghost use Rattle.pass_entry.specs.declared.record.Record.{Record};
ghost use Rattle.pass_files.specs.Tables.{AreFacts};
ghost use Rattle.pass_view.specs.Provs.{Adds, items_of, member_tokens, text_at, tokens_of};
ghost use Rattle.pass_files.specs.Texts.{inquiry_text, json_text, kind_members, kind_text, line_text, naming_member, naming_text, spaced, tag_json, tag_text, tags_member, title_members, title_text, told_all, told_object};

use crate::facts::{Naming, Ran};
use crate::told::{Facts, Title, Told};
use json::Writer;
use pass_entry::{Kind, Node, Text};
use pass_query::{Form, no_path};
use pass_view::str_of;
use pass_waldo::Index;
use std::alloc::{AllocError, Global};

/// The text of the nodes, of which none are where no path is there.
pub(crate) fn text_of(
    alloc: Global,
    index: &Index,
    form: Form,
    nodes: Option<Vec<Node>>,
) -> Result<Vec<u8>, AllocError>
    ensures { IfOk result (λ v. v.items ≡ inquiry_text index.now form (option_map (λ w. w.items) nodes)) }
{
    match nodes {
        Some(nodes) => text_of_nodes(alloc, index, form, &nodes),
        None => no_path(alloc, form),
    }
}

fn text_of_nodes(
    alloc: Global,
    index: &Index,
    form: Form,
    nodes: &[Node],
) -> Result<Vec<u8>, AllocError>
    ensures { IfOk result (λ v. v.items ≡ inquiry_text index.now form (Some nodes.now)) }
{
    let facts = Facts::of(alloc, index.records())?;
    let told = told_all(alloc, &facts, nodes)?;
    match form {
        Form::Lines => lines(alloc, &told),
        Form::Json => json(alloc, &told),
    }
}

// What is told of each node.
fn told_all(alloc: Global, facts: &Facts, nodes: &[Node]) -> Result<Vec<Told>, AllocError>
    ensures { (list : List Record) → AreFacts list facts.now → IfOk result (λ v. v.items ≡ told_all list nodes.now) }
{
    let mut all = Vec::with_capacity(alloc, nodes.len())?;
    for node in nodes {
        all.push(facts.told(*node)?)?;
    }
    Ok(all)
}

// Lines

fn lines(alloc: Global, all: &[Told]) -> Result<Vec<u8>, AllocError>
    ensures { IfOk result (λ v. v.items ≡ flat_map line_text all.now) }
{
    let mut out = Vec::new(alloc);
    for told in all {
        push_line(alloc, &mut out, told)?;
    }
    Ok(out)
}

fn push_line(alloc: Global, out: &mut Vec<u8>, told: &Told) -> Result<(), AllocError>
    ensures { OnOk result (out.new.items ≡ out.old.items ++ line_text told.now) }
{
    let node = format!(in alloc; "{}", told.node)?;
    out.extend_from_slice(node.as_bytes())?;
    push_kind(out, told.kind)?;
    push_title(out, &told.title)?;
    out.push(b'\n')?;
    Ok(())
}

// A text behind a space.
fn push_word(out: &mut Vec<u8>, word: &[u8]) -> Result<(), AllocError>
    ensures { OnOk result (out.new.items ≡ out.old.items ++ spaced word.now) }
{
    out.push(b' ')?;
    out.extend_from_slice(word)
}

fn push_kind(out: &mut Vec<u8>, kind: Option<Kind>) -> Result<(), AllocError>
    ensures { OnOk result (out.new.items ≡ out.old.items ++ kind_text kind) }
{
    match kind {
        Some(kind) => push_word(out, kind.word().as_bytes()),
        None => Ok(()),
    }
}

fn push_title(out: &mut Vec<u8>, title: &Title) -> Result<(), AllocError>
    ensures { OnOk result (out.new.items ≡ out.old.items ++ title_text title.now) }
{
    match title {
        Title::Nothing => Ok(()),
        Title::Named(naming) => push_naming(out, naming),
        Title::Ran(ran) => push_ran(out, ran),
        Title::Tagged(tags) => push_tags(out, tags.pairs()),
    }
}

fn push_naming(out: &mut Vec<u8>, naming: &Naming) -> Result<(), AllocError>
    ensures { OnOk result (out.new.items ≡ out.old.items ++ naming_text naming.now) }
{
    if naming.lost {
        push_word(out, b"was".as_slice())?;
    }
    push_word(out, naming.name.as_bytes())
}

fn push_ran(out: &mut Vec<u8>, ran: &Ran) -> Result<(), AllocError>
    ensures { OnOk result (out.new.items ≡ out.old.items ++ title_text (Title.Ran ran.now)) }
{
    push_word(out, ran.program.as_bytes())?;
    match &ran.arguments {
        Some(arguments) => push_word(out, arguments.as_bytes()),
        None => Ok(()),
    }
}

// Each attribute and its value behind a space.
fn push_tags(out: &mut Vec<u8>, tags: &[(Text, Text)]) -> Result<(), AllocError>
    ensures { OnOk result (out.new.items ≡ out.old.items ++ flat_map tag_text tags.now) }
{
    for (attr, value) in tags {
        push_tag(out, attr, value)?;
    }
    Ok(())
}

fn push_tag(out: &mut Vec<u8>, attr: &Text, value: &Text) -> Result<(), AllocError>
    ensures { OnOk result (out.new.items ≡ out.old.items ++ tag_text (attr.now, value.now)) }
{
    push_word(out, attr.as_bytes())?;
    push_word(out, value.as_bytes())
}

// JSON

// One object a node, on a line.
fn json(alloc: Global, all: &[Told]) -> Result<Vec<u8>, AllocError>
    ensures { IfOk result (λ v. v.items ≡ json_text all.now) }
{
    let mut out = Writer::new(Vec::new(alloc));
    write_all(alloc, &mut out, all)?;
    let mut text = out.into_inner();
    text.push(b'\n')?;
    Ok(text)
}

fn write_all(alloc: Global, out: &mut Writer, all: &[Told]) -> Result<(), AllocError>
    ensures { OnOk result (Adds out.old out.new (json_tokens (array (items_of told_object all.now)))) }
{
    out.begin_array()?;
    for told in all {
        write_told(alloc, out, told)?;
    }
    out.end_array()
}

fn write_told(alloc: Global, out: &mut Writer, told: &Told) -> Result<(), AllocError>
    ensures { OnOk result (Adds out.old out.new (json_tokens (told_object told.now))) }
{
    let node = format!(in alloc; "{}", told.node)?;
    out.begin_object()?;
    write_pair(out, "node", node.as_str())?;
    write_kind(out, told.kind)?;
    write_title(out, &told.title)?;
    out.end_object()
}

// A text under a key.
fn write_pair(out: &mut Writer, key: &str, text: &str) -> Result<(), AllocError>
    ensures { OnOk result (Adds out.old out.new (member_tokens (text_at key.now text.now))) }
{
    out.key(key)?;
    out.string(text)
}

fn write_kind(out: &mut Writer, kind: Option<Kind>) -> Result<(), AllocError>
    ensures { OnOk result (Adds out.old out.new (tokens_of (kind_members kind))) }
{
    match kind {
        Some(kind) => write_pair(out, "kind", kind.word()),
        None => Ok(()),
    }
}

fn write_title(out: &mut Writer, title: &Title) -> Result<(), AllocError>
    ensures { OnOk result (Adds out.old out.new (tokens_of (title_members title.now))) }
{
    match title {
        Title::Nothing => Ok(()),
        Title::Named(naming) => write_naming(out, naming),
        Title::Ran(ran) => write_ran(out, ran),
        Title::Tagged(tags) => write_tags(out, tags.pairs()),
    }
}

fn write_naming(out: &mut Writer, naming: &Naming) -> Result<(), AllocError>
    ensures { OnOk result (Adds out.old out.new (member_tokens (naming_member naming.now))) }
{
    if naming.lost {
        write_pair(out, "was", str_of(&naming.name))
    } else {
        write_pair(out, "name", str_of(&naming.name))
    }
}

fn write_ran(out: &mut Writer, ran: &Ran) -> Result<(), AllocError>
    ensures { OnOk result (Adds out.old out.new (tokens_of (title_members (Title.Ran ran.now)))) }
{
    write_pair(out, "program", str_of(&ran.program))?;
    match &ran.arguments {
        Some(arguments) => write_pair(out, "arguments", str_of(arguments)),
        None => Ok(()),
    }
}

// The attributes with their values, under a key.
fn write_tags(out: &mut Writer, tags: &[(Text, Text)]) -> Result<(), AllocError>
    ensures { OnOk result (Adds out.old out.new (member_tokens (tags_member tags.now))) }
{
    out.key("attributes")?;
    out.begin_array()?;
    for (attr, value) in tags {
        write_tag(out, attr, value)?;
    }
    out.end_array()
}

fn write_tag(out: &mut Writer, attr: &Text, value: &Text) -> Result<(), AllocError>
    ensures { OnOk result (Adds out.old out.new (json_tokens (tag_json (attr.now, value.now)))) }
{
    out.begin_array()?;
    out.string(str_of(attr))?;
    out.string(str_of(value))?;
    out.end_array()
}
