//! A view in PROV-JSON.
ghost use Rattle.std.specs.Prelude.{◌≡◌, ◌∷◌, [], IfOk, OnOk, option_map, string_bytes, codes, fold, if◌then◌else◌};
ghost use Rattle.std.specs.BTreeSet.{insert_key};
ghost use Rattle.std.specs.Cmp.Lexicographic.{slice_cmp};
ghost use Rattle.std.specs.Ordering.{nat_cmp};
ghost use Rattle.json.specs.Token.{begin_object};
ghost use Rattle.json.specs.Tree.{json_tokens};
ghost use Rattle.pass_view.specs.Provs.{Adds, agent, agents, association_of, key_of, link_member, member_tokens, members_in, name_members, node_id, node_member, object_of, own_members, pair_at, part_of, part_word, program_id, programs, programs_of, prov_text, ran, ran_member, related, relation_id, relation_word, relations, same_relation, sections, source_word, system_members, tag_text, tags_json, target_word, text_at, tokens_of};

use crate::labels::{is_activity, label, str_of, value_among};
use crate::picture::{Link, Relation, Shown, View};
use json::Writer;
use pass_entry::{Node, Text};
use std::alloc::{AllocError, Global};
use std::collections::BTreeSet;

/// The view in PROV-JSON, on a line: versions of processes as activities, those of other objects as entities, the programs
/// that processes ran as agents, and each edge as a relation.
pub fn prov(alloc: Global, view: &View) -> Result<Vec<u8>, AllocError>
    ensures { IfOk result (λ v. v.items ≡ prov_text view.now) }
{
    let mut out = Writer::new(Vec::new(alloc));
    write_sections(alloc, &mut out, &view.nodes, &view.edges)?;
    let mut text = out.into_inner();
    text.push(b'\n')?;
    Ok(text)
}

fn write_sections(
    alloc: Global,
    out: &mut Writer,
    nodes: &[Shown],
    edges: &[Link],
) -> Result<(), AllocError>
    ensures { OnOk result (Adds out.old out.new (json_tokens (object_of (sections nodes.now edges.now)))) }
{
    out.begin_object()?;
    write_pair(
        out,
        "prefix",
        "pass",
        "urn:pass:",
        "program",
        "urn:pass:program:",
    )?;
    write_part(alloc, out, Part::Entities, nodes)?;
    write_part(alloc, out, Part::Activities, nodes)?;
    write_agents(alloc, out, nodes)?;
    write_relations(alloc, out, Relation::Used, edges)?;
    write_relations(alloc, out, Relation::Generated, edges)?;
    write_relations(alloc, out, Relation::Informed, edges)?;
    write_relations(alloc, out, Relation::Derived, edges)?;
    write_part(alloc, out, Part::Associations, nodes)?;
    out.end_object()
}

// A text under a key.
fn write_text(out: &mut Writer, key: &str, text: &str) -> Result<(), AllocError>
    ensures { OnOk result (Adds out.old out.new (member_tokens (text_at key.now text.now))) }
{
    out.key(key)?;
    out.string(text)
}

// An object under a key, which is to be ended.
fn begin(out: &mut Writer, key: &str) -> Result<(), AllocError>
    ensures { OnOk result (Adds out.old out.new (key_of key.now ∷ begin_object ∷ [])) }
{
    out.key(key)?;
    out.begin_object()
}

// An object of two texts under a key.
fn write_pair(
    out: &mut Writer,
    key: &str,
    first: &str,
    text: &str,
    second: &str,
    other: &str,
) -> Result<(), AllocError>
    ensures { OnOk result (Adds out.old out.new (member_tokens (pair_at key.now (first.now, text.now) (second.now, other.now)))) }
{
    begin(out, key)?;
    write_text(out, first, text)?;
    write_text(out, second, other)?;
    out.end_object()
}

// Nodes

/// A section that tells of nodes.
#[derive(Clone, Copy)]
pub(crate) enum Part {
    /// Versions of files, pipes and app objects.
    Entities,
    /// Versions of processes.
    Activities,
    /// Which program a version of a process ran.
    Associations,
}

impl Part {
    // What PROV-JSON calls the section.
    fn word(self) -> &'static str
        ensures { result.now ≡ part_word self }
    {
        match self {
            Part::Entities => "entity",
            Part::Activities => "activity",
            Part::Associations => "wasAssociatedWith",
        }
    }
}

fn write_part(
    alloc: Global,
    out: &mut Writer,
    part: Part,
    nodes: &[Shown],
) -> Result<(), AllocError>
    ensures { OnOk result (Adds out.old out.new (member_tokens (part_of part nodes.now))) }
{
    begin(out, part.word())?;
    for shown in nodes {
        write_members(alloc, out, part, shown)?;
    }
    out.end_object()
}

// What the part has of a node.
fn write_members(
    alloc: Global,
    out: &mut Writer,
    part: Part,
    shown: &Shown,
) -> Result<(), AllocError>
    ensures { OnOk result (Adds out.old out.new (tokens_of (members_in part shown.now))) }
{
    match part {
        Part::Entities => write_node_if(alloc, out, shown, !is_activity(shown)),
        Part::Activities => write_node_if(alloc, out, shown, is_activity(shown)),
        Part::Associations => write_association(alloc, out, &shown.node, ran(shown)),
    }
}

fn write_node_if(
    alloc: Global,
    out: &mut Writer,
    shown: &Shown,
    is_here: bool,
) -> Result<(), AllocError>
    ensures { OnOk result (Adds out.old out.new (tokens_of (if is_here then node_member shown.now ∷ [] else []))) }
{
    if is_here {
        write_node(alloc, out, shown)
    } else {
        Ok(())
    }
}

// The node and what is told of it.
fn write_node(alloc: Global, out: &mut Writer, shown: &Shown) -> Result<(), AllocError>
    ensures { OnOk result (Adds out.old out.new (member_tokens (node_member shown.now))) }
{
    let id = node_id(alloc, &shown.node)?;
    let text = label(alloc, shown)?;
    begin(out, id.as_str())?;
    write_text(out, "prov:label", text.as_str())?;
    write_text(out, "pass:kind", shown.kind.word())?;
    write_tags(alloc, out, &shown.tags)?;
    write_own(out, shown)?;
    out.end_object()
}

// The node as a qualified name.
fn node_id(alloc: Global, node: &Node) -> Result<String, AllocError>
    ensures { IfOk result (λ text. string_bytes text ≡ node_id node.now) }
{
    format!(in alloc; "pass:{}", *node)
}

// The name of the node's object and its type, where it has them.
fn write_own(out: &mut Writer, shown: &Shown) -> Result<(), AllocError>
    ensures { OnOk result (Adds out.old out.new (tokens_of (own_members shown.now))) }
{
    write_own_name(out, &shown.name)?;
    write_system(out, shown.is_system)
}

// The type of a file of the system.
fn write_system(out: &mut Writer, is_system: bool) -> Result<(), AllocError>
    ensures { OnOk result (Adds out.old out.new (tokens_of (system_members is_system))) }
{
    if is_system {
        write_pair(
            out,
            "prov:type",
            "$",
            "pass:system",
            "type",
            "prov:QUALIFIED_NAME",
        )
    } else {
        Ok(())
    }
}

// The name of the node's object, where it has one.
fn write_own_name(out: &mut Writer, name: &Option<Text>) -> Result<(), AllocError>
    ensures { OnOk result (Adds out.old out.new (tokens_of (name_members name.now))) }
{
    match name {
        Some(name) => write_text(out, "pass:name", str_of(name)),
        None => Ok(()),
    }
}

// The attributes, each with its value as a text.
fn write_tags(alloc: Global, out: &mut Writer, tags: &[(Text, Text)]) -> Result<(), AllocError>
    ensures { OnOk result (Adds out.old out.new (member_tokens (codes "pass:attributes", tags_json tags.now))) }
{
    out.key("pass:attributes")?;
    write_list(alloc, out, tags)
}

/// The attributes as a list of texts.
pub(crate) fn write_list(
    alloc: Global,
    out: &mut Writer,
    tags: &[(Text, Text)],
) -> Result<(), AllocError>
    ensures { OnOk result (Adds out.old out.new (json_tokens (tags_json tags.now))) }
{
    out.begin_array()?;
    for (attr, value) in tags {
        let text = tag_text(alloc, attr, value)?;
        out.string(text.as_str())?;
    }
    out.end_array()
}

fn tag_text(alloc: Global, attr: &Text, value: &Text) -> Result<String, AllocError>
    ensures { IfOk result (λ text. string_bytes text ≡ tag_text (attr.now, value.now)) }
{
    let mut text = String::from_str(alloc, str_of(attr))?;
    text.push_str(" ")?;
    text.push_str(str_of(value))?;
    Ok(text)
}

// Relations

// The edges of this relation.
fn write_relations(
    alloc: Global,
    out: &mut Writer,
    relation: Relation,
    edges: &[Link],
) -> Result<(), AllocError>
    ensures { OnOk result (Adds out.old out.new (member_tokens (relations relation edges.now))) }
{
    begin(out, relation.word())?;
    for link in edges {
        write_related(alloc, out, relation, link)?;
    }
    out.end_object()
}

// The edge, where it is of this relation.
fn write_related(
    alloc: Global,
    out: &mut Writer,
    relation: Relation,
    link: &Link,
) -> Result<(), AllocError>
    ensures { OnOk result (Adds out.old out.new (tokens_of (related relation link.now))) }
{
    if link.relation.is_same(relation) {
        write_link(alloc, out, link)
    } else {
        Ok(())
    }
}

fn write_link(alloc: Global, out: &mut Writer, link: &Link) -> Result<(), AllocError>
    ensures { OnOk result (Adds out.old out.new (member_tokens (link_member link.now))) }
{
    let id = relation_id(alloc, link)?;
    let target = node_id(alloc, &link.target)?;
    let source = node_id(alloc, &link.source)?;
    write_pair(
        out,
        id.as_str(),
        link.relation.target_word(),
        target.as_str(),
        link.relation.source_word(),
        source.as_str(),
    )
}

// A name of the edge that no other one has.
fn relation_id(alloc: Global, link: &Link) -> Result<String, AllocError>
    ensures { IfOk result (λ text. string_bytes text ≡ relation_id link.now.target link.now.source) }
{
    format!(in alloc; "_:{}-{}", link.target, link.source)
}

impl Relation {
    fn is_same(self, other: Relation) -> bool
        ensures { result ≡ same_relation self other }
    {
        match (self, other) {
            (Relation::Used, Relation::Used)
            | (Relation::Generated, Relation::Generated)
            | (Relation::Informed, Relation::Informed)
            | (Relation::Derived, Relation::Derived) => true,
            _ => false,
        }
    }

    /// What PROV-JSON calls the relations of this kind.
    pub(crate) fn word(self) -> &'static str
        ensures { result.now ≡ relation_word self }
    {
        match self {
            Relation::Used => "used",
            Relation::Generated => "wasGeneratedBy",
            Relation::Informed => "wasInformedBy",
            Relation::Derived => "wasDerivedFrom",
        }
    }

    // And the end from which such an edge leads.
    fn target_word(self) -> &'static str
        ensures { result.now ≡ target_word self }
    {
        match self {
            Relation::Used => "prov:activity",
            Relation::Generated => "prov:entity",
            Relation::Informed => "prov:informed",
            Relation::Derived => "prov:generatedEntity",
        }
    }

    // And the end to which it leads.
    fn source_word(self) -> &'static str
        ensures { result.now ≡ source_word self }
    {
        match self {
            Relation::Used => "prov:entity",
            Relation::Generated => "prov:activity",
            Relation::Informed => "prov:informant",
            Relation::Derived => "prov:usedEntity",
        }
    }
}

// Programs

/// The program that the node ran, where it is a version of a process that ran one.
pub(crate) fn ran(shown: &Shown) -> Option<&Text>
    ensures { option_map (λ t. t.now) result ≡ ran shown.now }
{
    if is_activity(shown) {
        value_among(&shown.tags, "EXE".as_bytes())
    } else {
        None
    }
}

// The programs, each once.
fn programs(alloc: Global, nodes: &[Shown]) -> Result<BTreeSet<Text>, AllocError>
    ensures { IfOk result (λ set. set.keys ≡ programs nodes.now) }
{
    let mut names = BTreeSet::new(alloc);
    for shown in nodes {
        note_program(&mut names, ran(shown))?;
    }
    Ok(names)
}

fn note_program(names: &mut BTreeSet<Text>, name: Option<&Text>) -> Result<(), AllocError>
    ensures { OnOk result (names.new.keys ≡ fold (insert_key (slice_cmp nat_cmp)) names.old.keys (programs_of (option_map (λ t. t.now) name.entry))) }
{
    if let Some(name) = name {
        names.insert(name.clone()?)?;
    }
    Ok(())
}

fn write_agents(alloc: Global, out: &mut Writer, nodes: &[Shown]) -> Result<(), AllocError>
    ensures { OnOk result (Adds out.old out.new (member_tokens (agents nodes.now))) }
{
    let names = programs(alloc, nodes)?;
    begin(out, "agent")?;
    for name in &names {
        write_agent(alloc, out, name)?;
    }
    out.end_object()
}

// The program as an agent.
fn write_agent(alloc: Global, out: &mut Writer, name: &Text) -> Result<(), AllocError>
    ensures { OnOk result (Adds out.old out.new (member_tokens (agent name.now))) }
{
    let id = program_id(alloc, name)?;
    write_pair(
        out,
        id.as_str(),
        "prov:label",
        str_of(name),
        "pass:kind",
        "program",
    )
}

// The program as a qualified name.
fn program_id(alloc: Global, name: &Text) -> Result<String, AllocError>
    ensures { IfOk result (λ text. string_bytes text ≡ program_id name.now) }
{
    let mut text = String::from_str(alloc, "program:")?;
    text.push_str(str_of(name))?;
    Ok(text)
}

// The version of a process with the program that it ran, where it ran one.
fn write_association(
    alloc: Global,
    out: &mut Writer,
    node: &Node,
    program: Option<&Text>,
) -> Result<(), AllocError>
    ensures { OnOk result (Adds out.old out.new (tokens_of (association_of node.now (option_map (λ t. t.now) program.entry)))) }
{
    match program {
        Some(name) => write_ran(alloc, out, node, name),
        None => Ok(()),
    }
}

fn write_ran(alloc: Global, out: &mut Writer, node: &Node, name: &Text) -> Result<(), AllocError>
    ensures { OnOk result (Adds out.old out.new (member_tokens (ran_member node.now name.now))) }
{
    let id = format!(in alloc; "_:{}", *node)?;
    let activity = node_id(alloc, node)?;
    let program = program_id(alloc, name)?;
    write_pair(
        out,
        id.as_str(),
        "prov:activity",
        activity.as_str(),
        "prov:agent",
        program.as_str(),
    )
}
