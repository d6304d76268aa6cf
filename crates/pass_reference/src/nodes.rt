//! Versions, marks and freezes of a history, from the nodes of its entries.
ghost use Rattle.std.specs.Prelude.{◌≡◌, ◌<◌, ◌+◌, ◌^◌, ◌&&◌, ◌||◌, option_copied};
ghost use Rattle.pass_plain.specs.Histories.{uses as uses_of, out_of as out_of_act, is_out as is_out_of, source_place as source_place_of};
ghost use Rattle.pass_plain.specs.Legal.{session_of};
ghost use Rattle.pass_plain.specs.Sessions.{opened_app as opened_app_of, is_opened as is_opened_of, opening_version as opening_version_of};
ghost use Rattle.pass_plain.specs.Versions.{same_node as same_node_of, version_in as version_in_of, is_used as is_used_of, source_in as source_in_of, same_source as same_source_of, always_freezes as always_freezes_of, is_in as is_in_of, is_exec as is_exec_of};
ghost use Rattle.pass_plain.specs.Recording.{begins_with as begins_with_of, takes_so as takes_so_of, is_fresh_at, is_freeze_at, IsVersionStep};

use pass_entry::{Act, Entry, Node, Pnode};
use pass_plain::file::opened_file;
use pass_plain::registry::is_fault;
use pass_plain::{Start, VersionStep};

fn same_node(a: &Node, b: &Node) -> bool
    ensures { result ≡ same_node_of a.now b.now }
{
    a.pnode == b.pnode && a.version == b.version
}

fn opened_app(start: &Start, object: Pnode) -> Option<&Node>
    ensures { option_copied result ≡ opened_app_of start.now object }
{
    start.apps.iter().find(|n| n.pnode == object)
}

/// The object is of the opening.
fn is_opened(start: &Start, object: Pnode) -> bool
    ensures { result ≡ is_opened_of start.now object }
{
    opened_file(start, object).is_some() || opened_app(start, object).is_some()
}

/// The version with which an object begins in the session.
fn opening_version(start: &Start, object: Pnode) -> u64
    ensures { result ≡ opening_version_of start.now object }
{
    match opened_file(start, object) {
        Some(file) => file.node.version,
        None => match opened_app(start, object) {
            Some(app) => app.version,
            None => 1,
        },
    }
}

/// The version of an object after entries, whose nodes are given.
fn version_in(start: &Start, nodes: &[Node], object: Pnode) -> u64
    ensures { result ≡ version_in_of (session_of start.now 0) nodes.now object }
{
    let mut version = opening_version(start, object);
    for node in nodes {
        if node.pnode == object {
            version = node.version;
        }
    }
    version
}

/// The acts by which an object is used as a source.
fn uses(act: &Act) -> bool
    ensures { result ≡ uses_of act.now }
{
    matches!(
        act,
        Act::Show { .. }
            | Act::Spawn { .. }
            | Act::Reap
            | Act::Give { .. }
            | Act::Load
            | Act::Take { .. }
            | Act::Cite
    )
}

fn is_out(e: &Entry) -> bool
    ensures { result ≡ is_out_of e.now }
{
    uses(&e.act) && !is_fault(&e.reply)
}

/// A node was used: an OUT of the object stands at a place where it has this version.
fn is_used(history: &[Entry], nodes: &[Node], node: &Node) -> bool
    ensures { result ≡ is_used_of history.now nodes.now node.now }
{
    history
        .iter()
        .zip(nodes)
        .any(|s| same_node(s.1, node) && is_out(s.0))
}

/// The node is the one with which an object of the opening began.
fn begins_with(start: &Start, node: &Node) -> bool
    ensures { result ≡ begins_with_of start.now node.now }
{
    is_opened(start, node.pnode) && node.version == opening_version(start, node.pnode)
}

/// The place of the OUT entry that an act on a target names.
fn out_of(act: &Act) -> Option<u64>
    ensures { result ≡ out_of_act act.now }
{
    match act {
        Act::Born { out, .. }
        | Act::Gain { out, .. }
        | Act::Exec { out, .. }
        | Act::Gather { out, .. }
        | Act::Put { out, .. }
        | Act::Cut { out, .. }
        | Act::Push { out, .. }
        | Act::Told { out } => Some(*out),
        _ => None,
    }
}

fn source_place(e: &Entry) -> Option<u64>
    ensures { result ≡ source_place_of e.now }
{
    if is_fault(&e.reply) {
        None
    } else {
        out_of(&e.act)
    }
}

/// The node that an IN takes from.
pub fn source_in(nodes: &[Node], e: &Entry) -> Option<Node>
    ensures { result ≡ source_in_of nodes.now e.now }
{
    match source_place(e) {
        Some(out) => nodes.get(out as usize).copied(),
        None => None,
    }
}

fn same_source(a: &Option<Node>, b: &Option<Node>) -> bool
    ensures { result ≡ same_source_of a.now b.now }
{
    match a {
        Some(a) => match b {
            Some(b) => same_node(a, b),
            None => false,
        },
        None => false,
    }
}

fn takes_again(nodes: &[Node], here: &Node, source: &Option<Node>, e: &Entry, node: &Node) -> bool
    ensures { result ≡ same_node_of node.now here.now && same_source_of (source_in_of nodes.now e.now) source.now }
{
    same_node(node, here) && same_source(&source_in(nodes, e), source)
}

/// Some entry on the node took from the source.
fn takes_so(history: &[Entry], nodes: &[Node], here: &Node, source: &Option<Node>) -> bool
    ensures { result ≡ takes_so_of history.now nodes.now here.now source.now }
{
    history
        .iter()
        .zip(nodes)
        .any(|s| takes_again(nodes, here, source, s.0, s.1))
}

fn always_freezes(act: &Act) -> bool
    ensures { result ≡ always_freezes_of act.now }
{
    matches!(act, Act::Freeze | Act::Exec { .. })
}

fn is_exec(act: &Act) -> bool
    ensures { result ≡ is_exec_of act.now }
{
    matches!(act, Act::Exec { .. })
}

fn is_in(e: &Entry) -> bool
    ensures { result ≡ is_in_of e.now }
{
    source_place(e).is_some()
}

/// An IN is fresh where the node on which it stands had none from its source.
fn is_fresh(
    history: &[Entry],
    nodes: &[Node],
    here: &Node,
    source: &Option<Node>,
    e: &Entry,
) -> bool
    ensures { result ≡ is_fresh_at history.now nodes.now here.now source.now e.now }
{
    is_in(e) && (is_exec(&e.act) || !takes_so(history, nodes, here, source))
}

/// A fresh entry on a marked node freezes it.
fn freezes_marked(
    start: &Start,
    history: &[Entry],
    nodes: &[Node],
    here: &Node,
    fresh: bool,
) -> bool
    ensures { result ≡ fresh && (is_used_of history.now nodes.now here.now || begins_with_of start.now here.now) }
{
    fresh && (is_used(history, nodes, here) || begins_with(start, here))
}

/// The entry freezes the node on which it stands.
fn is_freeze(
    start: &Start,
    history: &[Entry],
    nodes: &[Node],
    here: &Node,
    fresh: bool,
    e: &Entry,
) -> bool
    ensures { result ≡ is_freeze_at start.now history.now nodes.now here.now fresh e.now }
{
    !is_fault(&e.reply)
        && (always_freezes(&e.act) || freezes_marked(start, history, nodes, here, fresh))
}

/// What the next entry makes of its object's version, after entries whose nodes are given.
pub fn version_step(start: &Start, history: &[Entry], nodes: &[Node], e: &Entry) -> VersionStep
    requires { version_in_of (session_of start.now 0) nodes.now e.now.what + 1 < 2 ^ 64 }
    ensures { IsVersionStep start.now history.now nodes.now e.now result }
{
    let pnode = e.what;
    let version = version_in(start, nodes, pnode);
    let here = Node { pnode, version };
    let source = source_in(nodes, e);
    let fresh = is_fresh(history, nodes, &here, &source, e);
    let freezes = is_freeze(start, history, nodes, &here, fresh, e);
    VersionStep {
        node: Node {
            pnode,
            version: if freezes { version + 1 } else { version },
        },
        freezes,
        source: if fresh { source } else { None },
    }
}
