//! How a question spells a node.
ghost use Rattle.std.specs.Prelude.{◌≡◌};
ghost use Rattle.pass_files.specs.Spelling.{file_given, given_look, node_meant, no_node, version_meant};

use pass_entry::{Node, Pnode, Record, Text};
use pass_waldo::Index;

/// A node as a question spells it.
#[derive(Drop)]
pub enum Spelled {
    /// By the number of its object and its version.
    Numbered(Node),
    /// By a name: a version of the file that got the name last, the current one where none is given.
    Called { name: Text, version: Option<u64> },
}

/// The node that is meant; where no file ever had the name it is 0.0, which no graph has.
pub fn node_meant(index: &Index, spelled: &Spelled) -> Node
    ensures { result ≡ node_meant index.now spelled.now }
{
    match spelled {
        Spelled::Numbered(node) => *node,
        Spelled::Called { name, version } => node_called(index, name.as_bytes(), *version),
    }
}

fn node_called(index: &Index, name: &[u8], version: Option<u64>) -> Node
    ensures { result ≡ node_meant index.now (Spelled.Called name.now version) }
{
    match file_given(index.records(), name) {
        Some(pnode) => Node {
            pnode,
            version: version_meant(index, pnode, version),
        },
        None => no_node(),
    }
}

fn no_node() -> Node
    ensures { result ≡ no_node }
{
    Node {
        pnode: Pnode(0),
        version: 0,
    }
}

// The version that is given, or else the current one.
fn version_meant(index: &Index, pnode: Pnode, version: Option<u64>) -> u64
    ensures { result ≡ version_meant index.now pnode version }
{
    match version {
        Some(version) => version,
        None => index.current(pnode).unwrap_or(0),
    }
}

// The file to which a record gave the name last.
fn file_given(records: &[Record], name: &[u8]) -> Option<Pnode>
    ensures { result ≡ file_given records.now name.now }
{
    let mut last = None;
    for one in records {
        last = given(name, last, one);
    }
    last
}

fn given(name: &[u8], last: Option<Pnode>, one: &Record) -> Option<Pnode>
    ensures { result ≡ given_look name.now last one.now }
{
    match one {
        Record::Name { pnode, name: other } if name == other.as_bytes() => Some(*pnode),
        _ => last,
    }
}
