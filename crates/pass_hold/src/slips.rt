//! The records of an entry by which a version takes from a source.
ghost use Rattle.std.specs.Prelude.{◌≡◌, Some};
ghost use Rattle.pass_hold.specs.Slips.{taken_records};

use pass_book::Slip;
use pass_entry::{Node, Record};
use pass_version::Taken;

fn some_node(node: &Node) -> Option<Node>
    ensures { result ≡ Some node.now }
{
    Some(*node)
}

fn some_input(node: &Node, source: &Node) -> Option<(Node, Node)>
    ensures { result ≡ Some (node.now, source.now) }
{
    Some((*node, *source))
}

/// The records of a version that has taken from a source, before others.
pub fn slip_of(taken: Taken, node: &Node, source: &Node, rest: Vec<Record>) -> Slip
    ensures { result ≡ taken_records taken node.now source.now rest.items }
{
    match taken {
        Taken::Dropped => Slip {
            version: None,
            input: None,
            rest,
        },
        Taken::Linked => Slip {
            version: None,
            input: some_input(node, source),
            rest,
        },
        Taken::FrozenAndLinked => Slip {
            version: some_node(node),
            input: some_input(node, source),
            rest,
        },
    }
}
