//! The places of nodes among leaves.
ghost use Rattle.std.specs.Prelude.{◌≡◌, ◌&&◌, ◌<◌, not, Some, is_some, IfOk, OnOk, if◌then◌else◌};
ghost use Rattle.std.specs.HashMap.{get};
ghost use Rattle.pass_entry.specs.declared.objects.Node.{Node as AnyNode};
ghost use Rattle.pass_plain.specs.Versions.{same_node};
ghost use Rattle.pass_inputs.specs.Plans.{ArePlaces};

use pass_entry::Node;
use pass_leaf::Leaf;
use std::alloc::{AllocError, Global};
use std::collections::HashMap;

/// The place of each node's first leaf.
pub(crate) fn places_of(alloc: Global, leaves: &[Leaf]) -> Result<HashMap<Node, usize>, AllocError>
    ensures { IfOk result (ArePlaces leaves.now) }
{
    let mut places = HashMap::new(alloc);
    for (place, leaf) in leaves.iter().enumerate() {
        note(&mut places, leaf.node(), place)?;
    }
    Ok(places)
}

// The node has its first leaf there, unless it has one before.
fn note(places: &mut HashMap<Node, usize>, node: Node, place: usize) -> Result<(), AllocError>
    ensures { OnOk result ((n : AnyNode) → get same_node places.new n
        ≡ (if same_node node n && not (is_some (get same_node places.old node)) then Some place else get same_node places.old n)) }
{
    if !places.contains_key(&node) {
        places.insert(node, place)?;
    }
    Ok(())
}
