//! The nodes of the files that had a name.
ghost use Rattle.std.specs.Prelude.{◌≡◌, IfOk, Some, Contains};
ghost use Rattle.pass_entry.specs.declared.record.Record.TheVariants as log;
ghost use Rattle.pass_waldo.specs.Orders.{node_cmp};
ghost use Rattle.pass_waldo.specs.Lookups.{AreAll, current_in};

use pass_entry::{Node, Text};
use pass_waldo::Index;
use std::alloc::{AllocError, Global};

/// The current versions of the files to which a record gave the name, whether they still have it or not.
pub fn named(alloc: Global, index: &Index, name: &Text) -> Result<Vec<Node>, AllocError>
    ensures { IfOk result (λ v. AreAll node_cmp v.items
        (λ n. Contains index.now (log.Name n.pnode name.now) × (current_in index.now n.pnode ≡ Some n.version))) }
{
    let mut nodes = Vec::new(alloc);
    for pnode in index.by_name(name) {
        if let Some(version) = index.current(*pnode) {
            nodes.push(Node {
                pnode: *pnode,
                version,
            })?;
        }
    }
    Ok(nodes)
}
