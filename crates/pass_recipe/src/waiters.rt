//! The nodes that wait for a source.
ghost use Rattle.std.specs.Prelude.{◌≡◌, [], ◌∷◌, ◌++◌, OnOk, false, if◌then◌else◌};
ghost use Rattle.pass_entry.specs.declared.objects.Node.{Node};
ghost use Rattle.pass_plain.specs.Versions.{same_node};

use pass_entry::Node;
use std::alloc::{AllocError, Global};
use std::collections::HashMap;

/// A node that isn't listed yet, with its sources, and the place of the next of these at which to look.
#[derive(Drop)]
pub(crate) struct Waiting {
    pub(crate) node: Node,
    pub(crate) sources: Vec<Node>,
    pub(crate) next: usize,
}

/// For each source that isn't listed yet the nodes that wait for it.
#[derive(Drop)]
pub(crate) struct Waiters {
    alloc: Global,
    rows: HashMap<Node, Vec<Waiting>>,
}

impl Waiters {
    ghost use Rattle.pass_recipe.specs.Queues.{waiting_for};

    pub(crate) fn new(alloc: Global) -> Waiters
        ensures { (s : Node) → waiting_for result s ≡ [] }
    {
        Waiters {
            alloc,
            rows: HashMap::new(alloc),
        }
    }

    /// One more node waits for the source.
    pub(crate) fn add(&mut self, source: Node, one: Waiting) -> Result<(), AllocError>
        ensures { OnOk result ((s : Node) → waiting_for self.new s
            ≡ (if same_node source s then waiting_for self.old s ++ one ∷ [] else waiting_for self.old s)) }
    {
        match self.rows.get_mut(&source) {
            Some(row) => {
                row.push(one)?;
            }
            None => {
                let mut row = Vec::new(self.alloc);
                row.push(one)?;
                self.rows.insert(source, row)?;
            }
        }
        Ok(())
    }

    /// The nodes that waited for the source, which wait no more.
    pub(crate) fn take(&mut self, source: &Node) -> Vec<Waiting>
        ensures taken { result.items ≡ waiting_for self.old source.now }
        ensures others { (s : Node) → same_node source.now s ≡ false → waiting_for self.new s ≡ waiting_for self.old s }
    {
        match self.rows.remove(source) {
            Some(row) => row,
            None => Vec::new(self.alloc),
        }
    }
}
