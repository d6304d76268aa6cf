//! The attributes of nodes, in a table.
ghost use Rattle.std.specs.Prelude.{◌≡◌, List, [], ◌∷◌, ◌++◌, IfOk, OnOk, if◌then◌else◌};
ghost use Rattle.pass_entry.specs.declared.objects.Node.{Node};
ghost use Rattle.pass_entry.specs.declared.record.Record.{Record};
ghost use Rattle.pass_plain.specs.Versions.{same_node};

use pass_entry::{Node, Record, Text};
use std::alloc::{AllocError, Global};
use std::collections::HashMap;

/// The attributes of each node with their values, in the order of the records.
#[derive(Drop)]
pub struct Tags {
    alloc: Global,
    rows: HashMap<Node, Vec<(Text, Text)>>,
}

impl Tags {
    ghost use Rattle.pass_view.specs.Facts.{AreTags, tags_in, tags_of};

    pub(crate) fn new(alloc: Global) -> Tags
        ensures { AreTags [] result }
    {
        Tags {
            alloc,
            rows: HashMap::new(alloc),
        }
    }

    /// What records give.
    pub fn of(alloc: Global, records: &[Record]) -> Result<Tags, AllocError>
        ensures { IfOk result (λ tags. AreTags records.now tags) }
    {
        let mut tags = Tags::new(alloc);
        for one in records {
            tags.note(one)?;
        }
        Ok(tags)
    }

    /// Notes the next record.
    pub(crate) fn note(&mut self, one: &Record) -> Result<(), AllocError>
        ensures { OnOk result ((list : List Record) → AreTags list self.old → AreTags (list ++ one.now ∷ []) self.new) }
    {
        match one {
            Record::Attr { node, attr, value } => self.add(*node, attr.clone()?, value.clone()?),
            _ => Ok(()),
        }
    }

    // The node has one more attribute.
    fn add(&mut self, node: Node, attr: Text, value: Text) -> Result<(), AllocError>
        ensures { OnOk result ((n : Node) → tags_of self.new n
            ≡ (if same_node node n then tags_of self.old n ++ (attr, value) ∷ [] else tags_of self.old n)) }
    {
        match self.rows.get_mut(&node) {
            Some(row) => {
                row.push((attr, value))?;
            }
            None => {
                let mut row = Vec::new(self.alloc);
                row.push((attr, value))?;
                self.rows.insert(node, row)?;
            }
        }
        Ok(())
    }

    /// Copies of the node's attributes and values, which share their bytes.
    pub fn of_node(&self, node: Node) -> Result<Vec<(Text, Text)>, AllocError>
        ensures { (list : List Record) → AreTags list self.now → IfOk result (λ v. v.items ≡ tags_in list node) }
    {
        copied(self.alloc, self.row(node))
    }

    // The node's attributes.
    fn row(&self, node: Node) -> &[(Text, Text)]
        ensures { result.now ≡ tags_of self.now node }
    {
        match self.rows.get(&node) {
            Some(row) => row.as_slice(),
            None => &[],
        }
    }
}

fn copied(alloc: Global, tags: &[(Text, Text)]) -> Result<Vec<(Text, Text)>, AllocError>
    ensures { IfOk result (λ v. v.items ≡ tags.now) }
{
    let mut copy = Vec::with_capacity(alloc, tags.len())?;
    for (attr, value) in tags {
        copy.push((attr.clone()?, value.clone()?))?;
    }
    Ok(copy)
}
