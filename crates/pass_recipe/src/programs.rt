//! The programs that nodes ran.
ghost use Rattle.std.specs.Prelude.{◌≡◌, ◌&&◌, not, Some, is_some, IfOk, OnOk, codes, if◌then◌else◌};
ghost use Rattle.std.specs.HashMap.{get};
ghost use Rattle.pass_entry.specs.declared.objects.Node.{Node};
ghost use Rattle.pass_plain.specs.Versions.{same_node};
ghost use Rattle.pass_recipe.specs.Programs.{first_of, first_value};

use pass_entry::{Node, Text};
use pass_waldo::Index;
use std::alloc::{AllocError, Global};
use std::collections::HashMap;

/// The first program name and the first arguments of each node that has some.
#[derive(Drop)]
pub(crate) struct Programs {
    exes: HashMap<Node, Text>,
    args: HashMap<Node, Text>,
}

impl Programs {
    pub(crate) fn of(alloc: Global, index: &Index) -> Result<Programs, AllocError>
        ensures exes { IfOk result (λ p. (n : Node) → get same_node p.exes n ≡ first_value index.now (codes "EXE") n) }
        ensures args { IfOk result (λ p. (n : Node) → get same_node p.args n ≡ first_value index.now (codes "ARGV") n) }
    {
        Ok(Programs {
            exes: values(alloc, index, "EXE".as_bytes())?,
            args: values(alloc, index, "ARGV".as_bytes())?,
        })
    }

    pub(crate) fn exe(&self, node: &Node) -> Result<Option<Text>, AllocError>
        ensures { IfOk result (λ o. o ≡ get same_node self.now.exes node.now) }
    {
        value_of(&self.exes, node)
    }

    pub(crate) fn args(&self, node: &Node) -> Result<Option<Text>, AllocError>
        ensures { IfOk result (λ o. o ≡ get same_node self.now.args node.now) }
    {
        value_of(&self.args, node)
    }
}

fn value_of(values: &HashMap<Node, Text>, node: &Node) -> Result<Option<Text>, AllocError>
    ensures { IfOk result (λ o. o ≡ get same_node values.now node.now) }
{
    match values.get(node) {
        Some(text) => Ok(Some(text.clone()?)),
        None => Ok(None),
    }
}

// The first value of the attribute for each node that has one.
fn values(alloc: Global, index: &Index, attr: &[u8]) -> Result<HashMap<Node, Text>, AllocError>
    ensures { IfOk result (λ m. (n : Node) → get same_node m n ≡ first_value index.now attr.now n) }
{
    match Text::line(alloc, attr) {
        Ok(text) => first_values(alloc, index.by_attr(&text)),
        Err(_) => Err(AllocError),
    }
}

fn first_values(alloc: Global, values: &[(Node, Text)]) -> Result<HashMap<Node, Text>, AllocError>
    ensures { IfOk result (λ m. (n : Node) → get same_node m n ≡ first_of values.now n) }
{
    let mut firsts = HashMap::new(alloc);
    for (node, value) in values {
        note_first(&mut firsts, *node, value)?;
    }
    Ok(firsts)
}

// The node has this value, unless it has one already.
fn note_first(firsts: &mut HashMap<Node, Text>, node: Node, value: &Text) -> Result<(), AllocError>
    ensures { OnOk result ((n : Node) → get same_node firsts.new n
        ≡ (if same_node node n && not (is_some (get same_node firsts.old node)) then Some value.now else get same_node firsts.old n)) }
{
    if !firsts.contains_key(&node) {
        firsts.insert(node, value.clone()?)?;
    }
    Ok(())
}
