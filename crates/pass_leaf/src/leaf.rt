//! Leaves.
use pass_entry::{Bytes, Node};
use std::marker::Model;

/// A block of a leaf: its number in the file, from 0, and its bytes.
#[derive(Drop)]
pub struct LeafBlock {
    pub number: u32,
    pub bytes: Bytes,
}

/// What an archive has of a version of a file.
#[derive(Drop)]
pub struct Leaf {
    node: Node,
    size: u64,
    blocks: Vec<LeafBlock>,
}

impl Model for Leaf {
    ghost use Rattle.std.specs.Coded.{codes};
    ghost use Rattle.pass_entry.specs.contracts.objects.Node as node_type;
    ghost use Rattle.pass_leaf.specs.contracts.leaf.LeafBlock as block_type;
    ghost use Rattle.pass_leaf.specs.Leaves.{Leaf as AnyLeaf, IsFormed};

    ghost Value = { AnyLeaf };

    ghost coded = { Prim.hlevel (codes, node_type.the_row.coded, block_type.the_row.coded) };

    ghost view = { λ leaf. record { node = leaf.node; size = leaf.size; blocks = leaf.blocks.items } };

    ghost invariant = { λ leaf. IsFormed (record { node = leaf.node; size = leaf.size; blocks = leaf.blocks.items }) };
}

impl Leaf {
    ghost use Rattle.std.specs.Prelude.{◌≡◌};
    ghost use Rattle.pass_leaf.specs.Leaves.{IsFormed};

    /// A leaf of these blocks.
    pub(crate) fn of(node: Node, size: u64, blocks: Vec<LeafBlock>) -> Leaf
        requires { IsFormed (record { node = node; size = size; blocks = blocks.items }) }
        ensures { result ≡ record { node = node; size = size; blocks = blocks.items } }
    {
        Leaf { node, size, blocks }
    }

    /// The version of the file.
    pub fn node(&self) -> Node
        ensures { result ≡ self.now.node }
    {
        self.node
    }

    /// The size of the version, in bytes.
    pub fn size(&self) -> u64
        ensures { result ≡ self.now.size }
    {
        self.size
    }

    /// The blocks in which it differs from the file's leaf before it, ascending.
    pub fn blocks(&self) -> &[LeafBlock]
        ensures blocks { result.now ≡ self.now.blocks }
        ensures formed { IsFormed self.now }
    {
        &self.blocks
    }
}
