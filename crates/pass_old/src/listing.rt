//! What is told of the versions of a file.
ghost use Rattle.std.specs.Prelude.{◌≡◌, ◌++◌, ◌==◌, [], IfOk, OnOk, string_bytes, if◌then◌else◌};
ghost use Rattle.pass_leaf.specs.Contents.{AreLeaves, laid};
ghost use Rattle.pass_old.specs.Listings.{version_line, version_lines};

use md5::{Digest, Md5};
use pass_entry::{Node, Pnode};
use pass_leaf::{Leaf, lay};
use std::alloc::{AllocError, Global};
use std::fmt::Write;

// Adds the line of a version.
fn write_version(text: &mut String, node: Node, content: &[u8]) -> Result<(), AllocError>
    ensures { OnOk result (string_bytes text.new ≡ string_bytes text.old ++ version_line node content.now) }
{
    let size = content.len();
    let digest = hex::encode(*text.allocator(), Md5::digest(content).as_slice())?;
    writeln!(text, "{node} {size} {digest}")
}

// Adds the line of a leaf of the file, given the content of its leaf before, of which it makes the leaf's own.
fn add_leaf(
    text: &mut String,
    content: &mut Vec<u8>,
    leaf: &Leaf,
    file: Pnode,
) -> Result<(), AllocError>
    ensures content { OnOk result (content.new.items ≡ (if leaf.now.node.pnode == file then laid content.old.items leaf.now else content.old.items)) }
    ensures text { OnOk result (string_bytes text.new ≡ string_bytes text.old ++ (if leaf.now.node.pnode == file then version_line leaf.now.node (laid content.old.items leaf.now) else [])) }
{
    if leaf.node().pnode == file {
        lay(content, leaf)?;
        write_version(text, leaf.node(), content)?;
    }
    Ok(())
}

/// A line for each version of a file that was kept.
pub(crate) fn version_text(
    alloc: Global,
    leaves: &[Leaf],
    file: Pnode,
) -> Result<String, AllocError>
    requires { AreLeaves leaves.now }
    ensures { IfOk result (λ text. string_bytes text ≡ version_lines leaves.now file) }
{
    let mut text = String::new(alloc);
    let mut content = Vec::new(alloc);
    for leaf in leaves {
        add_leaf(&mut text, &mut content, leaf, file)?;
    }
    Ok(text)
}
