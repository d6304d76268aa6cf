//! The text of a recipe.
ghost use Rattle.std.specs.Prelude.{◌≡◌, [], ◌∷◌, ◌++◌, IfOk, OnOk};
ghost use Rattle.pass_entry.specs.Words.{node_text};
ghost use Rattle.pass_recipe.specs.Texts.{program_text, recipe_text};

use crate::entries::Made;
use itoa::Buffer;
use pass_entry::{Node, Text};
use std::alloc::{AllocError, Global};

// A node as `P.V`.
fn push_node(out: &mut Vec<u8>, node: Node) -> Result<(), AllocError>
    ensures { OnOk result (out.new.items ≡ out.old.items ++ node_text node) }
{
    let mut buffer = Buffer::new();
    out.extend_from_slice(buffer.format(node.pnode.0).as_bytes())?;
    out.extend_from_slice(".".as_bytes())?;
    out.extend_from_slice(buffer.format(node.version).as_bytes())?;
    Ok(())
}

// A space and the text.
fn push_word(out: &mut Vec<u8>, word: &Text) -> Result<(), AllocError>
    ensures { OnOk result (out.new.items ≡ out.old.items ++ 32 ∷ [] ++ word.now) }
{
    out.extend_from_slice(b" ")?;
    out.extend_from_slice(word.as_bytes())?;
    Ok(())
}

// The program and its arguments, where there is one.
fn push_program(out: &mut Vec<u8>, made: &Made) -> Result<(), AllocError>
    ensures { OnOk result (out.new.items ≡ out.old.items ++ program_text made.now.exe made.now.args) }
{
    if let Some(exe) = &made.exe {
        push_word(out, exe)?;
        if let Some(args) = &made.args {
            push_word(out, args)?;
        }
    }
    Ok(())
}

/// The entries, each on a line: the node, its program, and the program's arguments.
pub fn to_text(alloc: Global, entries: &[Made]) -> Result<Vec<u8>, AllocError>
    ensures { IfOk result (λ v. v.items ≡ recipe_text entries.now) }
{
    let mut out = Vec::new(alloc);
    for made in entries {
        push_node(&mut out, made.node)?;
        push_program(&mut out, made)?;
        out.push(b'\n')?;
    }
    Ok(out)
}
