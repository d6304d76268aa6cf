//! The texts of answers.
ghost use Rattle.std.specs.Prelude.{◌≡◌, ◌++◌, IfOk, OnOk, None, string_bytes};
ghost use Rattle.pass_query.specs.Questions.{answer_text};
ghost use Rattle.pass_query.specs.Texts.{node_text, text_of, json_of};

use crate::question::Form;
use itoa::Buffer;
use pass_entry::Node;
use serde_json::Value;
use std::alloc::{AllocError, Global};

// A node as `P.V`.
fn push_node(out: &mut String, node: Node) -> Result<(), AllocError>
    ensures { OnOk result (string_bytes out.new ≡ string_bytes out.old ++ node_text node) }
{
    let mut buffer = Buffer::new();
    out.push_str(buffer.format(node.pnode.0))?;
    out.push_str(".")?;
    out.push_str(buffer.format(node.version))?;
    Ok(())
}

/// The nodes, each on a line.
pub fn to_text(alloc: Global, nodes: &[Node]) -> Result<Vec<u8>, AllocError>
    ensures { IfOk result (λ v. v.items ≡ text_of nodes.now) }
{
    let mut out = String::new(alloc);
    for node in nodes {
        push_node(&mut out, *node)?;
        out.push_str("\n")?;
    }
    Ok(out.into_bytes())
}

/// The nodes as a list of JSON on one line.
pub fn to_json(alloc: Global, nodes: &[Node]) -> Result<Vec<u8>, AllocError>
    ensures { IfOk result (λ v. v.items ≡ json_of nodes.now) }
{
    let mut values = Vec::new(alloc);
    for node in nodes {
        let mut text = String::new(alloc);
        push_node(&mut text, *node)?;
        values.push(Value::String(text))?;
    }
    let mut line = Value::Array(values).to_vec(alloc)?;
    line.push(b'\n')?;
    Ok(line)
}

/// What stands in place of nodes where there is no path.
pub fn no_path(alloc: Global, form: Form) -> Result<Vec<u8>, AllocError>
    ensures { IfOk result (λ v. v.items ≡ answer_text form None) }
{
    match form {
        Form::Lines => Ok(String::from_str(alloc, "none\n")?.into_bytes()),
        Form::Json => {
            let mut line = Value::Null.to_vec(alloc)?;
            line.push(b'\n')?;
            Ok(line)
        }
    }
}
