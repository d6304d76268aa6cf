//! The content of a file.
ghost use Rattle.std.specs.Prelude.{◌≡◌, ◌≤◌, ◌+◌, ◌++◌, IfOk, OnOk, length, take, drop, option_copied};
ghost use Rattle.pass_plain.specs.Sessions.{opening_bytes, opened_file as opened_file_of};
ghost use Rattle.pass_plain.specs.Files.{extended, written, resized, file_act};

use crate::start::{Start, StartFile};
use pass_entry::{Act, Pnode};
use std::alloc::{AllocError, Global};

/// Makes a content at least this long, with zeros behind it.
fn extend(content: &mut Vec<u8>, size: usize) -> Result<(), AllocError>
    ensures { OnOk result (content.new.items ≡ extended content.old.items size) }
{
    if content.len() < size {
        content.resize(size, 0)?;
    }
    Ok(())
}

fn put(content: &mut [u8], at: usize, bytes: &[u8])
    requires { at + length bytes.now ≤ length content.old }
    ensures { content.new ≡ take at content.old ++ bytes.now ++ drop (at + length bytes.now) content.old }
{
    content[at..at + bytes.len()].copy_from_slice(bytes);
}

/// Puts bytes at a place of a content, with zeros in a gap before it. A place past the numbers of the machine is a want of
/// memory.
fn overwrite(content: &mut Vec<u8>, at: u64, bytes: &[u8]) -> Result<(), AllocError>
    ensures { OnOk result (content.new.items ≡ written content.old.items at bytes.now) }
{
    if bytes.is_empty() {
        return Ok(());
    }
    match (at as usize).checked_add(bytes.len()) {
        None => Err(AllocError),
        Some(end) => {
            extend(content, end)?;
            put(content, at as usize, bytes);
            Ok(())
        }
    }
}

fn set_size(content: &mut Vec<u8>, size: u64) -> Result<(), AllocError>
    ensures { OnOk result (content.new.items ≡ resized content.old.items size) }
{
    content.resize(size as usize, 0)
}

/// What an act on a file makes of its content.
pub fn apply(content: &mut Vec<u8>, act: &Act) -> Result<(), AllocError>
    ensures { OnOk result (content.new.items ≡ file_act content.old.items act.now) }
{
    match act {
        Act::Put { out: _, at, bytes } => overwrite(content, *at, bytes.as_bytes()),
        Act::Cut { out: _, size } => set_size(content, *size),
        _ => Ok(()),
    }
}

/// The file of this number as it was opened, if it was.
pub fn opened_file(start: &Start, object: Pnode) -> Option<&StartFile>
    ensures { option_copied result ≡ opened_file_of start.now object }
{
    start.files.iter().find(|f| f.node.pnode == object)
}

/// The bytes with which a file was opened.
pub fn opened_bytes(start: &Start, object: Pnode) -> &[u8]
    ensures { result.now ≡ opening_bytes start.now object }
{
    match opened_file(start, object) {
        Some(file) => file.bytes.as_slice(),
        None => &[],
    }
}

/// The content with which a file was opened.
pub fn opening_content(alloc: Global, start: &Start, object: Pnode) -> Result<Vec<u8>, AllocError>
    ensures { IfOk result (λ v. v.items ≡ opening_bytes start.now object) }
{
    Vec::from_slice(alloc, opened_bytes(start, object))
}
