//! The content of a file after a history, and the part of it that a read gives.
ghost use Rattle.std.specs.Prelude.{◌≡◌, ◌≤◌, IfOk, length, take, drop};
ghost use Rattle.pass_entry.specs.Limits.{transfer_limit};
ghost use Rattle.pass_plain.specs.Recording.{bytes_after};

use pass_entry::{Bytes, Entry, Pnode};
use pass_plain::Start;
use pass_plain::file::{apply, opening_content};
use pass_plain::registry::is_own;
use std::alloc::{AllocError, Global};

/// The content of a file after a history.
pub fn content_after(
    alloc: Global,
    start: &Start,
    history: &[Entry],
    object: Pnode,
) -> Result<Vec<u8>, AllocError>
    ensures { IfOk result (λ v. v.items ≡ bytes_after start.now history.now object) }
{
    let mut content = opening_content(alloc, start, object)?;
    for i in 0..history.len() {
        let e = &history[i];
        if is_own(object, e) {
            apply(&mut content, &e.act)?;
        }
    }
    Ok(content)
}

fn bytes_of(alloc: Global, bytes: &[u8]) -> Result<Bytes, AllocError>
    requires { length bytes.now ≤ transfer_limit }
    ensures { IfOk result (λ b. b ≡ bytes.now) }
{
    match Bytes::of(alloc, bytes) {
        Ok(bytes) => Ok(bytes),
        Err(_) => Err(AllocError),
    }
}

/// The bytes of a content from a place, at most so many.
pub fn bytes_from(alloc: Global, content: &[u8], at: u64, len: u32) -> Result<Bytes, AllocError>
    requires { len ≤ transfer_limit }
    ensures { IfOk result (λ b. b ≡ take len (drop at content.now)) }
{
    if at >= content.len() as u64 {
        return bytes_of(alloc, &[]);
    }
    let rest = &content[at as usize..];
    let len = len as usize;
    if len < rest.len() {
        bytes_of(alloc, &rest[..len])
    } else {
        bytes_of(alloc, rest)
    }
}
