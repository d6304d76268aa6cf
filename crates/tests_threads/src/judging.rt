//! The slow reference of a history.
ghost use Rattle.std.specs.Prelude.{◌≤◌, ◌<◌, ℕ};
ghost use Rattle.pass_entry.specs.Limits.{number_limit};
ghost use Rattle.pass_plain.specs.Legal.{session_of};
ghost use Rattle.pass_plain.specs.Sound.{IsSound};

use pass_entry::{Entry, Reply};
use pass_plain::Start;
use pass_reference::{Plain, same_reply};
use std::alloc::Global;
use std::process::Abort;
use std::test::*;

/// A store that was never opened before.
fn nothing(alloc: Global) -> Start
    ensures { (objects : ℕ) → 1 ≤ objects → objects < number_limit → IsSound (session_of result objects) }
{
    Start {
        ceiling: 0,
        files: Vec::new(alloc),
        apps: Vec::new(alloc),
    }
}

/// The reply is that one.
fn is_reply(found: Option<&Reply>, want: &Reply) -> bool {
    match found {
        Some(reply) => same_reply(reply, want),
        None => false,
    }
}

/// Each entry may come next with its reply.
pub fn judge<R: Abort>(rt: &R, alloc: Global, history: &[Entry]) -> Result<(), Fail> {
    let start = nothing(alloc);
    let mut plain = Plain::new(alloc, &start, 12)?;
    for (place, entry) in history.iter().enumerate() {
        let is_so = is_reply(plain.step(entry)?.as_ref(), &entry.reply);
        assert!(rt; is_so, "entry {place}");
    }
    Ok(())
}
