//! Whether a history is one that a start may come to.
ghost use Rattle.std.specs.Prelude.{◌≡◌, ◌≤◌, ◌<◌, ◌+◌, ◌^◌, ◌++◌, ◌∷◌, ◌↔◌, [], ℕ, IsTrue, IfOk, OnErr};
ghost use Rattle.pass_plain.specs.Legal.{session_of, IsLegal, MayFollow};
ghost use Rattle.pass_plain.specs.Sound.{IsSound};
ghost use Rattle.pass_old.specs.Retracings.{IsLike};

use crate::alike::same_list;
use pass_entry::{Entry, NUMBER_LIMIT, Record};
use pass_plain::Start;
use pass_reference::{Plain, same_reply};
use std::alloc::{AllocError, Global};

// The entry may come next with its reply, and then stands in the history.
fn is_next(plain: &mut Plain<'_>, entry: &Entry) -> Result<bool, AllocError>
    ensures next { IfOk result (λ yes. IsTrue yes → MayFollow plain.old.session plain.old.history entry.now × (plain.new ≡ record plain.old { history = plain.old.history ++ entry.now ∷ [] })) }
    ensures not { IfOk result (λ yes. MayFollow plain.old.session plain.old.history entry.now → IsTrue yes) }
{
    match plain.step(entry)? {
        Some(reply) => Ok(same_reply(&reply, &entry.reply)),
        None => Ok(false),
    }
}

// Each entry may come next, with its reply.
fn is_legal(
    alloc: Global,
    start: &Start,
    objects: u32,
    history: &[Entry],
) -> Result<bool, AllocError>
    requires { IsSound (session_of start.now objects) }
    ensures { IfOk result (λ yes. IsTrue yes ↔ IsLegal (session_of start.now objects) history.now) }
{
    let mut plain = Plain::new(alloc, start, objects)?;
    for entry in history {
        if !is_next(&mut plain, entry)? {
            return Ok(false);
        }
    }
    let _legal = plain.entries();
    Ok(true)
}

/// The run had the records that were recovered, and its history is one that the start may come to.
pub(crate) fn is_like(
    alloc: Global,
    recovered: &[Record],
    run: &[Record],
    start: &Start,
    objects: u32,
    history: &[Entry],
) -> Result<bool, AllocError>
    requires { start.now.ceiling + objects < 2 ^ 48 → IsSound (session_of start.now objects) }
    ensures { IfOk result (λ yes. IsTrue yes ↔ IsLike recovered.now run.now start.now objects history.now) }
{
    if !same_list(recovered, run) {
        return Ok(false);
    }
    if start.ceiling >= NUMBER_LIMIT - u64::from(objects) {
        return Ok(false);
    }
    is_legal(alloc, start, objects, history)
}
