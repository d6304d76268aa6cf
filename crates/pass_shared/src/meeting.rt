//! What two callers have seen, joined.
ghost use Rattle.std.specs.Prelude.{◌≡◌};
ghost use mathlib.Core.List.{IsPrefix};
ghost use Rattle.pass_plain.specs.Lawful.{AgreeBy};
ghost use Rattle.pass_answer.specs.Lives.{HasMet};

use pass_hold::Whose;
use pass_outside::Gate;
use pass_proc::{Proc, Trail};
use pass_slots::Locks;
use std::sync::Wait;

/// Two processes see one history, which begins with what each had seen. It takes no memory. No program
/// here makes this call: a run's tasks meet what a process that works no more had seen, by `meet_ended`.
pub fn meet<R: Wait, J: Whose, G: Gate>(
    locks: &Locks<'_, J, G>,
    rt: &R,
    first: &mut Proc<J>,
    second: &mut Proc<J>,
)
    ensures one { second.new.seen ≡ first.new.seen }
    ensures first { HasMet J.book.session first.old first.new }
    ensures second { HasMet J.book.session second.old second.new }
{
    let mut shelf = locks.book.lock(rt);
    first.look(&mut shelf);
    second.look(&mut shelf);
}

/// A process and what another one had seen that works no more come to one history, which begins with what each had seen. It takes no
/// memory.
pub fn meet_ended<R: Wait, J: Whose, G: Gate>(
    locks: &Locks<'_, J, G>,
    rt: &R,
    proc: &mut Proc<J>,
    trail: &mut Trail<J>,
)
    ensures one { trail.new.seen ≡ proc.new.seen }
    ensures proc { HasMet J.book.session proc.old proc.new }
    ensures trail { (trail.new.who ≡ trail.old.who) × IsPrefix trail.old.seen trail.new.seen × AgreeBy trail.old.who trail.old.seen trail.new.seen }
{
    let mut shelf = locks.book.lock(rt);
    proc.look(&mut shelf);
    trail.look(&mut shelf);
}
