//! The processes of a run as tasks.
ghost use Rattle.std.specs.Prelude.{◌≡◌, ◌<◌, ◌≤◌, ◌+◌, ◌++◌, vec_len, vec_capacity, false, true, Option, Some, None, IsNone, IsSome, length};
ghost use Rattle.pass_trace.specs.TraceLines.{plain_trace};
ghost use Rattle.pass_sched.specs.Turns.{Rises};
ghost use Rattle.pass_turns.specs.Meetings.{GoesOn, IsLater};
ghost use Rattle.pass_turns.specs.Turners.{IsKnown, IsStill, task_trail};
ghost use Rattle.pass_turns.specs.Tasks.{kid_tasks, new_task};
ghost use Rattle.pass_walk.specs.declared.walker.Living.{Living as AnyLiving};
ghost use Rattle.pass_walk.specs.Walkers.{IsKidIfAny, IsLivingOf, IsWalkerOf, WalkerWent, left_of};

use pass_hold::Whose;
use pass_proc::Trail;
use pass_progress::Calls;
use pass_sched::{Task, Turn};
use pass_walk::{Cause, Ground, Living, Walker, Went, met, step};
use std::marker::Model;
use std::mem;

/// A process of a run that takes turns.
#[derive(Drop)]
pub(crate) struct Turner<'a, J: Whose, S> {
    ground: &'a Ground<'a, S>,
    walker: Walker<J>,
    turns: u64,
    last: Option<Turn>,
    waits: bool,
}

impl<'a, J: Whose, S> Model for Turner<'a, J, S> {
    ghost use Rattle.std.specs.Prelude.{is_none, ◌≡◌, ◌==◌, true};
    ghost use Rattle.std.specs.Coded.{codes};
    ghost use Rattle.pass_entry.specs.contracts.entry.Entry as entry_type;
    ghost use Rattle.pass_trace.specs.contracts.trace.TraceLine as line_type;
    ghost use Rattle.pass_trace.specs.TraceLines.{plain_trace};
    ghost use Rattle.pass_replay.specs.Members.{Waits};
    ghost use Rattle.pass_turns.specs.Tasks.{task_of};
    ghost use Rattle.pass_turns.specs.Turners.{TurnerState};
    ghost use Rattle.pass_walk.specs.Walkers.{IsWalkerOf, member_of};

    ghost Value = { TurnerState };

    ghost coded = { Prim.hlevel (codes, entry_type.the_row.coded, line_type.the_row.coded) };

    ghost view = { λ t. task_of t.ground.now.plan.now t.walker t.turns t.last t.waits };

    ghost invariant = { λ t. IsWalkerOf J.book.session J.places (plain_trace t.ground.now.plan.now) t.walker × (is_none t.last ≡ (t.turns == 0)) × (t.waits ≡ true → Waits J.book.session (plain_trace t.ground.now.plan.now) (member_of t.walker)) };
}

impl<'a, J: Whose, S: Calls<J>> Task for Turner<'a, J, S> {
    ghost use Rattle.pass_turns.specs.Turners.{Turned};

    ghost order = { λ t. t.process };

    ghost left = { λ t. t.left };

    ghost turns = { λ t. t.turns };

    ghost last = { λ t. t.last };

    ghost turn_gives = { λ before kids answer after. Turned before kids after };

    fn order(&self) -> u64 {
        match &self.walker {
            Walker::Living(living) => u64::from(living.process),
            Walker::Ended(ended) => u64::from(ended.process),
            Walker::Left(left) => u64::from(left.process),
            Walker::Gone => unreachable!(),
        }
    }

    fn left(&self) -> u64 {
        match &self.walker {
            Walker::Living(living) => self.ground.plan.left(living.process, living.line),
            Walker::Ended(_) => 0,
            Walker::Left(left) => left.left,
            Walker::Gone => unreachable!(),
        }
    }

    fn turns(&self) -> u64 {
        self.turns
    }

    fn last(&self) -> Option<Turn> {
        self.last
    }

    fn turn(&mut self, born: &mut Vec<Turner<'a, J, S>>) -> Turn {
        let answer = walk(&mut self.walker, self.ground, born);
        self.turns = one_more(self.turns);
        self.last = Some(answer);
        self.waits = is_waiting(answer);
        answer
    }
}

/// Whether a turn waits.
fn is_waiting(answer: Turn) -> bool
    ensures { result ≡ true → answer ≡ Turn.Waiting }
{
    answer == Turn::Waiting
}

/// A count that rose, or stands at the end of its type.
fn one_more(turns: u64) -> u64
    ensures { Rises turns result }
{
    turns.saturating_add(1)
}

/// Puts a child behind those that were born.
fn bear<'a, J: Whose, S: Calls<J>>(
    ground: &'a Ground<'a, S>,
    kid: Option<Living<J>>,
    born: &mut Vec<Turner<'a, J, S>>,
)
    requires kid { IsKidIfAny J.book.session (plain_trace ground.now.plan.now) kid }
    requires room { vec_len born.old + length (kid_tasks ground.now.plan.now kid) ≤ vec_capacity born.old }
    ensures born { born.new.items ≡ born.old.items ++ kid_tasks ground.now.plan.now kid }
    ensures room { vec_capacity born.old ≤ vec_capacity born.new }
{
    if let Some(kid) = kid {
        born.push_reserved(Turner::new(ground, kid));
    }
}

/// Takes a turn of a process, where it lies if that is the call of a line, and puts a child that it bears behind those that were born.
fn walk<'a, J: Whose, S: Calls<J>>(
    walker: &mut Walker<J>,
    ground: &'a Ground<'a, S>,
    born: &mut Vec<Turner<'a, J, S>>,
) -> Turn
    requires walker { IsWalkerOf J.book.session J.places (plain_trace ground.now.plan.now) walker.old }
    requires room { vec_len born.old + left_of (plain_trace ground.now.plan.now) walker.old ≤ vec_capacity born.old }
    ensures went { (kid : Option (AnyLiving _)) × WalkerWent J.book.session J.places (plain_trace ground.now.plan.now) walker.old (record { walker = walker.new; answer = result; kid = kid })
        × (born.new.items ≡ born.old.items ++ kid_tasks ground.now.plan.now kid) }
    ensures room { vec_capacity born.old ≤ vec_capacity born.new }
{
    match step(walker, ground) {
        Some(answer) => answer,
        None => walk_out(walker, ground, born),
    }
}

/// The same of a process that is taken out of its place for it. Few turns are so: it is large.
fn walk_out<'a, J: Whose, S: Calls<J>>(
    walker: &mut Walker<J>,
    ground: &'a Ground<'a, S>,
    born: &mut Vec<Turner<'a, J, S>>,
) -> Turn
    requires walker { IsWalkerOf J.book.session J.places (plain_trace ground.now.plan.now) walker.old }
    requires room { vec_len born.old + left_of (plain_trace ground.now.plan.now) walker.old ≤ vec_capacity born.old }
    ensures went { (kid : Option (AnyLiving _)) × WalkerWent J.book.session J.places (plain_trace ground.now.plan.now) walker.old (record { walker = walker.new; answer = result; kid = kid })
        × (born.new.items ≡ born.old.items ++ kid_tasks ground.now.plan.now kid) }
    ensures room { vec_capacity born.old ≤ vec_capacity born.new }
{
    let taken = mem::replace(walker, Walker::Gone);
    let Went {
        walker: after,
        answer,
        kid,
    } = go(taken, ground);
    bear(ground, kid, born);
    drop(mem::replace(walker, after));
    answer
}

/// A turn of a process, which makes none where it has made its exit or was left.
fn go<'a, J: Whose, S: Calls<J>>(walker: Walker<J>, ground: &Ground<'a, S>) -> Went<J>
    requires { IsWalkerOf J.book.session J.places (plain_trace ground.now.plan.now) walker }
    ensures { WalkerWent J.book.session J.places (plain_trace ground.now.plan.now) walker result }
{
    match walker {
        Walker::Living(living) => living.turn(ground),
        Walker::Ended(ended) => Went {
            walker: Walker::Ended(ended),
            answer: Turn::Ended,
            kid: None,
        },
        Walker::Left(left) => Went {
            walker: Walker::Left(left),
            answer: Turn::Failed,
            kid: None,
        },
        Walker::Gone => unreachable!(),
    }
}

impl<'a, J: Whose, S: Calls<J>> Turner<'a, J, S> {
    /// A process that has taken no turn.
    pub(crate) fn new(ground: &'a Ground<'a, S>, living: Living<J>) -> Turner<'a, J, S>
        requires { IsLivingOf J.book.session (plain_trace ground.now.plan.now) living }
        ensures { result ≡ new_task ground.now.plan.now living }
    {
        Turner {
            ground,
            walker: Walker::Living(living),
            turns: 0,
            last: None,
            waits: false,
        }
    }

    /// How many entries its process has seen, where it lives and was not left.
    pub(crate) fn living(&self) -> Option<u64>
        ensures some { IsSome result → (self.now.ended ≡ false) × (self.now.cause ≡ None) }
        ensures none { IsNone result → GoesOn self.now → ⊥ }
    {
        match &self.walker {
            Walker::Living(living) => Some(living.proc.seen()),
            Walker::Ended(_) => None,
            Walker::Left(_) => None,
            Walker::Gone => unreachable!(),
        }
    }

    /// Why its process was left.
    pub(crate) fn cause(&self) -> Option<Cause>
        ensures { result ≡ self.now.cause }
    {
        match &self.walker {
            Walker::Left(left) => Some(left.cause),
            _ => None,
        }
    }

    /// Whether it goes on no more with the others, of which the living have all seen so many entries.
    pub(crate) fn is_still(&self, count: u64) -> bool
        ensures { result ≡ true → IsStill J.book.session count self.now }
    {
        match &self.walker {
            Walker::Living(living) => self.waits && living.proc.seen() == count,
            Walker::Ended(ended) => ended.has_seen(count),
            Walker::Left(_) => false,
            Walker::Gone => unreachable!(),
        }
    }

    /// A living process comes to one history with another one that has ended. Any other one stays as it is.
    pub(crate) fn meet(&mut self, other: &mut Turner<'a, J, S>)
        requires living { (self.old.ended ≡ false) × (self.old.cause ≡ None) }
        ensures first { IsLater self.old self.new }
        ensures other { IsLater other.old other.new }
        ensures met { other.new.ended ≡ true → length other.new.seen ≤ length self.new.seen }
    {
        met(&mut self.walker, &mut other.walker, self.ground);
        self.waits = false;
        other.waits = false;
    }

    /// What its process had seen.
    pub(crate) fn into_trail(self) -> Trail<J>
        ensures trail { result ≡ task_trail self.entry }
        ensures known { IsKnown J.book.session J.places self.entry }
    {
        let Turner { walker, .. } = self;
        match walker {
            Walker::Living(living) => {
                let Living { proc, .. } = living;
                proc.set_aside()
            }
            Walker::Ended(ended) => ended.trail,
            Walker::Left(left) => left.trail,
            Walker::Gone => unreachable!(),
        }
    }
}
