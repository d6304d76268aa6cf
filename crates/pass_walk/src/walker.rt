//! A process of a trace over a store, and its turns.
ghost use Rattle.std.specs.HashMap.{spare};
ghost use Rattle.std.specs.Prelude.{◌≡◌, ◌≢◌, ◌<◌, ◌≤◌, ℕ, None, Some, IfSome, IsNone, IsSome, slice_get, true};
ghost use Rattle.pass_plain.specs.Traces.{Line as AnyLine, fork_as, waited_for};
ghost use Rattle.pass_trace.specs.TraceLines.{call_of, plain_trace};
ghost use Rattle.pass_walk.specs.declared.walker.Living.{Living as AnyLiving};
ghost use Rattle.pass_walk.specs.declared.walker.Walker.TheVariants as kinds;
ghost use Rattle.pass_walk.specs.Lefts.{left_at};
ghost use Rattle.pass_walk.specs.Outcomes.{HasBorne, HasMade, IsAfter, gone_on, left_as, outcome_of, unfinished_of};
ghost use Rattle.pass_walk.specs.Walkers.{HasWent, IsLivingOf, IsWalkerOf, WalkerWent, pnode_among};

use crate::children::Children;
use crate::ends::Cause;
use crate::ground::Ground;
use pass_answer::{CallEnd, Moved};
use pass_entry::Pnode;
use pass_hold::Whose;
use pass_proc::{Proc, Trail};
use pass_progress::laws::{lives, standing};
use pass_progress::{Calls, between};
use pass_sched::Turn;
use pass_trace::Command;
use std::alloc::Global;
use std::mem;

/// A living process: its number in the trace, the place of its next line, the children that it has forked, and its state.
#[derive(Drop)]
pub struct Living<J: Whose> {
    pub process: u32,
    pub line: Option<usize>,
    pub children: Children,
    pub proc: Proc<J>,
}

/// A process that has made its exit, and how many entries it has seen, where it has met a living one.
#[derive(Drop)]
pub struct Ended<J: Whose> {
    pub process: u32,
    pub trail: Trail<J>,
    pub met: Option<u64>,
}

/// A process that makes no further turn, with so many left, and why.
#[derive(Drop)]
pub struct Left<J: Whose> {
    pub process: u32,
    pub left: u64,
    pub trail: Trail<J>,
    pub cause: Cause,
}

/// A process of the trace. `Gone` stands in for one that takes its turn.
#[derive(Drop)]
pub enum Walker<J: Whose> {
    Living(Living<J>),
    Ended(Ended<J>),
    Left(Left<J>),
    Gone,
}

/// What a turn made of a process, and the child that it bore.
#[derive(Drop)]
pub struct Went<J: Whose> {
    pub walker: Walker<J>,
    pub answer: Turn,
    pub kid: Option<Living<J>>,
}

/// What the answer of a call makes of its process.
#[derive(Clone, Copy)]
pub(crate) enum Outcome {
    /// The call is over.
    Goes,
    /// It waits.
    Waits,
    /// It is left.
    Fails(Cause),
}

/// What the answer of a line's call makes of its process.
fn answered(end: &Result<Moved, CallEnd>) -> Outcome
    ensures { result ≡ outcome_of end.now }
{
    match end {
        Ok(_) | Err(CallEnd::Fault(_)) => Outcome::Goes,
        Err(end) => unfinished(end, Cause::NoMemory),
    }
}

/// What a call that is not over makes of its process. `refused` is the cause by which it is left after a fault.
fn unfinished(end: &CallEnd, refused: Cause) -> Outcome
    ensures { result ≡ unfinished_of refused end.now }
{
    match end {
        CallEnd::Again => Outcome::Waits,
        CallEnd::Full { .. } => Outcome::Fails(Cause::TooFewPlaces),
        CallEnd::NoMemory => Outcome::Fails(Cause::NoMemory),
        CallEnd::DiskFault { opened, now } => Outcome::Fails(Cause::DiskFault {
            opened: *opened,
            now: *now,
        }),
        CallEnd::Fault(_) => Outcome::Fails(refused),
    }
}

impl<J: Whose> Ended<J> {
    /// Whether it has seen so many entries at most. It says no where that is not known.
    pub fn has_seen(&self, count: u64) -> bool
        ensures { result ≡ true → IfSome self.now.met (λ met. met ≤ count) × IsSome self.now.met }
    {
        match self.met {
            Some(met) => met <= count,
            None => false,
        }
    }
}

impl<J: Whose> Living<J> {
    /// The pnode of the child that a command waits for.
    fn waited(&self, command: &Command) -> Pnode
        ensures { (child : ℕ) → waited_for (call_of command.now) ≡ Some child → result ≡ pnode_among self.now.children child }
    {
        match command {
            Command::Wait { child } => self.children.pnode(*child),
            Command::Await { child } => self.children.pnode(*child),
            _ => Pnode(0),
        }
    }

    /// The process after its call, with its next line and the turns that were left to it before.
    fn after(self, outcome: Outcome, next: Option<usize>, left: u64) -> Went<J>
        ensures { IsAfter outcome next left self result }
    {
        match outcome {
            Outcome::Goes => Went {
                walker: Walker::Living(Living { line: next, ..self }),
                answer: Turn::Moved,
                kid: None,
            },
            Outcome::Waits => Went {
                walker: Walker::Living(self),
                answer: Turn::Waiting,
                kid: None,
            },
            Outcome::Fails(cause) => Went {
                walker: Walker::Left(self.leave(left, cause)),
                answer: Turn::Failed,
                kid: None,
            },
        }
    }

    /// The process makes no further turn.
    fn leave(self, left: u64, cause: Cause) -> Left<J>
        ensures { result ≡ left_as self left cause }
    {
        let Living { process, proc, .. } = self;
        Left {
            process,
            left,
            trail: proc.set_aside(),
            cause,
        }
    }

    /// The process after a fork, with its next line, and the child.
    fn bear(
        self,
        child: u32,
        born: Proc<J>,
        next: Option<usize>,
        first: Option<usize>,
        alloc: Global,
    ) -> Went<J>
        requires room { 0 < spare self.children.pnodes }
        ensures { HasBorne child born next first self result }
    {
        let mut children = self.children;
        children.add(child, born.pnode());
        let kid = Living {
            process: child,
            line: first,
            children: Children::new(alloc),
            proc: born,
        };
        Went {
            walker: Walker::Living(Living {
                process: self.process,
                line: next,
                children,
                proc: self.proc,
            }),
            answer: Turn::Moved,
            kid: Some(kid),
        }
    }

    /// Takes a turn: makes the next call, or the exit.
    pub fn turn<'a, S: Calls<J>>(self, ground: &Ground<'a, S>) -> Went<J>
        requires { IsLivingOf J.book.session (plain_trace ground.now.plan.now) self }
        ensures { HasWent J.book.session J.places (plain_trace ground.now.plan.now) self result }
    {
        let Some(place) = self.line else {
            return self.exit(ground);
        };
        let line = ground.plan.line(place);
        ground.calls.at_line(line.process, line.number);
        match &line.command {
            Command::Fork { child } => self.fork(ground, place, *child),
            _ => self.call(ground, place),
        }
    }

    /// Makes the exit.
    fn exit<'a, S: Calls<J>>(self, ground: &Ground<'a, S>) -> Went<J>
        requires living { IsLivingOf J.book.session (plain_trace ground.now.plan.now) self }
        requires line { self.line ≡ None }
        ensures { HasWent J.book.session J.places (plain_trace ground.now.plan.now) self result }
    {
        lives();
        ground.plan.ordered();
        between(&self.proc);
        let Living { process, proc, .. } = self;
        let trail = ground.retire(proc);
        Went {
            walker: Walker::Ended(Ended {
                process,
                trail,
                met: None,
            }),
            answer: Turn::Moved,
            kid: None,
        }
    }

    /// Bears the child of its line.
    fn fork<'a, S: Calls<J>>(self, ground: &Ground<'a, S>, place: usize, child: u32) -> Went<J>
        requires living { IsLivingOf J.book.session (plain_trace ground.now.plan.now) self }
        requires line { self.line ≡ Some place }
        requires forks { (l : AnyLine) → slice_get (plain_trace ground.now.plan.now) place ≡ Some l → l.call ≡ fork_as child }
        ensures { HasWent J.book.session J.places (plain_trace ground.now.plan.now) self result }
    {
        ground.plan.ordered();
        let mut living = self;
        let left = ground.plan.left(living.process, living.line);
        let next = ground.plan.next(place);
        let Ok(()) = living.children.reserve() else {
            return living.after(Outcome::Fails(Cause::NoMemory), next, left);
        };
        match ground.fork(&mut living.proc) {
            Ok(born) => living.bear(child, born, next, ground.plan.first(child), ground.alloc),
            Err(end) => living.after(unfinished(&end, Cause::Refused), next, left),
        }
    }

    /// Makes the call of its line.
    fn call<'a, S: Calls<J>>(self, ground: &Ground<'a, S>, place: usize) -> Went<J>
        requires living { IsLivingOf J.book.session (plain_trace ground.now.plan.now) self }
        requires line { self.line ≡ Some place }
        requires other { (l : AnyLine) (child : ℕ) → slice_get (plain_trace ground.now.plan.now) place ≡ Some l → l.call ≢ fork_as child }
        ensures { HasWent J.book.session J.places (plain_trace ground.now.plan.now) self result }
    {
        let mut living = self;
        let left = left_to(&living, ground);
        let outcome = living.make(ground, place);
        let next = living.line;
        living.after(outcome, next, left)
    }

    /// Makes the call of its line where it lies, and goes on to its next line if that is over. If it fails the process is to be left.
    fn make<'a, S: Calls<J>>(&mut self, ground: &Ground<'a, S>, place: usize) -> Outcome
        requires living { IsLivingOf J.book.session (plain_trace ground.now.plan.now) self.old }
        requires line { self.old.line ≡ Some place }
        requires other { (l : AnyLine) (child : ℕ) → slice_get (plain_trace ground.now.plan.now) place ≡ Some l → l.call ≢ fork_as child }
        ensures { HasMade J.book.session J.places (plain_trace ground.now.plan.now) self.old result self.new }
    {
        standing();
        lives();
        ground.plan.ordered();
        between(&self.proc);
        let next = ground.plan.next(place);
        let command = &ground.plan.line(place).command;
        let waited = self.waited(command);
        let end = ground.make(&mut self.proc, command, waited);
        let outcome = answered(&end);
        self.go_on(outcome, next);
        outcome
    }

    /// Goes on to this line if its call is over.
    fn go_on(&mut self, outcome: Outcome, next: Option<usize>)
        ensures { self.new ≡ gone_on outcome next self.old }
    {
        match outcome {
            Outcome::Goes => self.line = next,
            Outcome::Waits | Outcome::Fails(_) => {}
        }
    }

    /// Makes the call of its next line where it lies. It makes none, and stays as it is, where it has no such line or that is a fork.
    fn step<'a, S: Calls<J>>(&mut self, ground: &Ground<'a, S>) -> Option<Outcome>
        requires { IsLivingOf J.book.session (plain_trace ground.now.plan.now) self.old }
        ensures made { IfSome result (λ outcome. HasMade J.book.session J.places (plain_trace ground.now.plan.now) self.old outcome self.new) }
        ensures none { IsNone result → self.new ≡ self.old }
    {
        let Some(place) = self.line else {
            return None;
        };
        let line = ground.plan.line(place);
        match &line.command {
            Command::Fork { .. } => None,
            _ => {
                ground.calls.at_line(line.process, line.number);
                Some(self.make(ground, place))
            }
        }
    }
}

/// How many turns are left to a living process.
fn left_to<'a, J: Whose, S>(living: &Living<J>, ground: &Ground<'a, S>) -> u64
    requires { IsLivingOf J.book.session (plain_trace ground.now.plan.now) living.now }
    ensures { result ≡ left_at (plain_trace ground.now.plan.now) living.now.process living.now.line }
{
    ground.plan.left(living.process, living.line)
}

/// A living process makes no further turn.
fn leave<J: Whose>(walker: &mut Walker<J>, left: u64, cause: Cause)
    requires { (l : AnyLiving _) × (walker.old ≡ kinds.Living l) }
    ensures { (l : AnyLiving _) → walker.old ≡ kinds.Living l → walker.new ≡ kinds.Left (left_as l left cause) }
{
    match mem::replace(walker, Walker::Gone) {
        Walker::Living(living) => {
            drop(mem::replace(walker, Walker::Left(living.leave(left, cause))));
        }
        _ => unreachable!(),
    }
}

/// Takes a turn of a process where it lies, if that is the call of a line. It takes none, and all stays as it is, where the turn is a
/// fork or an exit, or where the process makes no further turn.
pub fn step<'a, J: Whose, S: Calls<J>>(
    walker: &mut Walker<J>,
    ground: &Ground<'a, S>,
) -> Option<Turn>
    requires { IsWalkerOf J.book.session J.places (plain_trace ground.now.plan.now) walker.old }
    ensures went { IfSome result (λ answer. WalkerWent J.book.session J.places (plain_trace ground.now.plan.now) walker.old (record { walker = walker.new; answer = answer; kid = None })) }
    ensures none { IsNone result → walker.new ≡ walker.old }
{
    let Walker::Living(living) = walker else {
        return None;
    };
    let left = left_to(living, ground);
    match living.step(ground) {
        None => None,
        Some(Outcome::Goes) => Some(Turn::Moved),
        Some(Outcome::Waits) => Some(Turn::Waiting),
        Some(Outcome::Fails(cause)) => {
            leave(walker, left, cause);
            Some(Turn::Failed)
        }
    }
}
